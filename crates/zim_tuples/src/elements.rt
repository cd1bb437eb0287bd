ghost use Rattle.std.specs.Cmp.{decided, partial_equiv_from_equiv};
ghost use Rattle.std.specs.Hash as fed;
ghost use Rattle.zim_tuples.specs.Elements.{same_element, same_Decides, hash_input_of};

use std::hash::{Hash, Hasher};
use zim_fault::{Bytes, Duplicate, Memory, Sequence};
use zim_fraction::Fraction;

/// A component of a tuple. A number and a text are never equal.
#[derive(Debug, Drop)]
pub enum Elem {
    Number(Fraction),
    Text(Bytes),
}

/// A list of elements.
pub type Tuple = Sequence<Elem>;

impl PartialEq for Elem {
    ghost eq = { same_element };

    ghost laws = { partial_equiv_from_equiv (decided same_element same_Decides) };

    fn eq(&self, other: &Elem) -> bool {
        match (self, other) {
            (Elem::Number(number), Elem::Number(other)) => number.same_number(other),
            (Elem::Text(text), Elem::Text(other)) => text == other,
            _ => false,
        }
    }
}

impl Eq for Elem {
    ghost laws = { decided same_element same_Decides };
}

impl Hash for Elem {
    ghost hash_input = { hash_input_of };

    ghost respects_eq = { (fed.same_Alike hash_input_of same_Decides).fed };

    fn hash<H: Hasher>(&self, state: &mut H) {
        match self {
            Elem::Number(number) => {
                state.write_u8(0);
                number.hash(state);
            }
            Elem::Text(text) => {
                state.write_u8(1);
                text.hash(state);
            }
        }
    }
}

impl Duplicate for Elem {
    fn copy(&self) -> Result<Elem, Memory> {
        match self {
            Elem::Number(number) => Ok(Elem::Number(*number)),
            Elem::Text(text) => Ok(Elem::Text(text.copy()?)),
        }
    }
}
