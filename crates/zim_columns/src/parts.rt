// That the numbers of a declared column are within the limit and its strings are bytes.
ghost use Rattle.std.specs.Prelude.{◌≡◌, ◌<◌, ℕ, All, IfSome};
ghost use Rattle.zim_rows.specs.Program.{IsWithin};
ghost use Rattle.zim_columns.specs.Parts.{IsComponentWithin, HasPartsWithin};

use crate::declared::Declared;
use zim_fraction::Fraction;
use zim_tuples::Elem;

// What the parts of a declared column tell of themselves.
pub(crate) fn parts_within(declared: &Declared)
    ensures { HasPartsWithin declared.now }
{
    components_within(declared.tuple.as_slice());
    given_within(&declared.priority);
    given_within(&declared.startval);
}

fn components_within(components: &[Elem])
    ensures { All IsComponentWithin components.now }
{
    for component in components {
        component_within(component);
    }
}

fn component_within(component: &Elem)
    ensures { IsComponentWithin component.now }
{
    match component {
        Elem::Number(number) => number_within(*number),
        Elem::Text(bytes) => are_bytes(bytes.as_slice()),
    }
}

fn given_within(number: &Option<Fraction>)
    ensures { IfSome number.now IsWithin }
{
    match number {
        None => (),
        Some(number) => number_within(*number),
    }
}

// A number's numerator and denominator tell that it is within the limit.
fn number_within(number: Fraction)
    ensures { IsWithin number }
{
    let _parts = (number.numer(), number.denom());
}

fn are_bytes(bytes: &[u8])
    ensures { All (λ (b : ℕ). b < 256) bytes.now }
{
    let _ = bytes;
}
