//! Sets of listed tuples.
ghost use Rattle.std.specs.Prelude.{◌≡◌};
ghost use Rattle.std.specs.List.{list_all};
ghost use Rattle.zim_answer.specs.Gives.{Gives};
ghost use Rattle.zim_sets.specs.Causes.{set_cause};
ghost use Rattle.zim_sets.specs.Listing.{set_listed};
ghost use Rattle.zim_sets.specs.Sets.{same_shape, has_one_shape};

use crate::faults::SetFault;
use crate::shapes::is_same_shape;
use crate::tuple_set::TupleSet;
use std::alloc::Global;
use zim_fault::Duplicate;
use zim_tuples::{Elem, Tuple};

// Whether all tuples of a list have this shape.
fn are_of_shape(shape: &[Elem], tuples: &[Tuple]) -> bool
    ensures { result ≡ list_all (same_shape shape.now) tuples.now }
{
    tuples
        .iter()
        .all(|tuple| is_same_shape(shape, tuple.as_slice()))
}

// Whether the tuples of a list have one length and the same kinds by position.
fn have_one_shape(tuples: &[Tuple]) -> bool
    ensures { result ≡ has_one_shape tuples.now }
{
    match tuples {
        [] => true,
        [first, others @ ..] => are_of_shape(first.as_slice(), others),
    }
}

/// The set of the tuples of a list, of equal ones the first.
///
/// `WrongKind` exactly where two of them differ in length or kinds, else `SetSize` exactly where more than
/// 1,048,576 are left.
pub fn set_of_list(alloc: Global, tuples: &[Tuple]) -> Result<TupleSet, SetFault>
    ensures { Gives (λ set. set) set_cause (set_listed tuples.now) result }
{
    if !have_one_shape(tuples) {
        return Err(SetFault::WrongKind);
    }
    let mut made = TupleSet::new(alloc);
    for tuple in tuples {
        made.insert(tuple.copy()?)?;
    }
    Ok(made)
}
