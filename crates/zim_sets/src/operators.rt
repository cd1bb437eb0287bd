//! The operators that keep tuples of one set or of two.
ghost use Rattle.std.specs.Prelude.{◌≡◌};
ghost use Rattle.std.specs.Bool.{beq};
ghost use Rattle.zim_answer.specs.Answer.{goes};
ghost use Rattle.zim_answer.specs.Gives.{Gives};
ghost use Rattle.zim_sets.specs.Causes.{set_cause};
ghost use Rattle.zim_sets.specs.Insertion.{inserted_where};
ghost use Rattle.zim_sets.specs.Operators.{union_of, without_of, inter_of, symdiff_of};
ghost use Rattle.zim_sets.specs.Sets.{has, are_alike, IsSet};

use crate::copies::extend_copied;
use crate::faults::SetFault;
use crate::shapes::is_same_shape;
use crate::tuple_set::TupleSet;
use std::alloc::Global;
use zim_fault::{Duplicate, Sequence};
use zim_tuples::Tuple;

// Whether two sets agree in length and kinds, or one of them is empty.
fn is_alike(a: &TupleSet, b: &TupleSet) -> bool
    ensures answer { result ≡ are_alike a.now b.now }
    ensures first { IsSet a.now }
    ensures second { IsSet b.now }
{
    match (a.as_slice(), b.as_slice()) {
        ([first, ..], [other, ..]) => is_same_shape(first.as_slice(), other.as_slice()),
        _ => true,
    }
}

// Inserts a tuple where its being in the other set is what is wanted.
fn insert_where(
    made: &mut TupleSet,
    tuple: &Tuple,
    other: &TupleSet,
    wanted: bool,
) -> Result<(), SetFault>
    ensures { Gives (λ _. made.new) set_cause (inserted_where (λ t. beq (has other.now t) wanted) made.old tuple.now) result }
{
    if other.contains(tuple) == wanted {
        made.insert(tuple.copy()?)?;
    }
    Ok(())
}

// Inserts the tuples of a list whose being in the other set is what is wanted, in order.
fn extend_where(
    made: &mut TupleSet,
    from: &[Tuple],
    other: &TupleSet,
    wanted: bool,
) -> Result<(), SetFault>
    ensures { Gives (λ _. made.new) set_cause (goes (inserted_where (λ t. beq (has other.now t) wanted)) made.old from.now) result }
{
    for tuple in from {
        insert_where(made, tuple, other, wanted)?;
    }
    Ok(())
}

/// The first set, and then what is new of the second.
///
/// `WrongKind` exactly where both have tuples and these differ in length or kinds, else `SetSize`
/// exactly where the result has more than 1,048,576 tuples.
pub fn union(alloc: Global, a: &TupleSet, b: &TupleSet) -> Result<TupleSet, SetFault>
    ensures { Gives (λ set. set) set_cause (union_of a.now b.now) result }
{
    if !is_alike(a, b) {
        return Err(SetFault::WrongKind);
    }
    let mut tuples = Sequence::new(alloc);
    extend_copied(&mut tuples, a.as_slice())?;
    let mut made = TupleSet::of_tuples(tuples);
    extend_where(&mut made, b.as_slice(), a, false)?;
    Ok(made)
}

/// The tuples of the first set that aren't in the second. `WrongKind` comes as in [`union`].
pub fn without(alloc: Global, a: &TupleSet, b: &TupleSet) -> Result<TupleSet, SetFault>
    ensures { Gives (λ set. set) set_cause (without_of a.now b.now) result }
{
    if !is_alike(a, b) {
        return Err(SetFault::WrongKind);
    }
    let mut made = TupleSet::new(alloc);
    extend_where(&mut made, a.as_slice(), b, false)?;
    Ok(made)
}

/// The tuples of the first set that are in the second. `WrongKind` comes as in [`union`].
pub fn inter(alloc: Global, a: &TupleSet, b: &TupleSet) -> Result<TupleSet, SetFault>
    ensures { Gives (λ set. set) set_cause (inter_of a.now b.now) result }
{
    if !is_alike(a, b) {
        return Err(SetFault::WrongKind);
    }
    let mut made = TupleSet::new(alloc);
    extend_where(&mut made, a.as_slice(), b, true)?;
    Ok(made)
}

/// The first set without the second, and then the second without the first. `WrongKind` and
/// `SetSize` come as in [`union`].
pub fn symdiff(alloc: Global, a: &TupleSet, b: &TupleSet) -> Result<TupleSet, SetFault>
    ensures { Gives (λ set. set) set_cause (symdiff_of a.now b.now) result }
{
    if !is_alike(a, b) {
        return Err(SetFault::WrongKind);
    }
    let mut apart = TupleSet::new(alloc);
    extend_where(&mut apart, a.as_slice(), b, false)?;
    extend_where(&mut apart, b.as_slice(), a, false)?;
    Ok(apart)
}
