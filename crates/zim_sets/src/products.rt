//! Products and projections.
ghost use Rattle.std.specs.Prelude.{◌≡◌, ◌++◌, IfOk, OnOk, map, Ok};
ghost use Rattle.zim_answer.specs.Gives.{Gives};
ghost use Rattle.zim_sets.specs.Causes.{set_cause};
ghost use Rattle.zim_sets.specs.Products.{crossed, cross_of, projected};
ghost use Rattle.zim_sets.specs.Sets.{IsSet};

use crate::copies::{copied_at, extend_copied};
use crate::faults::SetFault;
use crate::tuple_set::{MOST, TupleSet};
use std::alloc::Global;
use zim_fault::{Duplicate, Memory, Sequence};
use zim_tuples::Tuple;

// A tuple followed by another.
fn joined(tuple: &Tuple, other: &Tuple) -> Result<Tuple, Memory>
    ensures { IfOk result (λ made. made ≡ tuple.now ++ other.now) }
{
    let mut made = tuple.copy()?;
    extend_copied(&mut made, other.as_slice())?;
    Ok(made)
}

// Adds a tuple followed by each of the others.
fn extend_joined(made: &mut Sequence<Tuple>, tuple: &Tuple, others: &[Tuple]) -> Result<(), Memory>
    ensures { OnOk result (made.new ≡ made.old ++ map (λ other. tuple.now ++ other) others.now) }
{
    for other in others {
        made.push(joined(tuple, other)?)?;
    }
    Ok(())
}

// Each tuple of the first list followed by each of the second.
fn all_joined(alloc: Global, tuples: &[Tuple], others: &[Tuple]) -> Result<Sequence<Tuple>, Memory>
    ensures { IfOk result (λ made. made ≡ crossed tuples.now others.now) }
{
    let mut made = Sequence::new(alloc);
    for tuple in tuples {
        extend_joined(&mut made, tuple, others)?;
    }
    Ok(made)
}

/// Each tuple of the first set followed by each of the second, the second running faster.
///
/// `SetSize` exactly where these are more than 1,048,576.
pub fn cross(alloc: Global, a: &TupleSet, b: &TupleSet) -> Result<TupleSet, SetFault>
    ensures { Gives (λ set. set) set_cause (cross_of a.now b.now) result }
{
    if a.len() * b.len() > MOST {
        return Err(SetFault::SetSize);
    }
    let made = all_joined(alloc, a.as_slice(), b.as_slice())?;
    Ok(TupleSet::of_tuples(made))
}

/// Of each tuple the components at the positions, which are counted from 1, as a set: the first of
/// equal ones is kept. A position past the tuples' length is left out, as 0 is. Only `Memory` comes.
pub fn proj(alloc: Global, a: &TupleSet, positions: &[usize]) -> Result<TupleSet, SetFault>
    ensures { Gives (λ set. set) set_cause (Ok (projected a.now positions.now)) result }
{
    let mut made = TupleSet::new(alloc);
    for tuple in a.as_slice() {
        made.insert(copied_at(alloc, tuple.as_slice(), positions)?)?;
    }
    Ok(made)
}
