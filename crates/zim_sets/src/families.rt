//! Families of subsets.
ghost use Rattle.std.specs.Prelude.{◌≡◌, ◌≤◌, ◌++◌, [], ◌∷◌, length, nat_eq, nat_le, cond, OnOk};
ghost use Rattle.zim_answer.specs.Gives.{Gives};
ghost use Rattle.zim_sets.specs.Causes.{set_cause};
ghost use Rattle.zim_sets.specs.Choices.{choices, choices_below, items_at, ways};
ghost use Rattle.zim_sets.specs.Families.{subsets_of, powerset_of};
ghost use Rattle.zim_sets.specs.Sets.{IsSet, most};

use crate::copies::copied_at;
use crate::faults::SetFault;
use crate::tuple_set::{MOST, TupleSet};
use std::alloc::Global;
use zim_fault::{Memory, Sequence};

/// How many tuples a set has at most that has a powerset: 2^20 is 1,048,576.
const MOST_WITH_POWERSET: usize = 20;

// Whether there are at most 1,048,576 ways to choose n of so many items.
fn are_few(size: usize, n: usize) -> bool
    requires { size ≤ most }
    ensures { result ≡ nat_le (ways size n) most }
{
    if n > size {
        return true;
    }
    let left_out = size - n;
    let mut count: usize = 1;
    for chosen in 0..n {
        count = count * (left_out + chosen + 1) / (chosen + 1);
        if count > MOST {
            return false;
        }
    }
    true
}

// Adds the set of the chosen tuples where they are n.
fn extend_chosen(
    alloc: Global,
    family: &mut Sequence<TupleSet>,
    a: &TupleSet,
    chosen: &[usize],
    n: usize,
) -> Result<(), Memory>
    requires { length chosen.now ≡ n → IsSet (items_at a.now chosen.now) }
    ensures { OnOk result (family.new ≡ family.old ++ cond (nat_eq (length chosen.now) n) (items_at a.now chosen.now ∷ []) []) }
{
    if chosen.len() == n {
        let tuples = copied_at(alloc, a.as_slice(), chosen)?;
        family.push(TupleSet::of_tuples(tuples))?;
    }
    Ok(())
}

// Adds the subsets of n tuples, in lexicographic order of their positions.
fn extend_subsets(
    alloc: Global,
    family: &mut Sequence<TupleSet>,
    a: &TupleSet,
    n: usize,
) -> Result<(), Memory>
    ensures { OnOk result (family.new ≡ family.old ++ choices n a.now) }
{
    let size = a.len();
    let mut chosen: Vec<usize> = Vec::new(alloc);
    let mut passed = 0;
    'walk: loop {
        let wanted = n - chosen.len();
        if wanted > 0 && wanted <= size.saturating_sub(passed) {
            passed += 1;
            chosen.push(passed)?;
        } else {
            extend_chosen(alloc, family, a, &chosen, n)?;
            match chosen.pop() {
                Some(last) => passed = last,
                None => return Ok(()),
            }
        }
    }
}

/// The subsets of n tuples in lexicographic order of their positions, each in the set's order; none
/// where the set has fewer.
///
/// `SetSize` exactly where these are more than 1,048,576.
pub fn subsets(alloc: Global, a: &TupleSet, n: usize) -> Result<Vec<TupleSet>, SetFault>
    ensures { Gives (λ family. family.items) set_cause (subsets_of a.now n) result }
{
    if !are_few(a.len(), n) {
        return Err(SetFault::SetSize);
    }
    let mut family = Sequence::new(alloc);
    extend_subsets(alloc, &mut family, a, n)?;
    Ok(family.into_vec())
}

/// All subsets: that of no tuple, then those of one, and so on up to the set itself, each size as in
/// [`subsets`].
///
/// `SetSize` exactly where these are more than 1,048,576, that is where the set has more than 20 tuples.
pub fn powerset(alloc: Global, a: &TupleSet) -> Result<Vec<TupleSet>, SetFault>
    ensures { Gives (λ family. family.items) set_cause (powerset_of a.now) result }
{
    if a.len() > MOST_WITH_POWERSET {
        return Err(SetFault::SetSize);
    }
    let mut family = Sequence::new(alloc);
    for n in 0..a.len() + 1 {
        extend_subsets(alloc, &mut family, a, n)?;
    }
    Ok(family.into_vec())
}
