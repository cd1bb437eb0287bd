//! Copies of the items of lists.
ghost use Rattle.std.specs.Prelude.{◌≡◌, ◌++◌, IfOk, OnOk};
ghost use Rattle.std.specs.Prelude.{option_copied};
ghost use Rattle.zim_sets.specs.Choices as spec;
ghost use Rattle.zim_sets.specs.Choices.{items_at};

use std::alloc::Global;
use zim_fault::{Duplicate, Memory, Sequence};

// Adds a copy of each item at the end.
pub(crate) fn extend_copied<T: Duplicate>(made: &mut Sequence<T>, items: &[T]) -> Result<(), Memory>
    ensures { OnOk result (made.new ≡ made.old ++ items.now) }
{
    for item in items {
        made.push(item.copy()?)?;
    }
    Ok(())
}

// The item at a position counted from 1, if there is one.
fn item_at<T>(items: &[T], position: usize) -> Option<&T>
    ensures { option_copied result ≡ spec.item_at items.now position }
{
    match position {
        0 => None,
        _ => items.get(position - 1),
    }
}

// Copies of the items at positions counted from 1, in the order of the positions; a position without an
// item is left out.
pub(crate) fn copied_at<T: Duplicate>(
    alloc: Global,
    items: &[T],
    positions: &[usize],
) -> Result<Sequence<T>, Memory>
    ensures { IfOk result (λ made. made ≡ items_at items.now positions.now) }
{
    let mut made = Sequence::new(alloc);
    for position in positions {
        if let Some(item) = item_at(items, *position) {
            made.push(item.copy()?)?;
        }
    }
    Ok(made)
}
