//! Sets of tuples: lists of tuples of one length and the same kinds by position, without repeats, and
//! the operators on them.
//!
//! A [`TupleSet`] keeps its tuples in the order in which they were first inserted. Contracts see it as
//! that list, each operator as filters and joins of lists, a range as its numbers, and a family of
//! subsets as the list of its sets. A set has at most 1,048,576 tuples and a family as many sets; where
//! it would have more, the call answers `SetSize`, and products, ranges and families are counted before
//! they are built.
#![tactic(auto)]

mod copies;
mod families;
mod faults;
mod listing;
mod operators;
mod products;
mod ranges;
mod shapes;
mod tuple_set;

pub use families::{powerset, subsets};
pub use faults::SetFault;
pub use listing::set_of_list;
pub use operators::{inter, symdiff, union, without};
pub use products::{cross, proj};
pub use ranges::range;
pub use tuple_set::TupleSet;

#[cfg(test)]
mod tests;
