//! A statement's typed tree, or what is wrong with the statement whatever its values are.
//!
//! [`sort`] stands between a statement's syntax tree and its meaning: it resolves the names of a statement under the scope of the
//! statements before it and tells constants, terms, conditions and constraints apart, or gives the first static fault. The typed
//! tree is made in one walk along the tree.
#![tactic(auto)]

mod condition_parts;
mod conditions;
mod constants;
mod constraints;
mod fault;
mod names;
mod part;
mod sorting;
mod statements;
mod term_parts;
mod terms;

pub use fault::SortFault;
pub use sorting::sort;
