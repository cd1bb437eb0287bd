//! Conditions as literals.
//!
//! `specs/Conditions` says what a ground condition makes, one step after another, and its literal; `specs/Meaning`
//! says what it means that such a literal is a truth at each point. `truth` makes these steps, and the law shows for
//! every condition that what it makes is such a literal.
#![tactic(auto)]

mod columns;
mod comparisons;
mod conditions;
mod laws;

pub use columns::joined;
pub use comparisons::difference;
pub use conditions::{negation, truth};
pub use laws::conditions_are_literals;
