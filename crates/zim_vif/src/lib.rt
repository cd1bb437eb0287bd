//! Constraints as rows, under guards.
//!
//! `specs/Constraints` says what a ground constraint makes under a guard, one step after another; `specs/Meaning` says
//! what it means that a constraint is asked where the guard is on. `encode` makes these steps, and the law shows for
//! every constraint that it is asked so.
#![tactic(auto)]

mod constraints;
mod guards;
mod laws;
mod rows;

pub use constraints::encode;
pub use laws::constraints_are_asked;
