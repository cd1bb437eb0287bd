//! Trees and faults as text, for tables of tests that say which tree or fault a text has: each node that has
//! operators or words between its parts in round brackets, with the line of each place or without.
//!
//! No clause says what is put: only tests read it, which compare it with what was written by hand.
#![tactic(auto)]

mod exprs;
mod shown;
mod stmts;

pub use shown::Shown;
pub use stmts::{show_fault, show_stmt};
