//! The spelling of a statement: the tokens that its tree is written with.
#![tactic(auto)]

mod exprs;
mod signs;
mod speller;
mod stmts;

pub use stmts::spelled;
