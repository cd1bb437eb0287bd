//! How deep a statement nests, found along its tree: the same as along its tokens.
#![tactic(auto)]

mod counts;
mod exprs;
mod law;
mod stmts;

pub use law::{deep_is_past_the_limit, nesting_is_that_of_the_tokens};
pub use stmts::nesting;
