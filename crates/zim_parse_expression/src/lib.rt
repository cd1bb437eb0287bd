//! Reads the tokens of an expression as the one tree that they spell.
#![tactic(auto)]

mod conditions;
mod failure;
mod grammar;
mod law;
mod levels;
mod lists;
mod marks;
mod next;
mod powers;
mod primary;
mod products;
mod terminals;
mod tokens;
mod turns;

pub use failure::Failure;
pub use grammar::Wanted;
pub use law::{expressions_are_unique, parser_reads_expressions, subtraction_groups_left};
pub use levels::{arguments, expression, expressions, index, tuple};
pub use terminals::Terminal;
pub use tokens::Tokens;
pub use turns::{items_behind, items_of, repeat};
