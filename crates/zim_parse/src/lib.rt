//! Reads the tokens of a statement as the one tree that they spell.
#![tactic(auto)]

mod counts;
mod fault;
mod grammar;
mod law;
mod parse;
mod reading;
mod sides;
mod statement;

pub use fault::ParseFault;
pub use law::{
    answers_are_unique, answers_mean_what_is_spelled, parser_reads_statements,
    places_are_of_tokens, read_is_spelled, statements_are_unique,
};
pub use parse::parse_statement;
pub use zim_parse_expression::{
    expressions_are_unique, parser_reads_expressions, subtraction_groups_left,
};
