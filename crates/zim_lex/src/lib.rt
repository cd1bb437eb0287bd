//! From a model's files to its statements: the texts are read and cut into lines, the lines into
//! tokens, and the tokens into the statements that semicolons end.
//!
//! Each step is one call: [`load`] reads the file and those that it includes, [`lex`] gives the tokens of its lines, and
//! [`statements`] gives the range of tokens of each statement. Every call stops at the first fault
//! in the order of the text.
#![tactic(auto)]

mod expanding;
mod faults;
mod includes;
mod laws;
mod lines;
mod models;
mod numbers;
mod pieces;
mod reading;
mod signs;
mod spans;
mod text;
mod tokens;

pub use faults::{LexFault, LoadFault};
pub use laws::{
    cutting_is_exact, include_lines_are_exact, line_numbers_are_kept, lines_have_one_answer,
};
pub use lines::{Line, Loaded, Span};
pub use models::load;
pub use spans::statements;
pub use tokens::lex;

#[cfg(test)]
mod tests;
