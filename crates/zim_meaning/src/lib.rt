//! What expressions without variables mean, and what statements make of the sets, parameters and functions before them.
//!
//! A crate of definitions and laws, beside the two types that they speak of. `specs/World` is what is known after the
//! statements before, `specs/Operations` what the operators answer on values, `specs/Expressions` and `specs/Loops`
//! what each form of an expression answers where its parts are known, `specs/Value` the value of an expression and the
//! choices of an index, `specs/DataFiles` what a `read` asks and gets, `specs/Statements` the world after a statement,
//! `specs/Printing` what a `do` prints, and `specs/Standing` when a world stands for a scope. An answer is a value or
//! the first fault, operands being taken from left to right. `specs/Worked` shows some statements with what they
//! print, or with the fault that stops them.
#![tactic(auto)]

mod choices;
mod laws;
mod values;

pub use choices::Choice;
pub use laws::values_of_some_expressions;
pub use values::Value;
