//! What terms, conditions and constraints with variables mean, and the ground formulas that they become.
//!
//! A crate of definitions yet. `specs/Meaning` says what the source says where numbers are put for variables: the number
//! of a term, and the truth of a condition and of a constraint. `specs/Grounding` says which ground formula each becomes,
//! in which every constant is its value and every variable its column, or what its first fault is. `specs/Asking` says
//! which columns a `var` statement asks for.
#![tactic(auto)]

mod law;
mod operands;

pub use law::ground_formulas_say_what_the_source_says;
pub use operands::{CondOperand, TermOperand};
