//! From the files of a model to its linear program.
//!
//! [`compile`] reads a model, and gives its program with the names that files have for its columns and rows, or the model's
//! first fault. `specs/Reading` says what a name is among some files: a model, or what has a first fault, or what misses a
//! file, and the laws of this crate say that it is exactly one of these. `specs/Model` says what a model is, and
//! `specs/Satisfying` and `specs/Program` which assignments satisfy it and what its program says. Models are of plain form
//! today, which only `specs/Model` shows.
#![tactic(auto)]

mod compiled;
mod compiling;
mod laws;
mod parsing;
mod stop;

pub use compiled::{BuildFault, Compiled};
pub use compiling::compile;
pub use laws::{
    a_model_has_one_program, a_name_has_one_fault, a_name_is_one_model, a_name_is_one_of_three,
    a_name_is_only_one_of_three, a_name_misses_one_file,
};
