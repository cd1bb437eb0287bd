//! Functions of the language on numbers and texts, and the list of the functions that a model defines.
//!
//! [`factorial`], [`quotient`] and [`rest`] are `a!`, `a div b` and `a mod b`; [`substring`] and [`join`] are
//! `substr(s, b, n)` and `s + t`. [`Defs`] keeps definitions in order and finds one by its name's hash.
#![tactic(auto)]

mod definitions;
mod numbers;
mod stops;
mod texts;

pub use definitions::{Definition, Defs};
pub use numbers::{factorial, quotient, rest};
pub use stops::NumStop;
pub use texts::{join, substring};

#[cfg(test)]
mod tests;
