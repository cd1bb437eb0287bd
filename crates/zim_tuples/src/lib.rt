//! Elements, tuples and environments, and when a tuple agrees with a pattern.
//!
//! An element is a number or a text, a tuple a list of elements, and an environment a list of names
//! with elements. [`match_pattern`] says whether a tuple agrees with the slots of a pattern, and which
//! environment follows. [`element_named`] is what a name stands for in one.
#![tactic(auto)]

mod elements;
mod environments;
mod patterns;

pub use elements::{Elem, Tuple};
pub use environments::{Binding, Env, element_named};
pub use patterns::{Slot, match_pattern};

#[cfg(test)]
mod tests;
