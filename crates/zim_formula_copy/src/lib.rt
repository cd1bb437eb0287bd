//! Copies of ground trees. Each copy is equal to the tree that it was made of.
#![tactic(auto)]

mod copies;
#[cfg(test)]
mod tests;

pub use copies::{copy_condition, copy_constraint, copy_term};
