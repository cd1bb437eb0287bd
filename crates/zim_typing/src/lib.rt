//! The typed tree that is made of a syntax tree: definitions and laws.
//!
//! It is said of every tree (`specs/Typing`), and belongs to the tree and suits the scope where the tree has no static fault.
#![tactic(auto)]

mod law;

pub use law::{made_trees_suit, read_trees_keep_numbers, typed_trees_belong};
