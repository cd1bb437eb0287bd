//! The value of an expression without variables under what is known after the statements before.
//!
//! A [`World`] keeps the sets, the parameters and the functions of the statements before, each found by the hash of its
//! name. [`value`] is the value of an expression there, and [`choices`] are the tuples that an index chooses, each with
//! its environment: the answers of `specs/Value` of `zim_meaning`, or the first fault, operands being taken from left to
//! right. The evaluation is one cycle of calls that follows the trees and the bodies of functions.
#![tactic(auto)]

mod callee;
mod evaluate;
mod faults;
mod gathering;
mod indices;
mod names;
mod steps;
mod values;
mod world;

pub use faults::EvalStop;
pub use values::{choices, value};
pub use world::{IndexedParam, IndexedSet, World};
