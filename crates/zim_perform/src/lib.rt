//! What a `do` prints.
//!
//! [`perform`] does what a `do` says and puts what it prints behind what was printed before, as `specs/Printing` of
//! `zim_meaning` says. Each `print` is a line, which is put once all its items are evaluated. A fault stops the doing,
//! and what was printed up to it stays.
#![tactic(auto)]

mod doings;
mod faults;
mod lines;
mod texts;

pub use doings::perform;
