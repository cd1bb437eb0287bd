//! Ground trees: what a model's terms, conditions and constraints are once each constant is its value
//! and each variable a column.
//!
//! `specs/Ground` says the number of a term, and the truth of a condition and of a constraint, at an
//! assignment of the columns; `specs/GroundRules` says what callers promise of such trees. The files of
//! `proofs/` have one equation for each form of a tree, from its parts. There are no calls here: copies
//! are made by `zim_formula_copy`.
#![tactic(auto)]

mod ground;

pub use ground::{GCon, GCond, GTerm};
