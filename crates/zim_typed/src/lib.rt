//! Typed trees: statements whose names are resolved, and in which the parts without variables, the terms, the conditions
//! and the constraints are told apart.
//!
//! A [`Const`] is an expression without variables, a [`Term`] a number that may depend on variables, a [`Cond`] the
//! condition of a `vif` and a [`Con`] a constraint.
#![tactic(auto)]

mod constant;
mod constraint;
mod first_place;
mod law;
mod scope;
mod statement;

pub use constant::{Const, Loop, LoopSlot, Resolved, TAngle, TBody};
pub use constraint::{Con, Cond, Term};
pub use law::{constants_nest_as_their_trees, typed_trees_of_some_expressions, typed_trees_suit};
pub use scope::Declared;
pub use statement::{
    TBracket, TDoing, TLimit, TParSide, TPrinted, TReading, TSetSide, TShape, TStmt, TTable,
};
