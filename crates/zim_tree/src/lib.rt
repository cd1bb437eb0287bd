//! The syntax trees of the language, how each is spelled, and the grammar that says which trees a list
//! of tokens can mean.
#![tactic(auto)]

mod classes;
mod expr;
mod first_place;
mod law;
mod stmt;

pub use classes::{Class, class_of};
pub use expr::{Angle, Body, Expr, Index};
pub use law::tight_trees_are_made;
pub use stmt::{Bracket, Doing, Limit, ParSide, Printed, Reading, SetSide, Shape, Stmt, Table};
