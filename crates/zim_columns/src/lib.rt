//! Declared columns: their names, and the columns and rows that a declaration makes in a system.
//!
//! An [`Ask`] is one column that a `var` statement asks for: its name and tuple, its kind, and its bounds as the model
//! gives them. [`declare`] adds a column for it to a [`System`](zim_rows::System), with bounds that are rounded where the
//! column is whole, and a row for each bound that no decimal writes. [`Columns`] lists what was declared, and finds the
//! column of a name and a tuple. `specs/Bounds` says what a number keeps of an ask and which column is made of it, and
//! `specs/Declaring` what a declaration answers.
#![tactic(auto)]

mod asks;
mod bounds;
mod columns;
mod declared;
mod declaring;
mod laws;
mod numbers;
mod parts;
#[cfg(test)]
mod tests;

pub use asks::{Ask, Bound, VarKind};
pub use columns::Columns;
pub use declared::Declared;
pub use declaring::declare;
pub use laws::columns_keep_what_is_asked;
