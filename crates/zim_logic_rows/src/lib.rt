//! Rows that carry logic: truth columns, joins of literals, absolute values and guarded rows.
//!
//! `specs/` says the columns and the rows of each step of an encoding and the numbers in them, by the operators of
//! `zim_forms`. The files of `proofs/` show at each point of a system that exactly one list of numbers fits the columns
//! of such a step: a truth column is 1 exactly where its comparison holds, a join exactly where its operands have the
//! joined truth, an absolute value is that of its form, and a guarded row holds exactly where its guard is off or its
//! comparison holds. The calls make the columns and rows of a step; a system takes them by `add_step`.
#![tactic(auto)]

mod joins;
mod sizes;
mod steps;
mod truth;

pub use joins::{equal_rows, join_rows};
pub use sizes::absolute_step;
pub use steps::{NewStep, binary_column, past_at};
pub use truth::truth_step;
use zim_fraction::Fraction;
use zim_linear::Form;

/// A form that is whole wherever its columns are, and its two ends over the sides of its columns.
#[derive(Debug, Drop)]
pub struct Ranged {
    pub form: Form,
    /// The least number of the form, its constant included.
    pub low: Fraction,
    /// The greatest number of the form, its constant included.
    pub high: Fraction,
}

/// A binary column, which is true where it is 1, or its negation.
#[derive(Clone, Copy, Debug, PartialEq, Eq, Hash)]
pub struct Literal {
    /// The number of the column, from 1.
    pub column: u32,
    /// Whether the literal is the column itself; else it is 1 minus the column.
    pub positive: bool,
}

/// The literal under which something is asked, or none where it is always asked.
pub type Guard = Option<Literal>;
