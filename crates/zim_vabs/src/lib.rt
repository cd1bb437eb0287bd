//! Terms as forms, with absolute values as columns and rows.
//!
//! `specs/IntegerForms` says which form may stand in a condition or under an absolute value, and what its least whole
//! multiple and its ends are; `specs/Terms` says what a ground term makes, one step after another, and its form;
//! `specs/Meaning` says what it means that such a form is a number at each point. `form_of` and `absolute` make these
//! steps, and the laws show for every term that what they make is such a form.
#![tactic(auto)]

mod integers;
mod laws;
mod terms;
mod values;

pub use integers::{RangedMultiple, ranged_at};
pub use laws::{absolute_values_are_forms, terms_are_forms};
pub use terms::{absolute, form_of};
