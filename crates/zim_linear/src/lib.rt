//! Linear forms: terms in column order, none with coefficient 0, and a constant.
//!
//! In contracts a `Form` is the record of its terms and its constant, and the sum, the difference and
//! the multiple of forms are described by their number at every assignment of the columns, the bounds
//! by what the terms come to where each column lies between its sides. No number is rounded: where one
//! passes the limit of a `Fraction`, the answer is `Past`.
#![tactic(auto)]

mod ends;
mod faults;
mod form;
mod integers;
mod multiple;
mod sides;
mod sum;
#[cfg(test)]
mod tests;

pub use ends::bounds;
pub use faults::LinFault;
pub use form::{Form, Term};
pub use integers::{IntegerForm, integer_form};
pub use multiple::scale;
pub use sides::Sides;
pub use sum::{add, add_to, negated, sub};
