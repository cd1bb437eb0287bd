//! The operators and functions of the language on values that are known, each a call that knows no names and no trees.
//!
//! [`literal`] is the number that a token spells, [`operated`] what stands at an operator between two operands,
//! [`raised`], [`compared`], [`signed`], [`factorial_of`] and [`negated`] the other operators, [`applied`] a function
//! that is a word, and [`set_of_members`], [`set_between`] and [`projection`] make sets. Each answers the value of
//! `specs/Operations` of `zim_meaning`, or the kind of fault that stands there.
#![tactic(auto)]

mod arithmetic;
mod comparisons;
mod extremes;
mod kinds;
mod members;
mod operands;
mod stop;
mod words;

pub use arithmetic::{factorial_of, is_natural, literal, negated, raised, signed};
pub use comparisons::compared;
pub use extremes::extreme;
pub use kinds::{
    element_of, number_of, of_defined_kind, param_of, set_of, truth_of, value_of_element,
};
pub use members::{projection, set_between, set_of_members};
pub use operands::operated;
pub use stop::{Stop, set_or_stop};
pub use words::applied;
