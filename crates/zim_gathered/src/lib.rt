//! Sums of many forms: a form that grows, in any order of columns.
//!
//! In contracts a `GatheredForm` is the form that it has come to, and its `add` answers as the sum of forms
//! does. A sum of n terms takes a time of n log n at most, whatever the order of their columns.
#![tactic(auto)]

mod columns;
mod gathered;

pub use gathered::GatheredForm;
