//! Parameters: values at indices, with a default for the other indices.
//!
//! A [`Param`] keeps the indices to which a value was given in order of insertion. Contracts see it as that
//! list, in which no index stands twice, and the default. An index is found by its hash.
#![tactic(auto)]

mod param;

pub use param::{InsertFault, Param};

#[cfg(test)]
mod tests;
