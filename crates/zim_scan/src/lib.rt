//! What is looked for in a statement's tokens before it is parsed: words that are refused, and nesting that is too deep.
#![tactic(auto)]

mod nesting;
mod refused;

pub use nesting::{begins_paren, first_deep};
pub use refused::first_refused;
