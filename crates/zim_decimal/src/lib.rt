//! Numbers as text: which numbers are written in decimal, their text, the factor that makes others
//! such, and the exact value of a number token. A number is short where fifteen decimals write it.
#![tactic(auto)]

mod digits;
mod literal;
mod short;
#[cfg(test)]
mod tests;
mod text;
mod token;

pub use literal::{read_field, read_literal};
pub use short::{factor, is_short};
pub use text::write_short;
