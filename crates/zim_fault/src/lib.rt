//! What every layer of the compiler speaks of: faults with their kinds and places, tokens, words and
//! signs, and the small list type that clauses see as a list.
#![tactic(auto)]

mod bytes;
mod faults;
mod kinds;
mod lists;
mod memory;
mod signs;
mod tokens;
mod words;

pub use bytes::Bytes;
pub use faults::{Fault, Files, Place};
pub use kinds::{Kind, number_of_kind, text_of_kind};
pub use lists::Sequence;
pub use memory::{Duplicate, Memory};
pub use signs::{Sign, sign_text};
pub use tokens::{Join, Placed, Relation, Token};
pub use words::{Word, word_of, word_text};
