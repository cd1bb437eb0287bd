//! The MPS file of a linear program: the text that is written, in free MPS format, and what such a text says.
//!
//! `specs/Reader.antt` and the files that it cites give every text its instance, if it has one; `specs/Text.antt` gives
//! the text of a program. They share no definition. `specs/Correct.antt` states the law that the text of each program says
//! it, minimised; `write` puts that text. `specs/Examples.antt` has texts with what they say.
#![tactic(auto)]

mod bounds;
mod columns;
mod costs;
mod laws;
mod names;
mod rows;
mod writer;

pub use laws::{examples_are_read, texts_say_programs};
pub use writer::{PutFault, write};
