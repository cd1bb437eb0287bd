//! The LP file of a linear program: the text that is written, in CPLEX LP format, and what such a text says.
//!
//! `specs/Reader.antt` and the files that it cites give every text its instance, if it has one. `specs/FileText.antt`
//! gives the text of a file with its names and numbers as they are written, and `specs/Text.antt` the file of a
//! program. The reader and the text share no definition. `specs/Correct.antt` states the law that the text of each program
//! says it; `write` puts that text. `specs/Examples.antt` has texts with what they say.
#![tactic(auto)]

mod columns;
mod decimals;
mod laws;
mod rows;
mod terms;
mod writer;

pub use laws::{examples_are_read, texts_say_programs};
pub use writer::{PutFault, write};
