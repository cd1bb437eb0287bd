//! The table beside the written files: which column of the files is which declared column of the model, by which factors
//! the objective and each row were multiplied, and which statement each row comes from.
//!
//! `specs/Reader.antt` gives every text its table, if it is one; `specs/Text.antt` gives the text of a finished system
//! with its declared columns and the names of its statements. They share no definition. `specs/Correct.antt` states the law that the
//! text of each system says its names; `write` puts that text. `specs/Examples.antt` has texts with what they are, and
//! `specs/Ended.antt` says when a text ends in a table's last line.
#![tactic(auto)]

mod laws;
mod names;
mod tuples;
mod writer;

pub use laws::{an_ended_table_is_whole, examples_are_read, texts_say_names};
pub use names::Names;
pub use writer::{PutFault, write};
