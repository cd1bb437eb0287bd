//! How the text of a file that is read line by line is cut, into lines and a line into fields between blanks, and which
//! numbers fields are.
//!
//! The crate has definitions and laws and no code. `specs/Fields.antt` cuts, `specs/Numbers.antt` reads numbers. The
//! laws say what a text that is put together from fields is cut into, and that a number's decimal text reads back.
#![tactic(auto)]
