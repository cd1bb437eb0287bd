//! Data files by template: which fields of which lines make the members of a set or the values of a parameter.
//!
//! [`parse_template`] reads a template as `<1s,2n> 3n`, and [`read_rows`] takes the lines of a file by it.
//! `specs/Templates` says which text spells which template, `specs/Lines` what the lines of a file and the fields of a line are,
//! `specs/Rows` which rows a file has, or which fault it has first, and `specs/Reading` what a read tells by what is
//! known of the folder.
#![tactic(auto)]

mod bytes;
mod elements;
mod laws;
mod lines;
mod reading;
mod rows;
mod slices;
mod stops;
mod templates;

pub use laws::examples_are_read;
pub use reading::read_rows;
pub use rows::DataRow;
pub use stops::{RowsStop, TemplateFault};
pub use templates::{Field, FieldKind, ReadKind, Template, parse_template};

#[cfg(test)]
mod tests;
