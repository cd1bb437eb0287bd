use zim_columns::Columns;
use zim_fault::{Bytes, Fault, Files};
use zim_rows::Finished;
use zim_table::Names;

/// A compiled model.
#[derive(Drop)]
pub struct Compiled {
    /// The linear program, with a column for each declared one and for each helper.
    pub system: Finished,
    /// The declared columns, in the order of their declaration.
    pub columns: Columns,
    /// The names of the model's statements, and which of them is the objective.
    pub names: Names,
    /// The names of all files that were opened, in the order of opening; the model's own is the first.
    pub files: Files,
    /// What the model prints.
    pub printed: Bytes,
}

/// Why a model was not compiled.
#[derive(Debug, Drop)]
pub enum BuildFault {
    /// The model's first fault, with the files that were opened so far, among which the fault's place counts, and what was
    /// printed by then.
    Refused {
        fault: Fault,
        files: Files,
        printed: Bytes,
    },
    /// The named file isn't there or could not be read; and what was printed by then.
    Read {
        name: Bytes,
        printed: Bytes,
    },
    /// Memory was refused.
    Memory,
}
