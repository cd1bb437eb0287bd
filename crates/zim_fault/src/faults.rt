use crate::bytes::Bytes;
use crate::kinds::Kind;
use crate::lists::Sequence;

/// Where something stands in the files of a run.
#[derive(Clone, Copy, Debug, PartialEq, Eq, Hash)]
pub struct Place {
    /// The file's position from 0 among all files, in the order in which they were opened.
    pub file: u32,
    /// The line in that file, from 1.
    pub line: u32,
}

/// The first thing that is wrong with a model or its data, and where it stands.
#[derive(Clone, Copy, Debug, PartialEq, Eq, Hash)]
pub struct Fault {
    pub place: Place,
    pub kind: Kind,
}

/// The names of the files of a run, in the order in which they were opened.
pub type Files = Sequence<Bytes>;
