use zim_fault::{Bytes, Files, Place, Sequence};

/// A line of a model, without the byte 10 that ends it. A byte 13 before that one stays: it is a blank.
#[derive(Debug, Drop)]
pub struct Line {
    /// The file among those that were opened, and the line in it.
    pub place: Place,
    pub bytes: Bytes,
}

/// What a model's files hold.
#[derive(Debug, Drop)]
pub struct Loaded {
    /// All lines, in the order in which they are read.
    pub lines: Sequence<Line>,
    /// The names of the files that were opened, in the order of opening.
    pub files: Files,
}

/// A statement as a range of tokens, its semicolon among them.
#[derive(Clone, Copy, Debug, PartialEq, Eq)]
pub struct Span {
    /// The position of its first token, from 0.
    pub from: usize,
    /// The position after its semicolon.
    pub to: usize,
}
