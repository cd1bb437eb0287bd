use crate::constant::{Const, Loop, TAngle};
use crate::constraint::{Con, Term};
use sqlite_items::{Boxed, Items};
use zim_fault::{Bytes, Place, Word};

/// A statement whose names are resolved.
#[derive(Drop)]
pub struct TStmt {
    /// Of its first token.
    pub first: Place,
    /// Of its name; of its first token where it has none.
    pub at: Place,
    /// What it declares. A `do` declares nothing and has the empty name.
    pub name: Bytes,
    pub shape: Boxed<TShape>,
}

/// What a statement says of its name.
#[derive(Drop)]
pub enum TShape {
    Set(Option<TBracket>, TSetSide),
    Param(Option<TBracket>, TParSide),
    /// The index, the kind, the bounds, `priority` and `startval`.
    Var(
        Option<TBracket>,
        Option<Word>,
        Items<TLimit>,
        Option<(Place, Boxed<Const>)>,
        Option<(Place, Boxed<Const>)>,
    ),
    /// An objective; the flag says `maximize`.
    Goal(bool, Boxed<Term>),
    Subto(Boxed<Con>),
    /// A function: the word that says what it gives, its parameters and its body.
    Define(Word, Items<(Place, Bytes)>, Boxed<Const>),
    Do(TDoing),
}

/// What stands in brackets behind a declared name.
#[derive(Drop)]
pub enum TBracket {
    Empty,
    Loop(Boxed<Loop>),
    Over(Boxed<Const>),
}

/// What a set is declared to be.
#[derive(Drop)]
pub enum TSetSide {
    Value(Boxed<Const>),
    Read(TReading),
    /// For each index the set that belongs to it.
    Entries(Items<(TAngle, Const)>),
}

/// What a parameter is declared to be, with a default behind the word `default`.
#[derive(Drop)]
pub enum TParSide {
    Value(Boxed<Const>),
    Read(TReading, Option<(Place, Boxed<Const>)>),
    /// For each index the value that belongs to it.
    Entries(Items<(TAngle, Const)>, Option<(Place, Boxed<Const>)>),
    Table(TTable, Option<(Place, Boxed<Const>)>),
    Default(Place, Boxed<Const>),
}

/// `| "a", "b" |` and rows as `| 1 | 2, 3 |`.
#[derive(Drop)]
pub struct TTable {
    /// The last component of an index for each column.
    pub head: Items<Const>,
    /// The first components of an index, and a value for each column.
    pub rows: Items<(Items<Const>, Items<Const>)>,
}

/// A bound of a variable.
#[derive(Drop)]
pub struct TLimit {
    /// Of its `>=` or `<=`.
    pub place: Place,
    /// Whether it is a `>=`.
    pub lower: bool,
    pub side: Boxed<Const>,
}

/// `read "file" as "template" skip 1`
#[derive(Drop)]
pub struct TReading {
    /// Of its `as`.
    pub place: Place,
    pub file: Boxed<Const>,
    pub template: Boxed<Const>,
    /// `skip`, `use` and `comment` with their operands, in the order of the text.
    pub options: Items<(Place, Word, Const)>,
}

/// What a `do` does.
#[derive(Drop)]
pub enum TDoing {
    Print(Place, Items<TPrinted>),
    Check(Place, Boxed<Const>),
    /// `forall index : doing`; the flag says `do` in place of `:`.
    Forall(Place, Boxed<Loop>, bool, Boxed<TDoing>),
}

/// What a `print` prints.
#[derive(Drop)]
pub enum TPrinted {
    Value(Boxed<Const>),
    Tuple(TAngle),
}
