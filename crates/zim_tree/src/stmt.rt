use crate::expr::{Angle, Expr, Index};
use sqlite_items::{Boxed, Items};
use zim_fault::{Bytes, Place, Word};

/// A statement as it is written.
#[derive(Drop)]
pub struct Stmt {
    /// Of its first token.
    pub first: Place,
    /// Of its name; of its first token where it has none.
    pub at: Place,
    /// What it declares. A `do` declares nothing and has the empty name.
    pub name: Bytes,
    pub shape: Boxed<Shape>,
}

/// What a statement says of its name.
#[derive(Drop)]
pub enum Shape {
    Set(Option<Bracket>, SetSide),
    Param(Option<Bracket>, ParSide),
    /// The index, the kind, the bounds, `priority` and `startval`.
    Var(
        Option<Bracket>,
        Option<Word>,
        Items<Limit>,
        Option<(Place, Boxed<Expr>)>,
        Option<(Place, Boxed<Expr>)>,
    ),
    /// An objective; the flag says `maximize`.
    Goal(bool, Boxed<Expr>),
    Subto(Boxed<Expr>),
    /// A function: the word that says what it gives, its parameters and its body.
    Define(Word, Items<(Place, Bytes)>, Boxed<Expr>),
    Do(Doing),
}

/// What stands in brackets behind a declared name.
#[derive(Drop)]
pub enum Bracket {
    Empty,
    Loop(Boxed<Index>),
    Over(Boxed<Expr>),
}

/// What a set is declared to be.
#[derive(Drop)]
pub enum SetSide {
    Value(Boxed<Expr>),
    Read(Reading),
    /// For each index the set that belongs to it.
    Entries(Items<(Angle, Expr)>),
}

/// What a parameter is declared to be, with a default behind the word `default`.
#[derive(Drop)]
pub enum ParSide {
    Value(Boxed<Expr>),
    Read(Reading, Option<(Place, Boxed<Expr>)>),
    /// For each index the value that belongs to it.
    Entries(Items<(Angle, Expr)>, Option<(Place, Boxed<Expr>)>),
    Table(Table, Option<(Place, Boxed<Expr>)>),
    Default(Place, Boxed<Expr>),
}

/// `| "a", "b" |` and rows as `| 1 | 2, 3 |`.
#[derive(Drop)]
pub struct Table {
    /// The last component of an index for each column.
    pub head: Items<Expr>,
    /// The first components of an index, and a value for each column.
    pub rows: Items<(Items<Expr>, Items<Expr>)>,
}

/// A bound of a variable.
#[derive(Drop)]
pub struct Limit {
    /// Of its `>=` or `<=`.
    pub place: Place,
    /// Whether it is a `>=`.
    pub lower: bool,
    pub side: Boxed<Expr>,
}

/// `read "file" as "template" skip 1`
#[derive(Drop)]
pub struct Reading {
    /// Of its `as`.
    pub place: Place,
    pub file: Boxed<Expr>,
    pub template: Boxed<Expr>,
    /// `skip`, `use` and `comment` with their operands, in the order of the text.
    pub options: Items<(Place, Word, Expr)>,
}

/// What a `do` does.
#[derive(Drop)]
pub enum Doing {
    Print(Place, Items<Printed>),
    Check(Place, Boxed<Expr>),
    /// `forall index : doing`; the flag says `do` in place of `:`.
    Forall(Place, Boxed<Index>, bool, Boxed<Doing>),
}

/// What a `print` prints.
#[derive(Drop)]
pub enum Printed {
    Value(Boxed<Expr>),
    Tuple(Angle),
}
