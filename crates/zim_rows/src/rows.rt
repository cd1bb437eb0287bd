use zim_fault::{Place, Sequence};
use zim_fraction::Fraction;
use zim_linear::{Form, Sides, Term};

/// Which statement made a row.
#[derive(Clone, Copy, Debug, PartialEq, Eq, Hash)]
pub struct RowFrom {
    /// The statement's position from 0 among all statements of the model.
    pub statement: u32,
    /// Where the row comes from in the files of the model.
    pub place: Place,
}

/// How the sum of a row's terms compares with its right side.
#[derive(Clone, Copy, Debug, PartialEq, Eq, Hash)]
pub enum Sense {
    AtLeast,
    AtMost,
    Equal,
}

/// What a row asks of the sum of its terms.
#[derive(Clone, Copy, Debug, Drop)]
pub enum RowKind {
    /// The sum compares with one right side.
    One(Sense, Fraction),
    /// The sum lies from the first number, the low side, to the second, the high one.
    Range(Fraction, Fraction),
}

/// What a column may be: a whole number alone where it is integer, and from the low side to the high one.
#[derive(Clone, Copy, Debug, Drop)]
pub struct Column {
    pub integer: bool,
    pub sides: Sides,
}

/// A row of a system, with the numbers that it was given.
#[derive(Debug, Drop)]
pub struct GivenRow {
    pub from: RowFrom,
    /// Each a column's number, from 1, and its coefficient.
    pub terms: Sequence<Term>,
    pub kind: RowKind,
}

/// The objective of a system, with the numbers that it was given.
#[derive(Debug, Drop)]
pub struct Objective {
    pub maximize: bool,
    /// Where the objective stands in the files of the model, and where a number of it that is past is told.
    pub place: Place,
    pub form: Form,
}

/// A row whose numbers are multiplied by its factor.
#[derive(Debug, Drop)]
pub struct Row {
    pub from: RowFrom,
    /// What the numbers that were given are multiplied by, at least 1: `finish` takes the least number that makes them
    /// decimals of at most 15 places.
    pub factor: i128,
    /// Each a column's number, from 1, and its coefficient.
    pub terms: Sequence<Term>,
    pub kind: RowKind,
}

/// What is to be least or greatest, its numbers multiplied by its factor. Without an objective it minimises, and has
/// no place, the factor 1, no terms and the constant 0.
#[derive(Debug, Drop)]
pub struct Target {
    pub maximize: bool,
    /// Where the objective stands in the files of the model, if there is one.
    pub place: Option<Place>,
    /// What the numbers that were given are multiplied by, at least 1: `finish` takes the least number that makes them
    /// decimals of at most 15 places.
    pub factor: i128,
    /// Each a column's number, from 1, and its coefficient.
    pub terms: Sequence<Term>,
    pub constant: Fraction,
}
