//! The statements of plain form. Their texts stand in the trees.

use zim_fault::{Bytes, Place};
use zim_rows::Sense;

/// A number token, and where it stands.
#[derive(Clone, Copy, Debug)]
pub struct Literal<'a> {
    pub place: Place,
    pub text: &'a Bytes,
}

/// A slash with the number token behind it.
#[derive(Clone, Copy, Debug)]
pub struct Divisor<'a> {
    pub slash: Place,
    pub literal: Literal<'a>,
}

/// A number, or one over another.
#[derive(Clone, Copy, Debug)]
pub struct Coefficient<'a> {
    pub number: Literal<'a>,
    pub divisor: Option<Divisor<'a>>,
}

/// A coefficient with the star behind it.
#[derive(Clone, Copy, Debug)]
pub struct Factor<'a> {
    pub coefficient: Coefficient<'a>,
    pub star: Place,
}

/// An item of a list, without its sign.
#[derive(Clone, Copy, Debug)]
pub enum Item<'a> {
    /// A number.
    Constant(Coefficient<'a>),
    /// A name with its place, perhaps with a factor before it.
    Multiple(Option<Factor<'a>>, Place, &'a Bytes),
}

/// A plus or a minus, and where it stands.
#[derive(Clone, Copy, Debug)]
pub struct SignAt {
    pub place: Place,
    pub negative: bool,
}

/// An item behind others, with its sign.
#[derive(Clone, Copy, Debug)]
pub struct Further<'a> {
    pub sign: SignAt,
    pub item: Item<'a>,
}

/// A list: perhaps a sign, an item, and any number of further ones.
#[derive(Debug, Drop)]
pub struct Sum<'a> {
    pub sign: Option<SignAt>,
    pub first: Item<'a>,
    pub others: Vec<Further<'a>>,
}

/// The first word of a statement, and its name.
#[derive(Clone, Copy, Debug)]
pub struct Head<'a> {
    pub word: Place,
    pub at: Place,
    pub name: &'a Bytes,
}

/// A statement of plain form.
#[derive(Debug, Drop)]
pub enum Statement<'a> {
    /// `var name;`
    Variable(Head<'a>),
    /// `minimize name: sum;`, or `maximize name: sum;` where it is to be maximised
    Objective(bool, Head<'a>, Sum<'a>),
    /// `subto name: left sense right;`, with the place of the relation
    Constraint(Head<'a>, Sum<'a>, Sense, Place, Sum<'a>),
}
