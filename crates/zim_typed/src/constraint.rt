use crate::constant::{Const, Loop};
use sqlite_items::{Boxed, Items};
use zim_fault::{Bytes, Join, Place, Relation};

/// A number that may depend on variables.
#[derive(Drop)]
pub enum Term {
    /// A number without variables.
    Known(Boxed<Const>),
    /// A variable with its index, which is empty where the variable has none.
    Column(Place, Bytes, Items<Const>),
    /// A sum: what stands behind the first operand is added, or taken off where the flag says so.
    Sum(Boxed<Term>, Items<(Place, bool, Term)>),
    /// A product: a factor without variables before the term, with the place of the `*` between them, if there is one,
    /// and the factors behind the term; it is divided by those of which the flag says so.
    Product(Option<(Boxed<Const>, Place)>, Boxed<Term>, Items<(Place, bool, Const)>),
    Minus(Place, Boxed<Term>),
    /// `sum index : a`
    SumOver(Place, Boxed<Loop>, Boxed<Term>),
    /// `if a then b else c end`, where `a` is without variables.
    If(Place, Boxed<Const>, Boxed<Term>, Boxed<Term>),
    /// `vabs(a)`
    Abs(Place, Boxed<Term>),
}

/// The condition of a `vif`.
#[derive(Drop)]
pub enum Cond {
    /// A truth value without variables.
    Known(Boxed<Const>),
    Compare(Place, Relation, Boxed<Term>, Boxed<Term>),
    /// Conditions that are joined from the left.
    Chain(Boxed<Cond>, Items<(Place, Join, Cond)>),
    Not(Place, Boxed<Cond>),
}

/// A constraint.
#[derive(Drop)]
pub enum Con {
    /// Two terms are compared by `<=`, `>=` or `==`.
    Compare(Place, Relation, Boxed<Term>, Boxed<Term>),
    /// A term lies between two numbers, which stand as they are written: `a <= t <= b` or `a >= t >= b`.
    Range(Place, Relation, Boxed<Const>, Boxed<Term>, Boxed<Const>),
    And(Items<Con>),
    Forall(Place, Loop, Boxed<Con>),
    /// A constraint that is picked by a truth value without variables; where it picks none, nothing is asked.
    If(Place, Boxed<Const>, Boxed<Con>, Option<Boxed<Con>>),
    /// A constraint that is picked by a condition; where it picks none, nothing is asked.
    Vif(Place, Cond, Boxed<Con>, Option<Boxed<Con>>),
}
