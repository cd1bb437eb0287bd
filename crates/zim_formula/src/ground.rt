// Terms, conditions and constraints in which every constant is its value and every variable a column.
use sqlite_items::{Boxed, Items};
use zim_fault::{Join, Place, Relation};
use zim_fraction::Fraction;

/// A term over columns by number, from 1. A place is that of the operator or of the function's word.
#[derive(Drop)]
pub enum GTerm {
    Known(Fraction),
    /// What the column of this number is.
    Column(u32),
    /// A first operand and those that are added to it, or taken from it where the flag is set.
    Sum(Boxed<GTerm>, Items<(Place, bool, GTerm)>),
    /// A factor before the term and the place of the operator between them, where there is a factor; the
    /// term; and the numbers that it is multiplied by, or divided by where the flag is set.
    Product(Option<(Fraction, Place)>, Boxed<GTerm>, Items<(Place, bool, Fraction)>),
    /// The term with its sign turned.
    Minus(Place, Boxed<GTerm>),
    /// The sum of its members, 0 of none.
    SumOver(Place, Items<GTerm>),
    /// The absolute value.
    Abs(Place, Boxed<GTerm>),
}

/// A condition of a `vif` over terms.
#[derive(Drop)]
pub enum GCond {
    Known(bool),
    Compare(Place, Relation, Boxed<GTerm>, Boxed<GTerm>),
    /// A first condition and those that are joined to it, from the left.
    Chain(Boxed<GCond>, Items<(Place, Join, GCond)>),
    Not(Place, Boxed<GCond>),
}

/// A constraint over terms.
#[derive(Drop)]
pub enum GCon {
    Compare(Place, Relation, Boxed<GTerm>, Boxed<GTerm>),
    /// `a <= t <= b` or `a >= t >= b`, its ends as they are written.
    Range(Place, Relation, Fraction, Boxed<GTerm>, Fraction),
    /// Each of its parts; without parts nothing is asked.
    And(Items<GCon>),
    /// The first constraint where the condition is true, else the second one, if there is one.
    Vif(Place, Boxed<GCond>, Boxed<GCon>, Option<Boxed<GCon>>),
}
