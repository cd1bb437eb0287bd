use sqlite_items::{Boxed, Items};
use zim_fault::{Bytes, Place, Relation, Sign, Token, Word};

/// An expression as it is written, its parentheses kept.
///
/// The place is that of the operator where the node has one, and else that of the first token.
#[cycle(tree)]
#[derive(Drop)]
pub enum Expr {
    /// A number as it is written.
    Number(Place, Bytes),
    /// A string without its quotes, and whether these are double ones.
    Text(Place, Bytes, bool),
    /// `true` or `false`
    Truth(Place, bool),
    /// `infinity`
    Infinity(Place),
    Name(Place, Bytes),
    /// `name[a, b]`
    Item(Place, Bytes, Items<Expr>),
    /// `name(a, b)`
    Call(Place, Bytes, Items<Expr>),
    /// `abs(a)` and the like: a function that is a word.
    Func(Place, Word, Items<Expr>),
    /// `proj(a, <b, c>)`
    Proj(Place, Boxed<Expr>, Angle),
    /// `(a)`
    Paren(Place, Boxed<Expr>),
    /// `{ body }`
    Braces(Place, Boxed<Body>),
    /// `if a then b else c end`; the flag says `vif`.
    If(Place, bool, Boxed<Expr>, Boxed<Expr>, Option<Boxed<Expr>>),
    /// `a!!`, with the place of each `!`.
    Factorial(Boxed<Expr>, Items<Place>),
    /// `a ^ b` or `a ** b`, with a sign of `b` and whether it is a minus.
    Power(Place, Sign, Boxed<Expr>, Option<(Place, bool)>, Boxed<Expr>),
    /// `+a` or `-a`; the flag says `-`.
    Signed(Place, bool, Boxed<Expr>),
    /// `sum index : a` and the like; the flag says `do` in place of `:`.
    Big(Place, Word, Boxed<Index>, bool, Boxed<Expr>),
    /// `a * b / c`: operators that bind like `*`.
    Times(Boxed<Expr>, Items<(Place, Token, Expr)>),
    /// `a + b - c`: operators that bind like `+`.
    Plus(Boxed<Expr>, Items<(Place, Token, Expr)>),
    /// `a <= b` or `a <= b <= c`
    Compare(Boxed<Expr>, Items<(Place, Relation, Expr)>),
    /// `<a, b> in c`
    Member(Place, Angle, Boxed<Expr>),
    /// `not a`
    Not(Place, Boxed<Expr>),
    /// `a and b`
    And(Boxed<Expr>, Items<(Place, Expr)>),
    /// `a or b`; the flag says `xor`.
    Or(Boxed<Expr>, Items<(Place, bool, Expr)>),
    /// `forall index : a`; the flag says `do` in place of `:`.
    Forall(Place, Boxed<Index>, bool, Boxed<Expr>),
}

/// `<a, b>`
#[cycle(tree)]
#[derive(Drop)]
pub struct Angle {
    /// Of its `<`.
    pub place: Place,
    pub items: Items<Expr>,
}

/// `<i, j> in set with condition`
#[cycle(tree)]
#[derive(Drop)]
pub struct Index {
    /// Of its `in`.
    pub place: Place,
    pub tuple: Angle,
    pub set: Boxed<Expr>,
    /// The condition, and whether a bar stands before it in place of `with`.
    pub cond: Option<(bool, Boxed<Expr>)>,
}

/// What stands in braces.
#[cycle(tree)]
#[derive(Drop)]
pub enum Body {
    Empty,
    Members(Items<Expr>),
    Tuples(Items<Angle>),
    Those(Boxed<Index>),
    /// `a .. b by c`; the flag says `to` in place of `..`.
    Span(Boxed<Expr>, bool, Boxed<Expr>, Option<Boxed<Expr>>),
}
