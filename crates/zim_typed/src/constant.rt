use sqlite_items::{Boxed, Items};
use zim_fault::{Bytes, Place, Relation, Sign, Token, Word};

/// What a name stands for where it is used in a constant.
#[derive(Clone, Copy, Debug, PartialEq, Eq)]
pub enum Resolved {
    /// The name of an index around the use, or a parameter of the function whose body it is.
    Local,
    /// A parameter that a `param` declares.
    Parameter,
    /// A set, or an indexed set.
    Set,
    Function,
}

/// An expression that no variable and no `vabs` stands in.
///
/// It is the expression as it is written, its parentheses kept, with what each of its names stands for. The place is
/// that of the operator where the node has one, and else that of the first token.
#[cycle(tree)]
#[derive(Drop)]
pub enum Const {
    /// A number as it is written.
    Number(Place, Bytes),
    /// A string without its quotes, and whether these are double ones.
    Text(Place, Bytes, bool),
    /// `true` or `false`
    Truth(Place, bool),
    /// `infinity`, which stands only in a bound of a variable.
    Infinity(Place),
    Name(Place, Bytes, Resolved),
    /// `name[a, b]`
    Item(Place, Bytes, Items<Const>, Resolved),
    /// `name(a, b)`
    Call(Place, Bytes, Items<Const>, Resolved),
    /// `abs(a)` and the like: a function that is a word.
    Func(Place, Word, Items<Const>),
    /// `proj(a, <b, c>)`
    Proj(Place, Boxed<Const>, TAngle),
    /// `(a)`
    Paren(Place, Boxed<Const>),
    /// `{ body }`
    Braces(Place, Boxed<TBody>),
    /// `if a then b else c end`
    If(Place, Boxed<Const>, Boxed<Const>, Boxed<Const>),
    /// `a!!`, with the place of each `!`.
    Factorial(Boxed<Const>, Items<Place>),
    /// `a ^ b` or `a ** b`, with a sign of `b` and whether it is a minus.
    Power(Place, Sign, Boxed<Const>, Option<(Place, bool)>, Boxed<Const>),
    /// `+a` or `-a`; the flag says `-`.
    Signed(Place, bool, Boxed<Const>),
    /// `sum index : a` and the like; the flag says `do` in place of `:`.
    Big(Place, Word, Boxed<Loop>, bool, Boxed<Const>),
    /// `a * b / c`: operators that bind like `*`.
    Times(Boxed<Const>, Items<(Place, Token, Const)>),
    /// `a + b - c`: operators that bind like `+`.
    Plus(Boxed<Const>, Items<(Place, Token, Const)>),
    /// `a <= b`
    Compare(Place, Relation, Boxed<Const>, Boxed<Const>),
    /// `<a, b> in c`
    Member(Place, TAngle, Boxed<Const>),
    /// `not a`
    Not(Place, Boxed<Const>),
    /// `a and b`
    And(Boxed<Const>, Items<(Place, Const)>),
    /// `a or b`; the flag says `xor`.
    Or(Boxed<Const>, Items<(Place, bool, Const)>),
}

/// `<a, b>`
#[cycle(tree)]
#[derive(Drop)]
pub struct TAngle {
    /// Of its `<`.
    pub place: Place,
    pub items: Items<Const>,
}

/// `<i, j> in set with condition`
#[cycle(tree)]
#[derive(Drop)]
pub struct Loop {
    /// Of its `in`.
    pub place: Place,
    /// What a tuple of the set has to be, component by component.
    pub slots: Items<LoopSlot>,
    pub set: Boxed<Const>,
    pub cond: Option<Boxed<Const>>,
}

/// What one component of a tuple has to be.
#[cycle(tree)]
#[derive(Drop)]
pub enum LoopSlot {
    /// Anything: this name is bound to it.
    Free(Bytes),
    /// Equal to the component at this earlier position, counted from 0, which binds a name.
    Again(usize),
    /// Equal to this value.
    Fixed(Boxed<Const>),
}

/// What stands in braces.
#[cycle(tree)]
#[derive(Drop)]
pub enum TBody {
    Empty,
    Members(Items<Const>),
    Tuples(Items<TAngle>),
    Those(Boxed<Loop>),
    /// `a .. b by c`; the flag says `to` in place of `..`.
    Span(Boxed<Const>, bool, Boxed<Const>, Option<Boxed<Const>>),
}
