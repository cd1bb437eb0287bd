//! What an expression is where a term or a condition may stand.
use sqlite_items::Boxed;
use zim_typed::{Cond, Const, Term};

/// What an expression is where a term may stand.
#[derive(Drop)]
pub(crate) enum TermPart {
    /// A term with variables.
    Varies(Boxed<Term>),
    Fixed(Boxed<Const>),
}

/// What an expression is where a condition may stand.
#[derive(Drop)]
pub(crate) enum CondPart {
    /// A condition with variables.
    Varies(Boxed<Cond>),
    Fixed(Boxed<Const>),
}
