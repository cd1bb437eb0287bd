use zim_fault::{Bytes, Duplicate, Memory};
use zim_fraction::Fraction;
use zim_tuples::Tuple;

/// What numbers a declared column takes.
#[derive(Clone, Copy, Debug, PartialEq, Eq, Hash)]
pub enum VarKind {
    /// Any number between the bounds.
    Real,
    /// Whole numbers between the bounds.
    Integer,
    /// The same as `Integer`; whoever asks for a binary column gives it the bounds 0 and 1.
    Binary,
}

/// A bound of a column as the model gives it.
#[derive(Clone, Copy, Debug, Drop)]
pub enum Bound {
    /// Minus infinity.
    Minus,
    /// Infinity.
    Plus,
    /// A number.
    At(Fraction),
}

/// A column that a statement asks for.
#[derive(Debug, Drop)]
pub struct Ask {
    /// The name that the statement declares.
    pub name: Bytes,
    /// The index that the column is for; empty where the statement has no index set.
    pub tuple: Tuple,
    pub kind: VarKind,
    pub lower: Bound,
    pub upper: Bound,
    /// The priority in branching that the statement gives, if it gives one.
    pub priority: Option<Fraction>,
    /// The start value that the statement gives, if it gives one.
    pub startval: Option<Fraction>,
}

impl Duplicate for Ask {
    fn copy(&self) -> Result<Ask, Memory> {
        Ok(Ask {
            name: self.name.copy()?,
            tuple: self.tuple.copy()?,
            kind: self.kind,
            lower: self.lower,
            upper: self.upper,
            priority: self.priority,
            startval: self.startval,
        })
    }
}
