use zim_formula::{GCond, GTerm};
use zim_meaning::Value;

/// What a term is before an operator takes it.
#[derive(Drop)]
pub enum TermOperand {
    /// A part without variables, which may be no number.
    Value(Value),
    Ground(GTerm),
}

/// What a condition is before it is joined or picks.
#[derive(Drop)]
pub enum CondOperand {
    /// A part without variables, which may be no truth value.
    Value(Value),
    Ground(GCond),
}
