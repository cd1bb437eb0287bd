use zim_fault::{Bytes, Duplicate, Memory};
use zim_fraction::Fraction;
use zim_sets::TupleSet;

/// What an expression without variables is.
#[derive(Drop)]
pub enum Value {
    Number(Fraction),
    Text(Bytes),
    Truth(bool),
    Set(TupleSet),
}

impl Duplicate for Value {
    fn copy(&self) -> Result<Value, Memory> {
        match self {
            Value::Number(number) => Ok(Value::Number(*number)),
            Value::Text(text) => Ok(Value::Text(text.copy()?)),
            Value::Truth(truth) => Ok(Value::Truth(*truth)),
            Value::Set(set) => Ok(Value::Set(set.copy()?)),
        }
    }
}
