//! What a value is: a number, a truth value, a set, a component of a tuple.
ghost use Rattle.std.specs.Prelude.{◌≡◌, IfOk};
ghost use Rattle.zim_answer.specs.Gives.{Gives, Met};
ghost use Rattle.zim_meaning.specs.Operations.{number_of_value, truth_of_value, set_of_value, element_of_value, param_of_value};
ghost use Rattle.zim_meaning.specs.Operations as spec;

use zim_fault::{Duplicate, Kind, Memory, Word};
use zim_fraction::Fraction;
use zim_meaning::Value;
use zim_sets::TupleSet;
use zim_tuples::Elem;

/// The number that a value is. `WrongKind` exactly where it is none.
pub fn number_of(value: &Value) -> Result<Fraction, Kind>
    ensures { result ≡ number_of_value value.now }
{
    match value {
        Value::Number(number) => Ok(*number),
        _ => Err(Kind::WrongKind),
    }
}

/// The truth value that a value is. `WrongKind` exactly where it is none.
pub fn truth_of(value: &Value) -> Result<bool, Kind>
    ensures { result ≡ truth_of_value value.now }
{
    match value {
        Value::Truth(truth) => Ok(*truth),
        _ => Err(Kind::WrongKind),
    }
}

/// The set that a value is. `WrongKind` exactly where it is none.
pub fn set_of(value: &Value) -> Result<&TupleSet, Kind>
    ensures { Gives (λ set. set.now) Met (set_of_value value.now) result }
{
    match value {
        Value::Set(set) => Ok(set),
        _ => Err(Kind::WrongKind),
    }
}

/// The number or text that a value is. `WrongKind` exactly where it is neither.
pub fn element_of(value: Value) -> Result<Elem, Kind>
    ensures { result ≡ element_of_value value }
{
    match value {
        Value::Number(number) => Ok(Elem::Number(number)),
        Value::Text(text) => Ok(Elem::Text(text)),
        _ => Err(Kind::WrongKind),
    }
}

/// The value, which is a number, a text or a truth value. `WrongKind` exactly where it is a set.
pub fn param_of(value: Value) -> Result<Value, Kind>
    ensures { result ≡ param_of_value value }
{
    match value {
        Value::Set(_) => Err(Kind::WrongKind),
        _ => Ok(value),
    }
}

/// A component of a tuple as a value.
pub fn value_of_element(element: &Elem) -> Result<Value, Memory>
    ensures { IfOk result (λ value. value ≡ spec.value_of_element element.now) }
{
    match element {
        Elem::Number(number) => Ok(Value::Number(*number)),
        Elem::Text(text) => Ok(Value::Text(text.copy()?)),
    }
}

// Whether a value is of the kind that the word of a definition says.
fn is_defined_kind(word: Word, value: &Value) -> bool
    ensures { result ≡ spec.is_defined_kind word value.now }
{
    match word {
        Word::WDefnumb => matches!(value, Value::Number(_)),
        Word::WDefstrg => matches!(value, Value::Text(_)),
        Word::WDefbool => matches!(value, Value::Truth(_)),
        Word::WDefset => matches!(value, Value::Set(_)),
        _ => false,
    }
}

/// The result of a function whose definition has this word. `WrongKind` exactly where it is of another kind.
#[tactic(auto, unfolding(zim_meaning::specs::Operations::of_defined_kind))]
pub fn of_defined_kind(word: Word, value: Value) -> Result<Value, Kind>
    ensures { result ≡ spec.of_defined_kind word value }
{
    if is_defined_kind(word, &value) {
        Ok(value)
    } else {
        Err(Kind::WrongKind)
    }
}
