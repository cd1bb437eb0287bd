//! What is gathered over the choices of an index: totals, and the best with its tuple.
ghost use Rattle.std.specs.Prelude.{◌≡◌, [], ◌∷◌, Ok, if◌then◌else◌};
ghost use Rattle.zim_answer.specs.Answer.{Answer};
ghost use Rattle.zim_answer.specs.Gives.{Gives};
ghost use Rattle.zim_eval.specs.Causes.{eval_cause};
ghost use Rattle.zim_eval.specs.Private.{answered_then, gathering_start, gathering_with, gathering_with_value, total_with};
ghost use Rattle.zim_eval.specs.Private as spec;
ghost use Rattle.zim_eval.specs.declared.gathering.Gathering.TheVariants as gathering;
ghost use Rattle.zim_fault.specs.declared.faults.Fault as faults;
ghost use Rattle.zim_meaning.specs.Loops as loops;
ghost use Rattle.zim_meaning.specs.World.{at_place};
ghost use Rattle.zim_meaning.specs.declared.values.Value as values;
ghost use Rattle.zim_meaning.specs.declared.values.Value.TheVariants as of_value;
ghost use Rattle.zim_operators.specs.Causes.{stop_cause};
ghost use Rattle.zim_rational.specs.Rational as exact;

use crate::faults::{EvalStop, placed};
use std::alloc::Global;
use std::cmp::Ordering;
use zim_fault::{Duplicate, Kind, Place, Sequence, Word};
use zim_fraction::{Fraction, add, compare, mul};
use zim_meaning::Value;
use zim_operators::{Stop, number_of};
use zim_sets::TupleSet;
use zim_tuples::Tuple;

/// What was gathered so far.
#[derive(Drop)]
pub(crate) enum Gathering {
    /// The sum of numbers, or their product where the flag says so.
    Total(bool, Fraction),
    /// The least number, or the greatest where the first flag says so, with the first tuple that has it. The second
    /// flag says that the tuple is asked for.
    Best(bool, bool, Option<(Fraction, Tuple)>),
}

/// Before the first choice. `WrongKind` exactly where the word gathers nothing.
pub(crate) fn start_of(word: Word) -> Result<Gathering, Kind>
    ensures { result ≡ gathering_start word }
{
    match word {
        Word::WSum => Ok(Gathering::Total(false, Fraction::zero())),
        Word::WProd => Ok(Gathering::Total(true, Fraction::one())),
        Word::WMin => Ok(Gathering::Best(false, false, None)),
        Word::WMax => Ok(Gathering::Best(true, false, None)),
        Word::WArgmin => Ok(Gathering::Best(false, true, None)),
        Word::WArgmax => Ok(Gathering::Best(true, true, None)),
        _ => Err(Kind::WrongKind),
    }
}

// A total with a number more.
fn total_of(is_product: bool, total: Fraction, number: Fraction) -> Result<Fraction, Kind>
    ensures { result ≡ total_with is_product total number }
{
    let next = if is_product {
        mul(total, number)
    } else {
        add(total, number)
    };
    match next {
        Ok(next) => Ok(next),
        Err(_) => Err(Kind::Past),
    }
}

// Whether a number is below another.
fn is_below(a: Fraction, b: Fraction) -> bool
    ensures { result ≡ exact.below a b }
{
    match compare(a, b) {
        Ordering::Less => true,
        Ordering::Equal => false,
        Ordering::Greater => false,
    }
}

// Whether a number is better than the best so far.
fn is_better(greatest: bool, number: Fraction, best: &Option<(Fraction, Tuple)>) -> bool
    ensures { result ≡ loops.is_better greatest number best.now }
{
    match best {
        Some((before, _tuple)) => {
            if greatest {
                is_below(*before, number)
            } else {
                is_below(number, *before)
            }
        }
        None => true,
    }
}

// With the number at a tuple.
fn with_number(state: Gathering, tuple: &Tuple, number: Fraction) -> Result<Gathering, Stop>
    ensures { Gives (λ next. next) stop_cause (gathering_with state tuple.now number) result }
{
    match state {
        Gathering::Total(is_product, total) => match total_of(is_product, total, number) {
            Ok(next) => Ok(Gathering::Total(is_product, next)),
            Err(kind) => Err(Stop::Kind(kind)),
        },
        Gathering::Best(greatest, is_tuple, best) => {
            if is_better(greatest, number, &best) {
                match tuple.copy() {
                    Ok(tuple) => Ok(Gathering::Best(greatest, is_tuple, Some((number, tuple)))),
                    Err(_) => Err(Stop::Memory),
                }
            } else {
                Ok(Gathering::Best(greatest, is_tuple, best))
            }
        }
    }
}

// With the value at a tuple.
#[tactic(auto, unfolding(crate::specs::Private::gathering_with_value))]
fn with_value(state: Gathering, tuple: &Tuple, value: &Value) -> Result<Gathering, Stop>
    ensures { Gives (λ next. next) stop_cause (gathering_with_value state tuple.now value.now) result }
{
    match number_of(value) {
        Ok(number) => with_number(state, tuple, number),
        Err(kind) => Err(Stop::Kind(kind)),
    }
}

/// With what stands behind an index at the choice of a tuple.
pub(crate) fn gathered_with(
    state: Gathering,
    place: Place,
    tuple: &Tuple,
    value: Result<Value, EvalStop>,
) -> Result<Gathering, EvalStop>
    ensures { (a : Answer values.Value faults.Fault) → Gives (λ v. v) eval_cause a value → Gives (λ next. next) eval_cause (answered_then a (λ v. at_place place (gathering_with_value state tuple.now v))) result }
{
    match value {
        Ok(value) => placed(place, with_value(state, tuple, &value)),
        Err(stop) => Err(stop),
    }
}

// The set of one tuple.
fn set_of_one(alloc: Global, tuple: Tuple) -> Result<Value, Stop>
    ensures { Gives (λ value. value) stop_cause (Ok (of_value.Set (tuple ∷ []))) result }
{
    let mut tuples = Sequence::new(alloc);
    tuples.push(tuple)?;
    Ok(Value::Set(TupleSet::of_tuples(tuples)))
}

// The best value, or the set of its tuple.
fn best_value(alloc: Global, is_tuple: bool, number: Fraction, tuple: Tuple) -> Result<Value, Stop>
    ensures { Gives (λ value. value) stop_cause (Ok (if is_tuple then loops.best_tuple (number, tuple) else loops.best_number (number, tuple))) result }
{
    if is_tuple {
        set_of_one(alloc, tuple)
    } else {
        Ok(Value::Number(number))
    }
}

// After the last choice.
#[tactic(auto, unfolding(crate::specs::Private::gathering_value))]
fn end_value(alloc: Global, state: Gathering) -> Result<Value, Stop>
    ensures { Gives (λ value. value) stop_cause (spec.gathering_value state) result }
{
    match state {
        Gathering::Total(_is_product, total) => Ok(Value::Number(total)),
        Gathering::Best(_greatest, is_tuple, best) => match best {
            Some((number, tuple)) => best_value(alloc, is_tuple, number, tuple),
            None => Err(Stop::Kind(Kind::EmptyChoice)),
        },
    }
}

/// The value that was gathered, after the last choice. `EmptyChoice` exactly where a best was asked for and there was no
/// choice.
pub(crate) fn end_of(alloc: Global, place: Place, state: Gathering) -> Result<Value, EvalStop>
    ensures { Gives (λ value. value) eval_cause (at_place place (spec.gathering_value state)) result }
{
    placed(place, end_value(alloc, state))
}
