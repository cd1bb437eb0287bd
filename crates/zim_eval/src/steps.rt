//! What each form of an expression makes of what its parts answered.
ghost use Rattle.std.specs.Prelude.{◌≡◌, List, ◌∷◌, [], ◌++◌, Bool, Result, Ok};
ghost use Rattle.zim_answer.specs.Answer.{Answer, goes};
ghost use Rattle.zim_answer.specs.Gives.{Gives};
ghost use Rattle.zim_eval.specs.Causes.{eval_cause};
ghost use Rattle.zim_eval.specs.Private.{answered_then, signed_exponent, repeated_factorial};
ghost use Rattle.zim_fault.specs.declared.faults.Fault as faults;
ghost use Rattle.zim_meaning.specs.Expressions.{differ};
ghost use Rattle.zim_meaning.specs.Operations as exact;
ghost use Rattle.zim_meaning.specs.World.{at_place};
ghost use Rattle.zim_meaning.specs.declared.values.Value as values;
ghost use Rattle.zim_meaning.specs.declared.values.Value.TheVariants as of_value;
ghost use Rattle.zim_sets.specs.Listing.{set_listed};
ghost use Rattle.zim_sets.specs.Sets.{has};
ghost use Rattle.zim_tuples.specs.declared.elements.Elem as elements;

use crate::faults::{EvalStop, fault_at, kind_at, placed};
use std::alloc::Global;
use zim_fault::{Bytes, Duplicate, Place, Relation, Sequence, Token, Word};
use zim_meaning::Value;
use zim_operators::{
    applied, compared, element_of, factorial_of, negated, operated, projection, raised,
    set_between, set_of, set_of_members, set_or_stop, signed, truth_of,
};
use zim_sets::{TupleSet, set_of_list};
use zim_tuples::Tuple;

/// A text as it is written.
pub(crate) fn text_value(text: &Bytes) -> Result<Value, EvalStop>
    ensures { Gives (λ value. value) eval_cause (Ok (of_value.Text text.now)) result }
{
    Ok(Value::Text(text.copy()?))
}

/// `+a` and `-a`.
pub(crate) fn signed_of(
    place: Place,
    minus: bool,
    value: Result<Value, EvalStop>,
) -> Result<Value, EvalStop>
    ensures { (a : Answer values.Value faults.Fault) → Gives (λ v. v) eval_cause a value → Gives (λ v. v) eval_cause (answered_then a (λ v. at_place place (exact.value_signed minus v))) result }
{
    match value {
        Ok(value) => kind_at(place, signed(minus, &value)),
        Err(stop) => Err(stop),
    }
}

/// `not a`.
pub(crate) fn negated_of(place: Place, value: Result<Value, EvalStop>) -> Result<Value, EvalStop>
    ensures { (a : Answer values.Value faults.Fault) → Gives (λ v. v) eval_cause a value → Gives (λ v. v) eval_cause (answered_then a (λ v. at_place place (exact.value_negated v))) result }
{
    match value {
        Ok(value) => kind_at(place, negated(&value)),
        Err(stop) => Err(stop),
    }
}

/// The truth value of a part, where its operator stands at a place.
pub(crate) fn truth_at(place: Place, value: Result<Value, EvalStop>) -> Result<bool, EvalStop>
    ensures { (a : Answer values.Value faults.Fault) → Gives (λ v. v) eval_cause a value → Gives (λ b. b) eval_cause (answered_then a (λ v. at_place place (exact.truth_of_value v))) result }
{
    match value {
        Ok(value) => kind_at(place, truth_of(&value)),
        Err(stop) => Err(stop),
    }
}

/// A truth value as a value.
pub(crate) fn truth_value(truth: Result<bool, EvalStop>) -> Result<Value, EvalStop>
    ensures { (a : Answer Bool faults.Fault) → Gives (λ b. b) eval_cause a truth → Gives (λ v. v) eval_cause (answered_then a (λ b. Ok (of_value.Truth b))) result }
{
    match truth {
        Ok(truth) => Ok(Value::Truth(truth)),
        Err(stop) => Err(stop),
    }
}

/// `a xor b`, where the left value is known.
pub(crate) fn differing(
    place: Place,
    left: &Value,
    right: Result<Value, EvalStop>,
) -> Result<Value, EvalStop>
    ensures { (a : Answer values.Value faults.Fault) → Gives (λ v. v) eval_cause a right → Gives (λ v. v) eval_cause (answered_then a (λ w. answered_then (at_place place (exact.truth_of_value left.now)) (λ before. answered_then (at_place place (exact.truth_of_value w)) (λ b. Ok (of_value.Truth (differ before b)))))) result }
{
    match right {
        Ok(right) => match kind_at(place, truth_of(left)) {
            Ok(before) => match kind_at(place, truth_of(&right)) {
                Ok(truth) => Ok(Value::Truth(before != truth)),
                Err(stop) => Err(stop),
            },
            Err(stop) => Err(stop),
        },
        Err(stop) => Err(stop),
    }
}

/// `a <= b` and the like.
pub(crate) fn compared_of(
    place: Place,
    relation: Relation,
    left: Result<Value, EvalStop>,
    right: Result<Value, EvalStop>,
) -> Result<Value, EvalStop>
    ensures { (a b : Answer values.Value faults.Fault) → Gives (λ v. v) eval_cause a left → Gives (λ v. v) eval_cause b right → Gives (λ v. v) eval_cause (answered_then a (λ v. answered_then b (λ w. at_place place (exact.values_compared relation v w)))) result }
{
    match left {
        Ok(left) => match right {
            Ok(right) => kind_at(place, compared(relation, &left, &right)),
            Err(stop) => Err(stop),
        },
        Err(stop) => Err(stop),
    }
}

/// `a ^ b`.
pub(crate) fn raised_of(
    place: Place,
    base: Result<Value, EvalStop>,
    exponent: Result<Value, EvalStop>,
) -> Result<Value, EvalStop>
    ensures { (a b : Answer values.Value faults.Fault) → Gives (λ v. v) eval_cause a base → Gives (λ v. v) eval_cause b exponent → Gives (λ v. v) eval_cause (answered_then a (λ v. answered_then b (λ w. at_place place (exact.value_raised v w)))) result }
{
    match base {
        Ok(base) => match exponent {
            Ok(exponent) => kind_at(place, raised(&base, &exponent)),
            Err(stop) => Err(stop),
        },
        Err(stop) => Err(stop),
    }
}

/// An exponent with its sign, if it has one.
pub(crate) fn exponent_of(
    sign: &Option<(Place, bool)>,
    value: Result<Value, EvalStop>,
) -> Result<Value, EvalStop>
    ensures { (a : Answer values.Value faults.Fault) → Gives (λ v. v) eval_cause a value → Gives (λ v. v) eval_cause (signed_exponent sign.now a) result }
{
    match sign {
        Some((place, minus)) => signed_of(*place, *minus, value),
        None => value,
    }
}

/// A value with an operator and what its second operand answered.
pub(crate) fn operated_of(
    alloc: Global,
    place: Place,
    token: &Token,
    left: &Value,
    right: Result<Value, EvalStop>,
) -> Result<Value, EvalStop>
    ensures { (a : Answer values.Value faults.Fault) → Gives (λ v. v) eval_cause a right → Gives (λ v. v) eval_cause (answered_then a (λ w. at_place place (exact.values_operated token.now left.now w))) result }
{
    match right {
        Ok(right) => placed(place, operated(alloc, token, left, &right)),
        Err(stop) => Err(stop),
    }
}

/// `<a, b> in c`, where the set is lent.
pub(crate) fn held_in(set: &TupleSet, tuple: Result<Tuple, EvalStop>) -> Result<Value, EvalStop>
    ensures { (a : Answer (List elements.Elem) faults.Fault) → Gives (λ t. t) eval_cause a tuple → Gives (λ v. v) eval_cause (answered_then a (λ t. Ok (of_value.Truth (has set.now t)))) result }
{
    match tuple {
        Ok(tuple) => Ok(Value::Truth(set.contains(&tuple))),
        Err(stop) => Err(stop),
    }
}

/// `<a, b> in c`.
pub(crate) fn member_of(
    place: Place,
    tuple: Result<Tuple, EvalStop>,
    set: Result<Value, EvalStop>,
) -> Result<Value, EvalStop>
    ensures { (a : Answer (List elements.Elem) faults.Fault) (b : Answer values.Value faults.Fault) → Gives (λ t. t) eval_cause a tuple → Gives (λ v. v) eval_cause b set →
        Gives (λ v. v) eval_cause (answered_then a (λ t. answered_then b (λ v. answered_then (at_place place (exact.set_of_value v)) (λ s. Ok (of_value.Truth (has s t)))))) result }
{
    match tuple {
        Ok(tuple) => match set {
            Ok(value) => match set_of(&value) {
                Ok(set) => Ok(Value::Truth(set.contains(&tuple))),
                Err(kind) => Err(fault_at(place, kind)),
            },
            Err(stop) => Err(stop),
        },
        Err(stop) => Err(stop),
    }
}

/// A function that is a word, of what its arguments answered.
pub(crate) fn applied_of(
    alloc: Global,
    place: Place,
    word: Word,
    given: Result<Sequence<Value>, EvalStop>,
) -> Result<Value, EvalStop>
    ensures { (a : Answer (List values.Value) faults.Fault) → Gives (λ vs. vs) eval_cause a given → Gives (λ v. v) eval_cause (answered_then a (λ vs. at_place place (exact.word_applied word vs))) result }
{
    match given {
        Ok(given) => placed(place, applied(alloc, word, given.as_slice())),
        Err(stop) => Err(stop),
    }
}

/// `proj(a, <b, c>)`.
pub(crate) fn projected_of(
    alloc: Global,
    place: Place,
    set: Result<Value, EvalStop>,
    given: Result<Sequence<Value>, EvalStop>,
) -> Result<Value, EvalStop>
    ensures { (a : Answer values.Value faults.Fault) (b : Answer (List values.Value) faults.Fault) → Gives (λ v. v) eval_cause a set → Gives (λ vs. vs) eval_cause b given →
        Gives (λ v. v) eval_cause (answered_then a (λ v. answered_then b (λ vs. at_place place (exact.projection v vs)))) result }
{
    match set {
        Ok(set) => match given {
            Ok(given) => placed(place, projection(alloc, &set, given.as_slice())),
            Err(stop) => Err(stop),
        },
        Err(stop) => Err(stop),
    }
}

/// `{a, b}`.
pub(crate) fn members_of(
    alloc: Global,
    place: Place,
    given: Result<Sequence<Value>, EvalStop>,
) -> Result<Value, EvalStop>
    ensures { (a : Answer (List values.Value) faults.Fault) → Gives (λ vs. vs) eval_cause a given → Gives (λ v. v) eval_cause (answered_then a (λ vs. at_place place (exact.set_of_members vs))) result }
{
    match given {
        Ok(given) => placed(place, set_of_members(alloc, given.as_slice())),
        Err(stop) => Err(stop),
    }
}

/// `{<a, b>, <c, d>}`.
pub(crate) fn listed_of(
    alloc: Global,
    place: Place,
    tuples: Result<Sequence<Tuple>, EvalStop>,
) -> Result<Value, EvalStop>
    ensures { (a : Answer (List (List elements.Elem)) faults.Fault) → Gives (λ ts. ts) eval_cause a tuples → Gives (λ v. v) eval_cause (answered_then a (λ ts. answered_then (at_place place (set_listed ts)) (λ s. Ok (of_value.Set s)))) result }
{
    match tuples {
        Ok(tuples) => placed(place, set_or_stop(set_of_list(alloc, tuples.as_slice()))),
        Err(stop) => Err(stop),
    }
}

/// `{a .. b by c}`.
pub(crate) fn span_of(
    alloc: Global,
    place: Place,
    from: Result<Value, EvalStop>,
    to: Result<Value, EvalStop>,
    by: Result<Value, EvalStop>,
) -> Result<Value, EvalStop>
    ensures { (a b d : Answer values.Value faults.Fault) → Gives (λ v. v) eval_cause a from → Gives (λ v. v) eval_cause b to → Gives (λ v. v) eval_cause d by →
        Gives (λ v. v) eval_cause (answered_then a (λ n. answered_then b (λ m. answered_then d (λ s. at_place place (exact.set_between n m s))))) result }
{
    match from {
        Ok(from) => match to {
            Ok(to) => match by {
                Ok(by) => placed(place, set_between(alloc, &from, &to, &by)),
                Err(stop) => Err(stop),
            },
            Err(stop) => Err(stop),
        },
        Err(stop) => Err(stop),
    }
}

/// Adds what a part answered at the end.
pub(crate) fn add_value(
    made: &mut Sequence<Value>,
    value: Result<Value, EvalStop>,
) -> Result<(), EvalStop>
    ensures { (a : Answer values.Value faults.Fault) → Gives (λ v. v) eval_cause a value → Gives (λ _. made.new) eval_cause (answered_then a (λ v. Ok (made.old ++ v ∷ []))) result }
{
    match value {
        Ok(value) => {
            made.push(value)?;
            Ok(())
        }
        Err(stop) => Err(stop),
    }
}

/// Adds the number or text that a part answered, which begins at a place, at the end.
pub(crate) fn add_component(
    made: &mut Tuple,
    place: Place,
    value: Result<Value, EvalStop>,
) -> Result<(), EvalStop>
    ensures { (a : Answer values.Value faults.Fault) → Gives (λ v. v) eval_cause a value →
        Gives (λ _. made.new) eval_cause (answered_then (answered_then a (λ v. at_place place (exact.element_of_value v))) (λ next. Ok (made.old ++ next ∷ []))) result }
{
    match value {
        Ok(value) => match kind_at(place, element_of(value)) {
            Ok(next) => {
                made.push(next)?;
                Ok(())
            }
            Err(stop) => Err(stop),
        },
        Err(stop) => Err(stop),
    }
}

// One more `!`.
fn factorial_at(place: Place, value: &Value) -> Result<Value, EvalStop>
    ensures { Gives (λ v. v) eval_cause (at_place place (exact.value_factorial value.now)) result }
{
    kind_at(place, factorial_of(value))
}

// `a!!` of a value.
fn factorials(value: Value, places: &[Place]) -> Result<Value, EvalStop>
    ensures { Gives (λ v. v) eval_cause (goes repeated_factorial value places.now) result }
{
    let mut value = value;
    for place in places {
        match factorial_at(*place, &value) {
            Ok(next) => value = next,
            Err(stop) => return Err(stop),
        }
    }
    Ok(value)
}

/// `a!!`.
pub(crate) fn factorials_of(
    value: Result<Value, EvalStop>,
    places: &[Place],
) -> Result<Value, EvalStop>
    ensures { (a : Answer values.Value faults.Fault) → Gives (λ v. v) eval_cause a value → Gives (λ v. v) eval_cause (answered_then a (λ v. goes repeated_factorial v places.now)) result }
{
    match value {
        Ok(value) => factorials(value, places),
        Err(stop) => Err(stop),
    }
}
