//! What an index makes of its slots, its set and its condition.
ghost use Rattle.std.specs.Prelude.{◌≡◌, List, Option, ◌∷◌, [], ◌++◌, Bool, Ok, Some, IfOk};
ghost use Rattle.zim_answer.specs.Answer.{Answer};
ghost use Rattle.zim_answer.specs.Gives.{Gives};
ghost use Rattle.zim_eval.specs.Causes.{eval_cause};
ghost use Rattle.zim_eval.specs.Private.{answered_then, chosen_tuples, fitting_tuples, kept, with_kept};
ghost use Rattle.zim_fault.specs.declared.faults.Fault as faults;
ghost use Rattle.zim_fault.specs.declared.kinds.Kind.TheVariants.{WrongKind};
ghost use Rattle.zim_meaning.specs.Loops as loops;
ghost use Rattle.zim_meaning.specs.Operations as exact;
ghost use Rattle.zim_meaning.specs.World.{at_place};
ghost use Rattle.zim_meaning.specs.declared.choices.Choice as choices;
ghost use Rattle.zim_meaning.specs.declared.values.Value as values;
ghost use Rattle.zim_sets.specs.Sets.{IsSet};
ghost use Rattle.zim_tuples.specs.Patterns.{matched};
ghost use Rattle.zim_tuples.specs.declared.elements.Elem as elements;
ghost use Rattle.zim_tuples.specs.declared.patterns.Slot as slots;
ghost use Rattle.zim_tuples.specs.declared.patterns.Slot.TheVariants as of_slot;

use crate::faults::{EvalStop, fault_at, kind_at};
use std::alloc::Global;
use zim_fault::{Bytes, Duplicate, Kind, Memory, Place, Sequence};
use zim_meaning::{Choice, Value};
use zim_operators::{element_of, set_of};
use zim_sets::TupleSet;
use zim_tuples::{Env, Slot, Tuple, match_pattern};

/// A component that binds a name.
pub(crate) fn free_slot(name: &Bytes) -> Result<Slot, EvalStop>
    ensures { Gives (λ slot. slot) eval_cause (Ok (of_slot.Free name.now)) result }
{
    Ok(Slot::Free(name.copy()?))
}

/// A component that is the element that a part answered, which begins at a place.
pub(crate) fn fixed_slot(place: Place, value: Result<Value, EvalStop>) -> Result<Slot, EvalStop>
    ensures { (a : Answer values.Value faults.Fault) → Gives (λ v. v) eval_cause a value →
        Gives (λ slot. slot) eval_cause (answered_then (answered_then a (λ v. at_place place (exact.element_of_value v))) (λ element. Ok (of_slot.Fixed element))) result }
{
    match value {
        Ok(value) => match kind_at(place, element_of(value)) {
            Ok(element) => Ok(Slot::Fixed(element)),
            Err(stop) => Err(stop),
        },
        Err(stop) => Err(stop),
    }
}

/// Adds what was answered at the end.
pub(crate) fn add_answer<T: Drop>(
    made: &mut Sequence<T>,
    answer: Result<T, EvalStop>,
) -> Result<(), EvalStop>
    ensures { (a : Answer T faults.Fault) → Gives (λ x. x) eval_cause a answer → Gives (λ _. made.new) eval_cause (answered_then a (λ x. Ok (made.old ++ x ∷ []))) result }
{
    match answer {
        Ok(item) => {
            made.push(item)?;
            Ok(())
        }
        Err(stop) => Err(stop),
    }
}

// Whether the tuples of a set have as many components as there are slots, or there are none.
fn is_fitting(slots: &[Slot], tuples: &[Tuple]) -> Result<bool, Kind>
    ensures { result ≡ loops.fits_slots slots.now tuples.now }
{
    match tuples {
        [] => Ok(true),
        [tuple, ..] => {
            if slots.len() == tuple.len() {
                Ok(true)
            } else {
                Err(Kind::WrongKind)
            }
        }
    }
}

/// The set that a value is, whose tuples have as many components as there are slots.
pub(crate) fn fitting_set<'a>(
    place: Place,
    slots: &[Slot],
    value: &'a Value,
) -> Result<&'a TupleSet, EvalStop>
    ensures { Gives (λ set. set.now) eval_cause (fitting_tuples place slots.now value.now) result }
{
    match set_of(value) {
        Ok(set) => match is_fitting(slots, set.as_slice()) {
            Ok(_) => Ok(set),
            Err(kind) => Err(fault_at(place, kind)),
        },
        Err(kind) => Err(fault_at(place, kind)),
    }
}

/// A tuple with the environment that it makes, where what follows says that it passes.
pub(crate) fn kept_where(
    tuple: &Tuple,
    inner: Env,
    passes: Result<bool, EvalStop>,
) -> Result<Option<Choice>, EvalStop>
    ensures { (a : Answer Bool faults.Fault) → Gives (λ b. b) eval_cause a passes → Gives (λ choice. choice) eval_cause (answered_then a (λ b. Ok (kept tuple.now inner b))) result }
{
    match passes {
        Ok(true) => match tuple.copy() {
            Ok(tuple) => Ok(Some(Choice { tuple, env: inner })),
            Err(_) => Err(EvalStop::Memory),
        },
        Ok(false) => Ok(None),
        Err(stop) => Err(stop),
    }
}

/// Adds a choice at the end, if there is one.
pub(crate) fn add_choice(
    chosen: &mut Sequence<Choice>,
    choice: Result<Option<Choice>, EvalStop>,
) -> Result<(), EvalStop>
    ensures { (a : Answer (Option choices.Choice) faults.Fault) → Gives (λ c. c) eval_cause a choice → Gives (λ _. chosen.new) eval_cause (answered_then a (λ c. Ok (with_kept chosen.old c))) result }
{
    match choice {
        Ok(Some(choice)) => {
            chosen.push(choice)?;
            Ok(())
        }
        Ok(None) => Ok(()),
        Err(stop) => Err(stop),
    }
}

// The tuples of choices.
fn tuples_of(alloc: Global, chosen: &[Choice]) -> Result<Sequence<Tuple>, Memory>
    ensures { IfOk result (λ tuples. tuples ≡ chosen_tuples chosen.now) }
{
    let mut tuples = Sequence::new(alloc);
    for choice in chosen {
        tuples.push(choice.tuple.copy()?)?;
    }
    Ok(tuples)
}

/// `{ index }`: the tuples that were chosen of a set, whole.
#[tactic(auto, unfolding(zim_meaning::specs::Loops::chosen_value))]
pub(crate) fn chosen_set(
    alloc: Global,
    chosen: Result<Sequence<Choice>, EvalStop>,
) -> Result<Value, EvalStop>
    requires { IfOk chosen (λ cs. IsSet (chosen_tuples cs)) }
    ensures { (a : Answer (List choices.Choice) faults.Fault) → Gives (λ cs. cs) eval_cause a chosen → Gives (λ v. v) eval_cause (answered_then a (λ cs. Ok (loops.chosen_value cs))) result }
{
    match chosen {
        Ok(chosen) => match tuples_of(alloc, chosen.as_slice()) {
            Ok(tuples) => Ok(Value::Set(TupleSet::of_tuples(tuples))),
            Err(_) => Err(EvalStop::Memory),
        },
        Err(stop) => Err(stop),
    }
}
