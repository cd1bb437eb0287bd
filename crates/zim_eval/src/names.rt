//! What names stand for.
ghost use Rattle.std.specs.Prelude.{◌≡◌, List, Option, IfOk, option_copied, option_map};
ghost use Rattle.zim_answer.specs.Answer.{Answer};
ghost use Rattle.zim_answer.specs.Gives.{Gives};
ghost use Rattle.zim_eval.specs.Private.{answered_then, named_tuples};
ghost use Rattle.zim_fault.specs.declared.faults.Fault as faults;
ghost use Rattle.zim_meaning.specs.Operations as spec;
ghost use Rattle.zim_meaning.specs.declared.values.Value as values;
ghost use Rattle.zim_meaning.specs.declared.values.Value.TheVariants as of_value;
ghost use Rattle.zim_tuples.specs.declared.elements.Elem as elements;
ghost use Rattle.zim_typed.specs.declared.constant.Resolved.TheVariants as resolved_as;
ghost use Rattle.zim_eval.specs.Causes.{eval_cause};
ghost use Rattle.zim_meaning.specs.Expressions.{bare_name_value, indexed_name_value};
ghost use Rattle.zim_meaning.specs.World.{at_place, entry};

use crate::faults::{EvalStop, fault_at};
use crate::world::World;
use zim_fault::{Bytes, Duplicate, Kind, Memory, Place};
use zim_meaning::Value;
use zim_operators::value_of_element;
use zim_sets::TupleSet;
use zim_tuples::{Elem, Env, Tuple, element_named};
use zim_typed::Resolved;

// A copy of a value, if there is one.
fn value_copied(found: Option<&Value>) -> Result<Option<Value>, Memory>
    ensures { IfOk result (λ value. value ≡ option_copied found.entry) }
{
    match found {
        Some(value) => Ok(Some(value.copy()?)),
        None => Ok(None),
    }
}

// A copy of a set as a value, if there is one.
fn set_copied(found: Option<&TupleSet>) -> Result<Option<Value>, Memory>
    ensures { IfOk result (λ value. value ≡ option_map of_value.Set (option_copied found.entry)) }
{
    match found {
        Some(set) => Ok(Some(Value::Set(set.copy()?))),
        None => Ok(None),
    }
}

// An element as a value, if there is one.
fn element_copied(found: Option<&Elem>) -> Result<Option<Value>, Memory>
    ensures { IfOk result (λ value. value ≡ option_map spec.value_of_element (option_copied found.entry)) }
{
    match found {
        Some(element) => Ok(Some(value_of_element(element)?)),
        None => Ok(None),
    }
}

/// The set that a name stands for: a set, or of an indexed set the whole index set; None exactly where there is neither.
pub(crate) fn named_set<'a>(world: &'a World, name: &Bytes) -> Option<&'a TupleSet>
    ensures { option_copied result ≡ named_tuples world.now name.now }
{
    match world.set(name) {
        Some(set) => Some(set),
        None => match world.indexed_set(name) {
            Some(family) => Some(family.indices()),
            None => None,
        },
    }
}

/// The value of a bare name, if it has one.
#[tactic(auto, unfolding(zim_meaning::specs::Expressions::bare_name_value))]
fn bare_name(
    world: &World,
    env: &Env,
    name: &Bytes,
    resolved: Resolved,
) -> Result<Option<Value>, Memory>
    ensures { IfOk result (λ found. found ≡ bare_name_value world.now env.now name.now resolved) }
{
    match resolved {
        Resolved::Local => element_copied(element_named(env, name)),
        Resolved::Parameter => value_copied(world.param(name)),
        Resolved::Set => set_copied(named_set(world, name)),
        Resolved::Function => Ok(None),
    }
}

// The value of a parameter at an index, if there is one.
#[tactic(auto, unfolding(zim_meaning::specs::Expressions::indexed_name_value))]
fn param_at<'a>(world: &'a World, name: &Bytes, index: &Tuple) -> Option<&'a Value>
    ensures { option_copied result ≡ indexed_name_value world.now name.now resolved_as.Parameter index.now }
{
    match world.indexed_param(name) {
        Some(param) => param.at(index),
        None => None,
    }
}

// The set of an indexed set at an index, if there is one.
#[tactic(auto, unfolding(zim_meaning::specs::Expressions::indexed_name_value))]
fn set_at<'a>(world: &'a World, name: &Bytes, index: &Tuple) -> Option<&'a TupleSet>
    ensures { option_map of_value.Set (option_copied result) ≡ indexed_name_value world.now name.now resolved_as.Set index.now }
{
    match world.indexed_set(name) {
        Some(family) => family.at(index),
        None => None,
    }
}

/// The value of a name with an index, if it has one.
#[tactic(auto, unfolding(zim_meaning::specs::Expressions::indexed_name_value))]
fn indexed_name(
    world: &World,
    name: &Bytes,
    resolved: Resolved,
    index: &Tuple,
) -> Result<Option<Value>, Memory>
    ensures { IfOk result (λ found. found ≡ indexed_name_value world.now name.now resolved index.now) }
{
    match resolved {
        Resolved::Parameter => value_copied(param_at(world, name, index)),
        Resolved::Set => set_copied(set_at(world, name, index)),
        Resolved::Local => Ok(None),
        Resolved::Function => Ok(None),
    }
}

// What was found, or that nothing is there.
fn found_at(place: Place, found: Result<Option<Value>, Memory>) -> Result<Value, EvalStop>
    ensures { (wanted : Option values.Value) → IfOk found (λ there. there ≡ wanted) → Gives (λ v. v) eval_cause (at_place place (entry wanted)) result }
{
    match found {
        Ok(Some(value)) => Ok(value),
        Ok(None) => Err(fault_at(place, Kind::NoEntry)),
        Err(_) => Err(EvalStop::Memory),
    }
}

/// The value of a bare name at a place.
pub(crate) fn name_at(
    world: &World,
    env: &Env,
    place: Place,
    name: &Bytes,
    resolved: Resolved,
) -> Result<Value, EvalStop>
    ensures { Gives (λ v. v) eval_cause (at_place place (entry (bare_name_value world.now env.now name.now resolved))) result }
{
    found_at(place, bare_name(world, env, name, resolved))
}

/// The value of a name at a place with the index that was answered.
pub(crate) fn item_at(
    world: &World,
    place: Place,
    name: &Bytes,
    resolved: Resolved,
    index: Result<Tuple, EvalStop>,
) -> Result<Value, EvalStop>
    ensures { (a : Answer (List elements.Elem) faults.Fault) → Gives (λ t. t) eval_cause a index → Gives (λ v. v) eval_cause (answered_then a (λ t. at_place place (entry (indexed_name_value world.now name.now resolved t)))) result }
{
    match index {
        Ok(index) => found_at(place, indexed_name(world, name, resolved, &index)),
        Err(stop) => Err(stop),
    }
}
