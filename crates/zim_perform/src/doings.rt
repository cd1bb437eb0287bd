//! What a doing does.
ghost use Rattle.std.specs.Prelude.{Bool, []};
ghost use Rattle.zim_answer.specs.Answer.{Answer};
ghost use Rattle.zim_answer.specs.Gives.{Gives};
ghost use Rattle.zim_eval.specs.Causes.{eval_cause};
ghost use Rattle.zim_fault.specs.declared.faults.Fault as faults;
ghost use Rattle.zim_meaning.specs.Operations.{truth_of_value};
ghost use Rattle.zim_meaning.specs.Printing.{doing_output, passes_check};
ghost use Rattle.zim_meaning.specs.World.{at_place};
ghost use Rattle.zim_meaning.specs.declared.values.Value as values;
ghost use Rattle.zim_perform.specs.Performing.{print_cause, Continues};
ghost use Rattle.zim_perform.specs.Private.{answered_then};
ghost use Rattle.zim_perform.specs.Private as spec;

use crate::faults::{fault_at, kind_at};
use crate::lines::line_of;
use std::alloc::Global;
use zim_eval::{EvalStop, World, choices, value};
use zim_fault::{Kind, Place, Sequence};
use zim_meaning::{Choice, Value};
use zim_operators::truth_of;
use zim_tuples::Env;
use zim_typed::{Const, TDoing, TPrinted};

/// Does what a `do` says, and puts what it prints behind what was printed before.
///
/// A `print` puts a line once all its items are evaluated, a `check` whose value is false is `CheckFailed` at its word,
/// and a `forall` does what stands behind its index at each choice, in order. The first fault stops it, and what was
/// printed up to it stays. After `Memory` what was printed before is still there, and part of what the `do` prints may
/// stand behind it.
pub fn perform(
    alloc: Global,
    world: &World,
    tree: &TDoing,
    printed: &mut Sequence<u8>,
) -> Result<(), EvalStop>
    ensures answer { Gives (λ _. printed.new) (print_cause printed.new) (doing_output world.now tree.now [] printed.old) result }
    ensures kept { Continues printed.old printed.new }
{
    perform_in(alloc, world, &Env::new(alloc), tree, printed)
}

// Puts the line of a `print`.
fn print(
    alloc: Global,
    world: &World,
    env: &Env,
    items: &[TPrinted],
    printed: &mut Sequence<u8>,
) -> Result<(), EvalStop>
    ensures answer { Gives (λ _. printed.new) (print_cause printed.new) (spec.with_printed_line world.now env.now items.now printed.old) result }
    ensures kept { Continues printed.old printed.new }
{
    match line_of(alloc, world, env, items) {
        Ok(line) => {
            printed.extend_from_slice(line.as_slice())?;
            Ok(())
        }
        Err(stop) => Err(stop),
    }
}

// The truth value of a part, where its operator stands at a place.
fn truth_at(place: Place, value: Result<Value, EvalStop>) -> Result<bool, EvalStop>
    ensures { (a : Answer values.Value faults.Fault) → Gives (λ v. v) eval_cause a value → Gives (λ b. b) eval_cause (answered_then a (λ v. at_place place (truth_of_value v))) result }
{
    match value {
        Ok(value) => kind_at(place, truth_of(&value)),
        Err(stop) => Err(stop),
    }
}

// Nothing, where a `check` is true. `CheckFailed` comes at its word exactly where it is false.
fn passed(place: Place, truth: Result<bool, EvalStop>) -> Result<(), EvalStop>
    ensures { (a : Answer Bool faults.Fault) → Gives (λ b. b) eval_cause a truth → Gives (λ passed. passed) eval_cause (answered_then a (λ b. spec.check_passed place b)) result }
{
    match truth {
        Ok(true) => Ok(()),
        Ok(false) => Err(fault_at(place, Kind::CheckFailed)),
        Err(stop) => Err(stop),
    }
}

// Whether the value behind a `check` is true.
#[tactic(auto, unfolding(zim_meaning::specs::Printing::passes_check, zim_meaning::specs::Expressions::truth_at))]
fn check(
    alloc: Global,
    world: &World,
    env: &Env,
    place: Place,
    tree: &Const,
) -> Result<(), EvalStop>
    ensures { Gives (λ passed. passed) eval_cause (passes_check world.now env.now place tree.now) result }
{
    passed(place, truth_at(place, value(alloc, world, env, tree)))
}

// What a doing does in an environment.
#[cycle(performing)]
fn perform_in(
    alloc: Global,
    world: &World,
    env: &Env,
    tree: &TDoing,
    printed: &mut Sequence<u8>,
) -> Result<(), EvalStop>
    ensures answer { Gives (λ _. printed.new) (print_cause printed.new) (doing_output world.now tree.now env.now printed.old) result }
    ensures kept { Continues printed.old printed.new }
{
    match tree {
        TDoing::Print(_place, items) => print(alloc, world, env, items.as_slice(), printed),
        TDoing::Check(place, tree) => check(alloc, world, env, *place, tree.get()),
        TDoing::Forall(_place, index, _with_do, inner) => {
            match choices(alloc, world, env, index.get()) {
                Ok(choices) => {
                    perform_at_each(alloc, world, choices.as_slice(), inner.get(), printed)
                }
                Err(stop) => Err(stop),
            }
        }
    }
}

// What a doing does at each of these choices, in order.
#[cycle(performing)]
fn perform_at_each(
    alloc: Global,
    world: &World,
    choices: &[Choice],
    tree: &TDoing,
    printed: &mut Sequence<u8>,
) -> Result<(), EvalStop>
    ensures answer { Gives (λ _. printed.new) (print_cause printed.new) (spec.done_at_each world.now tree.now printed.old choices.now) result }
    ensures kept { Continues printed.old printed.new }
{
    for choice in choices {
        perform_in(alloc, world, &choice.env, tree, printed)?;
    }
    Ok(())
}
