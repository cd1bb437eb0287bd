//! The line of a `print`.
ghost use Rattle.std.specs.Prelude.{List, [], ◌∷◌, ◌++◌, Ok};
ghost use Rattle.zim_answer.specs.Answer.{Answer, goes};
ghost use Rattle.zim_answer.specs.Gives.{Gives};
ghost use Rattle.zim_eval.specs.Causes.{eval_cause};
ghost use Rattle.zim_fault.specs.declared.faults.Fault as faults;
ghost use Rattle.zim_meaning.specs.Operations.{element_of_value};
ghost use Rattle.zim_meaning.specs.Printing.{print_output, tuple_output, value_output};
ghost use Rattle.zim_meaning.specs.World.{at_place};
ghost use Rattle.zim_meaning.specs.declared.values.Value as values;
ghost use Rattle.zim_perform.specs.Private.{answered_then};
ghost use Rattle.zim_perform.specs.Private as spec;
ghost use Rattle.zim_tuples.specs.declared.elements.Elem as elements;

use crate::faults::kind_at;
use crate::texts::{put_tuple, put_value};
use std::alloc::Global;
use zim_eval::{EvalStop, World, value};
use zim_fault::{Place, Sequence};
use zim_meaning::Value;
use zim_operators::element_of;
use zim_tuples::{Env, Tuple};
use zim_typed::{Const, TPrinted};

// Adds the number or text that a part answered, which begins at a place, at the end.
fn add_component(
    made: &mut Tuple,
    place: Place,
    value: Result<Value, EvalStop>,
) -> Result<(), EvalStop>
    ensures { (a : Answer values.Value faults.Fault) → Gives (λ v. v) eval_cause a value →
        Gives (λ _. made.new) eval_cause (answered_then (answered_then a (λ v. at_place place (element_of_value v))) (λ next. Ok (made.old ++ next ∷ []))) result }
{
    match value {
        Ok(value) => match kind_at(place, element_of(value)) {
            Ok(next) => {
                made.push(next)?;
                Ok(())
            }
            Err(stop) => Err(stop),
        },
        Err(stop) => Err(stop),
    }
}

// The tuple of expressions, each looked at before the next one is evaluated.
fn tuple_of(alloc: Global, world: &World, env: &Env, trees: &[Const]) -> Result<Tuple, EvalStop>
    ensures { Gives (λ tuple. tuple) eval_cause (spec.tuple_printed world.now env.now trees.now) result }
{
    let mut made = Tuple::new(alloc);
    for tree in trees {
        add_component(
            &mut made,
            tree.first_place(),
            value(alloc, world, env, tree),
        )?;
    }
    Ok(made)
}

// Puts the text of a value that was answered.
fn put_answer(value: Result<Value, EvalStop>, line: &mut Sequence<u8>) -> Result<(), EvalStop>
    ensures { (a : Answer values.Value faults.Fault) → Gives (λ v. v) eval_cause a value → Gives (λ _. line.new) eval_cause (answered_then a (λ v. Ok (line.old ++ value_output v))) result }
{
    match value {
        Ok(value) => {
            put_value(&value, line)?;
            Ok(())
        }
        Err(stop) => Err(stop),
    }
}

// Puts the text of a tuple that was answered.
fn put_answered_tuple(
    tuple: Result<Tuple, EvalStop>,
    line: &mut Sequence<u8>,
) -> Result<(), EvalStop>
    ensures { (a : Answer (List elements.Elem) faults.Fault) → Gives (λ t. t) eval_cause a tuple → Gives (λ _. line.new) eval_cause (answered_then a (λ t. Ok (line.old ++ tuple_output t))) result }
{
    match tuple {
        Ok(tuple) => {
            put_tuple(tuple.as_slice(), line)?;
            Ok(())
        }
        Err(stop) => Err(stop),
    }
}

// Puts what one item prints. After an error the line is of no use.
fn put_item(
    alloc: Global,
    world: &World,
    env: &Env,
    item: &TPrinted,
    line: &mut Sequence<u8>,
) -> Result<(), EvalStop>
    ensures { Gives (λ _. line.new) eval_cause (spec.with_item_text world.now env.now line.old item.now) result }
{
    match item {
        TPrinted::Value(tree) => put_answer(value(alloc, world, env, tree.get()), line),
        TPrinted::Tuple(tree) => put_answered_tuple(
            tuple_of(alloc, world, env, tree.items.as_slice()),
            line,
        ),
    }
}

// Puts what items print, each behind a blank.
fn put_further_items(
    alloc: Global,
    world: &World,
    env: &Env,
    items: &[TPrinted],
    line: &mut Sequence<u8>,
) -> Result<(), EvalStop>
    ensures { Gives (λ _. line.new) eval_cause (goes (spec.with_further_item world.now env.now) line.old items.now) result }
{
    for item in items {
        line.push(b' ')?;
        put_item(alloc, world, env, item, line)?;
    }
    Ok(())
}

/// Puts what items print, with a blank between each two. After an error the line is of no use.
pub(crate) fn put_items(
    alloc: Global,
    world: &World,
    env: &Env,
    items: &[TPrinted],
    line: &mut Sequence<u8>,
) -> Result<(), EvalStop>
    ensures { Gives (λ _. line.new) eval_cause (spec.items_output world.now env.now line.old items.now) result }
{
    match items.split_first() {
        Some((first, further)) => match put_item(alloc, world, env, first, line) {
            Ok(()) => put_further_items(alloc, world, env, further, line),
            Err(stop) => Err(stop),
        },
        None => Ok(()),
    }
}

/// The line that a `print` prints, with its end.
pub(crate) fn line_of(
    alloc: Global,
    world: &World,
    env: &Env,
    items: &[TPrinted],
) -> Result<Sequence<u8>, EvalStop>
    ensures { Gives (λ line. line) eval_cause (print_output world.now env.now items.now) result }
{
    let mut line = Sequence::new(alloc);
    match put_items(alloc, world, env, items, &mut line) {
        Ok(()) => {
            line.push(b'\n')?;
            Ok(line)
        }
        Err(stop) => Err(stop),
    }
}
