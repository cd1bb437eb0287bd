//! The value of an expression: one cycle of calls, which follows the trees and the bodies of functions.
ghost use Rattle.std.specs.Prelude.{◌≡◌, IfOk};
ghost use Rattle.zim_answer.specs.Gives.{Gives};
ghost use Rattle.zim_eval.specs.Causes.{eval_cause};
ghost use Rattle.zim_sets.specs.Sets.{IsSet};
ghost use Rattle.zim_eval.specs.Private.{value_in, values_in, tuple_in, chain_in, conjunct_in, conjuncts_in, disjunct_in, disjuncts_in, body_in, tuples_in, slot_in, slots_in, passes_in, choice_in, among_in, choices_in, chosen_tuples, gathering_in};

use crate::callee::{bound, callee};
use crate::faults::{EvalStop, fault_at, kind_at};
use crate::gathering::{Gathering, end_of, gathered_with, start_of};
use crate::indices::{
    add_answer, add_choice, chosen_set, fitting_set, fixed_slot, free_slot, kept_where,
};
use crate::names::{item_at, name_at};
use crate::steps::{
    add_component, add_value, applied_of, compared_of, differing, exponent_of, factorials_of,
    listed_of, member_of, members_of, negated_of, operated_of, projected_of, raised_of, signed_of,
    span_of, text_value, truth_at, truth_value,
};
use crate::world::World;
use std::alloc::Global;
use zim_fault::{Kind, Place, Sequence, Token};
use zim_fraction::Fraction;
use zim_meaning::{Choice, Value};
use zim_operators::{literal, of_defined_kind, truth_of};
use zim_sets::TupleSet;
use zim_tuples::{Env, Slot, Tuple, match_pattern};
use zim_typed::{Const, Loop, LoopSlot, TAngle, TBody};

/// The value of an expression, where the first functions of the world are known, so many of them.
#[cycle(evaluate)]
#[tactic(auto, using(crate::proofs::FormLemmas::forms))]
pub(crate) fn value_of(
    alloc: Global,
    world: &World,
    known: usize,
    env: &Env,
    tree: &Const,
) -> Result<Value, EvalStop>
    ensures { Gives (λ v. v) eval_cause (value_in world.now known env.now tree.now) result }
{
    match tree {
        Const::Number(place, digits) => kind_at(*place, literal(digits)),
        Const::Text(_place, text, _double) => text_value(text),
        Const::Truth(_place, truth) => Ok(Value::Truth(*truth)),
        Const::Infinity(place) => Err(fault_at(*place, Kind::WrongKind)),
        Const::Name(place, name, resolved) => name_at(world, env, *place, name, *resolved),
        Const::Item(place, name, index, resolved) => {
            item_at(
                world,
                *place,
                name,
                *resolved,
                tuple_of(alloc, world, known, env, index.as_slice()),
            )
        }
        Const::Call(place, name, given, _resolved) => {
            match tuple_of(alloc, world, known, env, given.as_slice()) {
                Ok(given) => match callee(world, known, name) {
                    Some((position, definition)) => match bound(alloc, &definition.params, &given) {
                        Ok(inner) => match value_of(
                            alloc,
                            world,
                            position,
                            &inner,
                            definition.body.get(),
                        ) {
                            Ok(value) => kind_at(*place, of_defined_kind(definition.kind, value)),
                            Err(stop) => Err(stop),
                        },
                        Err(_) => Err(EvalStop::Memory),
                    },
                    None => Err(fault_at(*place, Kind::NoEntry)),
                },
                Err(stop) => Err(stop),
            }
        }
        Const::Func(place, word, given) => {
            applied_of(
                alloc,
                *place,
                *word,
                values_of(alloc, world, known, env, given.as_slice()),
            )
        }
        Const::Proj(place, set, positions) => projected_of(
            alloc,
            *place,
            value_of(alloc, world, known, env, set.get()),
            values_of(alloc, world, known, env, positions.items.as_slice()),
        ),
        Const::Member(place, tuple, set) => member_of(
            *place,
            tuple_of(alloc, world, known, env, tuple.items.as_slice()),
            value_of(alloc, world, known, env, set.get()),
        ),
        Const::Paren(_place, inner) => value_of(alloc, world, known, env, inner.get()),
        Const::Braces(place, body) => body_of(alloc, world, known, env, *place, body.get()),
        Const::If(place, test, branch, otherwise) => {
            match truth_at(*place, value_of(alloc, world, known, env, test.get())) {
                Ok(true) => value_of(alloc, world, known, env, branch.get()),
                Ok(false) => value_of(alloc, world, known, env, otherwise.get()),
                Err(stop) => Err(stop),
            }
        }
        Const::Factorial(operand, places) => {
            factorials_of(
                value_of(alloc, world, known, env, operand.get()),
                places.as_slice(),
            )
        }
        Const::Power(place, _sign, base, sign, exponent) => raised_of(
            *place,
            value_of(alloc, world, known, env, base.get()),
            exponent_of(sign, value_of(alloc, world, known, env, exponent.get())),
        ),
        Const::Signed(place, minus, operand) => {
            signed_of(
                *place,
                *minus,
                value_of(alloc, world, known, env, operand.get()),
            )
        }
        Const::Big(place, word, index, _with_do, body) => {
            match choices_of(alloc, world, known, env, index.get()) {
                Ok(choices) => match kind_at(*place, start_of(*word)) {
                    Ok(start) => gathered_of(
                        alloc,
                        world,
                        known,
                        *place,
                        body.get(),
                        start,
                        choices.as_slice(),
                    ),
                    Err(stop) => Err(stop),
                },
                Err(stop) => Err(stop),
            }
        }
        Const::Times(first, others) => match value_of(alloc, world, known, env, first.get()) {
            Ok(value) => chain_of(alloc, world, known, env, value, others.as_slice()),
            Err(stop) => Err(stop),
        },
        Const::Plus(first, others) => match value_of(alloc, world, known, env, first.get()) {
            Ok(value) => chain_of(alloc, world, known, env, value, others.as_slice()),
            Err(stop) => Err(stop),
        },
        Const::Compare(place, relation, left, right) => compared_of(
            *place,
            *relation,
            value_of(alloc, world, known, env, left.get()),
            value_of(alloc, world, known, env, right.get()),
        ),
        Const::Not(place, operand) => negated_of(
            *place,
            value_of(alloc, world, known, env, operand.get()),
        ),
        Const::And(first, others) => match value_of(alloc, world, known, env, first.get()) {
            Ok(value) => conjuncts_of(alloc, world, known, env, value, others.as_slice()),
            Err(stop) => Err(stop),
        },
        Const::Or(first, others) => match value_of(alloc, world, known, env, first.get()) {
            Ok(value) => disjuncts_of(alloc, world, known, env, value, others.as_slice()),
            Err(stop) => Err(stop),
        },
    }
}

/// The values of expressions.
#[cycle(evaluate)]
fn values_of(
    alloc: Global,
    world: &World,
    known: usize,
    env: &Env,
    trees: &[Const],
) -> Result<Sequence<Value>, EvalStop>
    ensures { Gives (λ vs. vs) eval_cause (values_in world.now known env.now trees.now) result }
{
    let mut made = Sequence::new(alloc);
    for tree in trees {
        add_value(&mut made, value_of(alloc, world, known, env, tree))?;
    }
    Ok(made)
}

/// The tuple of expressions.
#[cycle(evaluate)]
fn tuple_of(
    alloc: Global,
    world: &World,
    known: usize,
    env: &Env,
    trees: &[Const],
) -> Result<Tuple, EvalStop>
    ensures { Gives (λ t. t) eval_cause (tuple_in world.now known env.now trees.now) result }
{
    let mut made = Tuple::new(alloc);
    for tree in trees {
        add_component(
            &mut made,
            tree.first_place(),
            value_of(alloc, world, known, env, tree),
        )?;
    }
    Ok(made)
}

/// A value with the operators and operands behind it.
#[cycle(evaluate)]
fn chain_of(
    alloc: Global,
    world: &World,
    known: usize,
    env: &Env,
    first: Value,
    others: &[(Place, Token, Const)],
) -> Result<Value, EvalStop>
    ensures { Gives (λ v. v) eval_cause (chain_in world.now known env.now first others.now) result }
{
    let mut value = first;
    for (place, token, tree) in others {
        match operated_of(
            alloc,
            *place,
            token,
            &value,
            value_of(alloc, world, known, env, tree),
        ) {
            Ok(next) => value = next,
            Err(stop) => return Err(stop),
        }
    }
    Ok(value)
}

/// A value and the next operand behind an `and`, which is evaluated where the value is true.
#[cycle(evaluate)]
fn conjunct_of(
    alloc: Global,
    world: &World,
    known: usize,
    env: &Env,
    value: &Value,
    next: &(Place, Const),
) -> Result<Value, EvalStop>
    ensures { Gives (λ v. v) eval_cause (conjunct_in world.now known env.now value.now next.now) result }
{
    match kind_at(next.0, truth_of(value)) {
        Ok(true) => truth_value(truth_at(next.0, value_of(alloc, world, known, env, &next.1))),
        Ok(false) => Ok(Value::Truth(false)),
        Err(stop) => Err(stop),
    }
}

/// A value with the operands behind it that `and` joins.
#[cycle(evaluate)]
fn conjuncts_of(
    alloc: Global,
    world: &World,
    known: usize,
    env: &Env,
    first: Value,
    others: &[(Place, Const)],
) -> Result<Value, EvalStop>
    ensures { Gives (λ v. v) eval_cause (conjuncts_in world.now known env.now first others.now) result }
{
    let mut value = first;
    for other in others {
        match conjunct_of(alloc, world, known, env, &value, other) {
            Ok(next) => value = next,
            Err(stop) => return Err(stop),
        }
    }
    Ok(value)
}

/// A value and the next operand behind an `or`, which is evaluated where the value is false, or behind an `xor`.
#[cycle(evaluate)]
fn disjunct_of(
    alloc: Global,
    world: &World,
    known: usize,
    env: &Env,
    value: &Value,
    next: &(Place, bool, Const),
) -> Result<Value, EvalStop>
    ensures { Gives (λ v. v) eval_cause (disjunct_in world.now known env.now value.now next.now) result }
{
    if next.1 {
        return differing(next.0, value, value_of(alloc, world, known, env, &next.2));
    }
    match kind_at(next.0, truth_of(value)) {
        Ok(true) => Ok(Value::Truth(true)),
        Ok(false) => truth_value(truth_at(next.0, value_of(alloc, world, known, env, &next.2))),
        Err(stop) => Err(stop),
    }
}

/// A value with the operands behind it that `or` and `xor` join.
#[cycle(evaluate)]
fn disjuncts_of(
    alloc: Global,
    world: &World,
    known: usize,
    env: &Env,
    first: Value,
    others: &[(Place, bool, Const)],
) -> Result<Value, EvalStop>
    ensures { Gives (λ v. v) eval_cause (disjuncts_in world.now known env.now first others.now) result }
{
    let mut value = first;
    for other in others {
        match disjunct_of(alloc, world, known, env, &value, other) {
            Ok(next) => value = next,
            Err(stop) => return Err(stop),
        }
    }
    Ok(value)
}

/// The set that stands in braces.
#[cycle(evaluate)]
#[tactic(auto, using(crate::proofs::IndexLemmas::bodies))]
fn body_of(
    alloc: Global,
    world: &World,
    known: usize,
    env: &Env,
    place: Place,
    body: &TBody,
) -> Result<Value, EvalStop>
    ensures { Gives (λ v. v) eval_cause (body_in world.now known env.now place body.now) result }
{
    match body {
        TBody::Empty => Ok(Value::Set(TupleSet::new(alloc))),
        TBody::Members(members) => members_of(
            alloc,
            place,
            values_of(alloc, world, known, env, members.as_slice()),
        ),
        TBody::Tuples(tuples) => listed_of(
            alloc,
            place,
            tuples_of(alloc, world, known, env, tuples.as_slice()),
        ),
        TBody::Those(index) => {
            chosen_set(alloc, choices_of(alloc, world, known, env, index.get()))
        }
        TBody::Span(from, _with_to, to, by) => match by {
            Some(by) => span_of(
                alloc,
                place,
                value_of(alloc, world, known, env, from.get()),
                value_of(alloc, world, known, env, to.get()),
                value_of(alloc, world, known, env, by.get()),
            ),
            None => span_of(
                alloc,
                place,
                value_of(alloc, world, known, env, from.get()),
                value_of(alloc, world, known, env, to.get()),
                Ok(Value::Number(Fraction::one())),
            ),
        },
    }
}

/// The tuples that are listed in braces.
#[cycle(evaluate)]
fn tuples_of(
    alloc: Global,
    world: &World,
    known: usize,
    env: &Env,
    trees: &[TAngle],
) -> Result<Sequence<Tuple>, EvalStop>
    ensures { Gives (λ ts. ts) eval_cause (tuples_in world.now known env.now trees.now) result }
{
    let mut made = Sequence::new(alloc);
    for tree in trees {
        add_answer(
            &mut made,
            tuple_of(alloc, world, known, env, tree.items.as_slice()),
        )?;
    }
    Ok(made)
}

/// What one component of a tuple has to be.
#[cycle(evaluate)]
#[tactic(auto, using(crate::proofs::IndexLemmas::components))]
fn slot_of(
    alloc: Global,
    world: &World,
    known: usize,
    env: &Env,
    slot: &LoopSlot,
) -> Result<Slot, EvalStop>
    ensures { Gives (λ s. s) eval_cause (slot_in world.now known env.now slot.now) result }
{
    match slot {
        LoopSlot::Free(name) => free_slot(name),
        LoopSlot::Again(at) => Ok(Slot::Again(*at)),
        LoopSlot::Fixed(tree) => fixed_slot(
            tree.get().first_place(),
            value_of(alloc, world, known, env, tree.get()),
        ),
    }
}

/// What the components of a tuple have to be.
#[cycle(evaluate)]
fn slots_of(
    alloc: Global,
    world: &World,
    known: usize,
    env: &Env,
    slots: &[LoopSlot],
) -> Result<Sequence<Slot>, EvalStop>
    ensures { Gives (λ ss. ss) eval_cause (slots_in world.now known env.now slots.now) result }
{
    let mut made = Sequence::new(alloc);
    for slot in slots {
        add_answer(&mut made, slot_of(alloc, world, known, env, slot))?;
    }
    Ok(made)
}

/// Whether a choice passes the condition behind an index, if there is one.
#[cycle(evaluate)]
#[tactic(auto, unfolding(crate::specs::Private::passes_in))]
fn passes(
    alloc: Global,
    world: &World,
    known: usize,
    env: &Env,
    index: &Loop,
) -> Result<bool, EvalStop>
    ensures { Gives (λ b. b) eval_cause (passes_in world.now known env.now index.now) result }
{
    match &index.cond {
        Some(cond) => truth_at(index.place, value_of(alloc, world, known, env, cond.get())),
        None => Ok(true),
    }
}

/// A tuple as a choice of an index, if it agrees with the slots and passes the condition.
#[cycle(evaluate)]
#[tactic(auto, unfolding(crate::specs::Private::choice_in))]
fn choice_of(
    alloc: Global,
    world: &World,
    known: usize,
    env: &Env,
    index: &Loop,
    slots: &[Slot],
    tuple: &Tuple,
) -> Result<Option<Choice>, EvalStop>
    ensures { Gives (λ c. c) eval_cause (choice_in world.now known env.now index.now slots.now tuple.now) result }
{
    match match_pattern(alloc, env, slots, tuple) {
        Ok(Some(inner)) => {
            let passes = passes(alloc, world, known, &inner, index);
            kept_where(tuple, inner, passes)
        }
        Ok(None) => Ok(None),
        Err(_) => Err(EvalStop::Memory),
    }
}

/// The tuples of a set, in order, that an index chooses.
#[cycle(evaluate)]
fn choices_among(
    alloc: Global,
    world: &World,
    known: usize,
    env: &Env,
    index: &Loop,
    slots: &[Slot],
    tuples: &[Tuple],
) -> Result<Sequence<Choice>, EvalStop>
    ensures { Gives (λ cs. cs) eval_cause (among_in world.now known env.now index.now slots.now tuples.now) result }
{
    let mut chosen = Sequence::new(alloc);
    for tuple in tuples {
        add_choice(
            &mut chosen,
            choice_of(alloc, world, known, env, index, slots, tuple),
        )?;
    }
    Ok(chosen)
}

/// The choices of an index, in the order of its set.
#[cycle(evaluate)]
pub(crate) fn choices_of(
    alloc: Global,
    world: &World,
    known: usize,
    env: &Env,
    index: &Loop,
) -> Result<Sequence<Choice>, EvalStop>
    ensures answer { Gives (λ cs. cs) eval_cause (choices_in world.now known env.now index.now) result }
    ensures set { IfOk result (λ cs. IsSet (chosen_tuples cs)) }
{
    match slots_of(alloc, world, known, env, index.slots.as_slice()) {
        Ok(slots) => match value_of(alloc, world, known, env, index.set.get()) {
            Ok(value) => match fitting_set(index.place, slots.as_slice(), &value) {
                Ok(set) => choices_among(
                    alloc,
                    world,
                    known,
                    env,
                    index,
                    slots.as_slice(),
                    set.as_slice(),
                ),
                Err(stop) => Err(stop),
            },
            Err(stop) => Err(stop),
        },
        Err(stop) => Err(stop),
    }
}

/// What is gathered of a tree at choices.
#[cycle(evaluate)]
fn gathered_of(
    alloc: Global,
    world: &World,
    known: usize,
    place: Place,
    tree: &Const,
    start: Gathering,
    choices: &[Choice],
) -> Result<Value, EvalStop>
    ensures { Gives (λ v. v) eval_cause (gathering_in world.now known tree.now place start choices.now) result }
{
    let mut state = start;
    for choice in choices {
        match gathered_with(
            state,
            place,
            &choice.tuple,
            value_of(alloc, world, known, &choice.env, tree),
        ) {
            Ok(next) => state = next,
            Err(stop) => return Err(stop),
        }
    }
    end_of(alloc, place, state)
}
