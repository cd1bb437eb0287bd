//! The value of an expression and the choices of an index, with all functions of the world known.
ghost use Rattle.zim_answer.specs.Gives.{Gives};
ghost use Rattle.zim_eval.specs.Causes.{eval_cause};
ghost use Rattle.zim_meaning.specs.Value.{index_choices};
ghost use Rattle.zim_meaning.specs.Value as spec;

use crate::evaluate::{choices_of, value_of};
use crate::faults::EvalStop;
use crate::world::World;
use std::alloc::Global;
use zim_fault::Sequence;
use zim_meaning::{Choice, Value};
use zim_tuples::Env;
use zim_typed::{Const, Loop};

/// The value of an expression in an environment, operands being taken from left to right.
///
/// The first fault stops it, with its place: a name, an index or a call that has no value is `NoEntry`, an operand of a
/// kind that its operator doesn't take is `WrongKind`, and each operator has its own faults.
#[tactic(auto, unfolding(crate::specs::Private::value_in))]
pub fn value(alloc: Global, world: &World, env: &Env, tree: &Const) -> Result<Value, EvalStop>
    ensures { Gives (λ v. v) eval_cause (spec.value world.now env.now tree.now) result }
{
    value_of(alloc, world, world.functions().len(), env, tree)
}

/// The tuples that an index chooses of its set in an environment, in the order of the set, each with the environment in
/// which what stands behind the index is evaluated.
///
/// The components of its tuple are evaluated first, then its set, then for each tuple that agrees with them its
/// condition. `WrongKind` comes at the index where the set is none, its tuples have another length, or a condition is no
/// truth value.
#[tactic(auto, unfolding(crate::specs::Private::choices_in))]
pub fn choices(
    alloc: Global,
    world: &World,
    env: &Env,
    index: &Loop,
) -> Result<Sequence<Choice>, EvalStop>
    ensures { Gives (λ cs. cs) eval_cause (index_choices world.now env.now index.now) result }
{
    choices_of(alloc, world, world.functions().len(), env, index)
}
