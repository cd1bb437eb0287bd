//! Which function a name calls, and the environment of its body.
ghost use Rattle.std.specs.Prelude.{◌≡◌, ◌<◌, nat_lt, if◌then◌else◌, List, Some, None, IfOk, IfSome, option_map, slice_get};
ghost use Rattle.zim_eval.specs.Private.{found_call};
ghost use Rattle.zim_fault.specs.declared.faults.Place as places;
ghost use Rattle.zim_meaning.specs.Value.{bindings, calls_of_first};
ghost use Rattle.zim_tuples.specs.declared.elements.Elem as elements;

use crate::world::World;
use std::alloc::Global;
use zim_fault::{Bytes, Duplicate, Memory, Sequence};
use zim_functions::Definition;
use zim_tuples::{Binding, Env, Tuple};

// The function at a position, where it is among the first functions, so many of them.
fn callee_at(world: &World, known: usize, position: usize) -> Option<(usize, &Definition)>
    ensures found { (place : places.Place) (given : List elements.Elem) → found_call world.now (option_map (λ p. (p.0, p.1.now)) result) place given ≡ found_call world.now (if nat_lt position known then option_map (λ d. (position, d)) (slice_get world.now.functions position) else None) place given }
    ensures before { IfSome result (λ p. p.0 < known) }
    ensures there { IfSome result (λ p. slice_get world.now.functions p.0 ≡ Some p.1.now) }
{
    if position < known {
        match world.functions().at(position) {
            Some(definition) => Some((position, definition)),
            None => None,
        }
    } else {
        None
    }
}

/// The function of that name among the first functions of the world, so many of them, with its position; None exactly
/// where none of them has the name.
pub(crate) fn callee<'a>(
    world: &'a World,
    known: usize,
    name: &Bytes,
) -> Option<(usize, &'a Definition)>
    ensures calls { (place : places.Place) (given : List elements.Elem) → calls_of_first world.now known place name.now given ≡ found_call world.now (option_map (λ p. (p.0, p.1.now)) result) place given }
    ensures before { IfSome result (λ p. p.0 < known) }
    ensures there { IfSome result (λ p. slice_get world.now.functions p.0 ≡ Some p.1.now) }
{
    match world.functions().position_of(name) {
        Some(position) => callee_at(world, known, position),
        None => None,
    }
}

/// The parameters of a function, bound to what it is called with.
pub(crate) fn bound(alloc: Global, params: &Sequence<Bytes>, given: &Tuple) -> Result<Env, Memory>
    ensures { IfOk result (λ env. env ≡ bindings params.now given.now) }
{
    let mut env = Env::new(alloc);
    for (name, element) in params.as_slice().iter().zip(given.as_slice().iter()) {
        env.push(Binding {
            name: name.copy()?,
            value: element.copy()?,
        })?;
    }
    Ok(env)
}
