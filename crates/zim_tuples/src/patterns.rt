ghost use Rattle.std.specs.Prelude.{◌≡◌, ◌++◌, IfOk, OnOk};
ghost use Rattle.std.specs.List.{list_all, zip};
ghost use Rattle.zim_tuples.specs.Patterns.{slot_agrees, agrees, bound_by, bound, matched};

use crate::elements::{Elem, Tuple};
use crate::environments::{Binding, Env};
use std::alloc::Global;
use zim_fault::{Bytes, Duplicate, Memory};

/// What a component of a pattern asks of the tuple's component at its position.
#[derive(Debug, Drop)]
pub enum Slot {
    /// Nothing: the name is bound to the component.
    Free(Bytes),
    /// To be the tuple's component at this earlier position, counted from 0.
    Again(usize),
    /// To be this element.
    Fixed(Elem),
}

// Whether a component agrees with its slot.
fn is_met(tuple: &[Elem], slot: &Slot, component: &Elem) -> bool
    ensures { result ≡ slot_agrees tuple.now slot.now component.now }
{
    match slot {
        Slot::Free(_) => true,
        Slot::Again(at) => match tuple.get(*at) {
            Some(earlier) => earlier == component,
            None => false,
        },
        Slot::Fixed(element) => element == component,
    }
}

// Whether each component agrees with its slot.
fn are_met(slots: &[Slot], tuple: &[Elem]) -> bool
    ensures { result ≡ list_all (λ pair. slot_agrees tuple.now pair.0 pair.1) (zip slots.now tuple.now) }
{
    for (slot, component) in slots.iter().zip(tuple.iter()) {
        if !is_met(tuple, slot, component) {
            return false;
        }
    }
    true
}

// Whether a tuple agrees with a pattern.
fn is_match(slots: &[Slot], tuple: &[Elem]) -> bool
    ensures { result ≡ agrees slots.now tuple.now }
{
    slots.len() == tuple.len() && are_met(slots, tuple)
}

// Adds what a slot binds.
fn bind(env: &mut Env, slot: &Slot, component: &Elem) -> Result<(), Memory>
    ensures { OnOk result (env.new ≡ env.old ++ bound_by slot.now component.now) }
{
    if let Slot::Free(name) = slot {
        env.push(Binding {
            name: name.copy()?,
            value: component.copy()?,
        })?;
    }
    Ok(())
}

// An equal environment.
fn copied(alloc: Global, env: &[Binding]) -> Result<Env, Memory>
    ensures { IfOk result (λ more. more ≡ env.now) }
{
    let mut more = Env::new(alloc);
    for binding in env {
        more.push(binding.copy()?)?;
    }
    Ok(more)
}

// The environment with what the slots bind added at its end.
fn extended(alloc: Global, env: &Env, slots: &[Slot], tuple: &[Elem]) -> Result<Env, Memory>
    ensures { IfOk result (λ more. more ≡ env.now ++ bound slots.now tuple.now) }
{
    let mut more = copied(alloc, env.as_slice())?;
    for (slot, component) in slots.iter().zip(tuple.iter()) {
        bind(&mut more, slot, component)?;
    }
    Ok(more)
}

/// The environment after a tuple is matched with a pattern: the one before, and at its end the name of
/// each free slot with its component, in order.
///
/// None exactly where the tuple has not as many components as there are slots, or a component differs
/// from a fixed slot's element or from the component of the position that a repeated slot names. A
/// position that the tuple hasn't differs from each.
pub fn match_pattern(
    alloc: Global,
    env: &Env,
    slots: &[Slot],
    tuple: &Tuple,
) -> Result<Option<Env>, Memory>
    ensures { IfOk result (λ found. found ≡ matched env.now slots.now tuple.now) }
{
    let tuple = tuple.as_slice();
    if is_match(slots, tuple) {
        Ok(Some(extended(alloc, env, slots, tuple)?))
    } else {
        Ok(None)
    }
}
