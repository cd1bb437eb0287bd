//! What a use of a name stands for, and which components of an index's tuple bind names.
ghost use Rattle.std.specs.Prelude.{◌≡◌, IfOk, map, position};
ghost use Rattle.zim_typed.specs.Scope.{bare, indexed, called};
ghost use Rattle.zim_typed.specs.Pattern.{bare_name, bound_name, binds};
ghost use Rattle.zim_static.specs.Around.{names_in};
ghost use Rattle.zim_typing.specs.Typing as spec;
ghost use Rattle.zim_typing.specs.Typing.{resolution, placed_bare_name};

use sqlite_items::Items;
use std::alloc::Global;
use zim_fault::{Bytes, Duplicate, Memory, Place, Word};
use zim_static::{Around, Scope, bare_name, is_bare, is_bound};
use zim_tree::Expr;
use zim_typed::{Const, Declared, LoopSlot, Resolved};

/// What a bare name stands for.
pub(crate) fn named(scope: &Scope, around: &Around, name: &Bytes) -> Resolved
    ensures { result ≡ resolution (bare scope.now (names_in scope.now around.now) name.now) }
{
    if around.has(scope, name) {
        return Resolved::Local;
    }
    match scope.get(name) {
        Some(Declared::Set(false)) => Resolved::Set,
        Some(Declared::Parameter(false)) => Resolved::Parameter,
        _ => Resolved::Local,
    }
}

/// What a name with brackets stands for.
pub(crate) fn indexed(scope: &Scope, around: &Around, name: &Bytes) -> Resolved
    ensures { result ≡ resolution (indexed scope.now (names_in scope.now around.now) name.now) }
{
    if around.has(scope, name) {
        return Resolved::Local;
    }
    match scope.get(name) {
        Some(Declared::Set(true)) => Resolved::Set,
        Some(Declared::Parameter(true)) => Resolved::Parameter,
        _ => Resolved::Local,
    }
}

/// What a name with so many arguments in parentheses stands for.
pub(crate) fn called(scope: &Scope, around: &Around, name: &Bytes, count: usize) -> Resolved
    ensures { result ≡ resolution (called count scope.now (names_in scope.now around.now) name.now) }
{
    if around.has(scope, name) {
        return Resolved::Local;
    }
    match scope.get(name) {
        Some(Declared::Function(parameters, _)) => {
            if count == *parameters {
                Resolved::Function
            } else {
                Resolved::Local
            }
        }
        _ => Resolved::Local,
    }
}

/// The argument of `indexset`, if it is a bare name: it is that of a set.
pub(crate) fn set_argument(
    alloc: Global,
    word: Word,
    given: &[Expr],
) -> Result<Option<Items<Const>>, Memory>
    ensures { IfOk result (λ made. made ≡ spec.set_argument word (map placed_bare_name given.now)) }
{
    match word {
        Word::WIndexset => match given {
            [argument] => match argument {
                Expr::Name(place, name) => {
                    let mut made = Items::new(alloc);
                    made.push(Const::Name(*place, name.copy()?, Resolved::Set))?;
                    Ok(Some(made))
                }
                _ => Ok(None),
            },
            _ => Ok(None),
        },
        _ => Ok(None),
    }
}

/// The position of this bare name among expressions, if it stands among them.
fn first_use(items: &[Expr], name: &Bytes) -> Option<usize>
    ensures { result ≡ position (λ item. binds name.now (bare_name item)) items.now }
{
    items.iter().position(|item| is_bare(name, item))
}

/// A component of an index's tuple that binds a name, if it binds one, behind these components.
pub(crate) fn bound_slot(
    scope: &Scope,
    around: &Around,
    before: &[Expr],
    item: &Expr,
) -> Result<Option<LoopSlot>, Memory>
    ensures { IfOk result (λ made. made ≡ spec.bound_slot (map bare_name before.now) (bound_name scope.now (names_in scope.now around.now) item.now)) }
{
    if !is_bound(scope, around, item) {
        return Ok(None);
    }
    match bare_name(item) {
        Some(name) => match first_use(before, name) {
            Some(at) => Ok(Some(LoopSlot::Again(at))),
            None => Ok(Some(LoopSlot::Free(name.copy()?))),
        },
        None => Ok(None),
    }
}
