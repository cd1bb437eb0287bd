//! What is wrong with a use of a name, and with the arguments of a function that is a word.
ghost use Rattle.std.specs.Prelude.{◌≡◌, ◌&&◌, not, length, map};
ghost use Rattle.zim_typed.specs.Scope.{is_indexed_set, takes, bare, indexed, called, kind_of_name};
ghost use Rattle.zim_fault.specs.declared.kinds.Kind.TheVariants.{VariableHere};
ghost use Rattle.zim_static.specs.Roles.{is_term};
ghost use Rattle.zim_static.specs.Around.{names_in};
ghost use Rattle.zim_static.specs.Faults.{first_of_faults, fault_if, part_of, wrong_use};
ghost use Rattle.zim_static.specs.Faults as spec;

use crate::around::{Around, bare_name};
use crate::role::Role;
use crate::scope::Scope;
use crate::varies::{is_vabs, is_variable};
use zim_fault::{Bytes, Fault, Kind, Place, Word};
use zim_tree::Expr;
use zim_typed::Declared;

/// A fault, where its condition holds.
pub(crate) fn mark(holds: bool, kind: Kind, place: Place) -> Option<Fault>
    ensures { result ≡ first_of_faults (fault_if holds kind place) }
{
    if holds {
        Some(Fault { place, kind })
    } else {
        None
    }
}

/// The fault of what is no constraint, where one is wanted.
pub(crate) fn no_constraint(role: Role, place: Place) -> Option<Fault>
    ensures { result ≡ first_of_faults (spec.no_constraint role place) }
{
    mark(role.is_constraint(), Kind::NotConstraint, place)
}

/// A fault of some kind, if there is one.
fn mark_of(kind: Option<Kind>, place: Place) -> Option<Fault>
    ensures { result ≡ first_of_faults (spec.fault_of_kind kind place) }
{
    match kind {
        Some(kind) => Some(Fault { place, kind }),
        None => None,
    }
}

/// The fault of a variable that stands where no term may.
fn misplaced(varies: bool, role: Role, place: Place) -> Option<Fault>
    ensures { result ≡ first_of_faults (fault_if (varies && not (is_term role)) VariableHere place) }
{
    mark(varies && !role.is_term(), Kind::VariableHere, place)
}

/// What is wrong with a name without brackets.
pub(crate) fn wrong_name(scope: &Scope, around: &Around, name: &Bytes) -> Option<Kind>
    ensures { result ≡ wrong_use (bare scope.now (names_in scope.now around.now) name.now) }
{
    if around.has(scope, name) {
        return None;
    }
    match scope.get(name) {
        None => Some(Kind::UnknownName),
        Some(Declared::Set(false) | Declared::Parameter(false) | Declared::Variable(false)) => None,
        Some(_) => Some(Kind::ArgCount),
    }
}

/// What is wrong with a name with brackets.
pub(crate) fn wrong_item(scope: &Scope, around: &Around, name: &Bytes) -> Option<Kind>
    ensures { result ≡ wrong_use (indexed scope.now (names_in scope.now around.now) name.now) }
{
    if around.has(scope, name) {
        return Some(Kind::ArgCount);
    }
    match scope.get(name) {
        None => Some(Kind::UnknownName),
        Some(Declared::Set(true) | Declared::Parameter(true) | Declared::Variable(true)) => None,
        Some(_) => Some(Kind::ArgCount),
    }
}

/// What is wrong with a name with so many arguments in parentheses.
pub(crate) fn wrong_call(scope: &Scope, around: &Around, name: &Bytes, count: usize) -> Option<Kind>
    ensures { result ≡ wrong_use (called count scope.now (names_in scope.now around.now) name.now) }
{
    if around.has(scope, name) {
        return Some(Kind::ArgCount);
    }
    match scope.get(name) {
        None => Some(Kind::UnknownName),
        Some(Declared::Function(parameters, _)) => {
            if count == *parameters {
                None
            } else {
                Some(Kind::ArgCount)
            }
        }
        Some(_) => Some(Kind::ArgCount),
    }
}

/// The first fault of a name, where it is known what is wrong with its use.
pub(crate) fn name_fault(
    scope: &Scope,
    role: Role,
    place: Place,
    name: &Bytes,
    wrong: Option<Kind>,
) -> Option<Fault>
    ensures { result ≡ first_of_faults (spec.name_faults scope.now role place name.now wrong) }
{
    mark_of(wrong, place)
        .or(misplaced(is_variable(scope, name), role, place))
        .or(no_constraint(role, place))
}

/// Whether a name is that of an indexed set.
pub(crate) fn is_indexed_set(scope: &Scope, name: &Bytes) -> bool
    ensures { result ≡ is_indexed_set (kind_of_name scope.now name.now) }
{
    match scope.get(name) {
        Some(Declared::Set(true)) => true,
        _ => false,
    }
}

/// Whether the arguments are one, which is the bare name of an indexed set.
pub(crate) fn is_set_argument(scope: &Scope, arguments: &[Expr]) -> bool
    ensures { result ≡ spec.is_set_argument scope.now (map (part_of scope.now) arguments.now) }
{
    match arguments {
        [argument] => match bare_name(argument) {
            Some(name) => is_indexed_set(scope, name),
            None => false,
        },
        _ => false,
    }
}

/// Whether a function that is a word has so many arguments.
pub(crate) fn takes(word: Word, count: usize) -> bool
    ensures { result ≡ takes word count }
{
    match word {
        Word::WMin | Word::WMax => true,
        Word::WOrd | Word::WSubstr => count == 3,
        Word::WSubsets => count == 2,
        _ => count == 1,
    }
}

/// Whether a function has the arguments that it takes.
fn has_arguments(scope: &Scope, word: Word, arguments: &[Expr]) -> bool
    ensures { result ≡ spec.has_arguments scope.now word (map (part_of scope.now) arguments.now) }
{
    match word {
        Word::WIndexset => is_set_argument(scope, arguments),
        _ => takes(word, arguments.len()),
    }
}

/// The role of the arguments, if they are looked at: the name that `indexset` takes is no use of it.
pub(crate) fn argument_role(
    scope: &Scope,
    role: Role,
    word: Word,
    arguments: &[Expr],
) -> Option<Role>
    ensures { result ≡ spec.argument_role scope.now role word (map (part_of scope.now) arguments.now) }
{
    match word {
        Word::WIndexset => {
            if is_set_argument(scope, arguments) {
                None
            } else {
                Some(role.inside())
            }
        }
        Word::WVabs => Some(role.term_inside()),
        _ => Some(role.inside()),
    }
}

/// The first fault of a function that is a word, aside from those of its arguments.
pub(crate) fn function_fault(
    scope: &Scope,
    role: Role,
    place: Place,
    word: Word,
    arguments: &[Expr],
) -> Option<Fault>
    ensures { result ≡ first_of_faults (spec.function_faults scope.now role place word (map (part_of scope.now) arguments.now)) }
{
    let fits = has_arguments(scope, word, arguments);
    mark(!fits, Kind::ArgCount, place)
        .or(misplaced(is_vabs(word), role, place))
        .or(no_constraint(role, place))
}
