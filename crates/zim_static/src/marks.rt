//! The faults that stand at an operator or a word of an expression.
ghost use Rattle.std.specs.Prelude.{◌≡◌, ◌&&◌, ◌||◌, not};
ghost use Rattle.zim_fault.specs.declared.kinds.Kind.TheVariants.{NotLinear, NotConstraint};
ghost use Rattle.zim_typed.specs.Terms.{may_constrain};
ghost use Rattle.zim_static.specs.Roles.{is_constraint};
ghost use Rattle.zim_static.specs.Faults.{first_of_faults, fault_if, part_of, part_of_index, is_prod, is_slash, encloses};
ghost use Rattle.zim_static.specs.Faults as spec;

use crate::operators::{divides, encloses, is_prod, may_constrain};
use crate::role::Role;
use crate::scope::Scope;
use crate::uses::{mark, no_constraint};
use crate::varies::{index_varies, varies};
use zim_fault::{Fault, Kind, Place, Relation, Token, Word};
use zim_tree::{Expr, Index};

/// Whether variables stand in an expression, as its faults know it.
pub(crate) fn has_variables(scope: &Scope, tree: &Expr) -> bool
    ensures { result ≡ (part_of scope.now tree.now).varies }
{
    varies(scope, tree)
}

/// Whether variables stand in one of two expressions.
fn one_has_variables(scope: &Scope, left: &Expr, right: &Expr) -> bool
    ensures { result ≡ ((part_of scope.now left.now).varies || (part_of scope.now right.now).varies) }
{
    has_variables(scope, left) || has_variables(scope, right)
}

/// The fault of a power with variables.
pub(crate) fn power_fault(
    scope: &Scope,
    place: Place,
    base: &Expr,
    exponent: &Expr,
) -> Option<Fault>
    ensures { result ≡ first_of_faults (fault_if ((part_of scope.now base.now).varies || (part_of scope.now exponent.now).varies) NotLinear place) }
{
    mark(
        one_has_variables(scope, base, exponent),
        Kind::NotLinear,
        place,
    )
}

/// Whether variables stand in an index, as its faults know it.
fn index_has_variables(scope: &Scope, index: &Index) -> bool
    ensures { result ≡ (part_of_index scope.now index.now).varies }
{
    index_varies(scope, index)
}

/// Whether variables stand in an index or behind it.
fn loop_has_variables(scope: &Scope, index: &Index, inner: &Expr) -> bool
    ensures { result ≡ ((part_of_index scope.now index.now).varies || (part_of scope.now inner.now).varies) }
{
    index_has_variables(scope, index) || has_variables(scope, inner)
}

/// The fault of a `prod` with variables.
pub(crate) fn loop_fault(
    scope: &Scope,
    place: Place,
    word: Word,
    index: &Index,
    inner: &Expr,
) -> Option<Fault>
    ensures { result ≡ first_of_faults (fault_if (is_prod word && ((part_of_index scope.now index.now).varies || (part_of scope.now inner.now).varies)) NotLinear place) }
{
    if !is_prod(word) {
        return None;
    }
    mark(
        loop_has_variables(scope, index, inner),
        Kind::NotLinear,
        place,
    )
}

/// The fault of an `if` or `vif` that is no value where one is wanted.
pub(crate) fn choice_fault(role: Role, place: Place, vif: bool, without: bool) -> Option<Fault>
    ensures { result ≡ first_of_faults (fault_if ((vif || without) && not (is_constraint role)) NotConstraint place) }
{
    if role.is_constraint() {
        return None;
    }
    mark(vif || without, Kind::NotConstraint, place)
}

/// The fault of a factorial where a constraint is wanted, at its first `!`.
pub(crate) fn factorial_fault(role: Role, marks: &[Place]) -> Option<Fault>
    ensures { result ≡ first_of_faults (spec.factorial_faults role marks.now) }
{
    match marks.first() {
        Some(place) => no_constraint(role, *place),
        None => None,
    }
}

/// The fault of one comparison by a relation that no constraint may have.
pub(crate) fn relation_fault(role: Role, place: Place, relation: Relation) -> Option<Fault>
    ensures { result ≡ first_of_faults (fault_if (is_constraint role && not (may_constrain relation)) NotConstraint place) }
{
    if !role.is_constraint() {
        return None;
    }
    mark(!may_constrain(relation), Kind::NotConstraint, place)
}

/// The fault of two comparisons one behind the other, unless they are a range where a constraint is wanted.
pub(crate) fn chain_fault(
    scope: &Scope,
    role: Role,
    place: Place,
    lower: Relation,
    upper: Relation,
    first: &Expr,
    last: &Expr,
) -> Option<Fault>
    ensures { result ≡ first_of_faults (fault_if (not (is_constraint role && encloses lower upper && not ((part_of scope.now first.now).varies || (part_of scope.now last.now).varies))) NotConstraint place) }
{
    if !role.is_constraint() {
        return mark(true, Kind::NotConstraint, place);
    }
    if !encloses(lower, upper) {
        return mark(true, Kind::NotConstraint, place);
    }
    mark(
        one_has_variables(scope, first, last),
        Kind::NotConstraint,
        place,
    )
}

/// The fault of a factor with variables behind another, or that divides.
pub(crate) fn factor_fault(
    by_stars: bool,
    varying: bool,
    before: bool,
    place: Place,
    token: &Token,
) -> Option<Fault>
    ensures { result ≡ first_of_faults (fault_if (by_stars && varying && (before || is_slash token.now)) NotLinear place) }
{
    if !by_stars {
        return None;
    }
    if !varying {
        return None;
    }
    mark(before || divides(token), Kind::NotLinear, place)
}
