//! The first static fault of an expression.
ghost use Rattle.std.specs.Prelude.{◌≡◌, map, option_map, flat_map};
ghost use Rattle.zim_static.specs.Around.{names_in};
ghost use Rattle.zim_static.specs.Faults.{first_of_faults, part_of, parts_of_angle, part_of_index, part_of_body, parts_of, known_operands, known_disjuncts, known_conjuncts};
ghost use Rattle.zim_static.specs.Faults as spec;
ghost use Rattle.std.specs.Prelude.{is_some, is_none};
ghost use Rattle.zim_typed.specs.Pattern.{bound_name};
ghost use Rattle.zim_static.specs.Roles.{operand, condition_inside};
ghost use Rattle.zim_static.specs.StatementFaults.{faults_in};

use crate::around::{Around, bare_name};
use crate::marks::{
    chain_fault, choice_fault, factor_fault, factorial_fault, has_variables, loop_fault,
    power_fault, relation_fault,
};
use crate::operators::{is_by_signs, is_by_stars, varies_by};
use crate::role::Role;
use crate::scope::Scope;
use crate::uses::{
    argument_role, function_fault, mark, name_fault, no_constraint, wrong_call, wrong_item,
    wrong_name,
};
use sqlite_items::Boxed;
use zim_fault::{Fault, Kind, Place, Token, Word};
use zim_tree::{Body, Expr, Index};

/// The first fault of an expression in a role, of those in the order of its tokens.
#[cycle(fault_in)]
pub(crate) fn fault_in(scope: &Scope, around: &Around, role: Role, tree: &Expr) -> Option<Fault>
    ensures { result ≡ first_of_faults (faults_in scope.now role (names_in scope.now around.now) tree.now) }
{
    match tree {
        Expr::Number(place, _) | Expr::Text(place, _, _) | Expr::Truth(place, _) => {
            no_constraint(role, *place)
        }
        Expr::Infinity(place) => {
            mark(!role.is_bound(), Kind::Unsupported(Word::WInfinity), *place).or(no_constraint(
                role, *place,
            ))
        }
        Expr::Name(place, name) => {
            name_fault(scope, role, *place, name, wrong_name(scope, around, name))
        }
        Expr::Item(place, name, items) => {
            name_fault(scope, role, *place, name, wrong_item(scope, around, name)).or(
                fault_in_items(scope, around, role.inside(), items.as_slice()),
            )
        }
        Expr::Call(place, name, items) => {
            name_fault(
                scope,
                role,
                *place,
                name,
                wrong_call(scope, around, name, items.len()),
            )
            .or(fault_in_items(scope, around, role.inside(), items.as_slice()))
        }
        Expr::Func(place, word, items) => {
            let fault = function_fault(scope, role, *place, *word, items.as_slice());
            match argument_role(scope, role, *word, items.as_slice()) {
                Some(inside) => fault.or(fault_in_items(scope, around, inside, items.as_slice())),
                None => fault,
            }
        }
        Expr::Proj(place, set, positions) => {
            no_constraint(role, *place)
                .or(fault_in(scope, around, role.inside(), set.get()))
                .or(fault_in_items(scope, around, role.inside(), positions.items.as_slice()))
        }
        Expr::Paren(_, inner) => fault_in(scope, around, role.parenthesised(), inner.get()),
        Expr::Braces(place, body) => {
            no_constraint(role, *place).or(fault_in_body(scope, around, role.inside(), body.get()))
        }
        Expr::If(place, vif, test, branch, otherwise) => {
            choice_fault(role, *place, *vif, is_missing(otherwise))
                .or(fault_in(scope, around, role.test_of(*vif), test.get()))
                .or(fault_in(scope, around, role.branch_of(*vif), branch.get()))
                .or(fault_in_given(scope, around, role.branch_of(*vif), otherwise))
        }
        Expr::Factorial(inner, marks) => {
            fault_in(scope, around, role.inside(), inner.get()).or(factorial_fault(
                role,
                marks.as_slice(),
            ))
        }
        Expr::Power(place, _, base, _, exponent) => {
            fault_in(scope, around, role.term_inside(), base.get())
                .or(power_fault(scope, *place, base.get(), exponent.get()))
                .or(no_constraint(role, *place))
                .or(fault_in(scope, around, role.term_inside(), exponent.get()))
        }
        Expr::Signed(place, _, inner) => {
            let inside = role.signed(is_infinity(scope, inner.get()));
            no_constraint(role, *place).or(fault_in(scope, around, inside, inner.get()))
        }
        Expr::Big(place, word, index, _, inner) => {
            let behind = Around::Index(index.get().tuple.items.as_slice(), &*around);
            loop_fault(scope, *place, *word, index.get(), inner.get())
                .or(no_constraint(role, *place))
                .or(fault_in_index(scope, around, role.inside(), index.get()))
                .or(fault_in(scope, &behind, role.summand(*word), inner.get()))
        }
        Expr::Times(first, others) => {
            let before = has_variables(scope, first.get());
            let by_stars = is_by_stars(scope, before, others.as_slice());
            fault_in(scope, around, role.operand(by_stars), first.get()).or(fault_in_factors(
                scope,
                around,
                role,
                by_stars,
                before,
                others.as_slice(),
            ))
        }
        Expr::Plus(first, others) => {
            let inside = role.operand(is_by_signs(others.as_slice()));
            fault_in(scope, around, inside, first.get()).or(fault_in_operands(
                scope,
                around,
                role,
                inside,
                others.as_slice(),
            ))
        }
        Expr::Compare(first, others) => match others.as_slice() {
            [] => fault_in(scope, around, role.side(), first.get()),
            [right] => {
                fault_in(scope, around, role.side(), first.get())
                    .or(relation_fault(role, right.0, right.1))
                    .or(fault_in(scope, around, role.side(), &right.2))
            }
            [middle, last, ..] => {
                fault_in(scope, around, role.chain_side(), first.get())
                    .or(chain_fault(
                        scope,
                        role,
                        middle.0,
                        middle.1,
                        last.1,
                        first.get(),
                        &last.2,
                    ))
                    .or(fault_in(scope, around, role.chain_side(), &middle.2))
                    .or(fault_in(scope, around, role.chain_side(), &last.2))
            }
        },
        Expr::Member(place, tuple, set) => {
            fault_in_items(scope, around, role.inside(), tuple.items.as_slice())
                .or(no_constraint(role, *place))
                .or(fault_in(scope, around, role.inside(), set.get()))
        }
        Expr::Not(place, inner) => {
            no_constraint(role, *place).or(fault_in(
                scope,
                around,
                role.condition_inside(),
                inner.get(),
            ))
        }
        Expr::And(first, others) => {
            fault_in(scope, around, role.conjunct(), first.get()).or(fault_in_conjuncts(
                scope,
                around,
                role.conjunct(),
                others.as_slice(),
            ))
        }
        Expr::Or(first, others) => {
            fault_in(scope, around, role.condition_inside(), first.get()).or(fault_in_disjuncts(
                scope,
                around,
                role,
                others.as_slice(),
            ))
        }
        Expr::Forall(place, index, _, inner) => {
            let behind = Around::Index(index.get().tuple.items.as_slice(), &*around);
            mark(!role.is_constraint(), Kind::NotConstraint, *place)
                .or(fault_in_index(scope, around, role.test(), index.get()))
                .or(fault_in(scope, &behind, role.constraint_inside(), inner.get()))
        }
    }
}

/// Whether an expression is `infinity`.
fn is_infinity(scope: &Scope, tree: &Expr) -> bool
    ensures { result ≡ (part_of scope.now tree.now).infinite }
{
    match tree {
        Expr::Infinity(_) => true,
        _ => false,
    }
}

/// Whether there is no such part.
fn is_missing(part: &Option<Boxed<Expr>>) -> bool
    ensures { result ≡ is_none part.now }
{
    match part {
        Some(_) => false,
        None => true,
    }
}

/// The first fault of a part, if there is one.
#[cycle(fault_in)]
fn fault_in_given(
    scope: &Scope,
    around: &Around,
    role: Role,
    part: &Option<Boxed<Expr>>,
) -> Option<Fault>
    ensures { result ≡ first_of_faults (spec.given_faults role (names_in scope.now around.now) (option_map (part_of scope.now) part.now)) }
{
    match part {
        Some(tree) => fault_in(scope, around, role, tree.get()),
        None => None,
    }
}

/// The first fault of expressions one behind the other.
#[cycle(fault_in)]
pub(crate) fn fault_in_items(
    scope: &Scope,
    around: &Around,
    role: Role,
    trees: &[Expr],
) -> Option<Fault>
    ensures { result ≡ first_of_faults (spec.all_faults role (names_in scope.now around.now) (parts_of scope.now trees.now)) }
{
    let mut fault = None;
    for tree in trees {
        fault = fault.or(fault_in(scope, around, role, tree));
    }
    fault
}

/// The first fault of operands behind `+` and the like. Where a constraint is wanted, the first operator is marked.
#[cycle(fault_in)]
fn fault_in_operands(
    scope: &Scope,
    around: &Around,
    whole: Role,
    inside: Role,
    others: &[(Place, Token, Expr)],
) -> Option<Fault>
    ensures { result ≡ first_of_faults (spec.operands_faults whole inside (names_in scope.now around.now) (known_operands scope.now others.now)) }
{
    let mut fault = None;
    let mut role = whole;
    for (place, _token, tree) in others {
        fault = fault
            .or(no_constraint(role, *place))
            .or(fault_in(scope, around, inside, tree));
        role = inside;
    }
    fault
}

/// The first fault of operands behind `or` and `xor`. Where a constraint is wanted, the first operator is marked.
#[cycle(fault_in)]
fn fault_in_disjuncts(
    scope: &Scope,
    around: &Around,
    whole: Role,
    others: &[(Place, bool, Expr)],
) -> Option<Fault>
    ensures { result ≡ first_of_faults (spec.operands_faults whole (condition_inside whole) (names_in scope.now around.now) (known_disjuncts scope.now others.now)) }
{
    let inside = whole.condition_inside();
    let mut fault = None;
    let mut role = whole;
    for (place, _xor, tree) in others {
        fault = fault
            .or(no_constraint(role, *place))
            .or(fault_in(scope, around, inside, tree));
        role = inside;
    }
    fault
}

/// The first fault of operands behind `and`.
#[cycle(fault_in)]
fn fault_in_conjuncts(
    scope: &Scope,
    around: &Around,
    role: Role,
    others: &[(Place, Expr)],
) -> Option<Fault>
    ensures { result ≡ first_of_faults (spec.conjuncts_faults role (names_in scope.now around.now) (known_conjuncts scope.now others.now)) }
{
    let mut fault = None;
    for (_place, tree) in others {
        fault = fault.or(fault_in(scope, around, role, tree));
    }
    fault
}

/// The first fault of factors behind `*` and the like. Of the operands before it is known whether one has variables.
#[cycle(fault_in)]
fn fault_in_factors(
    scope: &Scope,
    around: &Around,
    whole: Role,
    by_stars: bool,
    before: bool,
    others: &[(Place, Token, Expr)],
) -> Option<Fault>
    ensures { result ≡ first_of_faults (spec.factors_faults by_stars before whole (operand by_stars whole) (names_in scope.now around.now) (known_operands scope.now others.now)) }
{
    let inside = whole.operand(by_stars);
    let mut fault = None;
    let mut role = whole;
    let mut varying = before;
    for (place, token, tree) in others {
        let inner = fault_in(scope, around, inside, tree);
        let now = has_variables(scope, tree);
        fault = fault
            .or(factor_fault(by_stars, now, varying, *place, token))
            .or(no_constraint(role, *place))
            .or(inner);
        varying = varies_by(scope, varying, tree);
        role = inside;
    }
    fault
}

/// The first fault of the components of an index's tuple: a name that is bound has none.
#[cycle(fault_in)]
fn fault_in_components(scope: &Scope, around: &Around, role: Role, trees: &[Expr]) -> Option<Fault>
    ensures { result ≡ first_of_faults (spec.components_faults scope.now role (names_in scope.now around.now) (parts_of scope.now trees.now)) }
{
    let mut fault = None;
    for tree in trees {
        if is_bound(scope, around, tree) {
            continue;
        }
        fault = fault.or(fault_in(scope, around, role, tree));
    }
    fault
}

/// Whether a component of an index's tuple is a name that is bound there.
pub fn is_bound(scope: &Scope, around: &Around, tree: &Expr) -> bool
    ensures { result ≡ is_some (bound_name scope.now (names_in scope.now around.now) tree.now) }
{
    match bare_name(tree) {
        Some(name) => !(around.has(scope, name) || scope.is_declared(name)),
        None => false,
    }
}

/// The first fault of an index.
#[cycle(fault_in)]
pub(crate) fn fault_in_index(
    scope: &Scope,
    around: &Around,
    role: Role,
    index: &Index,
) -> Option<Fault>
    ensures { result ≡ first_of_faults ((part_of_index scope.now index.now).faults role (names_in scope.now around.now)) }
{
    let items = index.tuple.items.as_slice();
    let fault = fault_in_components(scope, around, role, items).or(fault_in(
        scope,
        around,
        role,
        index.set.get(),
    ));
    match &index.cond {
        Some((_, tree)) => {
            let behind = Around::Index(items, &*around);
            fault.or(fault_in(scope, &behind, role, tree.get()))
        }
        None => fault,
    }
}

/// The first fault of what stands in braces.
#[cycle(fault_in)]
fn fault_in_body(scope: &Scope, around: &Around, role: Role, body: &Body) -> Option<Fault>
    ensures { result ≡ first_of_faults ((part_of_body scope.now body.now).faults role (names_in scope.now around.now)) }
{
    match body {
        Body::Empty => None,
        Body::Members(members) => fault_in_items(scope, around, role, members.as_slice()),
        Body::Tuples(tuples) => {
            let mut fault = None;
            for tuple in tuples.as_slice() {
                fault = fault.or(fault_in_items(scope, around, role, tuple.items.as_slice()));
            }
            fault
        }
        Body::Those(index) => fault_in_index(scope, around, role, index.get()),
        Body::Span(from, _, end, by) => {
            fault_in(scope, around, role, from.get())
                .or(fault_in(scope, around, role, end.get()))
                .or(fault_in_given(scope, around, role, by))
        }
    }
}
