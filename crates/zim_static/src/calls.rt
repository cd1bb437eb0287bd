//! How deep the functions nest that an expression calls.
ghost use Rattle.std.specs.Prelude.{◌≡◌, map, option_map};
ghost use Rattle.zim_typed.specs.Scope.{kind_of_name};
ghost use Rattle.zim_typed.specs.Nesting.{greatest, greatest_given};
ghost use Rattle.zim_typed.specs.Nesting as nesting;
ghost use Rattle.zim_static.specs.Calls as spec;

use crate::scope::Scope;
use sqlite_items::Boxed;
use zim_fault::{Bytes, Place, Relation, Token};
use zim_tree::{Angle, Body, Expr, Index};
use zim_typed::Declared;

/// The full nesting of the function of this name, 0 where the name is that of none.
pub(crate) fn function_nesting(scope: &Scope, name: &Bytes) -> u64
    ensures { result ≡ nesting.function_nesting (kind_of_name scope.now name.now) }
{
    match scope.get(name) {
        Some(Declared::Function(_, deep)) => *deep,
        _ => 0,
    }
}

/// The greatest full nesting of the functions that an expression calls, 0 where it calls none.
#[cycle(calls)]
pub(crate) fn calls(scope: &Scope, tree: &Expr) -> u64
    ensures { result ≡ spec.calls scope.now tree.now }
{
    match tree {
        Expr::Number(_, _)
        | Expr::Text(_, _, _)
        | Expr::Truth(_, _)
        | Expr::Infinity(_)
        | Expr::Name(_, _) => 0,
        Expr::Call(_, name, arguments) => function_nesting(scope, name).max(all_calls(
            scope,
            arguments.as_slice(),
        )),
        Expr::Item(_, _, items) => all_calls(scope, items.as_slice()),
        Expr::Func(_, _, arguments) => all_calls(scope, arguments.as_slice()),
        Expr::Proj(_, set, positions) => {
            calls(scope, set.get()).max(all_calls(scope, positions.items.as_slice()))
        }
        Expr::Paren(_, inner) | Expr::Signed(_, _, inner) | Expr::Not(_, inner) => {
            calls(scope, inner.get())
        }
        Expr::Factorial(inner, _) => calls(scope, inner.get()),
        Expr::Braces(_, body) => body_calls(scope, body.get()),
        Expr::If(_, _, test, branch, otherwise) => {
            let branches = calls(scope, branch.get()).max(given_calls(scope, otherwise));
            calls(scope, test.get()).max(branches)
        }
        Expr::Power(_, _, base, _, exponent) => {
            calls(scope, base.get()).max(calls(scope, exponent.get()))
        }
        Expr::Big(_, _, index, _, inner) => {
            index_calls(scope, index.get()).max(calls(scope, inner.get()))
        }
        Expr::Times(first, others) => {
            calls(scope, first.get()).max(operand_calls(scope, others.as_slice()))
        }
        Expr::Plus(first, others) => {
            calls(scope, first.get()).max(operand_calls(scope, others.as_slice()))
        }
        Expr::Compare(first, others) => {
            calls(scope, first.get()).max(side_calls(scope, others.as_slice()))
        }
        Expr::Member(_, tuple, set) => {
            all_calls(scope, tuple.items.as_slice()).max(calls(scope, set.get()))
        }
        Expr::And(first, others) => {
            calls(scope, first.get()).max(conjunct_calls(scope, others.as_slice()))
        }
        Expr::Or(first, others) => {
            calls(scope, first.get()).max(disjunct_calls(scope, others.as_slice()))
        }
        Expr::Forall(_, index, _, inner) => {
            index_calls(scope, index.get()).max(calls(scope, inner.get()))
        }
    }
}

/// The greatest of those that a part calls, if there is one.
#[cycle(calls)]
fn given_calls(scope: &Scope, part: &Option<Boxed<Expr>>) -> u64
    ensures { result ≡ greatest_given (option_map (spec.calls scope.now) part.now) }
{
    match part {
        Some(tree) => calls(scope, tree.get()),
        None => 0,
    }
}

/// The greatest of those that expressions call.
#[cycle(calls)]
pub(crate) fn all_calls(scope: &Scope, trees: &[Expr]) -> u64
    ensures { result ≡ spec.all_calls scope.now trees.now }
{
    let mut deepest = 0_u64;
    for tree in trees {
        deepest = deepest.max(calls(scope, tree));
    }
    deepest
}

/// The greatest of those that operands behind operators call.
#[cycle(calls)]
fn operand_calls(scope: &Scope, others: &[(Place, Token, Expr)]) -> u64
    ensures { result ≡ greatest (map (λ x. spec.calls scope.now x.2) others.now) }
{
    let mut deepest = 0_u64;
    for (_place, _operator, tree) in others {
        deepest = deepest.max(calls(scope, tree));
    }
    deepest
}

/// The greatest of those that operands behind relations call.
#[cycle(calls)]
fn side_calls(scope: &Scope, others: &[(Place, Relation, Expr)]) -> u64
    ensures { result ≡ greatest (map (λ x. spec.calls scope.now x.2) others.now) }
{
    let mut deepest = 0_u64;
    for (_place, _relation, tree) in others {
        deepest = deepest.max(calls(scope, tree));
    }
    deepest
}

/// The greatest of those that operands behind `or` and `xor` call.
#[cycle(calls)]
fn disjunct_calls(scope: &Scope, others: &[(Place, bool, Expr)]) -> u64
    ensures { result ≡ greatest (map (λ x. spec.calls scope.now x.2) others.now) }
{
    let mut deepest = 0_u64;
    for (_place, _xor, tree) in others {
        deepest = deepest.max(calls(scope, tree));
    }
    deepest
}

/// The greatest of those that operands behind `and` call.
#[cycle(calls)]
fn conjunct_calls(scope: &Scope, others: &[(Place, Expr)]) -> u64
    ensures { result ≡ greatest (map (λ x. spec.calls scope.now x.1) others.now) }
{
    let mut deepest = 0_u64;
    for (_place, tree) in others {
        deepest = deepest.max(calls(scope, tree));
    }
    deepest
}

/// The greatest of those that tuples call.
#[cycle(calls)]
fn all_tuple_calls(scope: &Scope, tuples: &[Angle]) -> u64
    ensures { result ≡ greatest (map (spec.tuple_calls scope.now) tuples.now) }
{
    let mut deepest = 0_u64;
    for tuple in tuples {
        deepest = deepest.max(all_calls(scope, tuple.items.as_slice()));
    }
    deepest
}

/// The greatest of those that an index calls.
#[cycle(calls)]
pub(crate) fn index_calls(scope: &Scope, index: &Index) -> u64
    ensures { result ≡ spec.index_calls scope.now index.now }
{
    let over = all_calls(scope, index.tuple.items.as_slice()).max(calls(scope, index.set.get()));
    match &index.cond {
        Some((_, tree)) => over.max(calls(scope, tree.get())),
        None => over,
    }
}

/// The greatest of those that what stands in braces calls.
#[cycle(calls)]
fn body_calls(scope: &Scope, body: &Body) -> u64
    ensures { result ≡ spec.body_calls scope.now body.now }
{
    match body {
        Body::Empty => 0,
        Body::Members(members) => all_calls(scope, members.as_slice()),
        Body::Tuples(tuples) => all_tuple_calls(scope, tuples.as_slice()),
        Body::Those(index) => index_calls(scope, index.get()),
        Body::Span(from, _, end, by) => {
            let rest = calls(scope, end.get()).max(given_calls(scope, by));
            calls(scope, from.get()).max(rest)
        }
    }
}
