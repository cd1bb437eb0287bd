//! Whether variables stand in a part of a statement.
ghost use Rattle.std.specs.Prelude.{◌≡◌, map, option_map};
ghost use Rattle.std.specs.List.{list_any};
ghost use Rattle.zim_typed.specs.Variables.{has_variables, given, is_vabs};
ghost use Rattle.zim_typed.specs.Variables as spec;

use crate::scope::Scope;
use sqlite_items::Boxed;
use zim_fault::{Bytes, Place, Relation, Token, Word};
use zim_tree::{Angle, Body, Expr, Index};
use zim_typed::Declared;

/// Whether a name is that of a variable.
pub fn is_variable(scope: &Scope, name: &Bytes) -> bool
    ensures { result ≡ spec.names_variable scope.now name.now }
{
    match scope.get(name) {
        Some(Declared::Variable(_)) => true,
        _ => false,
    }
}

/// Whether a word is `vabs`.
pub(crate) fn is_vabs(word: Word) -> bool
    ensures { result ≡ is_vabs word }
{
    match word {
        Word::WVabs => true,
        _ => false,
    }
}

/// Whether variables stand in an expression.
#[cycle(varies)]
pub(crate) fn varies(scope: &Scope, tree: &Expr) -> bool
    ensures { result ≡ has_variables scope.now tree.now }
{
    match tree {
        Expr::Number(_, _) | Expr::Text(_, _, _) | Expr::Truth(_, _) | Expr::Infinity(_) => false,
        Expr::Name(_, name) => is_variable(scope, name),
        Expr::Item(_, name, items) => is_variable(scope, name)
            || one_varies(scope, items.as_slice()),
        Expr::Call(_, name, items) => is_variable(scope, name)
            || one_varies(scope, items.as_slice()),
        Expr::Func(_, word, items) => is_vabs(*word) || one_varies(scope, items.as_slice()),
        Expr::Proj(_, set, positions) => {
            varies(scope, set.get()) || one_varies(scope, positions.items.as_slice())
        }
        Expr::Paren(_, inner) | Expr::Signed(_, _, inner) | Expr::Not(_, inner) => {
            varies(scope, inner.get())
        }
        Expr::Factorial(inner, _) => varies(scope, inner.get()),
        Expr::Braces(_, body) => body_varies(scope, body.get()),
        Expr::If(_, _, test, branch, otherwise) => {
            varies(scope, test.get())
                || varies(scope, branch.get())
                || given_varies(scope, otherwise)
        }
        Expr::Power(_, _, base, _, exponent) => {
            varies(scope, base.get()) || varies(scope, exponent.get())
        }
        Expr::Big(_, _, index, _, inner) => {
            index_varies(scope, index.get()) || varies(scope, inner.get())
        }
        Expr::Times(first, others) => {
            varies(scope, first.get()) || one_operand_varies(scope, others.as_slice())
        }
        Expr::Plus(first, others) => {
            varies(scope, first.get()) || one_operand_varies(scope, others.as_slice())
        }
        Expr::Compare(first, others) => {
            varies(scope, first.get()) || one_side_varies(scope, others.as_slice())
        }
        Expr::Member(_, tuple, set) => {
            one_varies(scope, tuple.items.as_slice()) || varies(scope, set.get())
        }
        Expr::And(first, others) => {
            varies(scope, first.get()) || one_conjunct_varies(scope, others.as_slice())
        }
        Expr::Or(first, others) => {
            varies(scope, first.get()) || one_disjunct_varies(scope, others.as_slice())
        }
        Expr::Forall(_, index, _, inner) => {
            index_varies(scope, index.get()) || varies(scope, inner.get())
        }
    }
}

/// Whether variables stand in a part, if there is one.
#[cycle(varies)]
fn given_varies(scope: &Scope, part: &Option<Boxed<Expr>>) -> bool
    ensures { result ≡ given (option_map (has_variables scope.now) part.now) }
{
    match part {
        Some(tree) => varies(scope, tree.get()),
        None => false,
    }
}

/// Whether variables stand in one of some expressions.
#[cycle(varies)]
fn one_varies(scope: &Scope, trees: &[Expr]) -> bool
    ensures { result ≡ list_any (has_variables scope.now) trees.now }
{
    for tree in trees {
        if varies(scope, tree) {
            return true;
        }
    }
    false
}

/// Whether variables stand in one of some operands behind operators.
#[cycle(varies)]
fn one_operand_varies(scope: &Scope, others: &[(Place, Token, Expr)]) -> bool
    ensures { result ≡ list_any (λ x. has_variables scope.now x.2) others.now }
{
    for (_place, _operator, tree) in others {
        if varies(scope, tree) {
            return true;
        }
    }
    false
}

/// Whether variables stand in one of some operands behind relations.
#[cycle(varies)]
fn one_side_varies(scope: &Scope, others: &[(Place, Relation, Expr)]) -> bool
    ensures { result ≡ list_any (λ x. has_variables scope.now x.2) others.now }
{
    for (_place, _relation, tree) in others {
        if varies(scope, tree) {
            return true;
        }
    }
    false
}

/// Whether variables stand in one of some operands behind `or` and `xor`.
#[cycle(varies)]
fn one_disjunct_varies(scope: &Scope, others: &[(Place, bool, Expr)]) -> bool
    ensures { result ≡ list_any (λ x. has_variables scope.now x.2) others.now }
{
    for (_place, _xor, tree) in others {
        if varies(scope, tree) {
            return true;
        }
    }
    false
}

/// Whether variables stand in one of some operands behind `and`.
#[cycle(varies)]
fn one_conjunct_varies(scope: &Scope, others: &[(Place, Expr)]) -> bool
    ensures { result ≡ list_any (λ x. has_variables scope.now x.1) others.now }
{
    for (_place, tree) in others {
        if varies(scope, tree) {
            return true;
        }
    }
    false
}

/// Whether variables stand in one of some tuples.
#[cycle(varies)]
fn one_tuple_varies(scope: &Scope, tuples: &[Angle]) -> bool
    ensures { result ≡ list_any (spec.tuple_has_variables scope.now) tuples.now }
{
    for tuple in tuples {
        if one_varies(scope, tuple.items.as_slice()) {
            return true;
        }
    }
    false
}

/// Whether variables stand in an index.
#[cycle(varies)]
pub(crate) fn index_varies(scope: &Scope, index: &Index) -> bool
    ensures { result ≡ spec.index_has_variables scope.now index.now }
{
    if one_varies(scope, index.tuple.items.as_slice()) {
        return true;
    }
    if varies(scope, index.set.get()) {
        return true;
    }
    match &index.cond {
        Some((_, tree)) => varies(scope, tree.get()),
        None => false,
    }
}

/// Whether variables stand in what stands in braces.
#[cycle(varies)]
fn body_varies(scope: &Scope, body: &Body) -> bool
    ensures { result ≡ spec.body_has_variables scope.now body.now }
{
    match body {
        Body::Empty => false,
        Body::Members(members) => one_varies(scope, members.as_slice()),
        Body::Tuples(tuples) => one_tuple_varies(scope, tuples.as_slice()),
        Body::Those(index) => index_varies(scope, index.get()),
        Body::Span(from, _, end, by) => {
            varies(scope, from.get()) || varies(scope, end.get()) || given_varies(scope, by)
        }
    }
}
