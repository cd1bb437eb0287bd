//! The term that is made of an expression, or the constant where it has no variables, in one walk along it.
ghost use Rattle.std.specs.Prelude.{◌≡◌, [], IfOk};
ghost use Rattle.zim_static.specs.Around.{names_in};
ghost use Rattle.zim_sort.specs.Parts.{operand_parts, product_part_behind, typed_term_part};
ghost use Rattle.zim_typing.specs.Typing.{some_term};

use crate::constants::{boxed_constant, boxed_index};
use crate::part::TermPart;
use crate::term_parts::{
    absolute, absolute_operand, boxed_term_of, column, factors, fixed, is_summation, known_product,
    multiplied, parenthesised, picked, signed, sum_of, summed, varying,
};
use sqlite_items::{Boxed, Items};
use std::alloc::Global;
use zim_fault::{Duplicate, Memory, Place, Token};
use zim_static::{Around, Scope, is_variable};
use zim_tree::Expr;
use zim_typed::{Const, Term};

/// What an expression is where a term may stand.
#[cycle(terms)]
pub(crate) fn term_part(
    alloc: Global,
    scope: &Scope,
    around: &Around,
    tree: &Expr,
) -> Result<TermPart, Memory>
    ensures { IfOk result (λ made. made ≡ typed_term_part scope.now (names_in scope.now around.now) tree.now) }
{
    match tree {
        Expr::Name(place, name) => {
            if is_variable(scope, name) {
                column(alloc, scope, around, *place, name, &[])
            } else {
                fixed(alloc, scope, around, tree)
            }
        }
        Expr::Item(place, name, index) => {
            if is_variable(scope, name) {
                column(alloc, scope, around, *place, name, index.as_slice())
            } else {
                fixed(alloc, scope, around, tree)
            }
        }
        Expr::Func(place, word, given) => match absolute_operand(*word, given.as_slice()) {
            Some(operand) => {
                let operand = term_part(alloc, scope, around, operand)?;
                absolute(alloc, *place, operand)
            }
            None => fixed(alloc, scope, around, tree),
        },
        Expr::Paren(place, inner) => {
            let inner = term_part(alloc, scope, around, inner.get())?;
            parenthesised(alloc, *place, inner)
        }
        Expr::If(place, vif, test, branch, otherwise) => match otherwise {
            Some(otherwise) => {
                if *vif {
                    return fixed(alloc, scope, around, tree);
                }
                let test = boxed_constant(alloc, scope, around, test.get())?;
                let branch = term_part(alloc, scope, around, branch.get())?;
                let otherwise = term_part(alloc, scope, around, otherwise.get())?;
                picked(alloc, *place, test, branch, otherwise)
            }
            None => fixed(alloc, scope, around, tree),
        },
        Expr::Signed(place, minus, operand) => {
            let operand = term_part(alloc, scope, around, operand.get())?;
            signed(alloc, *place, *minus, operand)
        }
        Expr::Big(place, word, index, with_do, operand) => {
            if is_summation(*word) {
                let behind = Around::Index(index.get().tuple.items.as_slice(), &*around);
                let made = boxed_index(alloc, scope, around, index.get())?;
                let operand = term_part(alloc, scope, &behind, operand.get())?;
                summed(alloc, *place, *word, made, *with_do, operand)
            } else {
                fixed(alloc, scope, around, tree)
            }
        }
        Expr::Times(first, others) => {
            match term_part(alloc, scope, around, first.get())? {
                TermPart::Varies(term) => multiplied(alloc, scope, around, term, others.as_slice()),
                TermPart::Fixed(tree) => product_behind(
                    alloc,
                    scope,
                    around,
                    others.as_slice(),
                    tree,
                ),
            }
        }
        Expr::Plus(first, others) => {
            let first = term_part(alloc, scope, around, first.get())?;
            let others = parts_behind(alloc, scope, around, others.as_slice())?;
            sum_of(alloc, first, others)
        }
        Expr::Number(_, _)
        | Expr::Text(_, _, _)
        | Expr::Truth(_, _)
        | Expr::Infinity(_)
        | Expr::Call(_, _, _)
        | Expr::Proj(_, _, _)
        | Expr::Braces(_, _)
        | Expr::Factorial(_, _)
        | Expr::Power(_, _, _, _, _)
        | Expr::Compare(_, _)
        | Expr::Member(_, _, _)
        | Expr::Not(_, _)
        | Expr::And(_, _)
        | Expr::Or(_, _)
        | Expr::Forall(_, _, _, _) => fixed(alloc, scope, around, tree),
    }
}

/// What the operands behind the first one of a sum are.
#[cycle(terms)]
fn parts_behind(
    alloc: Global,
    scope: &Scope,
    around: &Around,
    others: &[(Place, Token, Expr)],
) -> Result<Vec<(Place, Token, TermPart)>, Memory>
    ensures { IfOk result (λ made. made.items ≡ operand_parts scope.now (names_in scope.now around.now) others.now) }
{
    let mut made = Vec::new(alloc);
    for (place, token, tree) in others {
        made.push((
            *place,
            token.copy()?,
            term_part(alloc, scope, around, tree)?,
        ))?;
    }
    Ok(made)
}

/// A product whose first operand is a constant: up to the first operand with variables all are taken together.
#[cycle(terms)]
fn product_behind(
    alloc: Global,
    scope: &Scope,
    around: &Around,
    others: &[(Place, Token, Expr)],
    first: Boxed<Const>,
) -> Result<TermPart, Memory>
    ensures { IfOk result (λ made. made ≡ product_part_behind scope.now (names_in scope.now around.now) first [] others.now) }
{
    let mut before = Items::new(alloc);
    for (at, other) in others.iter().enumerate() {
        match term_part(alloc, scope, around, &other.2)? {
            TermPart::Fixed(tree) => {
                before.push((other.0, other.1.copy()?, tree.into_inner()))?;
            }
            TermPart::Varies(term) => {
                let behind = factors(alloc, scope, around, &others[at + 1..])?;
                let known = known_product(alloc, first, before)?;
                return varying(alloc, Term::Product(Some((known, other.0)), term, behind));
            }
        }
    }
    Ok(TermPart::Fixed(Boxed::new(alloc, Const::Times(first, before))?))
}

/// The term that is made of an expression, with variables or without.
pub(crate) fn boxed_term(
    alloc: Global,
    scope: &Scope,
    around: &Around,
    tree: &Expr,
) -> Result<Boxed<Term>, Memory>
    ensures { IfOk result (λ made. made ≡ some_term scope.now (names_in scope.now around.now) tree.now) }
{
    let part = term_part(alloc, scope, around, tree)?;
    boxed_term_of(alloc, part)
}
