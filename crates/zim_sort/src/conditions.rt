//! The condition that is made of an expression, or the constant where it has no variables, in one walk along it.
ghost use Rattle.std.specs.Prelude.{◌≡◌, IfOk};
ghost use Rattle.zim_static.specs.Around.{names_in};
ghost use Rattle.zim_sort.specs.Parts.{anded_parts, ored_parts, typed_condition_part};
ghost use Rattle.zim_typing.specs.Typing.{some_cond};

use crate::condition_parts::{anded, compared, condition_of, fixed, negated, ored, parenthesised};
use crate::part::CondPart;
use crate::terms::term_part;
use std::alloc::Global;
use zim_fault::{Memory, Place};
use zim_static::{Around, Scope};
use zim_tree::Expr;
use zim_typed::Cond;

/// What an expression is where a condition may stand.
#[cycle(conditions)]
pub(crate) fn condition_part(
    alloc: Global,
    scope: &Scope,
    around: &Around,
    tree: &Expr,
) -> Result<CondPart, Memory>
    ensures { IfOk result (λ made. made ≡ typed_condition_part scope.now (names_in scope.now around.now) tree.now) }
{
    match tree {
        Expr::Paren(place, inner) => {
            let inner = condition_part(alloc, scope, around, inner.get())?;
            parenthesised(alloc, *place, inner)
        }
        Expr::Compare(first, others) => match others.as_slice() {
            [other] => {
                let left = term_part(alloc, scope, around, first.get())?;
                let right = term_part(alloc, scope, around, &other.2)?;
                compared(alloc, other.0, other.1, left, right)
            }
            [_, _, ..] => fixed(alloc, scope, around, tree),
            [] => fixed(alloc, scope, around, tree),
        },
        Expr::Not(place, operand) => {
            let operand = condition_part(alloc, scope, around, operand.get())?;
            negated(alloc, *place, operand)
        }
        Expr::And(first, others) => {
            let first = condition_part(alloc, scope, around, first.get())?;
            let others = conjuncts(alloc, scope, around, others.as_slice())?;
            anded(alloc, first, others)
        }
        Expr::Or(first, others) => {
            let first = condition_part(alloc, scope, around, first.get())?;
            let others = disjuncts(alloc, scope, around, others.as_slice())?;
            ored(alloc, first, others)
        }
        Expr::Number(_, _)
        | Expr::Text(_, _, _)
        | Expr::Truth(_, _)
        | Expr::Infinity(_)
        | Expr::Name(_, _)
        | Expr::Item(_, _, _)
        | Expr::Call(_, _, _)
        | Expr::Func(_, _, _)
        | Expr::Proj(_, _, _)
        | Expr::Braces(_, _)
        | Expr::If(_, _, _, _, _)
        | Expr::Factorial(_, _)
        | Expr::Power(_, _, _, _, _)
        | Expr::Signed(_, _, _)
        | Expr::Big(_, _, _, _, _)
        | Expr::Times(_, _)
        | Expr::Plus(_, _)
        | Expr::Member(_, _, _)
        | Expr::Forall(_, _, _, _) => fixed(alloc, scope, around, tree),
    }
}

/// What the operands behind `and` are.
#[cycle(conditions)]
fn conjuncts(
    alloc: Global,
    scope: &Scope,
    around: &Around,
    others: &[(Place, Expr)],
) -> Result<Vec<(Place, CondPart)>, Memory>
    ensures { IfOk result (λ made. made.items ≡ anded_parts scope.now (names_in scope.now around.now) others.now) }
{
    let mut made = Vec::new(alloc);
    for (place, tree) in others {
        made.push((*place, condition_part(alloc, scope, around, tree)?))?;
    }
    Ok(made)
}

/// What the operands behind `or` and `xor` are.
#[cycle(conditions)]
fn disjuncts(
    alloc: Global,
    scope: &Scope,
    around: &Around,
    others: &[(Place, bool, Expr)],
) -> Result<Vec<(Place, bool, CondPart)>, Memory>
    ensures { IfOk result (λ made. made.items ≡ ored_parts scope.now (names_in scope.now around.now) others.now) }
{
    let mut made = Vec::new(alloc);
    for (place, xor, tree) in others {
        made.push((*place, *xor, condition_part(alloc, scope, around, tree)?))?;
    }
    Ok(made)
}

/// The condition that is made of an expression, with variables or without.
pub(crate) fn condition(
    alloc: Global,
    scope: &Scope,
    around: &Around,
    tree: &Expr,
) -> Result<Cond, Memory>
    ensures { IfOk result (λ made. made ≡ some_cond scope.now (names_in scope.now around.now) tree.now) }
{
    Ok(condition_of(condition_part(alloc, scope, around, tree)?))
}
