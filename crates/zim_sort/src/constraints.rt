//! The constraint that is made of an expression.
ghost use Rattle.std.specs.Prelude.{◌≡◌, ◌++◌, IfOk, map, option_map};
ghost use Rattle.zim_static.specs.Around.{names_in};
ghost use Rattle.zim_typing.specs.Typing.{typed_con, typed_comparing, typed_picking};

use crate::conditions::condition;
use crate::constants::{boxed_constant, index_of};
use crate::terms::boxed_term;
use sqlite_items::{Boxed, Items};
use std::alloc::Global;
use zim_fault::{Memory, Place, Relation};
use zim_static::{Around, Scope};
use zim_tree::Expr;
use zim_typed::Con;

/// The constraint that is made of comparisons: one, or two as a range.
fn comparing(
    alloc: Global,
    scope: &Scope,
    around: &Around,
    first: &Expr,
    others: &[(Place, Relation, Expr)],
) -> Result<Con, Memory>
    ensures { IfOk result (λ made. made ≡ typed_comparing scope.now (names_in scope.now around.now) first.now others.now) }
{
    match others {
        [] => Ok(Con::And(Items::new(alloc))),
        [other] => {
            let left = boxed_term(alloc, scope, around, first)?;
            let right = boxed_term(alloc, scope, around, &other.2)?;
            Ok(Con::Compare(other.0, other.1, left, right))
        }
        [middle, last, ..] => {
            let low = boxed_constant(alloc, scope, around, first)?;
            let term = boxed_term(alloc, scope, around, &middle.2)?;
            let high = boxed_constant(alloc, scope, around, &last.2)?;
            Ok(Con::Range(middle.0, middle.1, low, term, high))
        }
    }
}

/// A constraint that an `if` or a `vif` picks.
fn picking(
    alloc: Global,
    scope: &Scope,
    around: &Around,
    place: Place,
    vif: bool,
    test: &Expr,
    branch: Boxed<Con>,
    otherwise: Option<Boxed<Con>>,
) -> Result<Con, Memory>
    ensures { IfOk result (λ made. made ≡ typed_picking scope.now (names_in scope.now around.now) place vif test.now branch otherwise) }
{
    if vif {
        let test = condition(alloc, scope, around, test)?;
        Ok(Con::Vif(place, test, branch, otherwise))
    } else {
        let test = boxed_constant(alloc, scope, around, test)?;
        Ok(Con::If(place, test, branch, otherwise))
    }
}

/// The constraint that is made of an expression.
#[cycle(constraints)]
pub(crate) fn constraint(
    alloc: Global,
    scope: &Scope,
    around: &Around,
    tree: &Expr,
) -> Result<Con, Memory>
    ensures { IfOk result (λ made. made ≡ typed_con scope.now (names_in scope.now around.now) tree.now) }
{
    match tree {
        Expr::Paren(_, inner) => constraint(alloc, scope, around, inner.get()),
        Expr::If(place, vif, test, branch, otherwise) => {
            let branch = boxed_constraint(alloc, scope, around, branch.get())?;
            let otherwise = given_constraint(alloc, scope, around, otherwise)?;
            picking(
                alloc,
                scope,
                around,
                *place,
                *vif,
                test.get(),
                branch,
                otherwise,
            )
        }
        Expr::Compare(first, others) => {
            comparing(alloc, scope, around, first.get(), others.as_slice())
        }
        Expr::And(first, others) => {
            let mut made = Items::new(alloc);
            made.push(constraint(alloc, scope, around, first.get())?)?;
            Ok(Con::And(conjuncts(alloc, scope, around, others.as_slice(), made)?))
        }
        Expr::Forall(place, index, _, inner) => {
            let behind = Around::Index(index.get().tuple.items.as_slice(), &*around);
            let inner = boxed_constraint(alloc, scope, &behind, inner.get())?;
            let index = index_of(alloc, scope, around, index.get())?;
            Ok(Con::Forall(*place, index, inner))
        }
        Expr::Number(_, _)
        | Expr::Text(_, _, _)
        | Expr::Truth(_, _)
        | Expr::Infinity(_)
        | Expr::Name(_, _)
        | Expr::Item(_, _, _)
        | Expr::Call(_, _, _)
        | Expr::Func(_, _, _)
        | Expr::Proj(_, _, _)
        | Expr::Braces(_, _)
        | Expr::Factorial(_, _)
        | Expr::Power(_, _, _, _, _)
        | Expr::Signed(_, _, _)
        | Expr::Big(_, _, _, _, _)
        | Expr::Times(_, _)
        | Expr::Plus(_, _)
        | Expr::Member(_, _, _)
        | Expr::Not(_, _)
        | Expr::Or(_, _) => Ok(Con::And(Items::new(alloc))),
    }
}

/// The constraint that is made of an expression, boxed.
#[cycle(constraints)]
pub(crate) fn boxed_constraint(
    alloc: Global,
    scope: &Scope,
    around: &Around,
    tree: &Expr,
) -> Result<Boxed<Con>, Memory>
    ensures { IfOk result (λ made. made ≡ typed_con scope.now (names_in scope.now around.now) tree.now) }
{
    Ok(Boxed::new(alloc, constraint(alloc, scope, around, tree)?)?)
}

/// The constraint that is made of a part, if there is one.
#[cycle(constraints)]
fn given_constraint(
    alloc: Global,
    scope: &Scope,
    around: &Around,
    part: &Option<Boxed<Expr>>,
) -> Result<Option<Boxed<Con>>, Memory>
    ensures { IfOk result (λ made. made ≡ option_map (typed_con scope.now (names_in scope.now around.now)) part.now) }
{
    match part {
        None => Ok(None),
        Some(tree) => Ok(Some(boxed_constraint(alloc, scope, around, tree.get())?)),
    }
}

/// The constraints that are made of operands behind `and`, at the end of those before them.
#[cycle(constraints)]
fn conjuncts(
    alloc: Global,
    scope: &Scope,
    around: &Around,
    others: &[(Place, Expr)],
    before: Items<Con>,
) -> Result<Items<Con>, Memory>
    ensures { IfOk result (λ made. made ≡ before ++ map (λ x. typed_con scope.now (names_in scope.now around.now) x.1) others.now) }
{
    let mut made = before;
    for (_place, tree) in others {
        made.push(constraint(alloc, scope, around, tree)?)?;
    }
    Ok(made)
}
