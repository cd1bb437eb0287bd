ghost use Rattle.std.specs.Prelude.{◌≡◌, IfOk};

use sqlite_items::{Boxed, Items};
use std::alloc::Global;
use zim_fault::{Join, Memory, Place};
use zim_formula::{GCon, GCond, GTerm};

/// An equal term.
#[cycle(copy_term)]
pub fn copy_term(alloc: Global, tree: &GTerm) -> Result<GTerm, Memory>
    ensures { IfOk result (λ made. made ≡ tree.now) }
{
    match tree {
        GTerm::Known(q) => Ok(GTerm::Known(*q)),
        GTerm::Column(j) => Ok(GTerm::Column(*j)),
        GTerm::Sum(first, others) => Ok(GTerm::Sum(
            copy_boxed_term(alloc, first)?,
            copy_operands(alloc, others.as_slice())?,
        )),
        GTerm::Product(factor, term, others) => Ok(GTerm::Product(
            *factor,
            copy_boxed_term(alloc, term)?,
            Items::from_slice(alloc, others.as_slice())?,
        )),
        GTerm::Minus(place, term) => Ok(GTerm::Minus(*place, copy_boxed_term(alloc, term)?)),
        GTerm::SumOver(place, terms) => {
            Ok(GTerm::SumOver(*place, copy_terms(alloc, terms.as_slice())?))
        }
        GTerm::Abs(place, term) => Ok(GTerm::Abs(*place, copy_boxed_term(alloc, term)?)),
    }
}

#[cycle(copy_term)]
fn copy_boxed_term(alloc: Global, tree: &Boxed<GTerm>) -> Result<Boxed<GTerm>, Memory>
    ensures { IfOk result (λ made. made ≡ tree.now) }
{
    Ok(Boxed::new(alloc, copy_term(alloc, tree.get())?)?)
}

#[cycle(copy_term)]
fn copy_operands(
    alloc: Global,
    others: &[(Place, bool, GTerm)],
) -> Result<Items<(Place, bool, GTerm)>, Memory>
    ensures { IfOk result (λ made. made ≡ others.now) }
{
    let mut made = Items::new(alloc);
    for (place, minus, tree) in others {
        made.push((*place, *minus, copy_term(alloc, tree)?))?;
    }
    Ok(made)
}

#[cycle(copy_term)]
fn copy_terms(alloc: Global, trees: &[GTerm]) -> Result<Items<GTerm>, Memory>
    ensures { IfOk result (λ made. made ≡ trees.now) }
{
    let mut made = Items::new(alloc);
    for tree in trees {
        made.push(copy_term(alloc, tree)?)?;
    }
    Ok(made)
}

/// An equal condition.
#[cycle(copy_condition)]
pub fn copy_condition(alloc: Global, tree: &GCond) -> Result<GCond, Memory>
    ensures { IfOk result (λ made. made ≡ tree.now) }
{
    match tree {
        GCond::Known(truth) => Ok(GCond::Known(*truth)),
        GCond::Compare(place, relation, left, right) => Ok(GCond::Compare(
            *place,
            *relation,
            copy_boxed_term(alloc, left)?,
            copy_boxed_term(alloc, right)?,
        )),
        GCond::Chain(first, others) => Ok(GCond::Chain(
            copy_boxed_condition(alloc, first)?,
            copy_joined(alloc, others.as_slice())?,
        )),
        GCond::Not(place, operand) => {
            Ok(GCond::Not(*place, copy_boxed_condition(alloc, operand)?))
        }
    }
}

#[cycle(copy_condition)]
fn copy_boxed_condition(alloc: Global, tree: &Boxed<GCond>) -> Result<Boxed<GCond>, Memory>
    ensures { IfOk result (λ made. made ≡ tree.now) }
{
    Ok(Boxed::new(alloc, copy_condition(alloc, tree.get())?)?)
}

#[cycle(copy_condition)]
fn copy_joined(
    alloc: Global,
    others: &[(Place, Join, GCond)],
) -> Result<Items<(Place, Join, GCond)>, Memory>
    ensures { IfOk result (λ made. made ≡ others.now) }
{
    let mut made = Items::new(alloc);
    for (place, join, tree) in others {
        made.push((*place, *join, copy_condition(alloc, tree)?))?;
    }
    Ok(made)
}

/// An equal constraint.
#[cycle(copy_constraint)]
pub fn copy_constraint(alloc: Global, tree: &GCon) -> Result<GCon, Memory>
    ensures { IfOk result (λ made. made ≡ tree.now) }
{
    match tree {
        GCon::Compare(place, relation, left, right) => Ok(GCon::Compare(
            *place,
            *relation,
            copy_boxed_term(alloc, left)?,
            copy_boxed_term(alloc, right)?,
        )),
        GCon::Range(place, relation, first, term, last) => Ok(GCon::Range(
            *place,
            *relation,
            *first,
            copy_boxed_term(alloc, term)?,
            *last,
        )),
        GCon::And(parts) => Ok(GCon::And(copy_constraints(alloc, parts.as_slice())?)),
        GCon::Vif(place, test, then, otherwise) => Ok(GCon::Vif(
            *place,
            copy_boxed_condition(alloc, test)?,
            copy_boxed_constraint(alloc, then)?,
            copy_boxed_option(alloc, otherwise)?,
        )),
    }
}

#[cycle(copy_constraint)]
fn copy_boxed_constraint(alloc: Global, tree: &Boxed<GCon>) -> Result<Boxed<GCon>, Memory>
    ensures { IfOk result (λ made. made ≡ tree.now) }
{
    Ok(Boxed::new(alloc, copy_constraint(alloc, tree.get())?)?)
}

#[cycle(copy_constraint)]
fn copy_boxed_option(
    alloc: Global,
    tree: &Option<Boxed<GCon>>,
) -> Result<Option<Boxed<GCon>>, Memory>
    ensures { IfOk result (λ made. made ≡ tree.now) }
{
    match tree {
        None => Ok(None),
        Some(tree) => Ok(Some(Boxed::new(alloc, copy_constraint(alloc, tree.get())?)?)),
    }
}

#[cycle(copy_constraint)]
fn copy_constraints(alloc: Global, trees: &[GCon]) -> Result<Items<GCon>, Memory>
    ensures { IfOk result (λ made. made ≡ trees.now) }
{
    let mut made = Items::new(alloc);
    for tree in trees {
        made.push(copy_constraint(alloc, tree)?)?;
    }
    Ok(made)
}
