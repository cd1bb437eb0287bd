ghost use Rattle.std.specs.Prelude.{◌≡◌, IfOk};

use crate::constants::{copy_boxed, copy_consts, copy_flagged, copy_loop};
use sqlite_items::{Boxed, Items};
use std::alloc::Global;
use zim_fault::{Duplicate, Join, Memory, Place};
use zim_typed::{Con, Cond, Const, Loop, Term};

/// An equal index, boxed.
pub(crate) fn copy_boxed_loop(alloc: Global, index: &Boxed<Loop>) -> Result<Boxed<Loop>, Memory>
    ensures { IfOk result (λ made. made ≡ index.now) }
{
    Ok(Boxed::new(alloc, copy_loop(alloc, index.get())?)?)
}

/// An equal term.
#[cycle(terms)]
pub fn copy_term(alloc: Global, term: &Term) -> Result<Term, Memory>
    ensures { IfOk result (λ made. made ≡ term.now) }
{
    match term {
        Term::Known(tree) => Ok(Term::Known(copy_boxed(alloc, tree)?)),
        Term::Column(place, name, index) => {
            let index = copy_consts(alloc, index.as_slice())?;
            Ok(Term::Column(*place, name.copy()?, index))
        }
        Term::Sum(first, others) => Ok(Term::Sum(
            copy_boxed_term(alloc, first)?,
            copy_summands(alloc, others.as_slice())?,
        )),
        Term::Product(before, factor, behind) => {
            let before = copy_factor(alloc, before)?;
            let factor = copy_boxed_term(alloc, factor)?;
            Ok(Term::Product(before, factor, copy_flagged(alloc, behind.as_slice())?))
        }
        Term::Minus(place, operand) => Ok(Term::Minus(*place, copy_boxed_term(alloc, operand)?)),
        Term::SumOver(place, index, operand) => {
            let index = copy_boxed_loop(alloc, index)?;
            Ok(Term::SumOver(*place, index, copy_boxed_term(alloc, operand)?))
        }
        Term::If(place, test, branch, otherwise) => {
            let test = copy_boxed(alloc, test)?;
            let branch = copy_boxed_term(alloc, branch)?;
            let otherwise = copy_boxed_term(alloc, otherwise)?;
            Ok(Term::If(*place, test, branch, otherwise))
        }
        Term::Abs(place, operand) => Ok(Term::Abs(*place, copy_boxed_term(alloc, operand)?)),
    }
}

/// An equal term, boxed.
#[cycle(terms)]
pub(crate) fn copy_boxed_term(alloc: Global, term: &Boxed<Term>) -> Result<Boxed<Term>, Memory>
    ensures { IfOk result (λ made. made ≡ term.now) }
{
    Ok(Boxed::new(alloc, copy_term(alloc, term.get())?)?)
}

/// Equal terms, each with a flag that says whether it is taken off.
#[cycle(terms)]
fn copy_summands(
    alloc: Global,
    others: &[(Place, bool, Term)],
) -> Result<Items<(Place, bool, Term)>, Memory>
    ensures { IfOk result (λ made. made ≡ others.now) }
{
    let mut made = Items::new(alloc);
    for (place, minus, term) in others {
        made.push((*place, *minus, copy_term(alloc, term)?))?;
    }
    Ok(made)
}

/// An equal factor before a term, if there is one.
fn copy_factor(
    alloc: Global,
    factor: &Option<(Boxed<Const>, Place)>,
) -> Result<Option<(Boxed<Const>, Place)>, Memory>
    ensures { IfOk result (λ made. made ≡ factor.now) }
{
    match factor {
        None => Ok(None),
        Some((tree, place)) => Ok(Some((copy_boxed(alloc, tree)?, *place))),
    }
}

/// An equal condition.
#[cycle(conditions)]
pub fn copy_cond(alloc: Global, condition: &Cond) -> Result<Cond, Memory>
    ensures { IfOk result (λ made. made ≡ condition.now) }
{
    match condition {
        Cond::Known(tree) => Ok(Cond::Known(copy_boxed(alloc, tree)?)),
        Cond::Compare(place, relation, left, right) => Ok(Cond::Compare(
            *place,
            *relation,
            copy_boxed_term(alloc, left)?,
            copy_boxed_term(alloc, right)?,
        )),
        Cond::Chain(first, others) => Ok(Cond::Chain(
            copy_boxed_cond(alloc, first)?,
            copy_joined(alloc, others.as_slice())?,
        )),
        Cond::Not(place, operand) => Ok(Cond::Not(*place, copy_boxed_cond(alloc, operand)?)),
    }
}

/// An equal condition, boxed.
#[cycle(conditions)]
fn copy_boxed_cond(alloc: Global, condition: &Boxed<Cond>) -> Result<Boxed<Cond>, Memory>
    ensures { IfOk result (λ made. made ≡ condition.now) }
{
    Ok(Boxed::new(alloc, copy_cond(alloc, condition.get())?)?)
}

/// Equal conditions, each with what joins it to those before it.
#[cycle(conditions)]
fn copy_joined(
    alloc: Global,
    others: &[(Place, Join, Cond)],
) -> Result<Items<(Place, Join, Cond)>, Memory>
    ensures { IfOk result (λ made. made ≡ others.now) }
{
    let mut made = Items::new(alloc);
    for (place, join, condition) in others {
        made.push((*place, *join, copy_cond(alloc, condition)?))?;
    }
    Ok(made)
}

/// An equal constraint.
#[cycle(constraints)]
pub fn copy_con(alloc: Global, constraint: &Con) -> Result<Con, Memory>
    ensures { IfOk result (λ made. made ≡ constraint.now) }
{
    match constraint {
        Con::Compare(place, relation, left, right) => Ok(Con::Compare(
            *place,
            *relation,
            copy_boxed_term(alloc, left)?,
            copy_boxed_term(alloc, right)?,
        )),
        Con::Range(place, relation, low, term, high) => {
            let low = copy_boxed(alloc, low)?;
            let term = copy_boxed_term(alloc, term)?;
            let high = copy_boxed(alloc, high)?;
            Ok(Con::Range(*place, *relation, low, term, high))
        }
        Con::And(parts) => Ok(Con::And(copy_cons(alloc, parts.as_slice())?)),
        Con::Forall(place, index, inside) => {
            let inside = copy_boxed_con(alloc, inside)?;
            Ok(Con::Forall(*place, copy_loop(alloc, index)?, inside))
        }
        Con::If(place, test, branch, otherwise) => {
            let otherwise = match otherwise {
                None => None,
                Some(constraint) => Some(copy_boxed_con(alloc, constraint)?),
            };
            let test = copy_boxed(alloc, test)?;
            let branch = copy_boxed_con(alloc, branch)?;
            Ok(Con::If(*place, test, branch, otherwise))
        }
        Con::Vif(place, test, branch, otherwise) => {
            let otherwise = match otherwise {
                None => None,
                Some(constraint) => Some(copy_boxed_con(alloc, constraint)?),
            };
            let branch = copy_boxed_con(alloc, branch)?;
            Ok(Con::Vif(*place, copy_cond(alloc, test)?, branch, otherwise))
        }
    }
}

/// An equal constraint, boxed.
#[cycle(constraints)]
pub(crate) fn copy_boxed_con(alloc: Global, constraint: &Boxed<Con>) -> Result<Boxed<Con>, Memory>
    ensures { IfOk result (λ made. made ≡ constraint.now) }
{
    Ok(Boxed::new(alloc, copy_con(alloc, constraint.get())?)?)
}

/// Equal constraints.
#[cycle(constraints)]
fn copy_cons(alloc: Global, constraints: &[Con]) -> Result<Items<Con>, Memory>
    ensures { IfOk result (λ made. made ≡ constraints.now) }
{
    let mut made = Items::new(alloc);
    for constraint in constraints {
        made.push(copy_con(alloc, constraint)?)?;
    }
    Ok(made)
}
