//! The condition or the constant that is made of those of its parts.
ghost use Rattle.std.specs.Prelude.{◌≡◌, IfOk};
ghost use Rattle.std.specs.List.{list_any};
ghost use Rattle.zim_static.specs.Around.{names_in};
ghost use Rattle.zim_typed.specs.Terms.{or_join};
ghost use Rattle.zim_sort.specs.declared.part.CondPart.TheVariants.{Fixed};
ghost use Rattle.zim_typing.specs.Typing.{typed_const};
ghost use Rattle.zim_sort.specs.Parts as spec;

use crate::constants::boxed_constant;
use crate::part::{CondPart, TermPart};
use crate::term_parts::boxed_term_of;
use sqlite_items::{Boxed, Items};
use std::alloc::Global;
use zim_fault::{Join, Memory, Place, Relation};
use zim_static::{Around, Scope};
use zim_tree::Expr;
use zim_typed::{Cond, Const};

/// An expression that is a constant.
pub(crate) fn fixed(
    alloc: Global,
    scope: &Scope,
    around: &Around,
    tree: &Expr,
) -> Result<CondPart, Memory>
    ensures { IfOk result (λ made. made ≡ Fixed (typed_const scope.now (names_in scope.now around.now) tree.now)) }
{
    Ok(CondPart::Fixed(boxed_constant(alloc, scope, around, tree)?))
}

/// The condition that a part is, with variables or without.
pub(crate) fn condition_of(part: CondPart) -> Cond
    ensures { result ≡ spec.as_condition part }
{
    match part {
        CondPart::Varies(condition) => condition.into_inner(),
        CondPart::Fixed(tree) => Cond::Known(tree),
    }
}

/// A part in parentheses.
pub(crate) fn parenthesised(alloc: Global, place: Place, part: CondPart) -> Result<CondPart, Memory>
    ensures { IfOk result (λ made. made ≡ spec.parenthesised_condition place part) }
{
    match part {
        CondPart::Varies(condition) => Ok(CondPart::Varies(condition)),
        CondPart::Fixed(tree) => {
            Ok(CondPart::Fixed(Boxed::new(alloc, Const::Paren(place, tree))?))
        }
    }
}

/// A part behind `not`.
pub(crate) fn negated(alloc: Global, place: Place, part: CondPart) -> Result<CondPart, Memory>
    ensures { IfOk result (λ made. made ≡ spec.negated_part place part) }
{
    match part {
        CondPart::Varies(condition) => {
            Ok(CondPart::Varies(Boxed::new(alloc, Cond::Not(place, condition))?))
        }
        CondPart::Fixed(tree) => Ok(CondPart::Fixed(Boxed::new(alloc, Const::Not(place, tree))?)),
    }
}

/// A comparison of terms with variables.
fn terms_compared(
    alloc: Global,
    place: Place,
    relation: Relation,
    left: TermPart,
    right: TermPart,
) -> Result<CondPart, Memory>
    ensures { IfOk result (λ made. made ≡ spec.terms_compared place relation left right) }
{
    let left = boxed_term_of(alloc, left)?;
    let right = boxed_term_of(alloc, right)?;
    Ok(CondPart::Varies(Boxed::new(alloc, Cond::Compare(place, relation, left, right))?))
}

/// One comparison.
pub(crate) fn compared(
    alloc: Global,
    place: Place,
    relation: Relation,
    left: TermPart,
    right: TermPart,
) -> Result<CondPart, Memory>
    ensures { IfOk result (λ made. made ≡ spec.compared_part place relation left right) }
{
    match left {
        TermPart::Varies(term) => {
            terms_compared(alloc, place, relation, TermPart::Varies(term), right)
        }
        TermPart::Fixed(tree) => match right {
            TermPart::Varies(term) => {
                let left = TermPart::Fixed(tree);
                terms_compared(alloc, place, relation, left, TermPart::Varies(term))
            }
            TermPart::Fixed(other) => {
                let comparison = Const::Compare(place, relation, tree, other);
                Ok(CondPart::Fixed(Boxed::new(alloc, comparison)?))
            }
        },
    }
}

/// Whether a part has variables.
fn varies(part: &CondPart) -> bool
    ensures { result ≡ spec.condition_varies part.now }
{
    match part {
        CondPart::Varies(_) => true,
        CondPart::Fixed(_) => false,
    }
}

/// Conditions that are joined.
fn chained(
    alloc: Global,
    first: CondPart,
    others: Items<(Place, Join, Cond)>,
) -> Result<CondPart, Memory>
    ensures { IfOk result (λ made. made ≡ spec.chained_part first others) }
{
    let first = Boxed::new(alloc, condition_of(first))?;
    Ok(CondPart::Varies(Boxed::new(alloc, Cond::Chain(first, others))?))
}

/// What stands behind `and`, as conditions.
fn conjoined(
    alloc: Global,
    others: Vec<(Place, CondPart)>,
) -> Result<Items<(Place, Join, Cond)>, Memory>
    ensures { IfOk result (λ made. made ≡ spec.conjoined_part others.items) }
{
    let mut made = Items::new(alloc);
    for (place, part) in others {
        made.push((place, Join::And, condition_of(part)))?;
    }
    Ok(made)
}

/// An operand behind `and`, if it is a constant.
fn fixed_conjunct(place: Place, part: CondPart) -> Option<(Place, Const)>
    ensures { result ≡ spec.fixed_conjunct (place, part) }
{
    match part {
        CondPart::Fixed(tree) => Some((place, tree.into_inner())),
        CondPart::Varies(_) => None,
    }
}

/// The constants among operands behind `and`.
fn fixed_conjuncts(
    alloc: Global,
    others: Vec<(Place, CondPart)>,
) -> Result<Items<(Place, Const)>, Memory>
    ensures { IfOk result (λ made. made ≡ spec.fixed_conjuncts others.items) }
{
    let mut made = Items::new(alloc);
    for (place, part) in others {
        match fixed_conjunct(place, part) {
            Some(operand) => made.push(operand)?,
            None => {}
        }
    }
    Ok(made)
}

/// Whether one of the operands behind `and` has variables.
fn one_conjunct_varies(others: &Vec<(Place, CondPart)>) -> bool
    ensures { result ≡ list_any (λ x. spec.condition_varies x.1) others.now.items }
{
    others.iter().any(|x| varies(&x.1))
}

/// Parts that are joined by `and`.
pub(crate) fn anded(
    alloc: Global,
    first: CondPart,
    others: Vec<(Place, CondPart)>,
) -> Result<CondPart, Memory>
    ensures { IfOk result (λ made. made ≡ spec.anded_part first others.items) }
{
    match first {
        CondPart::Varies(condition) => {
            let others = conjoined(alloc, others)?;
            chained(alloc, CondPart::Varies(condition), others)
        }
        CondPart::Fixed(tree) => {
            if one_conjunct_varies(&others) {
                let others = conjoined(alloc, others)?;
                return chained(alloc, CondPart::Fixed(tree), others);
            }
            let others = fixed_conjuncts(alloc, others)?;
            Ok(CondPart::Fixed(Boxed::new(alloc, Const::And(tree, others))?))
        }
    }
}

/// The join of `or`, or of `xor` where the flag says so.
fn join(xor: bool) -> Join
    ensures { result ≡ or_join xor }
{
    if xor { Join::Xor } else { Join::Or }
}

/// What stands behind `or` and `xor`, as conditions.
fn disjoined(
    alloc: Global,
    others: Vec<(Place, bool, CondPart)>,
) -> Result<Items<(Place, Join, Cond)>, Memory>
    ensures { IfOk result (λ made. made ≡ spec.disjoined_part others.items) }
{
    let mut made = Items::new(alloc);
    for (place, xor, part) in others {
        made.push((place, join(xor), condition_of(part)))?;
    }
    Ok(made)
}

/// An operand behind `or` or `xor`, if it is a constant.
fn fixed_disjunct(place: Place, xor: bool, part: CondPart) -> Option<(Place, bool, Const)>
    ensures { result ≡ spec.fixed_disjunct (place, xor, part) }
{
    match part {
        CondPart::Fixed(tree) => Some((place, xor, tree.into_inner())),
        CondPart::Varies(_) => None,
    }
}

/// The constants among operands behind `or` and `xor`.
fn fixed_disjuncts(
    alloc: Global,
    others: Vec<(Place, bool, CondPart)>,
) -> Result<Items<(Place, bool, Const)>, Memory>
    ensures { IfOk result (λ made. made ≡ spec.fixed_disjuncts others.items) }
{
    let mut made = Items::new(alloc);
    for (place, xor, part) in others {
        match fixed_disjunct(place, xor, part) {
            Some(operand) => made.push(operand)?,
            None => {}
        }
    }
    Ok(made)
}

/// Whether one of the operands behind `or` and `xor` has variables.
fn one_disjunct_varies(others: &Vec<(Place, bool, CondPart)>) -> bool
    ensures { result ≡ list_any (λ x. spec.condition_varies x.2) others.now.items }
{
    others.iter().any(|x| varies(&x.2))
}

/// Parts that are joined by `or` and `xor`.
pub(crate) fn ored(
    alloc: Global,
    first: CondPart,
    others: Vec<(Place, bool, CondPart)>,
) -> Result<CondPart, Memory>
    ensures { IfOk result (λ made. made ≡ spec.ored_part first others.items) }
{
    match first {
        CondPart::Varies(condition) => {
            let others = disjoined(alloc, others)?;
            chained(alloc, CondPart::Varies(condition), others)
        }
        CondPart::Fixed(tree) => {
            if one_disjunct_varies(&others) {
                let others = disjoined(alloc, others)?;
                return chained(alloc, CondPart::Fixed(tree), others);
            }
            let others = fixed_disjuncts(alloc, others)?;
            Ok(CondPart::Fixed(Boxed::new(alloc, Const::Or(tree, others))?))
        }
    }
}
