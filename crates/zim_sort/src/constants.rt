//! The constant that is made of an expression.
ghost use Rattle.std.specs.Prelude.{◌≡◌, [], IfOk};
ghost use Rattle.zim_static.specs.Around.{names_in};
ghost use Rattle.zim_typing.specs.Typing.{typed_const, typed_consts, typed_operands, typed_conjuncts, typed_disjuncts, typed_tuple, typed_slots, typed_index, typed_body};

use crate::names::{bound_slot, called, indexed, named, set_argument};
use sqlite_items::{Boxed, Items};
use std::alloc::Global;
use zim_fault::{Duplicate, Memory, Place, Token};
use zim_static::{Around, Scope};
use zim_tree::{Angle, Body, Expr, Index};
use zim_typed::{Const, Loop, LoopSlot, TAngle, TBody};

/// The constant that is made of an expression.
#[cycle(constant)]
pub(crate) fn constant(
    alloc: Global,
    scope: &Scope,
    around: &Around,
    tree: &Expr,
) -> Result<Const, Memory>
    ensures { IfOk result (λ made. made ≡ typed_const scope.now (names_in scope.now around.now) tree.now) }
{
    match tree {
        Expr::Number(place, digits) => Ok(Const::Number(*place, digits.copy()?)),
        Expr::Text(place, text, double) => Ok(Const::Text(*place, text.copy()?, *double)),
        Expr::Truth(place, truth) => Ok(Const::Truth(*place, *truth)),
        Expr::Infinity(place) => Ok(Const::Infinity(*place)),
        Expr::Name(place, name) => {
            Ok(Const::Name(*place, name.copy()?, named(scope, around, name)))
        }
        Expr::Item(place, name, index) => {
            let stands = indexed(scope, around, name);
            let index = constants(alloc, scope, around, index.as_slice())?;
            Ok(Const::Item(*place, name.copy()?, index, stands))
        }
        Expr::Call(place, name, given) => {
            let stands = called(scope, around, name, given.len());
            let given = constants(alloc, scope, around, given.as_slice())?;
            Ok(Const::Call(*place, name.copy()?, given, stands))
        }
        Expr::Func(place, word, given) => {
            match set_argument(alloc, *word, given.as_slice())? {
                Some(set) => Ok(Const::Func(*place, *word, set)),
                None => {
                    let given = constants(alloc, scope, around, given.as_slice())?;
                    Ok(Const::Func(*place, *word, given))
                }
            }
        }
        Expr::Proj(place, set, positions) => {
            let set = boxed_constant(alloc, scope, around, set.get())?;
            let positions = tuple(alloc, scope, around, positions)?;
            Ok(Const::Proj(*place, set, positions))
        }
        Expr::Paren(place, inner) => {
            Ok(Const::Paren(*place, boxed_constant(alloc, scope, around, inner.get())?))
        }
        Expr::Braces(place, inside) => {
            let inside = Boxed::new(alloc, body(alloc, scope, around, inside.get())?)?;
            Ok(Const::Braces(*place, inside))
        }
        Expr::If(place, _, test, branch, otherwise) => {
            let test = boxed_constant(alloc, scope, around, test.get())?;
            let branch = boxed_constant(alloc, scope, around, branch.get())?;
            match otherwise {
                Some(tree) => {
                    let otherwise = boxed_constant(alloc, scope, around, tree.get())?;
                    Ok(Const::If(*place, test, branch, otherwise))
                }
                None => {
                    let otherwise = Boxed::new(alloc, Const::Truth(*place, true))?;
                    Ok(Const::If(*place, test, branch, otherwise))
                }
            }
        }
        Expr::Factorial(operand, marks) => {
            let operand = boxed_constant(alloc, scope, around, operand.get())?;
            Ok(Const::Factorial(operand, Items::from_slice(alloc, marks.as_slice())?))
        }
        Expr::Power(place, sign, base, signed, exponent) => {
            let base = boxed_constant(alloc, scope, around, base.get())?;
            let exponent = boxed_constant(alloc, scope, around, exponent.get())?;
            Ok(Const::Power(*place, *sign, base, *signed, exponent))
        }
        Expr::Signed(place, minus, operand) => {
            let operand = boxed_constant(alloc, scope, around, operand.get())?;
            Ok(Const::Signed(*place, *minus, operand))
        }
        Expr::Big(place, word, index, with_do, operand) => {
            let behind = Around::Index(index.get().tuple.items.as_slice(), &*around);
            let made = Boxed::new(alloc, index_of(alloc, scope, around, index.get())?)?;
            let operand = boxed_constant(alloc, scope, &behind, operand.get())?;
            Ok(Const::Big(*place, *word, made, *with_do, operand))
        }
        Expr::Times(first, others) => {
            let first = boxed_constant(alloc, scope, around, first.get())?;
            Ok(Const::Times(first, operands(alloc, scope, around, others.as_slice())?))
        }
        Expr::Plus(first, others) => {
            let first = boxed_constant(alloc, scope, around, first.get())?;
            Ok(Const::Plus(first, operands(alloc, scope, around, others.as_slice())?))
        }
        Expr::Compare(first, others) => match others.as_slice() {
            [] => constant(alloc, scope, around, first.get()),
            [other, ..] => {
                let left = boxed_constant(alloc, scope, around, first.get())?;
                let right = boxed_constant(alloc, scope, around, &other.2)?;
                Ok(Const::Compare(other.0, other.1, left, right))
            }
        },
        Expr::Member(place, items, set) => {
            let items = tuple(alloc, scope, around, items)?;
            Ok(Const::Member(
                *place,
                items,
                boxed_constant(alloc, scope, around, set.get())?,
            ))
        }
        Expr::Not(place, operand) => {
            Ok(Const::Not(*place, boxed_constant(alloc, scope, around, operand.get())?))
        }
        Expr::And(first, others) => {
            let first = boxed_constant(alloc, scope, around, first.get())?;
            Ok(Const::And(first, conjuncts(alloc, scope, around, others.as_slice())?))
        }
        Expr::Or(first, others) => {
            let first = boxed_constant(alloc, scope, around, first.get())?;
            Ok(Const::Or(first, disjuncts(alloc, scope, around, others.as_slice())?))
        }
        Expr::Forall(place, _, _, _) => Ok(Const::Truth(*place, true)),
    }
}

/// The constant that is made of an expression, boxed.
#[cycle(constant)]
pub(crate) fn boxed_constant(
    alloc: Global,
    scope: &Scope,
    around: &Around,
    tree: &Expr,
) -> Result<Boxed<Const>, Memory>
    ensures { IfOk result (λ made. made ≡ typed_const scope.now (names_in scope.now around.now) tree.now) }
{
    Ok(Boxed::new(alloc, constant(alloc, scope, around, tree)?)?)
}

/// The constants that are made of expressions.
#[cycle(constant)]
pub(crate) fn constants(
    alloc: Global,
    scope: &Scope,
    around: &Around,
    trees: &[Expr],
) -> Result<Items<Const>, Memory>
    ensures { IfOk result (λ made. made ≡ typed_consts scope.now (names_in scope.now around.now) trees.now) }
{
    let mut made = Items::new(alloc);
    for tree in trees {
        made.push(constant(alloc, scope, around, tree)?)?;
    }
    Ok(made)
}

/// The constants that are made of operands behind operators.
#[cycle(constant)]
pub(crate) fn operands(
    alloc: Global,
    scope: &Scope,
    around: &Around,
    others: &[(Place, Token, Expr)],
) -> Result<Items<(Place, Token, Const)>, Memory>
    ensures { IfOk result (λ made. made ≡ typed_operands scope.now (names_in scope.now around.now) others.now) }
{
    let mut made = Items::new(alloc);
    for (place, token, tree) in others {
        made.push((*place, token.copy()?, constant(alloc, scope, around, tree)?))?;
    }
    Ok(made)
}

/// The constants that are made of operands behind `and`.
#[cycle(constant)]
fn conjuncts(
    alloc: Global,
    scope: &Scope,
    around: &Around,
    others: &[(Place, Expr)],
) -> Result<Items<(Place, Const)>, Memory>
    ensures { IfOk result (λ made. made ≡ typed_conjuncts scope.now (names_in scope.now around.now) others.now) }
{
    let mut made = Items::new(alloc);
    for (place, tree) in others {
        made.push((*place, constant(alloc, scope, around, tree)?))?;
    }
    Ok(made)
}

/// The constants that are made of operands behind `or` and `xor`.
#[cycle(constant)]
fn disjuncts(
    alloc: Global,
    scope: &Scope,
    around: &Around,
    others: &[(Place, bool, Expr)],
) -> Result<Items<(Place, bool, Const)>, Memory>
    ensures { IfOk result (λ made. made ≡ typed_disjuncts scope.now (names_in scope.now around.now) others.now) }
{
    let mut made = Items::new(alloc);
    for (place, xor, tree) in others {
        made.push((*place, *xor, constant(alloc, scope, around, tree)?))?;
    }
    Ok(made)
}

/// The tuple that is made of a tuple.
#[cycle(constant)]
pub(crate) fn tuple(
    alloc: Global,
    scope: &Scope,
    around: &Around,
    tree: &Angle,
) -> Result<TAngle, Memory>
    ensures { IfOk result (λ made. made ≡ typed_tuple scope.now (names_in scope.now around.now) tree.now) }
{
    Ok(TAngle {
        place: tree.place,
        items: constants(alloc, scope, around, tree.items.as_slice())?,
    })
}

/// The components that are made of those of an index's tuple.
#[cycle(constant)]
fn slots(
    alloc: Global,
    scope: &Scope,
    around: &Around,
    items: &[Expr],
) -> Result<Items<LoopSlot>, Memory>
    ensures { IfOk result (λ made. made ≡ typed_slots scope.now (names_in scope.now around.now) [] items.now) }
{
    let mut made = Items::new(alloc);
    for (at, item) in items.iter().enumerate() {
        match bound_slot(scope, around, &items[..at], item)? {
            Some(slot) => made.push(slot)?,
            None => {
                made.push(LoopSlot::Fixed(boxed_constant(alloc, scope, around, item)?))?;
            }
        }
    }
    Ok(made)
}

/// The index that is made of an index.
#[cycle(constant)]
pub(crate) fn index_of(
    alloc: Global,
    scope: &Scope,
    around: &Around,
    index: &Index,
) -> Result<Loop, Memory>
    ensures { IfOk result (λ made. made ≡ typed_index scope.now (names_in scope.now around.now) index.now) }
{
    let place = index.place;
    let items = index.tuple.items.as_slice();
    let slots = slots(alloc, scope, around, items)?;
    let set = boxed_constant(alloc, scope, around, index.set.get())?;
    match &index.cond {
        None => Ok(Loop {
            place,
            slots,
            set,
            cond: None,
        }),
        Some((_, tree)) => {
            let behind = Around::Index(items, &*around);
            let cond = Some(boxed_constant(alloc, scope, &behind, tree.get())?);
            Ok(Loop {
                place,
                slots,
                set,
                cond,
            })
        }
    }
}

/// What is made of what stands in braces.
#[cycle(constant)]
fn body(alloc: Global, scope: &Scope, around: &Around, tree: &Body) -> Result<TBody, Memory>
    ensures { IfOk result (λ made. made ≡ typed_body scope.now (names_in scope.now around.now) tree.now) }
{
    match tree {
        Body::Empty => Ok(TBody::Empty),
        Body::Members(members) => {
            Ok(TBody::Members(constants(alloc, scope, around, members.as_slice())?))
        }
        Body::Tuples(tuples) => {
            let mut made = Items::new(alloc);
            for item in tuples.as_slice() {
                made.push(tuple(alloc, scope, around, item)?)?;
            }
            Ok(TBody::Tuples(made))
        }
        Body::Those(index) => {
            let made = Boxed::new(alloc, index_of(alloc, scope, around, index.get())?)?;
            Ok(TBody::Those(made))
        }
        Body::Span(from, with_to, to, by) => {
            let from = boxed_constant(alloc, scope, around, from.get())?;
            let to = boxed_constant(alloc, scope, around, to.get())?;
            match by {
                None => Ok(TBody::Span(from, *with_to, to, None)),
                Some(tree) => {
                    let by = Some(boxed_constant(alloc, scope, around, tree.get())?);
                    Ok(TBody::Span(from, *with_to, to, by))
                }
            }
        }
    }
}

/// The index that is made of an index, boxed.
pub(crate) fn boxed_index(
    alloc: Global,
    scope: &Scope,
    around: &Around,
    index: &Index,
) -> Result<Boxed<Loop>, Memory>
    ensures { IfOk result (λ made. made ≡ typed_index scope.now (names_in scope.now around.now) index.now) }
{
    Ok(Boxed::new(alloc, index_of(alloc, scope, around, index)?)?)
}
