ghost use Rattle.std.specs.Prelude.{◌≡◌, IfOk};

use sqlite_items::{Boxed, Items};
use std::alloc::Global;
use zim_fault::{Duplicate, Memory, Place, Relation, Token};
use zim_tree::{Angle, Body, Expr, Index};

/// An equal expression.
#[cycle(copy)]
pub fn copy_expr(alloc: Global, tree: &Expr) -> Result<Expr, Memory>
    ensures { IfOk result (λ made. made ≡ tree.now) }
{
    match tree {
        Expr::Number(place, digits) => Ok(Expr::Number(*place, digits.copy()?)),
        Expr::Text(place, text, double) => Ok(Expr::Text(*place, text.copy()?, *double)),
        Expr::Truth(place, truth) => Ok(Expr::Truth(*place, *truth)),
        Expr::Infinity(place) => Ok(Expr::Infinity(*place)),
        Expr::Name(place, name) => Ok(Expr::Name(*place, name.copy()?)),
        Expr::Item(place, name, index) => {
            Ok(Expr::Item(*place, name.copy()?, copy_exprs(alloc, index.as_slice())?))
        }
        Expr::Call(place, name, given) => {
            Ok(Expr::Call(*place, name.copy()?, copy_exprs(alloc, given.as_slice())?))
        }
        Expr::Func(place, word, given) => {
            Ok(Expr::Func(*place, *word, copy_exprs(alloc, given.as_slice())?))
        }
        Expr::Proj(place, set, positions) => {
            Ok(Expr::Proj(
                *place,
                copy_boxed(alloc, set)?,
                copy_angle(alloc, positions)?,
            ))
        }
        Expr::Paren(place, inner) => Ok(Expr::Paren(*place, copy_boxed(alloc, inner)?)),
        Expr::Braces(place, body) => {
            Ok(Expr::Braces(*place, Boxed::new(alloc, copy_body(alloc, body.get())?)?))
        }
        Expr::If(place, vif, test, then, otherwise) => {
            let otherwise = match otherwise {
                None => None,
                Some(tree) => Some(copy_boxed(alloc, tree)?),
            };
            let test = copy_boxed(alloc, test)?;
            let then = copy_boxed(alloc, then)?;
            Ok(Expr::If(*place, *vif, test, then, otherwise))
        }
        Expr::Factorial(operand, marks) => Ok(Expr::Factorial(
            copy_boxed(alloc, operand)?,
            Items::from_slice(alloc, marks.as_slice())?,
        )),
        Expr::Power(place, sign, base, signed, exponent) => Ok(Expr::Power(
            *place,
            *sign,
            copy_boxed(alloc, base)?,
            *signed,
            copy_boxed(alloc, exponent)?,
        )),
        Expr::Signed(place, minus, operand) => {
            Ok(Expr::Signed(*place, *minus, copy_boxed(alloc, operand)?))
        }
        Expr::Big(place, word, index, with_do, operand) => Ok(Expr::Big(
            *place,
            *word,
            Boxed::new(alloc, copy_index(alloc, index.get())?)?,
            *with_do,
            copy_boxed(alloc, operand)?,
        )),
        Expr::Times(first, others) => Ok(Expr::Times(
            copy_boxed(alloc, first)?,
            copy_operations(alloc, others.as_slice())?,
        )),
        Expr::Plus(first, others) => Ok(Expr::Plus(
            copy_boxed(alloc, first)?,
            copy_operations(alloc, others.as_slice())?,
        )),
        Expr::Compare(first, others) => Ok(Expr::Compare(
            copy_boxed(alloc, first)?,
            copy_relations(alloc, others.as_slice())?,
        )),
        Expr::Member(place, tuple, set) => {
            Ok(Expr::Member(*place, copy_angle(alloc, tuple)?, copy_boxed(alloc, set)?))
        }
        Expr::Not(place, operand) => Ok(Expr::Not(*place, copy_boxed(alloc, operand)?)),
        Expr::And(first, others) => Ok(Expr::And(
            copy_boxed(alloc, first)?,
            copy_conjuncts(alloc, others.as_slice())?,
        )),
        Expr::Or(first, others) => Ok(Expr::Or(
            copy_boxed(alloc, first)?,
            copy_disjuncts(alloc, others.as_slice())?,
        )),
        Expr::Forall(place, index, with_do, body) => Ok(Expr::Forall(
            *place,
            Boxed::new(alloc, copy_index(alloc, index.get())?)?,
            *with_do,
            copy_boxed(alloc, body)?,
        )),
    }
}

/// An equal expression, boxed.
#[cycle(copy)]
pub(crate) fn copy_boxed(alloc: Global, tree: &Boxed<Expr>) -> Result<Boxed<Expr>, Memory>
    ensures { IfOk result (λ made. made ≡ tree.now) }
{
    Ok(Boxed::new(alloc, copy_expr(alloc, tree.get())?)?)
}

/// Equal expressions.
#[cycle(copy)]
pub(crate) fn copy_exprs(alloc: Global, trees: &[Expr]) -> Result<Items<Expr>, Memory>
    ensures { IfOk result (λ made. made ≡ trees.now) }
{
    let mut made = Items::new(alloc);
    for tree in trees {
        made.push(copy_expr(alloc, tree)?)?;
    }
    Ok(made)
}

/// Equal operators with the operands behind them.
#[cycle(copy)]
fn copy_operations(
    alloc: Global,
    others: &[(Place, Token, Expr)],
) -> Result<Items<(Place, Token, Expr)>, Memory>
    ensures { IfOk result (λ made. made ≡ others.now) }
{
    let mut made = Items::new(alloc);
    for (place, token, tree) in others {
        made.push((*place, token.copy()?, copy_expr(alloc, tree)?))?;
    }
    Ok(made)
}

/// Equal relations with the operands behind them.
#[cycle(copy)]
fn copy_relations(
    alloc: Global,
    others: &[(Place, Relation, Expr)],
) -> Result<Items<(Place, Relation, Expr)>, Memory>
    ensures { IfOk result (λ made. made ≡ others.now) }
{
    let mut made = Items::new(alloc);
    for (place, relation, tree) in others {
        made.push((*place, *relation, copy_expr(alloc, tree)?))?;
    }
    Ok(made)
}

/// Equal operands behind `and`.
#[cycle(copy)]
fn copy_conjuncts(alloc: Global, others: &[(Place, Expr)]) -> Result<Items<(Place, Expr)>, Memory>
    ensures { IfOk result (λ made. made ≡ others.now) }
{
    let mut made = Items::new(alloc);
    for (place, tree) in others {
        made.push((*place, copy_expr(alloc, tree)?))?;
    }
    Ok(made)
}

/// Equal operands behind `or` and `xor`.
#[cycle(copy)]
fn copy_disjuncts(
    alloc: Global,
    others: &[(Place, bool, Expr)],
) -> Result<Items<(Place, bool, Expr)>, Memory>
    ensures { IfOk result (λ made. made ≡ others.now) }
{
    let mut made = Items::new(alloc);
    for (place, xor, tree) in others {
        made.push((*place, *xor, copy_expr(alloc, tree)?))?;
    }
    Ok(made)
}

/// An equal tuple.
#[cycle(copy)]
pub fn copy_angle(alloc: Global, tuple: &Angle) -> Result<Angle, Memory>
    ensures { IfOk result (λ made. made ≡ tuple.now) }
{
    Ok(Angle {
        place: tuple.place,
        items: copy_exprs(alloc, tuple.items.as_slice())?,
    })
}

/// An equal index.
#[cycle(copy)]
pub fn copy_index(alloc: Global, index: &Index) -> Result<Index, Memory>
    ensures { IfOk result (λ made. made ≡ index.now) }
{
    let place = index.place;
    let tuple = copy_angle(alloc, &index.tuple)?;
    let set = copy_boxed(alloc, &index.set)?;
    match &index.cond {
        None => Ok(Index {
            place,
            tuple,
            set,
            cond: None,
        }),
        Some((bar, tree)) => {
            let cond = Some((*bar, copy_boxed(alloc, tree)?));
            Ok(Index {
                place,
                tuple,
                set,
                cond,
            })
        }
    }
}

/// What stands in braces, once more.
#[cycle(copy)]
pub fn copy_body(alloc: Global, body: &Body) -> Result<Body, Memory>
    ensures { IfOk result (λ made. made ≡ body.now) }
{
    match body {
        Body::Empty => Ok(Body::Empty),
        Body::Members(members) => Ok(Body::Members(copy_exprs(alloc, members.as_slice())?)),
        Body::Tuples(tuples) => {
            let mut made = Items::new(alloc);
            for tuple in tuples.as_slice() {
                made.push(copy_angle(alloc, tuple)?)?;
            }
            Ok(Body::Tuples(made))
        }
        Body::Those(index) => {
            Ok(Body::Those(Boxed::new(alloc, copy_index(alloc, index.get())?)?))
        }
        Body::Span(from, with_to, to, by) => {
            let by = match by {
                None => None,
                Some(tree) => Some(copy_boxed(alloc, tree)?),
            };
            let from = copy_boxed(alloc, from)?;
            let to = copy_boxed(alloc, to)?;
            Ok(Body::Span(from, *with_to, to, by))
        }
    }
}
