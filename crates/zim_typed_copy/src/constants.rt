ghost use Rattle.std.specs.Prelude.{◌≡◌, IfOk};

use sqlite_items::{Boxed, Items};
use std::alloc::Global;
use zim_fault::{Duplicate, Memory, Place, Token};
use zim_typed::{Const, Loop, LoopSlot, TAngle, TBody};

/// An equal constant.
#[cycle(copy)]
pub fn copy_const(alloc: Global, tree: &Const) -> Result<Const, Memory>
    ensures { IfOk result (λ made. made ≡ tree.now) }
{
    match tree {
        Const::Number(place, digits) => Ok(Const::Number(*place, digits.copy()?)),
        Const::Text(place, text, double) => Ok(Const::Text(*place, text.copy()?, *double)),
        Const::Truth(place, truth) => Ok(Const::Truth(*place, *truth)),
        Const::Infinity(place) => Ok(Const::Infinity(*place)),
        Const::Name(place, name, resolved) => Ok(Const::Name(*place, name.copy()?, *resolved)),
        Const::Item(place, name, index, resolved) => {
            let index = copy_consts(alloc, index.as_slice())?;
            Ok(Const::Item(*place, name.copy()?, index, *resolved))
        }
        Const::Call(place, name, given, resolved) => {
            let given = copy_consts(alloc, given.as_slice())?;
            Ok(Const::Call(*place, name.copy()?, given, *resolved))
        }
        Const::Func(place, word, given) => {
            Ok(Const::Func(*place, *word, copy_consts(alloc, given.as_slice())?))
        }
        Const::Proj(place, set, positions) => Ok(Const::Proj(
            *place,
            copy_boxed(alloc, set)?,
            copy_angle(alloc, positions)?,
        )),
        Const::Paren(place, inner) => Ok(Const::Paren(*place, copy_boxed(alloc, inner)?)),
        Const::Braces(place, body) => {
            Ok(Const::Braces(*place, Boxed::new(alloc, copy_body(alloc, body.get())?)?))
        }
        Const::If(place, test, branch, otherwise) => {
            let test = copy_boxed(alloc, test)?;
            let branch = copy_boxed(alloc, branch)?;
            let otherwise = copy_boxed(alloc, otherwise)?;
            Ok(Const::If(*place, test, branch, otherwise))
        }
        Const::Factorial(operand, marks) => Ok(Const::Factorial(
            copy_boxed(alloc, operand)?,
            Items::from_slice(alloc, marks.as_slice())?,
        )),
        Const::Power(place, sign, base, signed, exponent) => Ok(Const::Power(
            *place,
            *sign,
            copy_boxed(alloc, base)?,
            *signed,
            copy_boxed(alloc, exponent)?,
        )),
        Const::Signed(place, minus, operand) => {
            Ok(Const::Signed(*place, *minus, copy_boxed(alloc, operand)?))
        }
        Const::Big(place, word, index, with_do, operand) => Ok(Const::Big(
            *place,
            *word,
            Boxed::new(alloc, copy_loop(alloc, index.get())?)?,
            *with_do,
            copy_boxed(alloc, operand)?,
        )),
        Const::Times(first, others) => Ok(Const::Times(
            copy_boxed(alloc, first)?,
            copy_operations(alloc, others.as_slice())?,
        )),
        Const::Plus(first, others) => Ok(Const::Plus(
            copy_boxed(alloc, first)?,
            copy_operations(alloc, others.as_slice())?,
        )),
        Const::Compare(place, relation, left, right) => Ok(Const::Compare(
            *place,
            *relation,
            copy_boxed(alloc, left)?,
            copy_boxed(alloc, right)?,
        )),
        Const::Member(place, tuple, set) => {
            let set = copy_boxed(alloc, set)?;
            Ok(Const::Member(*place, copy_angle(alloc, tuple)?, set))
        }
        Const::Not(place, operand) => Ok(Const::Not(*place, copy_boxed(alloc, operand)?)),
        Const::And(first, others) => Ok(Const::And(
            copy_boxed(alloc, first)?,
            copy_conjuncts(alloc, others.as_slice())?,
        )),
        Const::Or(first, others) => Ok(Const::Or(
            copy_boxed(alloc, first)?,
            copy_flagged(alloc, others.as_slice())?,
        )),
    }
}

/// An equal constant, boxed.
#[cycle(copy)]
pub(crate) fn copy_boxed(alloc: Global, tree: &Boxed<Const>) -> Result<Boxed<Const>, Memory>
    ensures { IfOk result (λ made. made ≡ tree.now) }
{
    Ok(Boxed::new(alloc, copy_const(alloc, tree.get())?)?)
}

/// Equal constants.
#[cycle(copy)]
pub(crate) fn copy_consts(alloc: Global, trees: &[Const]) -> Result<Items<Const>, Memory>
    ensures { IfOk result (λ made. made ≡ trees.now) }
{
    let mut made = Items::new(alloc);
    for tree in trees {
        made.push(copy_const(alloc, tree)?)?;
    }
    Ok(made)
}

/// Equal operators with the operands behind them.
#[cycle(copy)]
fn copy_operations(
    alloc: Global,
    others: &[(Place, Token, Const)],
) -> Result<Items<(Place, Token, Const)>, Memory>
    ensures { IfOk result (λ made. made ≡ others.now) }
{
    let mut made = Items::new(alloc);
    for (place, token, tree) in others {
        made.push((*place, token.copy()?, copy_const(alloc, tree)?))?;
    }
    Ok(made)
}

/// Equal operands behind `and`.
#[cycle(copy)]
fn copy_conjuncts(alloc: Global, others: &[(Place, Const)]) -> Result<Items<(Place, Const)>, Memory>
    ensures { IfOk result (λ made. made ≡ others.now) }
{
    let mut made = Items::new(alloc);
    for (place, tree) in others {
        made.push((*place, copy_const(alloc, tree)?))?;
    }
    Ok(made)
}

/// Equal operands behind one of two operators, each with a flag that says which.
#[cycle(copy)]
pub(crate) fn copy_flagged(
    alloc: Global,
    others: &[(Place, bool, Const)],
) -> Result<Items<(Place, bool, Const)>, Memory>
    ensures { IfOk result (λ made. made ≡ others.now) }
{
    let mut made = Items::new(alloc);
    for (place, flag, tree) in others {
        made.push((*place, *flag, copy_const(alloc, tree)?))?;
    }
    Ok(made)
}

/// An equal tuple.
#[cycle(copy)]
pub fn copy_angle(alloc: Global, tuple: &TAngle) -> Result<TAngle, Memory>
    ensures { IfOk result (λ made. made ≡ tuple.now) }
{
    Ok(TAngle {
        place: tuple.place,
        items: copy_consts(alloc, tuple.items.as_slice())?,
    })
}

/// An equal index.
#[cycle(copy)]
pub fn copy_loop(alloc: Global, index: &Loop) -> Result<Loop, Memory>
    ensures { IfOk result (λ made. made ≡ index.now) }
{
    let place = index.place;
    let mut slots = Items::new(alloc);
    for slot in index.slots.as_slice() {
        slots.push(copy_slot(alloc, slot)?)?;
    }
    let set = copy_boxed(alloc, &index.set)?;
    match &index.cond {
        None => Ok(Loop {
            place,
            slots,
            set,
            cond: None,
        }),
        Some(tree) => {
            let cond = Some(copy_boxed(alloc, tree)?);
            Ok(Loop {
                place,
                slots,
                set,
                cond,
            })
        }
    }
}

/// What a component of an index's tuple has to be, once more.
#[cycle(copy)]
pub fn copy_slot(alloc: Global, slot: &LoopSlot) -> Result<LoopSlot, Memory>
    ensures { IfOk result (λ made. made ≡ slot.now) }
{
    match slot {
        LoopSlot::Free(name) => Ok(LoopSlot::Free(name.copy()?)),
        LoopSlot::Again(position) => Ok(LoopSlot::Again(*position)),
        LoopSlot::Fixed(value) => Ok(LoopSlot::Fixed(copy_boxed(alloc, value)?)),
    }
}

/// What stands in braces, once more.
#[cycle(copy)]
pub fn copy_body(alloc: Global, body: &TBody) -> Result<TBody, Memory>
    ensures { IfOk result (λ made. made ≡ body.now) }
{
    match body {
        TBody::Empty => Ok(TBody::Empty),
        TBody::Members(members) => Ok(TBody::Members(copy_consts(alloc, members.as_slice())?)),
        TBody::Tuples(tuples) => {
            let mut made = Items::new(alloc);
            for tuple in tuples.as_slice() {
                made.push(copy_angle(alloc, tuple)?)?;
            }
            Ok(TBody::Tuples(made))
        }
        TBody::Those(index) => {
            Ok(TBody::Those(Boxed::new(alloc, copy_loop(alloc, index.get())?)?))
        }
        TBody::Span(from, with_to, to, by) => {
            let by = match by {
                None => None,
                Some(tree) => Some(copy_boxed(alloc, tree)?),
            };
            let from = copy_boxed(alloc, from)?;
            let to = copy_boxed(alloc, to)?;
            Ok(TBody::Span(from, *with_to, to, by))
        }
    }
}
