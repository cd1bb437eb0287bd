ghost use Rattle.std.specs.Prelude.{◌≡◌, IfOk};

use crate::constants::{copy_angle, copy_boxed, copy_const, copy_consts};
use crate::constraints::{copy_boxed_con, copy_boxed_loop, copy_boxed_term};
use sqlite_items::{Boxed, Items};
use std::alloc::Global;
use zim_fault::{Bytes, Duplicate, Memory, Place, Word};
use zim_typed::{
    Const, TAngle, TBracket, TDoing, TLimit, TParSide, TPrinted, TReading, TSetSide, TShape, TStmt,
    TTable,
};

/// An equal statement.
pub fn copy_stmt(alloc: Global, stmt: &TStmt) -> Result<TStmt, Memory>
    ensures { IfOk result (λ made. made ≡ stmt.now) }
{
    Ok(TStmt {
        first: stmt.first,
        at: stmt.at,
        name: stmt.name.copy()?,
        shape: Boxed::new(alloc, copy_shape(alloc, stmt.shape.get())?)?,
    })
}

/// What a statement says of its name, once more.
pub fn copy_shape(alloc: Global, shape: &TShape) -> Result<TShape, Memory>
    ensures { IfOk result (λ made. made ≡ shape.now) }
{
    match shape {
        TShape::Set(brackets, side) => {
            Ok(TShape::Set(copy_brackets(alloc, brackets)?, copy_set_side(alloc, side)?))
        }
        TShape::Param(brackets, side) => {
            Ok(TShape::Param(copy_brackets(alloc, brackets)?, copy_par_side(alloc, side)?))
        }
        TShape::Var(brackets, kind, limits, priority, startval) => Ok(TShape::Var(
            copy_brackets(alloc, brackets)?,
            *kind,
            copy_limits(alloc, limits.as_slice())?,
            copy_given(alloc, priority)?,
            copy_given(alloc, startval)?,
        )),
        TShape::Goal(maximize, objective) => {
            Ok(TShape::Goal(*maximize, copy_boxed_term(alloc, objective)?))
        }
        TShape::Subto(constraint) => Ok(TShape::Subto(copy_boxed_con(alloc, constraint)?)),
        TShape::Define(word, parameters, body) => Ok(TShape::Define(
            *word,
            copy_parameters(alloc, parameters.as_slice())?,
            copy_boxed(alloc, body)?,
        )),
        TShape::Do(doing) => Ok(TShape::Do(copy_doing(alloc, doing)?)),
    }
}

/// Equal brackets.
pub fn copy_bracket(alloc: Global, bracket: &TBracket) -> Result<TBracket, Memory>
    ensures { IfOk result (λ made. made ≡ bracket.now) }
{
    match bracket {
        TBracket::Empty => Ok(TBracket::Empty),
        TBracket::Loop(index) => Ok(TBracket::Loop(copy_boxed_loop(alloc, index)?)),
        TBracket::Over(set) => Ok(TBracket::Over(copy_boxed(alloc, set)?)),
    }
}

/// Equal brackets, if there are any.
fn copy_brackets(alloc: Global, tree: &Option<TBracket>) -> Result<Option<TBracket>, Memory>
    ensures { IfOk result (λ made. made ≡ tree.now) }
{
    match tree {
        None => Ok(None),
        Some(bracket) => Ok(Some(copy_bracket(alloc, bracket)?)),
    }
}

/// An equal default, priority or start value, if there is one.
fn copy_given(
    alloc: Global,
    tree: &Option<(Place, Boxed<Const>)>,
) -> Result<Option<(Place, Boxed<Const>)>, Memory>
    ensures { IfOk result (λ made. made ≡ tree.now) }
{
    match tree {
        None => Ok(None),
        Some((place, given)) => Ok(Some((*place, copy_boxed(alloc, given)?))),
    }
}

/// An equal right side of a set.
pub fn copy_set_side(alloc: Global, side: &TSetSide) -> Result<TSetSide, Memory>
    ensures { IfOk result (λ made. made ≡ side.now) }
{
    match side {
        TSetSide::Value(value) => Ok(TSetSide::Value(copy_boxed(alloc, value)?)),
        TSetSide::Read(reading) => Ok(TSetSide::Read(copy_reading(alloc, reading)?)),
        TSetSide::Entries(entries) => Ok(TSetSide::Entries(copy_entries(
            alloc,
            entries.as_slice(),
        )?)),
    }
}

/// An equal right side of a parameter.
pub fn copy_par_side(alloc: Global, side: &TParSide) -> Result<TParSide, Memory>
    ensures { IfOk result (λ made. made ≡ side.now) }
{
    match side {
        TParSide::Value(value) => Ok(TParSide::Value(copy_boxed(alloc, value)?)),
        TParSide::Read(reading, default) => {
            Ok(TParSide::Read(copy_reading(alloc, reading)?, copy_given(alloc, default)?))
        }
        TParSide::Entries(entries, default) => Ok(TParSide::Entries(
            copy_entries(alloc, entries.as_slice())?,
            copy_given(alloc, default)?,
        )),
        TParSide::Table(table, default) => {
            Ok(TParSide::Table(copy_table(alloc, table)?, copy_given(alloc, default)?))
        }
        TParSide::Default(place, default) => {
            Ok(TParSide::Default(*place, copy_boxed(alloc, default)?))
        }
    }
}

/// Equal entries.
fn copy_entries(alloc: Global, trees: &[(TAngle, Const)]) -> Result<Items<(TAngle, Const)>, Memory>
    ensures { IfOk result (λ made. made ≡ trees.now) }
{
    let mut made = Items::new(alloc);
    for (tuple, given) in trees {
        made.push((copy_angle(alloc, tuple)?, copy_const(alloc, given)?))?;
    }
    Ok(made)
}

/// An equal table.
pub fn copy_table(alloc: Global, table: &TTable) -> Result<TTable, Memory>
    ensures { IfOk result (λ made. made ≡ table.now) }
{
    Ok(TTable {
        head: copy_consts(alloc, table.head.as_slice())?,
        rows: copy_rows(alloc, table.rows.as_slice())?,
    })
}

/// Equal rows of a table.
fn copy_rows(
    alloc: Global,
    trees: &[(Items<Const>, Items<Const>)],
) -> Result<Items<(Items<Const>, Items<Const>)>, Memory>
    ensures { IfOk result (λ made. made ≡ trees.now) }
{
    let mut made = Items::new(alloc);
    for (items, values) in trees {
        made.push((
            copy_consts(alloc, items.as_slice())?,
            copy_consts(alloc, values.as_slice())?,
        ))?;
    }
    Ok(made)
}

/// An equal bound.
pub fn copy_limit(alloc: Global, limit: &TLimit) -> Result<TLimit, Memory>
    ensures { IfOk result (λ made. made ≡ limit.now) }
{
    Ok(TLimit {
        place: limit.place,
        lower: limit.lower,
        side: copy_boxed(alloc, &limit.side)?,
    })
}

/// Equal bounds.
fn copy_limits(alloc: Global, trees: &[TLimit]) -> Result<Items<TLimit>, Memory>
    ensures { IfOk result (λ made. made ≡ trees.now) }
{
    let mut made = Items::new(alloc);
    for tree in trees {
        made.push(copy_limit(alloc, tree)?)?;
    }
    Ok(made)
}

/// Equal names of parameters.
fn copy_parameters(alloc: Global, trees: &[(Place, Bytes)]) -> Result<Items<(Place, Bytes)>, Memory>
    ensures { IfOk result (λ made. made ≡ trees.now) }
{
    let mut made = Items::new(alloc);
    for (place, name) in trees {
        made.push((*place, name.copy()?))?;
    }
    Ok(made)
}

/// An equal `read`.
pub fn copy_reading(alloc: Global, reading: &TReading) -> Result<TReading, Memory>
    ensures { IfOk result (λ made. made ≡ reading.now) }
{
    Ok(TReading {
        place: reading.place,
        file: copy_boxed(alloc, &reading.file)?,
        template: copy_boxed(alloc, &reading.template)?,
        options: copy_options(alloc, reading.options.as_slice())?,
    })
}

/// Equal options of a `read`.
fn copy_options(
    alloc: Global,
    trees: &[(Place, Word, Const)],
) -> Result<Items<(Place, Word, Const)>, Memory>
    ensures { IfOk result (λ made. made ≡ trees.now) }
{
    let mut made = Items::new(alloc);
    for (place, word, given) in trees {
        made.push((*place, *word, copy_const(alloc, given)?))?;
    }
    Ok(made)
}

/// What a `do` does, once more.
pub fn copy_doing(alloc: Global, doing: &TDoing) -> Result<TDoing, Memory>
    ensures { IfOk result (λ made. made ≡ doing.now) }
{
    match doing {
        TDoing::Print(place, items) => {
            Ok(TDoing::Print(*place, copy_all_printed(alloc, items.as_slice())?))
        }
        TDoing::Check(place, test) => Ok(TDoing::Check(*place, copy_boxed(alloc, test)?)),
        TDoing::Forall(place, index, with_do, body) => {
            let index = copy_boxed_loop(alloc, index)?;
            let body = Boxed::new(alloc, copy_doing(alloc, body.get())?)?;
            Ok(TDoing::Forall(*place, index, *with_do, body))
        }
    }
}

/// All that a `print` prints, once more.
fn copy_all_printed(alloc: Global, trees: &[TPrinted]) -> Result<Items<TPrinted>, Memory>
    ensures { IfOk result (λ made. made ≡ trees.now) }
{
    let mut made = Items::new(alloc);
    for tree in trees {
        made.push(copy_printed(alloc, tree)?)?;
    }
    Ok(made)
}

/// What a `print` prints, once more.
pub fn copy_printed(alloc: Global, item: &TPrinted) -> Result<TPrinted, Memory>
    ensures { IfOk result (λ made. made ≡ item.now) }
{
    match item {
        TPrinted::Value(value) => Ok(TPrinted::Value(copy_boxed(alloc, value)?)),
        TPrinted::Tuple(tuple) => Ok(TPrinted::Tuple(copy_angle(alloc, tuple)?)),
    }
}
