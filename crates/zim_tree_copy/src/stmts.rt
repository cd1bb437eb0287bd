ghost use Rattle.std.specs.Prelude.{◌≡◌, IfOk};

use crate::exprs::{copy_angle, copy_boxed, copy_expr, copy_exprs, copy_index};
use sqlite_items::{Boxed, Items};
use std::alloc::Global;
use zim_fault::{Bytes, Duplicate, Memory, Place, Word};
use zim_tree::{
    Angle, Bracket, Doing, Expr, Index, Limit, ParSide, Printed, Reading, SetSide, Shape, Stmt,
    Table,
};

/// An equal statement.
pub fn copy_stmt(alloc: Global, stmt: &Stmt) -> Result<Stmt, Memory>
    ensures { IfOk result (λ made. made ≡ stmt.now) }
{
    Ok(Stmt {
        first: stmt.first,
        at: stmt.at,
        name: stmt.name.copy()?,
        shape: Boxed::new(alloc, copy_shape(alloc, stmt.shape.get())?)?,
    })
}

/// What a statement says of its name, once more.
pub fn copy_shape(alloc: Global, shape: &Shape) -> Result<Shape, Memory>
    ensures { IfOk result (λ made. made ≡ shape.now) }
{
    match shape {
        Shape::Set(brackets, side) => {
            Ok(Shape::Set(copy_brackets(alloc, brackets)?, copy_set_side(alloc, side)?))
        }
        Shape::Param(brackets, side) => {
            Ok(Shape::Param(copy_brackets(alloc, brackets)?, copy_par_side(alloc, side)?))
        }
        Shape::Var(brackets, kind, limits, priority, startval) => Ok(Shape::Var(
            copy_brackets(alloc, brackets)?,
            *kind,
            copy_limits(alloc, limits.as_slice())?,
            copy_given(alloc, priority)?,
            copy_given(alloc, startval)?,
        )),
        Shape::Goal(maximize, objective) => {
            Ok(Shape::Goal(*maximize, copy_boxed(alloc, objective)?))
        }
        Shape::Subto(constraint) => Ok(Shape::Subto(copy_boxed(alloc, constraint)?)),
        Shape::Define(word, parameters, body) => Ok(Shape::Define(
            *word,
            copy_parameters(alloc, parameters.as_slice())?,
            copy_boxed(alloc, body)?,
        )),
        Shape::Do(doing) => Ok(Shape::Do(copy_doing(alloc, doing)?)),
    }
}

/// An equal index, boxed.
fn copy_boxed_index(alloc: Global, index: &Boxed<Index>) -> Result<Boxed<Index>, Memory>
    ensures { IfOk result (λ made. made ≡ index.now) }
{
    Ok(Boxed::new(alloc, copy_index(alloc, index.get())?)?)
}

/// Equal brackets.
pub fn copy_bracket(alloc: Global, bracket: &Bracket) -> Result<Bracket, Memory>
    ensures { IfOk result (λ made. made ≡ bracket.now) }
{
    match bracket {
        Bracket::Empty => Ok(Bracket::Empty),
        Bracket::Loop(index) => Ok(Bracket::Loop(copy_boxed_index(alloc, index)?)),
        Bracket::Over(set) => Ok(Bracket::Over(copy_boxed(alloc, set)?)),
    }
}

/// Equal brackets, if there are any.
fn copy_brackets(alloc: Global, tree: &Option<Bracket>) -> Result<Option<Bracket>, Memory>
    ensures { IfOk result (λ made. made ≡ tree.now) }
{
    match tree {
        None => Ok(None),
        Some(bracket) => Ok(Some(copy_bracket(alloc, bracket)?)),
    }
}

/// An equal default, priority or start value, if there is one.
fn copy_given(
    alloc: Global,
    tree: &Option<(Place, Boxed<Expr>)>,
) -> Result<Option<(Place, Boxed<Expr>)>, Memory>
    ensures { IfOk result (λ made. made ≡ tree.now) }
{
    match tree {
        None => Ok(None),
        Some((place, given)) => Ok(Some((*place, copy_boxed(alloc, given)?))),
    }
}

/// An equal right side of a set.
pub fn copy_set_side(alloc: Global, side: &SetSide) -> Result<SetSide, Memory>
    ensures { IfOk result (λ made. made ≡ side.now) }
{
    match side {
        SetSide::Value(value) => Ok(SetSide::Value(copy_boxed(alloc, value)?)),
        SetSide::Read(reading) => Ok(SetSide::Read(copy_reading(alloc, reading)?)),
        SetSide::Entries(entries) => Ok(SetSide::Entries(copy_entries(alloc, entries.as_slice())?)),
    }
}

/// An equal right side of a parameter.
pub fn copy_par_side(alloc: Global, side: &ParSide) -> Result<ParSide, Memory>
    ensures { IfOk result (λ made. made ≡ side.now) }
{
    match side {
        ParSide::Value(value) => Ok(ParSide::Value(copy_boxed(alloc, value)?)),
        ParSide::Read(reading, default) => {
            Ok(ParSide::Read(copy_reading(alloc, reading)?, copy_given(alloc, default)?))
        }
        ParSide::Entries(entries, default) => Ok(ParSide::Entries(
            copy_entries(alloc, entries.as_slice())?,
            copy_given(alloc, default)?,
        )),
        ParSide::Table(table, default) => {
            Ok(ParSide::Table(copy_table(alloc, table)?, copy_given(alloc, default)?))
        }
        ParSide::Default(place, default) => {
            Ok(ParSide::Default(*place, copy_boxed(alloc, default)?))
        }
    }
}

/// Equal entries.
fn copy_entries(alloc: Global, trees: &[(Angle, Expr)]) -> Result<Items<(Angle, Expr)>, Memory>
    ensures { IfOk result (λ made. made ≡ trees.now) }
{
    let mut made = Items::new(alloc);
    for (tuple, given) in trees {
        made.push((copy_angle(alloc, tuple)?, copy_expr(alloc, given)?))?;
    }
    Ok(made)
}

/// An equal table.
pub fn copy_table(alloc: Global, table: &Table) -> Result<Table, Memory>
    ensures { IfOk result (λ made. made ≡ table.now) }
{
    Ok(Table {
        head: copy_exprs(alloc, table.head.as_slice())?,
        rows: copy_rows(alloc, table.rows.as_slice())?,
    })
}

/// Equal rows of a table.
fn copy_rows(
    alloc: Global,
    trees: &[(Items<Expr>, Items<Expr>)],
) -> Result<Items<(Items<Expr>, Items<Expr>)>, Memory>
    ensures { IfOk result (λ made. made ≡ trees.now) }
{
    let mut made = Items::new(alloc);
    for (items, values) in trees {
        made.push((
            copy_exprs(alloc, items.as_slice())?,
            copy_exprs(alloc, values.as_slice())?,
        ))?;
    }
    Ok(made)
}

/// An equal bound.
pub fn copy_limit(alloc: Global, limit: &Limit) -> Result<Limit, Memory>
    ensures { IfOk result (λ made. made ≡ limit.now) }
{
    Ok(Limit {
        place: limit.place,
        lower: limit.lower,
        side: copy_boxed(alloc, &limit.side)?,
    })
}

/// Equal bounds.
fn copy_limits(alloc: Global, trees: &[Limit]) -> Result<Items<Limit>, Memory>
    ensures { IfOk result (λ made. made ≡ trees.now) }
{
    let mut made = Items::new(alloc);
    for tree in trees {
        made.push(copy_limit(alloc, tree)?)?;
    }
    Ok(made)
}

/// Equal names of parameters.
fn copy_parameters(alloc: Global, trees: &[(Place, Bytes)]) -> Result<Items<(Place, Bytes)>, Memory>
    ensures { IfOk result (λ made. made ≡ trees.now) }
{
    let mut made = Items::new(alloc);
    for (place, name) in trees {
        made.push((*place, name.copy()?))?;
    }
    Ok(made)
}

/// An equal `read`.
pub fn copy_reading(alloc: Global, reading: &Reading) -> Result<Reading, Memory>
    ensures { IfOk result (λ made. made ≡ reading.now) }
{
    Ok(Reading {
        place: reading.place,
        file: copy_boxed(alloc, &reading.file)?,
        template: copy_boxed(alloc, &reading.template)?,
        options: copy_options(alloc, reading.options.as_slice())?,
    })
}

/// Equal options of a `read`.
fn copy_options(
    alloc: Global,
    trees: &[(Place, Word, Expr)],
) -> Result<Items<(Place, Word, Expr)>, Memory>
    ensures { IfOk result (λ made. made ≡ trees.now) }
{
    let mut made = Items::new(alloc);
    for (place, word, given) in trees {
        made.push((*place, *word, copy_expr(alloc, given)?))?;
    }
    Ok(made)
}

/// What a `do` does, once more.
pub fn copy_doing(alloc: Global, doing: &Doing) -> Result<Doing, Memory>
    ensures { IfOk result (λ made. made ≡ doing.now) }
{
    match doing {
        Doing::Print(place, items) => {
            Ok(Doing::Print(*place, copy_all_printed(alloc, items.as_slice())?))
        }
        Doing::Check(place, test) => Ok(Doing::Check(*place, copy_boxed(alloc, test)?)),
        Doing::Forall(place, index, with_do, body) => {
            let index = copy_boxed_index(alloc, index)?;
            let body = Boxed::new(alloc, copy_doing(alloc, body.get())?)?;
            Ok(Doing::Forall(*place, index, *with_do, body))
        }
    }
}

/// All that a `print` prints, once more.
fn copy_all_printed(alloc: Global, trees: &[Printed]) -> Result<Items<Printed>, Memory>
    ensures { IfOk result (λ made. made ≡ trees.now) }
{
    let mut made = Items::new(alloc);
    for tree in trees {
        made.push(copy_printed(alloc, tree)?)?;
    }
    Ok(made)
}

/// What a `print` prints, once more.
pub fn copy_printed(alloc: Global, item: &Printed) -> Result<Printed, Memory>
    ensures { IfOk result (λ made. made ≡ item.now) }
{
    match item {
        Printed::Value(value) => Ok(Printed::Value(copy_boxed(alloc, value)?)),
        Printed::Tuple(tuple) => Ok(Printed::Tuple(copy_angle(alloc, tuple)?)),
    }
}
