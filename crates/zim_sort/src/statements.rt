//! The typed statement that is made of a statement.
ghost use Rattle.std.specs.Prelude.{◌≡◌, [], IfOk, map, option_map, Some};
ghost use Rattle.zim_static.specs.Around.{names_in};
ghost use Rattle.zim_fault.specs.declared.faults.Place.{Place};
ghost use Rattle.zim_typed.specs.Scope.{Text, Scope};
ghost use Rattle.zim_typed.specs.declared.statement.TShape.TheVariants.{Define};
ghost use Rattle.zim_typing.specs.Typing.{typed_const};
ghost use Rattle.zim_typing.specs.Statements as spec;

use crate::constants::{boxed_constant, boxed_index, constant, constants, tuple};
use crate::constraints::boxed_constraint;
use crate::terms::boxed_term;
use sqlite_items::{Boxed, Items};
use std::alloc::Global;
use zim_fault::{Bytes, Duplicate, Memory, Place, Word};
use zim_static::{Around, Scope};
use zim_tree::{
    Angle, Bracket, Doing, Expr, Limit, ParSide, Printed, Reading, SetSide, Shape, Stmt, Table,
};
use zim_typed::{
    Const, TAngle, TBracket, TDoing, TLimit, TParSide, TPrinted, TReading, TSetSide, TShape, TStmt,
    TTable,
};

/// The operand of a word, if there is one.
fn given(
    alloc: Global,
    scope: &Scope,
    around: &Around,
    operand: &Option<(Place, Boxed<Expr>)>,
) -> Result<Option<(Place, Boxed<Const>)>, Memory>
    ensures { IfOk result (λ made. made ≡ spec.typed_given scope.now (names_in scope.now around.now) operand.now) }
{
    match operand {
        None => Ok(None),
        Some((place, tree)) => {
            let value = boxed_constant(alloc, scope, around, tree.get())?;
            Ok(Some((*place, value)))
        }
    }
}

/// The options of a `read`.
fn options(
    alloc: Global,
    scope: &Scope,
    around: &Around,
    trees: &[(Place, Word, Expr)],
) -> Result<Items<(Place, Word, Const)>, Memory>
    ensures { IfOk result (λ made. made ≡ spec.typed_options scope.now (names_in scope.now around.now) trees.now) }
{
    let mut made = Items::new(alloc);
    for (place, word, tree) in trees {
        made.push((*place, *word, constant(alloc, scope, around, tree)?))?;
    }
    Ok(made)
}

/// A `read`.
fn reading(
    alloc: Global,
    scope: &Scope,
    around: &Around,
    tree: &Reading,
) -> Result<TReading, Memory>
    ensures { IfOk result (λ made. made ≡ spec.typed_reading scope.now (names_in scope.now around.now) tree.now) }
{
    Ok(TReading {
        place: tree.place,
        file: boxed_constant(alloc, scope, around, tree.file.get())?,
        template: boxed_constant(alloc, scope, around, tree.template.get())?,
        options: options(alloc, scope, around, tree.options.as_slice())?,
    })
}

/// Indices with what is listed behind each.
fn entries(
    alloc: Global,
    scope: &Scope,
    around: &Around,
    trees: &[(Angle, Expr)],
) -> Result<Items<(TAngle, Const)>, Memory>
    ensures { IfOk result (λ made. made ≡ spec.typed_entries scope.now (names_in scope.now around.now) trees.now) }
{
    let mut made = Items::new(alloc);
    for (index, tree) in trees {
        made.push((
            tuple(alloc, scope, around, index)?,
            constant(alloc, scope, around, tree)?,
        ))?;
    }
    Ok(made)
}

/// The rows of a table.
fn rows(
    alloc: Global,
    scope: &Scope,
    around: &Around,
    trees: &[(Items<Expr>, Items<Expr>)],
) -> Result<Items<(Items<Const>, Items<Const>)>, Memory>
    ensures { IfOk result (λ made. made ≡ spec.typed_rows scope.now (names_in scope.now around.now) trees.now) }
{
    let mut made = Items::new(alloc);
    for (items, values) in trees {
        made.push((
            constants(alloc, scope, around, items.as_slice())?,
            constants(alloc, scope, around, values.as_slice())?,
        ))?;
    }
    Ok(made)
}

/// A table.
fn table(alloc: Global, scope: &Scope, around: &Around, tree: &Table) -> Result<TTable, Memory>
    ensures { IfOk result (λ made. made ≡ spec.typed_table scope.now (names_in scope.now around.now) tree.now) }
{
    Ok(TTable {
        head: constants(alloc, scope, around, tree.head.as_slice())?,
        rows: rows(alloc, scope, around, tree.rows.as_slice())?,
    })
}

/// The brackets behind a declared name.
fn bracket(alloc: Global, scope: &Scope, tree: &Bracket) -> Result<TBracket, Memory>
    ensures { IfOk result (λ made. made ≡ spec.typed_bracket scope.now tree.now) }
{
    let outside = Around::Nothing;
    match tree {
        Bracket::Empty => Ok(TBracket::Empty),
        Bracket::Loop(index) => {
            Ok(TBracket::Loop(boxed_index(alloc, scope, &outside, index.get())?))
        }
        Bracket::Over(set) => Ok(TBracket::Over(boxed_constant(
            alloc,
            scope,
            &outside,
            set.get(),
        )?)),
    }
}

/// The brackets behind a declared name, if there are any.
fn brackets(
    alloc: Global,
    scope: &Scope,
    tree: &Option<Bracket>,
) -> Result<Option<TBracket>, Memory>
    ensures { IfOk result (λ made. made ≡ option_map (spec.typed_bracket scope.now) tree.now) }
{
    match tree {
        None => Ok(None),
        Some(tree) => Ok(Some(bracket(alloc, scope, tree)?)),
    }
}

/// The right side of a set.
fn set_side(
    alloc: Global,
    scope: &Scope,
    around: &Around,
    side: &SetSide,
) -> Result<TSetSide, Memory>
    ensures { IfOk result (λ made. made ≡ spec.typed_set scope.now (names_in scope.now around.now) side.now) }
{
    match side {
        SetSide::Value(value) => {
            Ok(TSetSide::Value(boxed_constant(alloc, scope, around, value.get())?))
        }
        SetSide::Read(tree) => Ok(TSetSide::Read(reading(alloc, scope, around, tree)?)),
        SetSide::Entries(trees) => {
            Ok(TSetSide::Entries(entries(alloc, scope, around, trees.as_slice())?))
        }
    }
}

/// The right side of a parameter.
fn par_side(
    alloc: Global,
    scope: &Scope,
    around: &Around,
    side: &ParSide,
) -> Result<TParSide, Memory>
    ensures { IfOk result (λ made. made ≡ spec.typed_param scope.now (names_in scope.now around.now) side.now) }
{
    match side {
        ParSide::Value(value) => {
            Ok(TParSide::Value(boxed_constant(alloc, scope, around, value.get())?))
        }
        ParSide::Read(tree, default) => {
            let default = given(alloc, scope, around, default)?;
            Ok(TParSide::Read(reading(alloc, scope, around, tree)?, default))
        }
        ParSide::Entries(trees, default) => {
            let default = given(alloc, scope, around, default)?;
            Ok(TParSide::Entries(entries(alloc, scope, around, trees.as_slice())?, default))
        }
        ParSide::Table(tree, default) => {
            let default = given(alloc, scope, around, default)?;
            Ok(TParSide::Table(table(alloc, scope, around, tree)?, default))
        }
        ParSide::Default(place, default) => {
            Ok(TParSide::Default(*place, boxed_constant(alloc, scope, around, default.get())?))
        }
    }
}

/// A bound of a variable.
fn limit(alloc: Global, scope: &Scope, around: &Around, tree: &Limit) -> Result<TLimit, Memory>
    ensures { IfOk result (λ made. made ≡ spec.typed_limit scope.now (names_in scope.now around.now) tree.now) }
{
    Ok(TLimit {
        place: tree.place,
        lower: tree.lower,
        side: boxed_constant(alloc, scope, around, tree.side.get())?,
    })
}

/// The bounds of a variable.
fn limits(
    alloc: Global,
    scope: &Scope,
    around: &Around,
    trees: &[Limit],
) -> Result<Items<TLimit>, Memory>
    ensures { IfOk result (λ made. made ≡ map (spec.typed_limit scope.now (names_in scope.now around.now)) trees.now) }
{
    let mut made = Items::new(alloc);
    for tree in trees {
        made.push(limit(alloc, scope, around, tree)?)?;
    }
    Ok(made)
}

/// One thing that is printed.
fn printed(
    alloc: Global,
    scope: &Scope,
    around: &Around,
    item: &Printed,
) -> Result<TPrinted, Memory>
    ensures { IfOk result (λ made. made ≡ spec.typed_printed scope.now (names_in scope.now around.now) item.now) }
{
    match item {
        Printed::Value(value) => {
            Ok(TPrinted::Value(boxed_constant(alloc, scope, around, value.get())?))
        }
        Printed::Tuple(tree) => Ok(TPrinted::Tuple(tuple(alloc, scope, around, tree)?)),
    }
}

/// All that is printed.
fn all_printed(
    alloc: Global,
    scope: &Scope,
    around: &Around,
    items: &[Printed],
) -> Result<Items<TPrinted>, Memory>
    ensures { IfOk result (λ made. made ≡ map (spec.typed_printed scope.now (names_in scope.now around.now)) items.now) }
{
    let mut made = Items::new(alloc);
    for item in items {
        made.push(printed(alloc, scope, around, item)?)?;
    }
    Ok(made)
}

/// What a `do` does.
fn doing(alloc: Global, scope: &Scope, around: &Around, tree: &Doing) -> Result<TDoing, Memory>
    ensures { IfOk result (λ made. made ≡ spec.typed_doing scope.now (names_in scope.now around.now) tree.now) }
{
    match tree {
        Doing::Print(place, items) => {
            Ok(TDoing::Print(*place, all_printed(alloc, scope, around, items.as_slice())?))
        }
        Doing::Check(place, test) => {
            Ok(TDoing::Check(*place, boxed_constant(alloc, scope, around, test.get())?))
        }
        Doing::Forall(place, index, with_do, inside) => {
            let behind = Around::Index(index.get().tuple.items.as_slice(), &*around);
            let made = boxed_index(alloc, scope, around, index.get())?;
            let inside = Boxed::new(alloc, doing(alloc, scope, &behind, inside.get())?)?;
            Ok(TDoing::Forall(*place, made, *with_do, inside))
        }
    }
}

/// What is around a place behind a bracket.
fn behind_bracket<'a>(outside: &'a Around<'a>, tree: &'a Bracket) -> Around<'a>
    ensures { (scope : Scope) → names_in scope outside.now ≡ [] → names_in scope result ≡ spec.names_behind_brackets scope (Some tree.now) }
{
    match tree {
        Bracket::Loop(index) => Around::Index(index.get().tuple.items.as_slice(), &*outside),
        Bracket::Empty | Bracket::Over(_) => Around::Nothing,
    }
}

/// What is around a place behind the brackets of a declared name, if there are any.
fn behind_brackets<'a>(outside: &'a Around<'a>, tree: &'a Option<Bracket>) -> Around<'a>
    ensures { (scope : Scope) → names_in scope outside.now ≡ [] → names_in scope result ≡ spec.names_behind_brackets scope tree.now }
{
    match tree {
        Some(tree) => behind_bracket(outside, tree),
        None => Around::Nothing,
    }
}

/// The parameters of a function.
fn parameters(alloc: Global, trees: &[(Place, Bytes)]) -> Result<Items<(Place, Bytes)>, Memory>
    ensures { IfOk result (λ made. made ≡ trees.now) }
{
    let mut made = Items::new(alloc);
    for (place, name) in trees {
        made.push((*place, name.copy()?))?;
    }
    Ok(made)
}

/// The definition of a function.
fn definition(
    alloc: Global,
    scope: &Scope,
    word: Word,
    names: &[(Place, Bytes)],
    body: &Expr,
) -> Result<TShape, Memory>
    ensures { IfOk result (λ made. made ≡ Define word names.now (typed_const scope.now (map (λ (x : Place × Text). x.1) names.now) body.now)) }
{
    let inside = Around::Parameters(names);
    let body = boxed_constant(alloc, scope, &inside, body)?;
    Ok(TShape::Define(word, parameters(alloc, names)?, body))
}

/// What stands behind a statement's name.
fn shape(alloc: Global, scope: &Scope, tree: &Shape) -> Result<TShape, Memory>
    ensures { IfOk result (λ made. made ≡ spec.typed_shape scope.now tree.now) }
{
    let outside = Around::Nothing;
    match tree {
        Shape::Set(tree, side) => {
            let behind = behind_brackets(&outside, tree);
            let made = brackets(alloc, scope, tree)?;
            Ok(TShape::Set(made, set_side(alloc, scope, &behind, side)?))
        }
        Shape::Param(tree, side) => {
            let behind = behind_brackets(&outside, tree);
            let made = brackets(alloc, scope, tree)?;
            Ok(TShape::Param(made, par_side(alloc, scope, &behind, side)?))
        }
        Shape::Var(tree, kind, bounds, priority, startval) => {
            let behind = behind_brackets(&outside, tree);
            let made = brackets(alloc, scope, tree)?;
            let bounds = limits(alloc, scope, &behind, bounds.as_slice())?;
            let priority = given(alloc, scope, &behind, priority)?;
            let startval = given(alloc, scope, &behind, startval)?;
            Ok(TShape::Var(made, *kind, bounds, priority, startval))
        }
        Shape::Goal(maximize, objective) => {
            Ok(TShape::Goal(
                *maximize,
                boxed_term(alloc, scope, &outside, objective.get())?,
            ))
        }
        Shape::Subto(constraint) => {
            Ok(TShape::Subto(boxed_constraint(alloc, scope, &outside, constraint.get())?))
        }
        Shape::Define(word, names, body) => {
            definition(alloc, scope, *word, names.as_slice(), body.get())
        }
        Shape::Do(inside) => Ok(TShape::Do(doing(alloc, scope, &outside, inside)?)),
    }
}

/// The typed statement that is made of a statement under the scope of the statements before it.
///
/// It is said of every statement; it belongs to the statement where this has no static fault. `Memory` where memory was asked
/// for and refused.
pub(crate) fn typed_statement(alloc: Global, scope: &Scope, stmt: &Stmt) -> Result<TStmt, Memory>
    ensures { IfOk result (λ made. made ≡ spec.typed_statement scope.now stmt.now) }
{
    Ok(TStmt {
        first: stmt.first,
        at: stmt.at,
        name: stmt.name.copy()?,
        shape: Boxed::new(alloc, shape(alloc, scope, stmt.shape.get())?)?,
    })
}
