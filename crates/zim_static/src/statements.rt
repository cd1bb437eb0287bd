//! The first static fault in a statement, aside from its nesting.
ghost use Rattle.std.specs.Prelude.{◌≡◌, ◌||◌, [], map, Some, is_some};
ghost use Rattle.zim_typed.specs.Scope.{Scope, kind_of_name, is_local};
ghost use Rattle.zim_static.specs.Around.{names_in};
ghost use Rattle.zim_static.specs.Faults.{first_of_faults};
ghost use Rattle.zim_static.specs.StatementFaults as spec;

use crate::around::Around;
use crate::deep::is_deep;
use crate::fault_in::{fault_in, fault_in_index, fault_in_items};
use crate::role::Role;
use crate::scope::Scope;
use crate::uses::mark;
use sqlite_items::{Boxed, Items};
use zim_fault::{Bytes, Fault, Kind, Place, Word};
use zim_tree::{
    Angle, Bracket, Doing, Expr, Limit, ParSide, Printed, Reading, SetSide, Shape, Stmt, Table,
};

/// The first fault of a value without variables.
fn value_fault(scope: &Scope, around: &Around, tree: &Expr) -> Option<Fault>
    ensures { result ≡ first_of_faults (spec.value_faults scope.now (names_in scope.now around.now) tree.now) }
{
    fault_in(scope, around, Role::Value, tree)
}

/// The first fault of values.
fn values_fault(scope: &Scope, around: &Around, trees: &[Expr]) -> Option<Fault>
    ensures { result ≡ first_of_faults (spec.values_faults scope.now (names_in scope.now around.now) trees.now) }
{
    fault_in_items(scope, around, Role::Value, trees)
}

/// The first fault of a tuple.
fn tuple_fault(scope: &Scope, around: &Around, tuple: &Angle) -> Option<Fault>
    ensures { result ≡ first_of_faults (spec.tuple_faults scope.now (names_in scope.now around.now) tuple.now) }
{
    fault_in_items(scope, around, Role::Value, tuple.items.as_slice())
}

/// The first fault of the operand of a word, if there is one.
fn operand_fault(
    scope: &Scope,
    around: &Around,
    operand: &Option<(Place, Boxed<Expr>)>,
) -> Option<Fault>
    ensures { result ≡ first_of_faults (spec.operand_faults scope.now (names_in scope.now around.now) operand.now) }
{
    match operand {
        Some((_, tree)) => value_fault(scope, around, tree.get()),
        None => None,
    }
}

/// The first fault of the options of a `read`.
fn options_fault(scope: &Scope, around: &Around, options: &[(Place, Word, Expr)]) -> Option<Fault>
    ensures { result ≡ first_of_faults (spec.options_faults scope.now (names_in scope.now around.now) options.now) }
{
    let mut fault = None;
    for (_place, _word, tree) in options {
        fault = fault.or(value_fault(scope, around, tree));
    }
    fault
}

/// The first fault of a `read`.
fn reading_fault(scope: &Scope, around: &Around, reading: &Reading) -> Option<Fault>
    ensures { result ≡ first_of_faults (spec.reading_faults scope.now (names_in scope.now around.now) reading.now) }
{
    value_fault(scope, around, reading.file.get())
        .or(value_fault(scope, around, reading.template.get()))
        .or(options_fault(scope, around, reading.options.as_slice()))
}

/// The first fault of indices and of what is listed behind each.
fn entries_fault(scope: &Scope, around: &Around, entries: &[(Angle, Expr)]) -> Option<Fault>
    ensures { result ≡ first_of_faults (spec.entries_faults scope.now (names_in scope.now around.now) entries.now) }
{
    let mut fault = None;
    for (tuple, tree) in entries {
        fault = fault
            .or(tuple_fault(scope, around, tuple))
            .or(value_fault(scope, around, tree));
    }
    fault
}

/// The first fault of the rows of a table.
fn rows_fault(scope: &Scope, around: &Around, rows: &[(Items<Expr>, Items<Expr>)]) -> Option<Fault>
    ensures { result ≡ first_of_faults (spec.rows_faults scope.now (names_in scope.now around.now) rows.now) }
{
    let mut fault = None;
    for (items, values) in rows {
        fault = fault
            .or(values_fault(scope, around, items.as_slice()))
            .or(values_fault(scope, around, values.as_slice()));
    }
    fault
}

/// The first fault of a table.
fn table_fault(scope: &Scope, around: &Around, table: &Table) -> Option<Fault>
    ensures { result ≡ first_of_faults (spec.table_faults scope.now (names_in scope.now around.now) table.now) }
{
    values_fault(scope, around, table.head.as_slice()).or(rows_fault(
        scope,
        around,
        table.rows.as_slice(),
    ))
}

/// The first fault of the brackets behind a declared name.
fn brackets_fault(scope: &Scope, brackets: &Option<Bracket>) -> Option<Fault>
    ensures { result ≡ first_of_faults (spec.brackets_faults scope.now brackets.now) }
{
    let outside = Around::Nothing;
    match brackets {
        None | Some(Bracket::Empty) => None,
        Some(Bracket::Loop(index)) => fault_in_index(scope, &outside, Role::Value, index.get()),
        Some(Bracket::Over(set)) => value_fault(scope, &outside, set.get()),
    }
}

/// The first fault of the right side of a set.
fn set_fault(scope: &Scope, around: &Around, side: &SetSide) -> Option<Fault>
    ensures { result ≡ first_of_faults (spec.set_faults scope.now (names_in scope.now around.now) side.now) }
{
    match side {
        SetSide::Value(value) => value_fault(scope, around, value.get()),
        SetSide::Read(reading) => reading_fault(scope, around, reading),
        SetSide::Entries(entries) => entries_fault(scope, around, entries.as_slice()),
    }
}

/// The first fault of the right side of a parameter.
fn param_fault(scope: &Scope, around: &Around, side: &ParSide) -> Option<Fault>
    ensures { result ≡ first_of_faults (spec.param_faults scope.now (names_in scope.now around.now) side.now) }
{
    match side {
        ParSide::Value(value) | ParSide::Default(_, value) => value_fault(
            scope,
            around,
            value.get(),
        ),
        ParSide::Read(reading, default) => {
            reading_fault(scope, around, reading).or(operand_fault(scope, around, default))
        }
        ParSide::Entries(entries, default) => {
            entries_fault(scope, around, entries.as_slice()).or(operand_fault(
                scope, around, default,
            ))
        }
        ParSide::Table(table, default) => {
            table_fault(scope, around, table).or(operand_fault(scope, around, default))
        }
    }
}

/// The first fault of the bounds of a variable.
fn limits_fault(scope: &Scope, around: &Around, limits: &[Limit]) -> Option<Fault>
    ensures { result ≡ first_of_faults (spec.limits_faults scope.now (names_in scope.now around.now) limits.now) }
{
    let mut fault = None;
    for limit in limits {
        fault = fault.or(fault_in(scope, around, Role::Bound, limit.side.get()));
    }
    fault
}

/// The first fault of what is printed.
fn printed_fault(scope: &Scope, around: &Around, items: &[Printed]) -> Option<Fault>
    ensures { result ≡ first_of_faults (spec.all_printed_faults scope.now (names_in scope.now around.now) items.now) }
{
    let mut fault = None;
    for item in items {
        fault = fault.or(item_fault(scope, around, item));
    }
    fault
}

/// The first fault of one thing that is printed.
fn item_fault(scope: &Scope, around: &Around, item: &Printed) -> Option<Fault>
    ensures { result ≡ first_of_faults (spec.printed_faults scope.now (names_in scope.now around.now) item.now) }
{
    match item {
        Printed::Value(value) => value_fault(scope, around, value.get()),
        Printed::Tuple(tuple) => tuple_fault(scope, around, tuple),
    }
}

/// The first fault of the parameters of a function: one that is declared, or stands among those before it.
fn parameters_fault(scope: &Scope, parameters: &[(Place, Bytes)]) -> Option<Fault>
    ensures { result ≡ first_of_faults (spec.parameters_faults scope.now [] parameters.now) }
{
    let mut fault = None;
    for (i, parameter) in parameters.iter().enumerate() {
        let again = is_taken(scope, &parameters[..i], &parameter.1);
        fault = fault.or(mark(again, Kind::Redeclared, parameter.0));
    }
    fault
}

/// Whether a name is declared, or that of a parameter before.
fn is_taken(scope: &Scope, before: &[(Place, Bytes)], name: &Bytes) -> bool
    ensures { result ≡ (is_some (kind_of_name scope.now name.now) || is_local (map (λ x. x.1) before.now) name.now) }
{
    scope.is_declared(name) || Around::Parameters(before).has(scope, name)
}

/// The first fault of what a `do` does.
fn doing_fault(scope: &Scope, around: &Around, doing: &Doing) -> Option<Fault>
    ensures { result ≡ first_of_faults (spec.doing_faults scope.now doing.now (names_in scope.now around.now)) }
{
    match doing {
        Doing::Print(_, items) => printed_fault(scope, around, items.as_slice()),
        Doing::Check(_, test) => value_fault(scope, around, test.get()),
        Doing::Forall(_, index, _, inside) => {
            let behind = Around::Index(index.get().tuple.items.as_slice(), &*around);
            fault_in_index(scope, around, Role::Value, index.get()).or(doing_fault(
                scope,
                &behind,
                inside.get(),
            ))
        }
    }
}

/// What is around a place behind a bracket.
fn behind_bracket<'a>(outside: &'a Around<'a>, bracket: &'a Bracket) -> Around<'a>
    ensures { (scope : Scope) → names_in scope outside.now ≡ [] → names_in scope result ≡ spec.brackets_names scope (Some bracket.now) }
{
    match bracket {
        Bracket::Loop(index) => { Around::Index(index.get().tuple.items.as_slice(), &*outside) }
        Bracket::Empty | Bracket::Over(_) => Around::Nothing,
    }
}

/// What is around a place behind the brackets of a declared name, if it has any.
fn behind_brackets<'a>(outside: &'a Around<'a>, brackets: &'a Option<Bracket>) -> Around<'a>
    ensures { (scope : Scope) → names_in scope outside.now ≡ [] → names_in scope result ≡ spec.brackets_names scope brackets.now }
{
    match brackets {
        Some(bracket) => behind_bracket(outside, bracket),
        None => Around::Nothing,
    }
}

/// The first fault of what stands behind a statement's name.
fn shape_fault(scope: &Scope, shape: &Shape) -> Option<Fault>
    ensures { result ≡ first_of_faults (spec.shape_faults scope.now shape.now) }
{
    let outside = Around::Nothing;
    match shape {
        Shape::Set(brackets, side) => {
            let behind = behind_brackets(&outside, brackets);
            brackets_fault(scope, brackets).or(set_fault(scope, &behind, side))
        }
        Shape::Param(brackets, side) => {
            let behind = behind_brackets(&outside, brackets);
            brackets_fault(scope, brackets).or(param_fault(scope, &behind, side))
        }
        Shape::Var(brackets, _, limits, priority, startval) => {
            let behind = behind_brackets(&outside, brackets);
            brackets_fault(scope, brackets)
                .or(limits_fault(scope, &behind, limits.as_slice()))
                .or(operand_fault(scope, &behind, priority))
                .or(operand_fault(scope, &behind, startval))
        }
        Shape::Goal(_, objective) => fault_in(scope, &outside, Role::Term, objective.get()),
        Shape::Subto(constraint) => {
            fault_in(scope, &outside, Role::Constraint, constraint.get())
        }
        Shape::Define(_, parameters, body) => {
            let inside = Around::Parameters(parameters.as_slice());
            parameters_fault(scope, parameters.as_slice()).or(value_fault(
                scope,
                &inside,
                body.get(),
            ))
        }
        Shape::Do(doing) => doing_fault(scope, &outside, doing),
    }
}

/// Whether a name is declared again, or a second objective is declared.
fn is_declared_again(scope: &Scope, name: &Bytes, shape: &Shape) -> bool
    ensures { result ≡ spec.is_declared_again scope.now name.now shape.now }
{
    match shape {
        Shape::Do(_) => false,
        Shape::Goal(_, _) => scope.is_declared(name) || scope.has_objective(),
        _ => scope.is_declared(name),
    }
}

/// The first fault in a statement under the scope of the statements before it, of those in the order of its tokens. Its nesting
/// isn't looked at.
fn statement_fault(scope: &Scope, stmt: &Stmt) -> Option<Fault>
    ensures { result ≡ first_of_faults (spec.statement_faults scope.now stmt.now) }
{
    mark(
        is_declared_again(scope, &stmt.name, stmt.shape.get()),
        Kind::Redeclared,
        stmt.at,
    )
    .or(shape_fault(scope, stmt.shape.get()))
}

/// The static fault of a statement under the scope of the statements before it, which is what is wrong with it whatever its
/// values are. None exactly where there is none.
///
/// `Deep`, at the first token, where the statement nests deeper than 200 together with the functions that it calls. Else the
/// first fault in it, in the order of its tokens, and at one token the kind with the lower number: `infinity` outside of the
/// bounds of a variable is `Unsupported`, a name that isn't declared `UnknownName`, one that is declared again, or a second
/// objective, `Redeclared`, a name with other brackets or another number of arguments than its declaration `ArgCount`, a
/// variable outside of a term `VariableHere`, a product, quotient or power of variables that is no linear term `NotLinear`,
/// and what is no constraint where one is wanted `NotConstraint`.
pub fn static_fault(scope: &Scope, stmt: &Stmt) -> Option<Fault>
    ensures { result ≡ spec.static_fault scope.now stmt.now }
{
    if is_deep(scope, stmt) {
        return Some(Fault {
            place: stmt.first,
            kind: Kind::Deep,
        });
    }
    statement_fault(scope, stmt)
}
