//! How deep a statement nests together with the functions that it calls.
ghost use Rattle.std.specs.Prelude.{◌≡◌, map, max, nat_lt};
ghost use Rattle.zim_typed.specs.Nesting.{greatest};
ghost use Rattle.zim_static.specs.Calls.{full_nesting};
ghost use Rattle.zim_static.specs.Calls as spec;

use crate::calls::{all_calls, calls, index_calls};
use crate::scope::Scope;
use sqlite_items::{Boxed, Items};
use zim_fault::{Place, Word};
use zim_nesting::nesting;
use zim_tree::{
    Angle, Bracket, Doing, Expr, Limit, ParSide, Printed, Reading, SetSide, Shape, Stmt, Table,
};

/// How deep a statement may nest with the functions that it calls.
const DEEPEST: u64 = 200;

/// The greatest full nesting of the functions that a tuple calls.
fn tuple_calls(scope: &Scope, tuple: &Angle) -> u64
    ensures { result ≡ spec.tuple_calls scope.now tuple.now }
{
    all_calls(scope, tuple.items.as_slice())
}

/// The greatest of those that the operand of a word calls, if there is one.
fn given_calls(scope: &Scope, operand: &Option<(Place, Boxed<Expr>)>) -> u64
    ensures { result ≡ spec.given_calls scope.now operand.now }
{
    match operand {
        Some((_, tree)) => calls(scope, tree.get()),
        None => 0,
    }
}

/// The greatest of those that the options of a `read` call.
fn options_calls(scope: &Scope, options: &[(Place, Word, Expr)]) -> u64
    ensures { result ≡ greatest (map (λ x. spec.calls scope.now x.2) options.now) }
{
    let mut deepest = 0_u64;
    for (_place, _word, tree) in options {
        deepest = deepest.max(calls(scope, tree));
    }
    deepest
}

/// The greatest of those that a `read` calls.
fn reading_calls(scope: &Scope, reading: &Reading) -> u64
    ensures { result ≡ spec.reading_calls scope.now reading.now }
{
    let rest = calls(scope, reading.template.get()).max(options_calls(
        scope,
        reading.options.as_slice(),
    ));
    calls(scope, reading.file.get()).max(rest)
}

/// The greatest of those that an index and what is listed behind it call.
fn entry_calls(scope: &Scope, tuple: &Angle, value: &Expr) -> u64
    ensures { result ≡ max (spec.tuple_calls scope.now tuple.now) (spec.calls scope.now value.now) }
{
    tuple_calls(scope, tuple).max(calls(scope, value))
}

/// The greatest of those that entries call.
fn entries_calls(scope: &Scope, entries: &[(Angle, Expr)]) -> u64
    ensures { result ≡ spec.entries_calls scope.now entries.now }
{
    let mut deepest = 0_u64;
    for (tuple, tree) in entries {
        deepest = deepest.max(entry_calls(scope, tuple, tree));
    }
    deepest
}

/// The greatest of those that a row of a table calls.
fn row_calls(scope: &Scope, items: &Items<Expr>, values: &Items<Expr>) -> u64
    ensures { result ≡ max (spec.all_calls scope.now items.now) (spec.all_calls scope.now values.now) }
{
    all_calls(scope, items.as_slice()).max(all_calls(scope, values.as_slice()))
}

/// The greatest of those that the rows of a table call.
fn rows_calls(scope: &Scope, rows: &[(Items<Expr>, Items<Expr>)]) -> u64
    ensures { result ≡ greatest (map (λ row. max (spec.all_calls scope.now row.0) (spec.all_calls scope.now row.1)) rows.now) }
{
    let mut deepest = 0_u64;
    for (items, values) in rows {
        deepest = deepest.max(row_calls(scope, items, values));
    }
    deepest
}

/// The greatest of those that a table calls.
fn table_calls(scope: &Scope, table: &Table) -> u64
    ensures { result ≡ spec.table_calls scope.now table.now }
{
    all_calls(scope, table.head.as_slice()).max(rows_calls(scope, table.rows.as_slice()))
}

/// The greatest of those that the brackets behind a declared name call.
fn brackets_calls(scope: &Scope, brackets: &Option<Bracket>) -> u64
    ensures { result ≡ spec.brackets_calls scope.now brackets.now }
{
    match brackets {
        None | Some(Bracket::Empty) => 0,
        Some(Bracket::Loop(index)) => index_calls(scope, index.get()),
        Some(Bracket::Over(set)) => calls(scope, set.get()),
    }
}

/// The greatest of those that the right side of a set calls.
fn set_calls(scope: &Scope, side: &SetSide) -> u64
    ensures { result ≡ spec.set_calls scope.now side.now }
{
    match side {
        SetSide::Value(value) => calls(scope, value.get()),
        SetSide::Read(reading) => reading_calls(scope, reading),
        SetSide::Entries(entries) => entries_calls(scope, entries.as_slice()),
    }
}

/// The greatest of those that the right side of a parameter calls.
fn param_calls(scope: &Scope, side: &ParSide) -> u64
    ensures { result ≡ spec.param_calls scope.now side.now }
{
    match side {
        ParSide::Value(value) | ParSide::Default(_, value) => calls(scope, value.get()),
        ParSide::Read(reading, default) => {
            reading_calls(scope, reading).max(given_calls(scope, default))
        }
        ParSide::Entries(entries, default) => {
            entries_calls(scope, entries.as_slice()).max(given_calls(scope, default))
        }
        ParSide::Table(table, default) => {
            table_calls(scope, table).max(given_calls(scope, default))
        }
    }
}

/// The greatest of those that the bounds of a variable call.
fn limits_calls(scope: &Scope, limits: &[Limit]) -> u64
    ensures { result ≡ greatest (map (λ limit. spec.calls scope.now limit.side) limits.now) }
{
    let mut deepest = 0_u64;
    for limit in limits {
        deepest = deepest.max(calls(scope, limit.side.get()));
    }
    deepest
}

/// The greatest of those that one thing that is printed calls.
fn item_calls(scope: &Scope, item: &Printed) -> u64
    ensures { result ≡ spec.printed_calls scope.now item.now }
{
    match item {
        Printed::Value(value) => calls(scope, value.get()),
        Printed::Tuple(tuple) => tuple_calls(scope, tuple),
    }
}

/// The greatest of those that what is printed calls.
fn printed_calls(scope: &Scope, items: &[Printed]) -> u64
    ensures { result ≡ greatest (map (spec.printed_calls scope.now) items.now) }
{
    let mut deepest = 0_u64;
    for item in items {
        deepest = deepest.max(item_calls(scope, item));
    }
    deepest
}

/// The greatest of those that what a `do` does calls.
fn doing_calls(scope: &Scope, doing: &Doing) -> u64
    ensures { result ≡ spec.doing_calls scope.now doing.now }
{
    match doing {
        Doing::Print(_, items) => printed_calls(scope, items.as_slice()),
        Doing::Check(_, test) => calls(scope, test.get()),
        Doing::Forall(_, index, _, inside) => {
            index_calls(scope, index.get()).max(doing_calls(scope, inside.get()))
        }
    }
}

/// The greatest of those that what stands behind a statement's name calls.
fn shape_calls(scope: &Scope, shape: &Shape) -> u64
    ensures { result ≡ spec.shape_calls scope.now shape.now }
{
    match shape {
        Shape::Set(brackets, side) => brackets_calls(scope, brackets).max(set_calls(scope, side)),
        Shape::Param(brackets, side) => {
            brackets_calls(scope, brackets).max(param_calls(scope, side))
        }
        Shape::Var(brackets, _, limits, priority, startval) => {
            let given = given_calls(scope, priority).max(given_calls(scope, startval));
            let rest = limits_calls(scope, limits.as_slice()).max(given);
            brackets_calls(scope, brackets).max(rest)
        }
        Shape::Goal(_, objective) => calls(scope, objective.get()),
        Shape::Subto(constraint) => calls(scope, constraint.get()),
        Shape::Define(_, _, body) => calls(scope, body.get()),
        Shape::Do(doing) => doing_calls(scope, doing),
    }
}

/// Whether a statement nests deeper than 200 together with the functions that it calls.
pub(crate) fn is_deep(scope: &Scope, stmt: &Stmt) -> bool
    ensures { result ≡ nat_lt 200 (full_nesting scope.now stmt.now) }
{
    let own = nesting(stmt);
    if DEEPEST < own {
        return true;
    }
    DEEPEST - own < shape_calls(scope, stmt.shape.get())
}
