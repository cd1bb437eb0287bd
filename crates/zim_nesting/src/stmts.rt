ghost use Rattle.std.specs.Prelude.{◌≡◌, map, min};
ghost use Rattle.zim_nesting.specs.Counts.{counts_of};
ghost use Rattle.zim_nesting.specs.Depth as spec;

use crate::counts::Counts;
use crate::exprs::{depth_of_angle, depth_of_expr, depth_of_exprs, depth_of_index};
use sqlite_items::{Boxed, Items};
use zim_fault::{Place, Word};
use zim_tree::{
    Angle, Bracket, Doing, Expr, Limit, ParSide, Printed, Reading, SetSide, Shape, Stmt, Table,
};

/// How deep a statement nests: the most brackets, `if` and loops that are open at once, where a loop
/// stays open to the statement's end.
///
/// The number stays at its last value where it does not fit.
pub fn nesting(statement: &Stmt) -> u64
    ensures { result ≡ min u64.MAX (spec.nesting statement.now) }
{
    depth_of_shape(statement.shape.get()).deepest
}

/// How deep a statement of this shape nests.
fn depth_of_shape(shape: &Shape) -> Counts
    ensures { result ≡ counts_of (spec.shape_depth shape.now) }
{
    match shape {
        Shape::Set(brackets, side) => depth_of_brackets(brackets).then(depth_of_set_side(side)),
        Shape::Param(brackets, side) => depth_of_brackets(brackets).then(depth_of_par_side(side)),
        Shape::Var(brackets, _, limits, priority, startval) => {
            let given = depth_of_given(priority).then(depth_of_given(startval));
            let rest = depth_of_limits(limits.as_slice()).then(given);
            depth_of_brackets(brackets).then(rest)
        }
        Shape::Goal(_, objective) => depth_of_expr(objective.get()),
        Shape::Subto(constraint) => depth_of_expr(constraint.get()),
        Shape::Define(_, _, body) => Counts::plain().inside().then(depth_of_expr(body.get())),
        Shape::Do(doing) => depth_of_doing(doing),
    }
}

/// How deep the brackets of a declaration nest, if it has any.
fn depth_of_brackets(brackets: &Option<Bracket>) -> Counts
    ensures { result ≡ counts_of (spec.brackets_depth brackets.now) }
{
    match brackets {
        Some(bracket) => depth_of_bracket(bracket),
        None => Counts::plain(),
    }
}

/// How deep brackets nest.
fn depth_of_bracket(bracket: &Bracket) -> Counts
    ensures { result ≡ counts_of (spec.bracket_depth bracket.now) }
{
    match bracket {
        Bracket::Empty => Counts::plain().inside(),
        Bracket::Loop(index) => depth_of_index(index.get()).inside(),
        Bracket::Over(set) => depth_of_expr(set.get()).inside(),
    }
}

/// How deep a default, a priority or a start value nests, if there is one.
fn depth_of_given(given: &Option<(Place, Boxed<Expr>)>) -> Counts
    ensures { result ≡ counts_of (spec.given_depth given.now) }
{
    match given {
        Some((_, operand)) => depth_of_expr(operand.get()),
        None => Counts::plain(),
    }
}

/// How deep the right side of a set nests.
fn depth_of_set_side(side: &SetSide) -> Counts
    ensures { result ≡ counts_of (spec.set_side_depth side.now) }
{
    match side {
        SetSide::Value(value) => depth_of_expr(value.get()),
        SetSide::Read(reading) => depth_of_reading(reading).inside(),
        SetSide::Entries(entries) => depth_of_entries(entries.as_slice()),
    }
}

/// How deep the right side of a parameter nests.
fn depth_of_par_side(side: &ParSide) -> Counts
    ensures { result ≡ counts_of (spec.par_side_depth side.now) }
{
    match side {
        ParSide::Value(value) => depth_of_expr(value.get()),
        ParSide::Read(reading, default) => depth_of_reading(reading).then(depth_of_given(default)),
        ParSide::Entries(entries, default) => {
            depth_of_entries(entries.as_slice()).then(depth_of_given(default))
        }
        ParSide::Table(table, default) => depth_of_table(table).then(depth_of_given(default)),
        ParSide::Default(_, default) => depth_of_expr(default.get()),
    }
}

/// How deep an entry nests: an index and what belongs to it.
fn depth_of_entry(entry: &(Angle, Expr)) -> Counts
    ensures { result ≡ counts_of (spec.entry_depth entry.now) }
{
    depth_of_angle(&entry.0).then(depth_of_expr(&entry.1))
}

/// How deep entries nest that stand one behind the other.
fn depth_of_entries(entries: &[(Angle, Expr)]) -> Counts
    ensures { result ≡ counts_of (spec.all (map spec.entry_depth entries.now)) }
{
    let mut counts = Counts::plain();
    for entry in entries {
        counts = counts.then(depth_of_entry(entry));
    }
    counts
}

/// How deep a row of a table nests.
fn depth_of_row(items: &Items<Expr>, values: &Items<Expr>) -> Counts
    ensures { result ≡ counts_of (spec.row_depth (items.now, values.now)) }
{
    depth_of_exprs(items.as_slice()).then(depth_of_exprs(values.as_slice()))
}

/// How deep the rows of a table nest.
fn depth_of_rows(rows: &[(Items<Expr>, Items<Expr>)]) -> Counts
    ensures { result ≡ counts_of (spec.all (map spec.row_depth rows.now)) }
{
    let mut counts = Counts::plain();
    for (items, values) in rows {
        counts = counts.then(depth_of_row(items, values));
    }
    counts
}

/// How deep a table nests.
fn depth_of_table(table: &Table) -> Counts
    ensures { result ≡ counts_of (spec.table_depth table.now) }
{
    depth_of_exprs(table.head.as_slice()).then(depth_of_rows(table.rows.as_slice()))
}

/// How deep the bounds of a variable nest.
fn depth_of_limits(limits: &[Limit]) -> Counts
    ensures { result ≡ counts_of (spec.all (map spec.limit_depth limits.now)) }
{
    let mut counts = Counts::plain();
    for limit in limits {
        counts = counts.then(depth_of_expr(limit.side.get()));
    }
    counts
}

/// How deep the options of a `read` nest.
fn depth_of_options(options: &[(Place, Word, Expr)]) -> Counts
    ensures { result ≡ counts_of (spec.all (map spec.option_depth options.now)) }
{
    let mut counts = Counts::plain();
    for (_place, _word, operand) in options {
        counts = counts.then(depth_of_expr(operand));
    }
    counts
}

/// How deep a `read` nests, with its options.
fn depth_of_reading(reading: &Reading) -> Counts
    ensures { result ≡ counts_of (spec.reading_depth reading.now) }
{
    let rest = depth_of_expr(reading.template.get()).then(depth_of_options(
        reading.options.as_slice(),
    ));
    depth_of_expr(reading.file.get()).then(rest)
}

/// How deep nests what a `print` prints.
fn depth_of_printed(item: &Printed) -> Counts
    ensures { result ≡ counts_of (spec.printed_depth item.now) }
{
    match item {
        Printed::Value(value) => depth_of_expr(value.get()),
        Printed::Tuple(tuple) => depth_of_angle(tuple),
    }
}

/// How deep nests all that a `print` prints.
fn depth_of_print(items: &[Printed]) -> Counts
    ensures { result ≡ counts_of (spec.all (map spec.printed_depth items.now)) }
{
    let mut counts = Counts::plain();
    for item in items {
        counts = counts.then(depth_of_printed(item));
    }
    counts
}

/// How deep nests what a `do` does.
fn depth_of_doing(doing: &Doing) -> Counts
    ensures { result ≡ counts_of (spec.doing_depth doing.now) }
{
    match doing {
        Doing::Print(_, items) => depth_of_print(items.as_slice()),
        Doing::Check(_, test) => depth_of_expr(test.get()),
        Doing::Forall(_, index, _, body) => {
            let rest = depth_of_index(index.get()).then(depth_of_doing(body.get()));
            Counts::a_loop().then(rest)
        }
    }
}
