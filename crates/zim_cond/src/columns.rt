// Steps of one binary column.
ghost use Rattle.std.specs.Prelude.{◌≡◌, ◌<◌, ◌≤◌, ◌+◌, length, map, All, IfOk};
ghost use Rattle.zim_answer.specs.Gives.{Gives};
ghost use Rattle.zim_linear.specs.Forms.{AreColumns};
ghost use Rattle.zim_rows.specs.Steps.{given_row, encode_cause, Encodes, IsNewRow};
ghost use Rattle.zim_logic_rows.specs.LogicRows.{with_binary};
ghost use Rattle.zim_logic_rows.specs.Literals.{joined_column};
ghost use Rattle.zim_logic_rows.specs.Truth as exact;
ghost use Rattle.zim_cond.specs.Conditions as steps;

use std::alloc::Global;
use zim_fault::{Join, Memory, Place};
use zim_fraction as numbers;
use zim_fraction::Fraction;
use zim_linear as linear;
use zim_logic_rows::{Literal, Ranged, binary_column, equal_rows, join_rows, past_at, truth_step};
use zim_rows::{EncodeFault, NewRow, RowFrom, System};

/// The column that joins two literals of the system, as a literal; the column of p stands before that of q.
///
/// The fault, at the place of `from`, is `TooManyColumns` or `TooManyRows` where there is no room for the column and its
/// rows.
pub fn joined(
    alloc: Global,
    system: &mut System,
    from: RowFrom,
    join: Join,
    p: Literal,
    q: Literal,
) -> Result<Literal, EncodeFault>
    requires from_one { 0 < p.column }
    requires in_order { p.column < q.column }
    requires in_columns { q.column ≤ length system.old.columns }
    ensures { Encodes (λ l. l) (joined_column from join p q) system.old system.new result }
{
    let r = system.column_count() as u32 + 1;
    let rows = join_rows(alloc, from, join, p, q, r)?;
    let column = add_binary(system, from.place, rows.as_slice())?;
    Ok(Literal {
        column,
        positive: true,
    })
}

/// The truth column of `T >= c`, by its number.
///
/// The fault, at the place of `from`, is `Past` exactly where one of the numbers of its rows is; else `TooManyColumns` or
/// `TooManyRows` where there is no room.
pub(crate) fn truth_column(
    alloc: Global,
    system: &mut System,
    from: RowFrom,
    t: &Ranged,
    c: Fraction,
) -> Result<u32, EncodeFault>
    requires { AreColumns (length system.old.columns) t.now.form.terms }
    ensures { Encodes (λ b. b) (exact.truth_column from c t.now) system.old system.new result }
{
    let _ordered = t.form.terms();
    let b = system.column_count() as u32 + 1;
    let rows = match truth_step(alloc, from, t, c, b) {
        Ok(rows) => rows,
        Err(fault) => return Err(past_at(from.place, fault)),
    };
    add_binary(system, from.place, rows.as_slice())
}

/// The column that is 1 exactly where T is 0, by its number: behind those of `T >= 0` and `-T >= 0`.
pub(crate) fn equal_column(
    alloc: Global,
    system: &mut System,
    from: RowFrom,
    t: &Ranged,
) -> Result<u32, EncodeFault>
    requires { AreColumns (length system.old.columns) t.now.form.terms }
    ensures { Encodes (λ b. b) (steps.equal_column from t.now) system.old system.new result }
{
    let _ordered = t.form.terms();
    let g = truth_column(alloc, system, from, t, Fraction::zero())?;
    let turned = opposite(alloc, t)?;
    let l = truth_column(alloc, system, from, &turned, Fraction::zero())?;
    let e = system.column_count() as u32 + 1;
    let rows = equal_rows(alloc, from, g, l, e)?;
    add_binary(system, from.place, rows.as_slice())
}

// -T with its ends.
fn opposite(alloc: Global, t: &Ranged) -> Result<Ranged, Memory>
    ensures { IfOk result (λ turned. turned ≡ exact.opposite t.now) }
{
    let form = linear::negated(alloc, &t.form)?;
    Ok(Ranged {
        form,
        low: numbers::negated(t.high),
        high: numbers::negated(t.low),
    })
}

// Adds a binary column with its rows; the value is its number.
fn add_binary(system: &mut System, place: Place, rows: &[NewRow]) -> Result<u32, EncodeFault>
    requires { All (IsNewRow (length system.old.columns + 1)) rows.now }
    ensures { Encodes (λ b. b) (with_binary place (λ _. map given_row rows.now)) system.old system.new result }
{
    let b = system.column_count() as u32 + 1;
    system.add_step(place, &[binary_column()], rows)?;
    Ok(b)
}
