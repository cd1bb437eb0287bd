ghost use Rattle.std.specs.Prelude.{◌≡◌, ◌≤◌, ◌<◌, ◌++◌, None, IfOk, OnOk, map, All};
ghost use Rattle.zim_rows.specs.System.{Extends};
ghost use Rattle.zim_rows.specs.Covered.{IsCovered};
ghost use Rattle.zim_rows.specs.Steps.{given_row, fault_here, IsNewRow};
ghost use Rattle.zim_columns.specs.Names.{column_declared};
ghost use Rattle.zim_columns.specs.Declaring as exact;
ghost use Rattle.zim_columns.specs.Declaring.{declaring, side_row, Declares, IsInSystem};

use crate::asks::Ask;
use crate::bounds::{cross, is_integer, sides_of};
use crate::columns::Columns;
use crate::declared::Declared;
use std::alloc::Global;
use zim_decimal::is_short;
use zim_fault::{Fault, Kind, Memory, Place, Sequence};
use zim_fraction::Fraction;
use zim_linear::{Form, Sides};
use zim_rows::{Column, EncodeFault, NewRow, RowFrom, RowKind, Sense, System};

/// Adds a column to the system and lists it under the name and the tuple of the ask.
///
/// Where the column takes whole numbers alone, its bounds are rounded inwards. A bound that no decimal of at most 15
/// places writes, which only a real column has, makes a row from there too, since files can't have it as a bound; that of
/// the lower bound comes first.
///
/// The fault, at the place where the column comes from, is `BoundsCross` exactly where after rounding the lower bound is
/// above the upper one, or the lower one is infinity, or the upper one minus infinity; else `TooManyColumns` or else
/// `TooManyRows` exactly where there would be more than 1,000,000 columns or rows.
pub fn declare(
    columns: &mut Columns,
    system: &mut System,
    from: RowFrom,
    ask: Ask,
) -> Result<(), EncodeFault>
    requires new { column_declared columns.old ask.name ask.tuple ≡ None }
    requires in_system { All (IsInSystem system.old) columns.old }
    ensures answer { Declares (declaring columns.old system.old from ask) columns.new system.new result }
    ensures extends { OnOk result (Extends system.new system.old) }
    ensures covered { OnOk result (IsCovered system.old → IsCovered system.new) }
    ensures listed { OnOk result (All (IsInSystem system.new) columns.new) }
{
    let sides = sides_of(ask.kind, &ask.lower, &ask.upper);
    if cross(&ask.lower, &ask.upper, &sides) {
        return Err(crossed(from.place));
    }
    let column = system.column_count() as u32 + 1;
    let rows = side_rows(columns.alloc, from, column, &sides)?;
    let integer = is_integer(ask.kind);
    match system.add_step(from.place, &[Column { integer, sides }], rows.as_slice()) {
        Ok(()) => (),
        Err(fault) => return Err(fault),
    }
    columns.push(ask, column)?;
    Ok(())
}

// The refusal of bounds that cross.
fn crossed(place: Place) -> EncodeFault
    ensures { result ≡ EncodeFault.Fault (fault_here Kind.BoundsCross place) }
{
    EncodeFault::Fault(Fault {
        place,
        kind: Kind::BoundsCross,
    })
}

// The rows that the sides of a column make.
fn side_rows(
    alloc: Global,
    from: RowFrom,
    column: u32,
    sides: &Sides,
) -> Result<Sequence<NewRow>, Memory>
    requires { 0 < column }
    ensures rows { IfOk result (λ rows. map given_row rows ≡ exact.side_rows from column sides.now) }
    ensures over { IfOk result (λ rows. All (IsNewRow column) rows) }
{
    let mut rows = Sequence::new(alloc);
    push_side(alloc, &mut rows, from, column, Sense::AtLeast, &sides.low)?;
    push_side(alloc, &mut rows, from, column, Sense::AtMost, &sides.high)?;
    Ok(rows)
}

// Adds the row that a side of a column makes, if it makes one.
fn push_side(
    alloc: Global,
    rows: &mut Sequence<NewRow>,
    from: RowFrom,
    column: u32,
    sense: Sense,
    side: &Option<Fraction>,
) -> Result<(), Memory>
    requires { 0 < column }
    ensures rows { OnOk result (map given_row rows.new ≡ map given_row rows.old ++ side_row from column sense side.now) }
    ensures over { OnOk result (All (IsNewRow column) rows.old → All (IsNewRow column) rows.new) }
{
    let Some(number) = side else {
        return Ok(());
    };
    if is_short(*number) {
        return Ok(());
    }
    let form = Form::column(alloc, column)?;
    rows.push(NewRow {
        from,
        form,
        kind: RowKind::One(sense, *number),
    })?;
    Ok(())
}
