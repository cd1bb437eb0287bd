// The columns and rows of a step, and the refusal of its numbers.
ghost use Rattle.std.specs.Prelude.{◌≡◌};
ghost use Rattle.zim_rows.specs.Steps.{given_row, binary};
ghost use Rattle.zim_logic_rows.specs.Steps.{terms_row, past_refused};

use zim_fault::{Fault, Kind, Place, Sequence};
use zim_fraction::Fraction;
use zim_linear::{Form, LinFault, Sides};
use zim_rows::{Column, EncodeFault, NewRow, RowFrom, RowKind, Sense};

/// The columns and the rows of an encoding step, which are to stand at the ends of a system.
#[derive(Debug, Drop)]
pub struct NewStep {
    pub columns: Sequence<Column>,
    pub rows: Sequence<NewRow>,
}

/// What a form has no answer for, as a fault at a place: `Past` where a number is past, `Memory` where memory was refused.
pub fn past_at(place: Place, fault: LinFault) -> EncodeFault
    ensures { result ≡ past_refused place fault }
{
    match fault {
        LinFault::Past => EncodeFault::Fault(Fault {
            place,
            kind: Kind::Past,
        }),
        LinFault::Memory => EncodeFault::Memory,
    }
}

/// The row that compares the terms of a form with a right side.
pub(crate) fn new_row(from: RowFrom, form: Form, sense: Sense, right: Fraction) -> NewRow
    ensures { given_row result ≡ terms_row from form sense right }
{
    NewRow {
        from,
        form,
        kind: RowKind::One(sense, right),
    }
}

/// A binary column: a whole number from 0 to 1.
pub fn binary_column() -> Column
    ensures { result ≡ binary }
{
    Column {
        integer: true,
        sides: Sides {
            low: Some(Fraction::zero()),
            high: Some(Fraction::one()),
        },
    }
}
