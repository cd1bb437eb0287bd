ghost use Rattle.std.specs.Prelude.{◌≡◌};
ghost use Rattle.zim_columns.specs.Declaring as exact;

use crate::asks::Ask;
use zim_fault::Bytes;
use zim_fraction::Fraction;
use zim_tuples::Tuple;

/// A column that was declared.
#[derive(Debug, Drop)]
pub struct Declared {
    pub name: Bytes,
    pub tuple: Tuple,
    /// The number of the column in the system, from 1.
    pub column: u32,
    /// The priority that the ask gives, if it gives one.
    pub priority: Option<Fraction>,
    /// The start value that the ask gives, if it gives one.
    pub startval: Option<Fraction>,
}

// An ask as the declared column of this number.
pub(crate) fn declared_as(ask: Ask, column: u32) -> Declared
    ensures { result ≡ exact.declared_as column ask }
{
    let Ask {
        name,
        tuple,
        kind: _,
        lower: _,
        upper: _,
        priority,
        startval,
    } = ask;
    Declared {
        name,
        tuple,
        column,
        priority,
        startval,
    }
}
