//! The columns of variables.

ghost use Rattle.std.specs.Prelude.{◌≡◌, IfOk};
ghost use Rattle.zim_plain.specs.Asks.{ask_of};
ghost use Rattle.zim_plain.specs.Build.{MayDeclare, VariableAnswer};

use crate::stop::PlainStop;
use std::alloc::Global;
use zim_columns::{Ask, Bound, Columns, VarKind, declare};
use zim_fault::{Bytes, Duplicate, Memory};
use zim_fraction::Fraction;
use zim_rows::{EncodeFault, RowFrom, System};
use zim_tuples::Tuple;

/// What `var name;` asks for.
fn ask_for(alloc: Global, name: &Bytes) -> Result<Ask, Memory>
    ensures { IfOk result (λ ask. ask ≡ ask_of name.now) }
{
    Ok(Ask {
        name: name.copy()?,
        tuple: Tuple::new(alloc),
        kind: VarKind::Real,
        lower: Bound::At(Fraction::zero()),
        upper: Bound::Plus,
        priority: None,
        startval: None,
    })
}

/// Declares the column of `var name;`, which is told at a place where there are too many.
pub fn declare_variable(
    alloc: Global,
    columns: &mut Columns,
    system: &mut System,
    from: RowFrom,
    name: &Bytes,
) -> Result<(), PlainStop>
    requires { MayDeclare columns.old system.old name.now }
    ensures { VariableAnswer columns.old system.old from.place name.now columns.new system.new result }
{
    let ask = match ask_for(alloc, name) {
        Ok(ask) => ask,
        Err(Memory) => return Err(PlainStop::Memory),
    };
    match declare(columns, system, from, ask) {
        Ok(()) => Ok(()),
        Err(EncodeFault::Fault(fault)) => Err(PlainStop::Fault(fault)),
        Err(EncodeFault::Memory) => Err(PlainStop::Memory),
    }
}
