use std::alloc::{AllocError, AllocFailed};
use zim_fault::{Fault, Memory};

/// Why a system took no further column or row.
#[derive(Clone, Copy, Debug, PartialEq, Eq, Hash)]
pub enum RowFault {
    /// 1,000,000 rows are there.
    TooManyRows,
    /// 1,000,000 columns are there.
    TooManyColumns,
    /// Memory was refused.
    Memory,
}

impl From<Memory> for RowFault {
    ghost use Rattle.std.specs.Prelude.{◌≡◌};
    ghost use Rattle.zim_rows.specs.declared.faults.RowFault.TheVariants as fault;

    ghost from_gives = { λ _ e. e ≡ fault.Memory };

    fn from(_refused: Memory) -> RowFault {
        RowFault::Memory
    }
}

/// Why a system could not be finished.
#[derive(Clone, Copy, Debug, PartialEq, Eq, Hash)]
pub enum FinishFault {
    /// A factor, a scaled number or the difference of a range's scaled sides passes 128 bits; the place is that of the
    /// first such row, or else of the objective.
    Fault(Fault),
    /// Memory was refused.
    Memory,
}

impl From<Memory> for FinishFault {
    ghost use Rattle.std.specs.Prelude.{◌≡◌};
    ghost use Rattle.zim_rows.specs.declared.faults.FinishFault.TheVariants as fault;

    ghost from_gives = { λ _ e. e ≡ fault.Memory };

    fn from(_refused: Memory) -> FinishFault {
        FinishFault::Memory
    }
}

/// Why a call that encodes a declared column or a formula as columns and rows stopped.
#[derive(Clone, Copy, Debug, PartialEq, Eq, Hash)]
pub enum EncodeFault {
    /// What is encoded is refused, a number passes 128 bits, or 1,000,000 columns or rows are there; each such call says
    /// which fault comes when.
    Fault(Fault),
    /// Memory was refused.
    Memory,
}

impl From<Memory> for EncodeFault {
    ghost use Rattle.std.specs.Prelude.{◌≡◌};
    ghost use Rattle.zim_rows.specs.declared.faults.EncodeFault.TheVariants as fault;

    ghost from_gives = { λ _ e. e ≡ fault.Memory };

    fn from(_refused: Memory) -> EncodeFault {
        EncodeFault::Memory
    }
}

impl From<AllocError> for RowFault {
    ghost use Rattle.std.specs.Prelude.{◌≡◌};
    ghost use Rattle.zim_rows.specs.declared.faults.RowFault.TheVariants as fault;

    ghost from_gives = { λ _ e. e ≡ fault.Memory };

    fn from(_refused: AllocError) -> RowFault {
        RowFault::Memory
    }
}

impl<T: Drop> From<AllocFailed<T>> for RowFault {
    ghost use Rattle.std.specs.Prelude.{◌≡◌};
    ghost use Rattle.zim_rows.specs.declared.faults.RowFault.TheVariants as fault;

    ghost from_gives = { λ _ e. e ≡ fault.Memory };

    fn from(_refused: AllocFailed<T>) -> RowFault {
        RowFault::Memory
    }
}

impl From<AllocError> for FinishFault {
    ghost use Rattle.std.specs.Prelude.{◌≡◌};
    ghost use Rattle.zim_rows.specs.declared.faults.FinishFault.TheVariants as fault;

    ghost from_gives = { λ _ e. e ≡ fault.Memory };

    fn from(_refused: AllocError) -> FinishFault {
        FinishFault::Memory
    }
}

impl<T: Drop> From<AllocFailed<T>> for FinishFault {
    ghost use Rattle.std.specs.Prelude.{◌≡◌};
    ghost use Rattle.zim_rows.specs.declared.faults.FinishFault.TheVariants as fault;

    ghost from_gives = { λ _ e. e ≡ fault.Memory };

    fn from(_refused: AllocFailed<T>) -> FinishFault {
        FinishFault::Memory
    }
}

impl From<AllocError> for EncodeFault {
    ghost use Rattle.std.specs.Prelude.{◌≡◌};
    ghost use Rattle.zim_rows.specs.declared.faults.EncodeFault.TheVariants as fault;

    ghost from_gives = { λ _ e. e ≡ fault.Memory };

    fn from(_refused: AllocError) -> EncodeFault {
        EncodeFault::Memory
    }
}

impl<T: Drop> From<AllocFailed<T>> for EncodeFault {
    ghost use Rattle.std.specs.Prelude.{◌≡◌};
    ghost use Rattle.zim_rows.specs.declared.faults.EncodeFault.TheVariants as fault;

    ghost from_gives = { λ _ e. e ≡ fault.Memory };

    fn from(_refused: AllocFailed<T>) -> EncodeFault {
        EncodeFault::Memory
    }
}
