ghost use Rattle.std.specs.Prelude.{◌≡◌};
ghost use Rattle.zim_linear.specs.declared.faults.LinFault.TheVariants as fault;

use std::alloc::{AllocError, AllocFailed};

/// Why there is no form.
#[derive(Clone, Copy, Debug, Drop, PartialEq, Eq)]
pub enum LinFault {
    /// A coefficient, the constant or a number on the way to them passes the limit of 2^127 - 1.
    Past,
    /// Memory was refused.
    Memory,
}

impl From<AllocError> for LinFault {
    ghost from_gives = { λ _ given. given ≡ fault.Memory };

    fn from(_refused: AllocError) -> LinFault {
        LinFault::Memory
    }
}

impl<T: Drop> From<AllocFailed<T>> for LinFault {
    ghost from_gives = { λ _ given. given ≡ fault.Memory };

    fn from(_refused: AllocFailed<T>) -> LinFault {
        LinFault::Memory
    }
}

impl From<zim_fault::Memory> for LinFault {
    ghost from_gives = { λ _ given. given ≡ fault.Memory };

    fn from(_refused: zim_fault::Memory) -> LinFault {
        LinFault::Memory
    }
}
