ghost use Rattle.std.specs.Prelude.{◌≡◌};
ghost use Rattle.zim_plain.specs.declared.stop.Stop.TheVariants.{OutOfMemory, Outside};
ghost use Rattle.zim_plain.specs.declared.stop.PlainStop.TheVariants as stopped;

use std::alloc::{AllocError, AllocFailed};
use zim_fault::{Fault, Memory};

/// The tree is not one that plain form has there.
#[derive(Clone, Copy, Debug, PartialEq, Eq, Drop)]
pub struct NotPlain;

/// Why the reading of a statement stopped before its end.
#[derive(Clone, Copy, Debug, PartialEq, Eq, Drop)]
pub enum Stop {
    /// Memory was refused.
    OutOfMemory,
    /// The statement is outside plain form.
    Outside,
}

impl From<NotPlain> for Stop {
    ghost from_gives = { λ _ stop. stop ≡ Outside };

    fn from(_broken: NotPlain) -> Stop {
        Stop::Outside
    }
}

impl From<Memory> for Stop {
    ghost from_gives = { λ _ stop. stop ≡ OutOfMemory };

    fn from(_refused: Memory) -> Stop {
        Stop::OutOfMemory
    }
}

impl From<AllocError> for Stop {
    ghost from_gives = { λ _ stop. stop ≡ OutOfMemory };

    fn from(_refused: AllocError) -> Stop {
        Stop::OutOfMemory
    }
}

impl<T: Drop> From<AllocFailed<T>> for Stop {
    ghost from_gives = { λ _ stop. stop ≡ OutOfMemory };

    fn from(_refused: AllocFailed<T>) -> Stop {
        Stop::OutOfMemory
    }
}

/// Why statements were not made a program.
#[derive(Clone, Copy, Debug, PartialEq, Eq, Drop)]
pub enum PlainStop {
    /// The first fault of the statements: one that isn't of plain form or may not follow those before it, a number past 128
    /// bits, or a row or a column too many.
    Fault(Fault),
    /// Memory was refused.
    Memory,
}

impl From<Memory> for PlainStop {
    ghost from_gives = { λ _ stop. stop ≡ stopped.Memory };

    fn from(_refused: Memory) -> PlainStop {
        PlainStop::Memory
    }
}

impl From<AllocError> for PlainStop {
    ghost from_gives = { λ _ stop. stop ≡ stopped.Memory };

    fn from(_refused: AllocError) -> PlainStop {
        PlainStop::Memory
    }
}

impl<T: Drop> From<AllocFailed<T>> for PlainStop {
    ghost from_gives = { λ _ stop. stop ≡ stopped.Memory };

    fn from(_refused: AllocFailed<T>) -> PlainStop {
        PlainStop::Memory
    }
}

impl From<Fault> for PlainStop {
    ghost from_gives = { λ fault stop. stop ≡ stopped.Fault fault };

    fn from(fault: Fault) -> PlainStop {
        PlainStop::Fault(fault)
    }
}
