//! Why a line has no answer.

use std::alloc::{AllocError, AllocFailed};
use zim_fault::Memory;

/// Why a line has no answer.
#[derive(Clone, Copy, Debug, PartialEq, Eq)]
pub enum Stop {
    /// It isn't one of those that the table can have, or it can't stand here.
    NoCase,
    /// Memory was refused.
    Memory,
}

impl From<Memory> for Stop {
    fn from(_refused: Memory) -> Stop {
        Stop::Memory
    }
}

impl From<AllocError> for Stop {
    fn from(_refused: AllocError) -> Stop {
        Stop::Memory
    }
}

impl<T: Drop> From<AllocFailed<T>> for Stop {
    fn from(_refused: AllocFailed<T>) -> Stop {
        Stop::Memory
    }
}
