ghost use Rattle.std.specs.Prelude.{◌≡◌, IfOk, ⊤};

use std::alloc::{AllocError, AllocFailed};

/// Memory was asked for and refused. It is the one error that no input causes.
#[derive(Clone, Copy, Debug, PartialEq, Eq, Hash)]
pub struct Memory;

impl From<AllocError> for Memory {
    fn from(_refused: AllocError) -> Memory {
        Memory
    }
}

impl<T: Drop> From<AllocFailed<T>> for Memory {
    fn from(_refused: AllocFailed<T>) -> Memory {
        Memory
    }
}

/// A value of which an equal one can be made, which may take memory.
pub trait Duplicate: Drop {
    /// An equal value.
    fn copy(&self) -> Result<Self, Memory>
        ensures { IfOk result (λ made. made ≡ self.now) };
}

impl Duplicate for u8 {
    fn copy(&self) -> Result<u8, Memory> {
        Ok(*self)
    }
}
