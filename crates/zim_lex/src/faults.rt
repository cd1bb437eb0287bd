ghost use Rattle.std.specs.Prelude.{◌≡◌};
ghost use Rattle.zim_lex.specs.declared.faults.LexFault.TheVariants as lexing;

use std::alloc::{AllocError, AllocFailed};
use zim_fault::{Bytes, Fault, Files, Memory};

/// Why a model's files could not be loaded.
#[derive(Debug, Drop)]
pub enum LoadFault {
    /// `LongFile` or `IncludeDeep`, and the names of the files that were opened.
    Fault(Fault, Files),
    /// The name of a file that isn't there or couldn't be read.
    Read(Bytes),
    /// Memory was refused.
    Memory,
}

/// Why lines have no tokens, or tokens no statements.
#[derive(Debug, Drop)]
pub enum LexFault {
    /// `BadByte` or `OpenString` from `lex`, `OpenStatement` from `statements`.
    Fault(Fault),
    /// Memory was refused.
    Memory,
}

impl From<Memory> for LexFault {
    ghost from_gives = { λ _ e. e ≡ lexing.Memory };

    fn from(_refused: Memory) -> LexFault {
        LexFault::Memory
    }
}

impl From<AllocError> for LexFault {
    ghost from_gives = { λ _ e. e ≡ lexing.Memory };

    fn from(_refused: AllocError) -> LexFault {
        LexFault::Memory
    }
}

impl<T: Drop> From<AllocFailed<T>> for LexFault {
    ghost from_gives = { λ _ e. e ≡ lexing.Memory };

    fn from(_refused: AllocFailed<T>) -> LexFault {
        LexFault::Memory
    }
}
