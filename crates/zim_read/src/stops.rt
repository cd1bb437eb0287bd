ghost use Rattle.std.specs.Prelude.{◌≡◌};
ghost use Rattle.zim_read.specs.declared.stops.LineStop.TheVariants as line;
ghost use Rattle.zim_read.specs.declared.stops.RowsStop.TheVariants as rows;
ghost use Rattle.zim_read.specs.declared.stops.TemplateFault.TheVariants as template;

use std::alloc::AllocFailed;
use zim_fault::{Fault, Kind, Memory};

/// Why a text gave no template.
#[derive(Clone, Copy, Debug, PartialEq, Eq, Drop)]
pub enum TemplateFault {
    /// It spells none of the kind that was asked for.
    BadTemplate,
    /// Memory was refused.
    Memory,
}

impl From<Memory> for TemplateFault {
    ghost from_gives = { λ _ e. e ≡ template.Memory };

    fn from(_refused: Memory) -> TemplateFault {
        TemplateFault::Memory
    }
}

/// Why a data file gave no rows.
#[derive(Clone, Copy, Debug, PartialEq, Eq, Drop)]
pub enum RowsStop {
    /// The first fault of its lines: `ShortLine`, `BadField`, `LongLine`, `LongFile` or `Past`, at its line.
    Fault(Fault),
    /// The folder failed to open or to read the file, or has no such file.
    Read,
    /// Memory was refused.
    Memory,
}

impl From<Memory> for RowsStop {
    ghost from_gives = { λ _ e. e ≡ rows.Memory };

    fn from(_refused: Memory) -> RowsStop {
        RowsStop::Memory
    }
}

/// Why a line wasn't taken.
#[derive(Clone, Copy, Drop)]
pub enum LineStop {
    /// What is wrong with it.
    Fault(Kind),
    /// Memory was refused.
    Memory,
}

impl From<Memory> for LineStop {
    ghost from_gives = { λ _ e. e ≡ line.Memory };

    fn from(_refused: Memory) -> LineStop {
        LineStop::Memory
    }
}

impl<T: Drop> From<AllocFailed<T>> for LineStop {
    ghost from_gives = { λ _ e. e ≡ line.Memory };

    fn from(_refused: AllocFailed<T>) -> LineStop {
        LineStop::Memory
    }
}
