ghost use Rattle.std.specs.Prelude.{◌≡◌};
ghost use Rattle.zim_sets.specs.declared.faults.SetFault.TheVariants as faults;

use zim_fault::Memory;

/// Why there is no set.
#[derive(Clone, Copy, Debug, PartialEq, Eq, Hash)]
pub enum SetFault {
    /// A tuple's length or kinds differ from those of the tuples there.
    WrongKind,
    /// A range's step is 0.
    StepZero,
    /// The set would have more than 1,048,576 tuples, or the family as many sets.
    SetSize,
    /// Memory was refused.
    Memory,
}

impl From<Memory> for SetFault {
    ghost from_gives = { λ _ result. result ≡ faults.Memory };

    fn from(_refused: Memory) -> SetFault {
        SetFault::Memory
    }
}
