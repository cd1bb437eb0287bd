use std::alloc::AllocError;
use zim_fault::Memory;

/// Why a rule gives no tree.
#[derive(Clone, Copy, Debug)]
pub enum Failure {
    /// The tokens don't begin with what the rule names.
    Syntax,
    Memory,
}

impl From<Memory> for Failure {
    ghost use Rattle.std.specs.Prelude.{◌≡◌};
    ghost use Rattle.zim_parse_expression.specs.declared.failure.Failure.TheVariants as failure;

    ghost from_gives = { λ _ e. e ≡ failure.Memory };

    fn from(_refused: Memory) -> Failure {
        Failure::Memory
    }
}

impl From<AllocError> for Failure {
    ghost use Rattle.std.specs.Prelude.{◌≡◌};
    ghost use Rattle.zim_parse_expression.specs.declared.failure.Failure.TheVariants as failure;

    ghost from_gives = { λ _ e. e ≡ failure.Memory };

    fn from(_refused: AllocError) -> Failure {
        Failure::Memory
    }
}
