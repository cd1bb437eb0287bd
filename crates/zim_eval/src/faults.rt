ghost use Rattle.std.specs.Prelude.{◌≡◌, Result};
ghost use Rattle.zim_answer.specs.Gives.{Gives};
ghost use Rattle.zim_eval.specs.Causes.{eval_cause};
ghost use Rattle.zim_eval.specs.declared.faults.EvalStop.TheVariants as stops;
ghost use Rattle.zim_fault.specs.declared.kinds.Kind as kinds;
ghost use Rattle.zim_meaning.specs.World.{at_place, fault_of};
ghost use Rattle.zim_operators.specs.Causes.{stop_cause};

use zim_fault::{Fault, Kind, Memory, Place};
use zim_operators::Stop;

/// Why an evaluation has no answer.
#[derive(Clone, Copy, Debug, PartialEq, Eq, Hash)]
pub enum EvalStop {
    /// The first fault that was met.
    Fault(Fault),
    /// Memory was refused.
    Memory,
}

impl From<Memory> for EvalStop {
    ghost from_gives = { λ _ result. result ≡ stops.Memory };

    fn from(_refused: Memory) -> EvalStop {
        EvalStop::Memory
    }
}

/// The fault of a kind at a place.
pub(crate) fn fault_at(place: Place, kind: Kind) -> EvalStop
    ensures { result ≡ stops.Fault (fault_of place kind) }
{
    EvalStop::Fault(Fault { place, kind })
}

/// An operator's answer where the operator stands at a place.
pub(crate) fn placed<T>(place: Place, answer: Result<T, Stop>) -> Result<T, EvalStop>
    ensures { (wanted : Result T kinds.Kind) → Gives (λ value. value) stop_cause wanted answer → Gives (λ value. value) eval_cause (at_place place wanted) result }
{
    match answer {
        Ok(value) => Ok(value),
        Err(Stop::Kind(kind)) => Err(fault_at(place, kind)),
        Err(Stop::Memory) => Err(EvalStop::Memory),
    }
}

/// The same of an answer for which no memory is wanted.
pub(crate) fn kind_at<T>(place: Place, answer: Result<T, Kind>) -> Result<T, EvalStop>
    ensures { Gives (λ value. value) eval_cause (at_place place answer) result }
{
    match answer {
        Ok(value) => Ok(value),
        Err(kind) => Err(fault_at(place, kind)),
    }
}
