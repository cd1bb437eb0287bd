ghost use Rattle.std.specs.Prelude.{◌≡◌};
ghost use Rattle.zim_answer.specs.Gives.{Gives};
ghost use Rattle.zim_eval.specs.Causes.{eval_cause};
ghost use Rattle.zim_eval.specs.declared.faults.EvalStop.TheVariants as stops;
ghost use Rattle.zim_meaning.specs.World.{at_place, fault_of};

use zim_eval::EvalStop;
use zim_fault::{Fault, Kind, Place};

/// The fault of a kind at a place.
pub(crate) fn fault_at(place: Place, kind: Kind) -> EvalStop
    ensures { result ≡ stops.Fault (fault_of place kind) }
{
    EvalStop::Fault(Fault { place, kind })
}

/// The same answer, what stops it being a fault at a place.
pub(crate) fn kind_at<T>(place: Place, answer: Result<T, Kind>) -> Result<T, EvalStop>
    ensures { Gives (λ value. value) eval_cause (at_place place answer) result }
{
    match answer {
        Ok(value) => Ok(value),
        Err(kind) => Err(fault_at(place, kind)),
    }
}
