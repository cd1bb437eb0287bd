ghost use Rattle.std.specs.Prelude.{◌≡◌, List, Result};
ghost use Rattle.zim_answer.specs.Gives.{Gives};
ghost use Rattle.zim_fault.specs.declared.kinds.Kind.{Kind};
ghost use Rattle.zim_meaning.specs.Operations.{set_or_fault};
ghost use Rattle.zim_operators.specs.Causes.{stop_cause};
ghost use Rattle.zim_operators.specs.declared.stop.Stop.TheVariants as stops;
ghost use Rattle.zim_sets.specs.Causes.{set_cause};
ghost use Rattle.zim_tuples.specs.declared.elements.Elem.{Elem};

use zim_fault::{Kind, Memory};
use zim_meaning::Value;
use zim_sets::{SetFault, TupleSet};

/// Why an operator has no value.
#[derive(Clone, Copy, Debug, PartialEq, Eq, Hash)]
pub enum Stop {
    /// The operands have none, for this reason.
    Kind(Kind),
    /// Memory was refused.
    Memory,
}

impl From<Memory> for Stop {
    ghost from_gives = { λ _ result. result ≡ stops.Memory };

    fn from(_refused: Memory) -> Stop {
        Stop::Memory
    }
}

// The same answer, for which no memory is wanted.
pub(crate) fn settled(answer: Result<Value, Kind>) -> Result<Value, Stop>
    ensures { Gives (λ value. value) stop_cause answer result }
{
    match answer {
        Ok(value) => Ok(value),
        Err(kind) => Err(Stop::Kind(kind)),
    }
}

// The stop of a set's fault.
fn stop_of_set(fault: SetFault) -> Stop
    ensures { stop_cause result ≡ set_cause fault }
{
    match fault {
        SetFault::WrongKind => Stop::Kind(Kind::WrongKind),
        SetFault::StepZero => Stop::Kind(Kind::StepZero),
        SetFault::SetSize => Stop::Kind(Kind::SetSize),
        SetFault::Memory => Stop::Memory,
    }
}

/// What makes a set as the value that it is, or as the reason why there is none.
pub fn set_or_stop(made: Result<TupleSet, SetFault>) -> Result<Value, Stop>
    ensures { (answer : Result (List (List Elem)) Kind) → Gives (λ set. set) set_cause answer made → Gives (λ value. value) stop_cause (set_or_fault answer) result }
{
    match made {
        Ok(set) => Ok(Value::Set(set)),
        Err(fault) => Err(stop_of_set(fault)),
    }
}
