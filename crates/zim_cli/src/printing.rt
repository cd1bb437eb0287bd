ghost use Rattle.zim_cli.specs.Printing.{Prints, EndsWith};

use crate::ending::Ending;
use zim_gate::{Failed, Sink};

/// Puts what a model prints, unless it is nothing. `Failed` comes only where the output's count of faults rose; a first part
/// was put then.
pub fn put_printed<O: Sink>(out: &mut O, printed: &[u8]) -> Result<(), Failed>
    ensures { Prints (O.state out.old) (O.state out.new) printed.now result }
{
    if printed.is_empty() {
        return Ok(());
    }
    out.put(printed)
}

/// Puts what a model prints and ends a run in this way, or as one whose output failed.
pub fn end_with<O: Sink>(out: &mut O, printed: &[u8], ending: Ending) -> Ending
    ensures { EndsWith (O.state out.old) (O.state out.new) printed.now ending result }
{
    match put_printed(out, printed) {
        Ok(()) => ending,
        Err(Failed) => Ending::Unput,
    }
}
