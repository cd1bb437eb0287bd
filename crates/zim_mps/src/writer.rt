ghost use Rattle.std.specs.Prelude.{IsSome};
ghost use Rattle.zim_gate.specs.Folder.{Puts};
ghost use Rattle.zim_rows.specs.Finished.{program_of};
ghost use Rattle.zim_mps.specs.Text.{mps_text};

use crate::bounds::put_bounds;
use crate::columns::put_columns;
use crate::rows::{put_ranges, put_rights, put_rows};
use zim_gate::{Failed, Folder, Pen};
use zim_rows::Finished;

/// A put failed.
pub type PutFault = Failed;

/// Puts the MPS text of a system to the file that is begun, and leaves it begun.
///
/// After `Failed` a prefix of the text was put. By [`texts_say_programs`](crate::texts_say_programs) the text says the system with its sides that are
/// decimals of at most 15 places, and with a column `one` that is always 1 where the objective has a constant or there is
/// no other column. It is minimised: where the system maximises, each number of the objective is written as its
/// negative. The time is proportional to the numbers of columns, rows and entries.
pub fn write<F: Folder>(system: &Finished, folder: &mut F) -> Result<(), PutFault>
    requires { IsSome (F.state folder.old).begun }
    ensures { Puts (F.state folder.old) (F.state folder.new) (mps_text (program_of system.now)) result }
{
    let rows = system.rows.as_slice();
    let mut pen = Pen::new(folder);
    pen.put(b"NAME zimplc\nROWS\n N obj\n");
    put_rows(&mut pen, rows);
    pen.put(b"COLUMNS\n");
    put_columns(&mut pen, system);
    pen.put(b"RHS\n");
    put_rights(&mut pen, rows);
    put_ranges(&mut pen, rows);
    pen.put(b"BOUNDS\n");
    put_bounds(&mut pen, system);
    pen.put(b"ENDATA\n");
    pen.finish()
}
