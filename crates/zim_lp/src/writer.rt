ghost use Rattle.std.specs.Prelude.{◌≡◌, IsSome};
ghost use Rattle.zim_gate.specs.Folder.{Puts};
ghost use Rattle.zim_rows.specs.Finished.{program_of};
ghost use Rattle.zim_lp.specs.FileText.{aim_text};
ghost use Rattle.zim_lp.specs.Text.{lp_text};

use crate::columns::{offset_bound, put_bounds, put_generals};
use crate::rows::put_rows;
use crate::terms::put_objective;
use zim_gate::{Failed, Folder, Pen};
use zim_rows::Finished;

/// A put failed.
pub type PutFault = Failed;

/// Puts the LP text of a system to the file that is begun, and leaves it begun.
///
/// After `Failed` a prefix of the text was put. By [`texts_say_programs`](crate::texts_say_programs) the text says the
/// system with its sides that are decimals of at most 15 places, and with a column `one` that is always 1 where the objective has
/// a constant or there is no other column. The time is proportional to the numbers of columns, rows and entries.
pub fn write<F: Folder>(system: &Finished, folder: &mut F) -> Result<(), PutFault>
    requires { IsSome (F.state folder.old).begun }
    ensures { Puts (F.state folder.old) (F.state folder.new) (lp_text (program_of system.now)) result }
{
    let columns = system.columns.as_slice();
    let mut pen = Pen::new(folder);
    pen.put(b"\\ zimplc\n");
    pen.put(text_of_aim(system.target.maximize));
    pen.put(b" obj: ");
    put_objective(&mut pen, columns.len(), &system.target);
    pen.put(b"\nSubject To\n");
    put_rows(&mut pen, columns.len(), system.rows.as_slice());
    pen.put(b"Bounds\n");
    put_bounds(&mut pen, columns);
    pen.put(offset_bound(system.has_offset()));
    put_generals(&mut pen, columns);
    pen.put(b"End\n");
    pen.finish()
}

fn text_of_aim(maximises: bool) -> &'static [u8]
    ensures { result.now ≡ aim_text maximises }
{
    if maximises {
        b"Maximize\n"
    } else {
        b"Minimize\n"
    }
}
