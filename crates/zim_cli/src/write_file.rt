ghost use Rattle.std.specs.Prelude.{[]};
ghost use Rattle.zim_cli.specs.WriteFile.{WritesFile};
ghost use Rattle.zim_rows.specs.Finished.{program_of};
ghost use Rattle.zim_lp.specs.Text.{lp_text};
ghost use Rattle.zim_mps.specs.Text.{mps_text};
ghost use Rattle.zim_table.specs.Text.{table_text};
ghost use Rattle.zim_table.specs.Correct.{CanBeListed};

use zim_columns::Columns;
use zim_gate::{BeginStop, Folder};
use zim_rows::Finished;
use zim_table::Names;

/// Begins the named file and ends it, so that it is empty.
///
/// After a refusal the file is as before or empty. `Failed` comes only where the folder's count of write faults rose.
pub fn clear_file<F: Folder>(folder: &mut F, name: &[u8]) -> Result<(), BeginStop>
    ensures { WritesFile (F.state folder.old) (F.state folder.new) name.now [] result }
{
    match folder.begin(name) {
        Ok(()) => {}
        Err(stop) => return Err(stop),
    }
    match folder.end() {
        Ok(()) => Ok(()),
        Err(_) => Err(BeginStop::Failed),
    }
}

/// Writes a system to the named file: begins it, puts its LP text and ends it.
///
/// After a refusal the file is as before or holds a first part of the text. `Failed` comes only where the
/// folder's count of write faults rose.
pub fn write_lp_file<F: Folder>(
    folder: &mut F,
    name: &[u8],
    system: &Finished,
) -> Result<(), BeginStop>
    ensures { WritesFile (F.state folder.old) (F.state folder.new) name.now (lp_text (program_of system.now)) result }
{
    match folder.begin(name) {
        Ok(()) => {}
        Err(stop) => return Err(stop),
    }
    if zim_lp::write(system, folder).is_err() {
        return Err(BeginStop::Failed);
    }
    match folder.end() {
        Ok(()) => Ok(()),
        Err(_) => Err(BeginStop::Failed),
    }
}

/// Writes a system to the named file in the MPS format. What is said of `write_lp_file` is so of it too.
pub fn write_mps_file<F: Folder>(
    folder: &mut F,
    name: &[u8],
    system: &Finished,
) -> Result<(), BeginStop>
    ensures { WritesFile (F.state folder.old) (F.state folder.new) name.now (mps_text (program_of system.now)) result }
{
    match folder.begin(name) {
        Ok(()) => {}
        Err(stop) => return Err(stop),
    }
    if zim_mps::write(system, folder).is_err() {
        return Err(BeginStop::Failed);
    }
    match folder.end() {
        Ok(()) => Ok(()),
        Err(_) => Err(BeginStop::Failed),
    }
}

/// Writes the table of a system to the named file, with its declared columns and the names of the statements. What is said of
/// `write_lp_file` is so of it too.
pub fn write_table_file<F: Folder>(
    folder: &mut F,
    name: &[u8],
    system: &Finished,
    columns: &Columns,
    names: &Names,
) -> Result<(), BeginStop>
    requires { CanBeListed (program_of system.now) columns.now names.now }
    ensures { WritesFile (F.state folder.old) (F.state folder.new) name.now (table_text (program_of system.now) columns.now names.now) result }
{
    match folder.begin(name) {
        Ok(()) => {}
        Err(stop) => return Err(stop),
    }
    if zim_table::write(system, columns, names, folder).is_err() {
        return Err(BeginStop::Failed);
    }
    match folder.end() {
        Ok(()) => Ok(()),
        Err(_) => Err(BeginStop::Failed),
    }
}
