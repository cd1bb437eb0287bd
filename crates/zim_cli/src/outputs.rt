ghost use Rattle.std.specs.Prelude.{◌≡◌, ℕ, List, IfOk};
ghost use Rattle.zim_cli.specs.Outputs.{AreNamesOf, output_name, WritesAll, texts_of, ending_text, stop_at_output};
ghost use Rattle.zim_rows.specs.Finished.{program_of};
ghost use Rattle.zim_table.specs.Correct.{CanBeListed};

use crate::write_file::{clear_file, write_lp_file, write_mps_file, write_table_file};
use std::alloc::Global;
use zim_columns::Columns;
use zim_fault::{Bytes, Memory};
use zim_gate::{BeginStop, Folder};
use zim_rows::Finished;
use zim_table::Names;

/// One of the files that a compilation writes.
#[derive(Clone, Copy, Debug, PartialEq, Eq, Drop)]
pub enum Output {
    Lp,
    Mps,
    Table,
}

/// The names of the files that a compilation writes.
#[derive(Debug, Drop)]
pub struct OutputNames {
    pub lp: Bytes,
    pub mps: Bytes,
    pub table: Bytes,
}

/// Why not all files were written.
#[derive(Clone, Copy, Debug, PartialEq, Eq, Drop)]
pub enum OutputStop {
    /// This file could not be written.
    Unwritten(Output),
    /// Memory was refused.
    Memory,
}

/// How the names of an output end.
fn ending_of(output: Output) -> &'static [u8]
    ensures { result.now ≡ ending_text output }
{
    match output {
        Output::Lp => b".lp",
        Output::Mps => b".mps",
        Output::Table => b".tbl",
    }
}

/// The name of an output of a base.
fn name_of(alloc: Global, base: &[u8], output: Output) -> Result<Bytes, Memory>
    ensures { IfOk result (λ name. name ≡ output_name base.now output) }
{
    let mut name = Bytes::from_slice(alloc, base)?;
    name.extend_from_slice(ending_of(output))?;
    Ok(name)
}

/// The names of the outputs of a base.
pub fn names_of(alloc: Global, base: &[u8]) -> Result<OutputNames, Memory>
    ensures { IfOk result (λ names. AreNamesOf base.now names) }
{
    let lp = name_of(alloc, base, Output::Lp)?;
    let mps = name_of(alloc, base, Output::Mps)?;
    let table = name_of(alloc, base, Output::Table)?;
    Ok(OutputNames { lp, mps, table })
}

/// Why the files were not written, where one of them stopped.
fn stop_of(output: Output, stop: BeginStop) -> OutputStop
    ensures { result ≡ stop_at_output output stop }
{
    match stop {
        BeginStop::Failed => OutputStop::Unwritten(output),
        BeginStop::Memory => OutputStop::Memory,
    }
}

/// Empties the table, then writes the LP file, the MPS file and the table, each whole before the next is begun.
pub fn write_files<F: Folder>(
    folder: &mut F,
    names: &OutputNames,
    system: &Finished,
    columns: &Columns,
    statements: &Names,
) -> Result<(), OutputStop>
    requires { CanBeListed (program_of system.now) columns.now statements.now }
    ensures { (base : List ℕ) → AreNamesOf base names.now →
        WritesAll (F.state folder.old) (F.state folder.new) base (texts_of (program_of system.now) columns.now statements.now) result }
{
    if let Err(stop) = clear_file(folder, names.table.as_slice()) {
        return Err(stop_of(Output::Table, stop));
    }
    if let Err(stop) = write_lp_file(folder, names.lp.as_slice(), system) {
        return Err(stop_of(Output::Lp, stop));
    }
    if let Err(stop) = write_mps_file(folder, names.mps.as_slice(), system) {
        return Err(stop_of(Output::Mps, stop));
    }
    let table = names.table.as_slice();
    if let Err(stop) = write_table_file(folder, table, system, columns, statements) {
        return Err(stop_of(Output::Table, stop));
    }
    Ok(())
}
