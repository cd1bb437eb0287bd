ghost use Rattle.std.specs.Prelude.{◌≡◌, Some, map, string_bytes};
ghost use Rattle.zim_cli.specs.declared.jobs.Job.TheVariants.{Compile};
ghost use Rattle.zim_cli.specs.Ending.{IsReportable, ending_of_writing};
ghost use Rattle.zim_cli.specs.Headline.{Runs, MustBeUsage, MustBeDone, MustBeRefused, MustBeReadFault, MustNotFail, EndedTableIsWhole};
ghost use Rattle.zim_cli.specs.Job.{job_of};
ghost use Rattle.zim_cli.specs.Printing.{EndsUncompiled};
ghost use Rattle.zim_cli.specs.Run.{Ended};

use crate::ending::{Ending, report};
use crate::jobs::Job;
use crate::outputs::{Output, OutputNames, OutputStop, names_of, write_files};
use crate::printing::{end_with, put_printed};
use crate::status::Status;
use crate::words::job;
use std::alloc::Global;
use zim_build::{BuildFault, Compiled, compile};
use zim_fault::Memory;
use zim_gate::{Failed, Folder, Sink};

/// The ending of a run whose files were written, or which stopped at one of them.
fn ending_of(names: OutputNames, written: Result<(), OutputStop>) -> Ending
    ensures { result ≡ ending_of_writing names written }
{
    match written {
        Ok(()) => Ending::Done,
        Err(OutputStop::Unwritten(Output::Lp)) => Ending::Unwritten(names.lp),
        Err(OutputStop::Unwritten(Output::Mps)) => Ending::Unwritten(names.mps),
        Err(OutputStop::Unwritten(Output::Table)) => Ending::Unwritten(names.table),
        Err(OutputStop::Memory) => Ending::Memory,
    }
}

/// Ends a run whose model was not compiled: with the fault, or with the file that stays unread, where what was printed by then
/// could be put.
fn end_uncompiled<O: Sink>(out: &mut O, fault: BuildFault) -> Ending
    ensures { EndsUncompiled (O.state out.old) (O.state out.new) fault result }
{
    match fault {
        BuildFault::Refused {
            fault,
            files,
            printed,
        } => end_with(out, printed.as_slice(), Ending::Refused(fault, files)),
        BuildFault::Read { name, printed } => {
            end_with(out, printed.as_slice(), Ending::Unread(name))
        }
        BuildFault::Memory => Ending::Memory,
    }
}

/// Compiles a model, puts what it prints, and writes its files.
fn perform_compile<F: Folder, O: Sink>(
    alloc: Global,
    folder: &mut F,
    out: &mut O,
    model: &[u8],
    base: &[u8],
) -> Ending
    ensures reportable { IsReportable result }
    ensures ended { Ended (Some (Compile model.now base.now)) (F.state folder.old) (F.state folder.new) (O.state out.old) (O.state out.new) result }
{
    let compiled = match compile(alloc, folder, model) {
        Ok(compiled) => compiled,
        Err(fault) => return end_uncompiled(out, fault),
    };
    let outputs = match names_of(alloc, base) {
        Ok(outputs) => outputs,
        Err(Memory) => return Ending::Memory,
    };
    let Compiled {
        system,
        columns,
        names,
        files: _,
        printed,
    } = compiled;
    match put_printed(out, printed.as_slice()) {
        Ok(()) => {}
        Err(Failed) => return Ending::Unput,
    }
    let written = write_files(folder, &outputs, &system, &columns, &names);
    ending_of(outputs, written)
}

/// Does what the words ask for.
fn perform<F: Folder, O: Sink>(
    alloc: Global,
    words: &[String],
    folder: &mut F,
    out: &mut O,
) -> Ending
    ensures reportable { IsReportable result }
    ensures ended { Ended (job_of (map string_bytes words.now)) (F.state folder.old) (F.state folder.new) (O.state out.old) (O.state out.new) result }
{
    match job(alloc, words) {
        Ok(Some(Job::Compile { model, base })) => {
            perform_compile(alloc, folder, out, model.as_slice(), base.as_slice())
        }
        Ok(None) => Ending::Usage,
        Err(Memory) => Ending::Memory,
    }
}

/// Runs the command: reads the words and the model, compiles it, puts what it prints to `out`, and writes `BASE.lp`,
/// `BASE.mps` and `BASE.tbl`. The table is emptied first and written last, so a whole table stands beside whole files.
///
/// The words are those of the command without the program's name. Files are read from the folder and
/// written to it; the one line of a run that isn't done is put to `err`. An `err` that fails changes no status; where what
/// the model prints can't be put to `out`, the run ends with `OutFault` before a file is begun.
pub fn run<F: Folder, O: Sink, E: Sink>(
    alloc: Global,
    words: &[String],
    folder: &mut F,
    out: &mut O,
    err: &mut E,
) -> Status
    // How the run ended: what is so of the files, which status it has, what was put to `out`, and which line to `err`.
    ensures runs { Runs (job_of (map string_bytes words.now)) (F.state folder.old) (F.state folder.new) (O.state out.old) (O.state out.new) (E.state err.old) (E.state err.new) result }
    // Which status must come, unless memory was refused; done and refused only where nothing failed.
    ensures usage { MustBeUsage (job_of (map string_bytes words.now)) result }
    ensures done { MustBeDone (job_of (map string_bytes words.now)) (F.state folder.old) (F.state folder.new) (O.state out.old) (O.state out.new) result }
    ensures refused { MustBeRefused (job_of (map string_bytes words.now)) (F.state folder.old) (F.state folder.new) (O.state out.old) (O.state out.new) result }
    ensures read_fault { MustBeReadFault (job_of (map string_bytes words.now)) (F.state folder.old) (O.state out.old) (O.state out.new) result }
    // A folder that promises to fail at nothing fails at nothing, where the run has room below the limit of its promise.
    ensures faultless { MustNotFail (job_of (map string_bytes words.now)) (F.state folder.old) (F.state folder.new) }
    // Beside a table of this run that ends in its last line, the other files are whole.
    ensures ended_table { EndedTableIsWhole (job_of (map string_bytes words.now)) (F.state folder.old) (F.state folder.new) }
{
    let ending = perform(alloc, words, folder, out);
    report(&ending, err)
}
