ghost use Rattle.std.specs.Prelude.{◌≡◌, ◌++◌, codes};
ghost use Rattle.zim_cli.specs.Ending.{IsReportable, status_of, ending_line, TakesLine};
ghost use Rattle.zim_gate.specs.Sink.{SinkPuts};

use crate::status::Status;
use zim_fault::{Bytes, Fault, Files};
use zim_gate::{Failed, Sink, SinkPen, fault_line};

/// How a run ended, with what its line on the error stream tells.
#[derive(Debug, Drop)]
pub enum Ending {
    /// The files are written.
    Done,
    /// The words are no job.
    Usage,
    /// The model has a fault; the files are those that were opened.
    Refused(Fault, Files),
    /// The named file could not be read or isn't there.
    Unread(Bytes),
    /// The named file could not be written.
    Unwritten(Bytes),
    /// What the model prints could not be put.
    Unput,
    /// Memory was refused.
    Memory,
}

/// Puts a text, a name and a line end.
fn put_named<E: Sink>(err: &mut E, text: &[u8], name: &[u8]) -> Result<(), Failed>
    ensures { SinkPuts (E.state err.old) (E.state err.new) (text.now ++ (name.now ++ codes "\n")) result }
{
    let mut pen = SinkPen::new(err);
    pen.put(text);
    pen.put(name);
    pen.put(b"\n");
    pen.finish()
}

/// Puts the line of an ending, which is nothing where the run is done.
fn put_line<E: Sink>(ending: &Ending, err: &mut E) -> Result<(), Failed>
    requires { IsReportable ending.now }
    ensures { SinkPuts (E.state err.old) (E.state err.new) (ending_line ending.now) result }
{
    match ending {
        Ending::Done => err.put(b""),
        Ending::Usage => err.put(b"usage: zimplc MODEL --out BASE\n"),
        Ending::Refused(fault, files) => fault_line(fault, files, err),
        Ending::Unread(name) => put_named(err, b"zimplc: cannot read ", name.as_slice()),
        Ending::Unwritten(name) => put_named(err, b"zimplc: cannot write ", name.as_slice()),
        Ending::Unput => err.put(b"zimplc: cannot write output\n"),
        Ending::Memory => err.put(b"zimplc: out of memory\n"),
    }
}

/// The status of an ending.
fn status(ending: &Ending) -> Status
    ensures { result ≡ status_of ending.now }
{
    match ending {
        Ending::Done => Status::Done,
        Ending::Usage => Status::Usage,
        Ending::Refused(_, _) => Status::Refused,
        Ending::Unread(_) => Status::ReadFault,
        Ending::Unwritten(_) => Status::WriteFault,
        Ending::Unput => Status::OutFault,
        Ending::Memory => Status::Memory,
    }
}

/// Puts the line of an ending and gives its status. A sink that fails changes no status, and took a
/// first part of the line.
pub fn report<E: Sink>(ending: &Ending, err: &mut E) -> Status
    requires { IsReportable ending.now }
    ensures status { result ≡ status_of ending.now }
    ensures line { TakesLine (E.state err.old) (E.state err.new) (ending_line ending.now) }
{
    let _ = put_line(ending, err);
    status(ending)
}
