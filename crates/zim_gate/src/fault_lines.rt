ghost use Rattle.std.specs.Prelude.{◌<◌, length};
ghost use Rattle.zim_gate.specs.Sink.{SinkPuts};
ghost use Rattle.zim_gate.specs.SinkPen.{SinkWrites};
ghost use Rattle.zim_gate.specs.FaultLine.{fault_text, file_name, kind_part, word_part};

use crate::sink_pens::SinkPen;
use crate::sinks::Sink;
use crate::stops::Failed;
use zim_fault::{Fault, Files, Kind, number_of_kind, text_of_kind, word_text};

/// Puts the line that tells of a fault, as `m.zpl:3: 5 Syntax`: the file's name, the line from 1, the
/// number of the kind and its name, and for a word that is refused the word, as `4 Unsupported sqrt`.
///
/// It takes no memory. `Failed` comes only where the sink's count of faults rose.
pub fn fault_line<E: Sink>(fault: &Fault, files: &Files, err: &mut E) -> Result<(), Failed>
    requires { fault.now.place.file < length files.now }
    ensures { SinkPuts (E.state err.old) (E.state err.new) (fault_text files.now fault.now) result }
{
    let mut pen = SinkPen::new(err);
    put_file(&mut pen, files, fault.place.file);
    pen.put(b":");
    pen.put_number(fault.place.line);
    pen.put(b": ");
    put_kind(&mut pen, fault.kind);
    pen.put(b"\n");
    pen.finish()
}

/// Puts the name of a file, given by its position.
fn put_file<E: Sink>(pen: &mut SinkPen<E>, files: &Files, file: u32)
    requires { file < length files.now }
    ensures { SinkWrites E.state pen.old pen.new (file_name files.now file) }
{
    let name = &files.as_slice()[file as usize];
    pen.put(name.as_slice());
}

/// Puts a kind's number, a blank and its name, and then its word.
fn put_kind<E: Sink>(pen: &mut SinkPen<E>, kind: Kind)
    ensures { SinkWrites E.state pen.old pen.new (kind_part kind) }
{
    pen.put_number(number_of_kind(kind));
    pen.put(b" ");
    pen.put(text_of_kind(kind));
    put_word(pen, kind);
}

/// Puts the word of a kind that has one, after a blank.
fn put_word<E: Sink>(pen: &mut SinkPen<E>, kind: Kind)
    ensures { SinkWrites E.state pen.old pen.new (word_part kind) }
{
    if let Kind::Unsupported(word) = kind {
        pen.put(b" ");
        pen.put(word_text(word));
    }
}
