ghost use Rattle.std.specs.Prelude.{◌≡◌, ◌+◌, ◌≤◌, IfOk};
ghost use Rattle.zim_lex.specs.Lines.{most_bytes, bytes_of};
ghost use Rattle.zim_gate.specs.Folder.{OnlyRead};
ghost use Rattle.zim_lex.specs.Reading.{IsReadOf};
ghost use Rattle.zim_gate.specs.Counts.{Rose};
ghost use Rattle.zim_lex.specs.declared.reading.ReadStop.TheVariants as stops;

use crate::lines::Line;
use crate::text::TextLines;
use std::alloc::Global;
use zim_fault::{Memory, Sequence};
use zim_gate::Folder;

/// How many bytes the files of a model may have together.
pub const MOST_BYTES: usize = 67_108_864;

/// How many bytes one call of the folder is asked for.
const PIECE: usize = 4096;

/// Why a file wasn't read to its end.
#[derive(Drop)]
pub enum ReadStop {
    /// It has too many bytes; the line, from 1, of the first one that is too many.
    Long(u32),
    /// The folder failed.
    Failed,
    /// Memory was refused.
    Memory,
}

impl From<Memory> for ReadStop {
    ghost from_gives = { λ _ e. e ≡ stops.Memory };

    fn from(_refused: Memory) -> ReadStop {
        ReadStop::Memory
    }
}

/// A file that was read to its end.
#[derive(Drop)]
pub struct ReadText {
    /// Its lines, numbered from 1, in the file 0.
    pub lines: Sequence<Line>,
    /// How many bytes the files after it may have together.
    pub room: usize,
}

/// Reads the file that is open to its end, where so many bytes are still allowed.
pub fn read_lines<F: Folder>(
    alloc: Global,
    folder: &mut F,
    most: usize,
) -> Result<ReadText, ReadStop>
    requires { most ≤ most_bytes }
    ensures only { OnlyRead (F.state folder.old) (F.state folder.new) }
    ensures begun { (F.state folder.new).begun ≡ (F.state folder.old).begun }
    ensures within { IfOk result (λ read. bytes_of read.lines + read.room ≤ most) }
    ensures text { IsReadOf most (F.state folder.old).rest (Rose (F.state folder.old).read_faults (F.state folder.new).read_faults) result }
{
    let mut text = TextLines::new(alloc);
    let mut room = most;
    let mut buffer = [0; PIECE];
    loop {
        let Ok(count) = folder.read(&mut buffer) else {
            return Err(ReadStop::Failed);
        };
        if count == 0 {
            let lines = text.finish()?;
            return Ok(ReadText { lines, room });
        }
        if count > room {
            text.add(&buffer[..room])?;
            return Err(ReadStop::Long(text.line()));
        }
        text.add(&buffer[..count])?;
        room -= count;
    }
}
