//! The bytes of the file that is open.
ghost use Rattle.std.specs.Prelude.{◌≡◌, ◌≤◌, length, IfOk};
ghost use Rattle.zim_gate.specs.Counts.{Rose};
ghost use Rattle.zim_read.specs.Private.{SaysKept};
ghost use Rattle.zim_read.specs.Lines.{most_file_bytes};
ghost use Rattle.zim_gate.specs.Folder.{OnlyRead};
ghost use Rattle.zim_read.specs.declared.bytes.ReadStop.TheVariants as stops;

use std::alloc::Global;
use zim_fault::{Memory, Sequence};
use zim_gate::Folder;

/// How many bytes a data file may have.
const MOST_BYTES: usize = 67_108_864;

/// How many bytes one call of the folder is asked for.
const PIECE: usize = 4096;

/// Why a file wasn't read.
#[derive(Drop)]
pub enum ReadStop {
    /// The folder failed.
    Failed,
    /// Memory was refused.
    Memory,
}

impl From<Memory> for ReadStop {
    ghost from_gives = { λ _ e. e ≡ stops.Memory };

    fn from(_refused: Memory) -> ReadStop {
        ReadStop::Memory
    }
}

/// The bytes of a file, up to the limit.
#[derive(Drop)]
pub struct ReadBytes {
    pub bytes: Sequence<u8>,
    /// Whether the file has no more.
    pub is_whole: bool,
}

/// Reads the file that is open to its end, or to its first byte past the limit.
pub fn read_bytes<F: Folder>(alloc: Global, folder: &mut F) -> Result<ReadBytes, ReadStop>
    ensures only { OnlyRead (F.state folder.old) (F.state folder.new) }
    ensures begun { (F.state folder.new).begun ≡ (F.state folder.old).begun }
    ensures within { IfOk result (λ read. length read.bytes ≤ most_file_bytes) }
    ensures tells { SaysKept (F.state folder.old).rest (Rose (F.state folder.old).read_faults (F.state folder.new).read_faults) result }
{
    let mut bytes = Sequence::new(alloc);
    let mut buffer = [0; PIECE];
    loop {
        let Ok(count) = folder.read(&mut buffer) else {
            return Err(ReadStop::Failed);
        };
        if count == 0 {
            return Ok(ReadBytes {
                bytes,
                is_whole: true,
            });
        }
        let room = MOST_BYTES - bytes.len();
        if count > room {
            bytes.extend_from_slice(&buffer[..room])?;
            return Ok(ReadBytes {
                bytes,
                is_whole: false,
            });
        }
        bytes.extend_from_slice(&buffer[..count])?;
    }
}
