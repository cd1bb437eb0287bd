ghost use Rattle.std.specs.Prelude.{◌≡◌, ◌+◌, ◌≤◌, ◌<◌, None, [], ◌∷◌, ◌++◌, length};
ghost use Rattle.zim_gate.specs.declared.stops.OpenStop.TheVariants as open_stop;
ghost use Rattle.zim_lex.specs.Expanded.{includes, opened, taken};
ghost use Rattle.zim_lex.specs.Expanding.{Expands, IfKnown, OpensFile, IsUnread};
ghost use Rattle.zim_lex.specs.Lines.{most_bytes};
ghost use Rattle.zim_lex.specs.Opened.{ComeFirst};
ghost use Rattle.zim_lex.specs.declared.expanding.Stop.TheVariants as stops;

use crate::includes::included;
use crate::lines::Line;
use crate::reading::{ReadStop, read_lines};
use std::alloc::Global;
use zim_fault::{Bytes, Fault, Files, Kind, Memory, Place, Sequence};
use zim_gate::{Folder, OpenStop};

/// What is loaded so far.
#[derive(Drop)]
pub struct Expansion {
    /// The lines, in the order in which they are read.
    pub lines: Sequence<Line>,
    /// The names of the files that were opened, in the order of opening.
    pub files: Files,
    /// How many bytes further files may have together.
    pub room: usize,
}

/// Why loading stopped.
#[derive(Drop)]
pub enum Stop {
    /// `LongFile` or `IncludeDeep`.
    Fault(Fault),
    /// The name of a file that isn't there or couldn't be read.
    Read(Bytes),
    /// Memory was refused.
    Memory,
}

impl From<Memory> for Stop {
    ghost from_gives = { λ _ e. e ≡ stops.Memory };

    fn from(_refused: Memory) -> Stop {
        Stop::Memory
    }
}

/// The refusal of a file that wasn't read.
fn unread(alloc: Global, name: &[u8]) -> Stop
    ensures { IsUnread name.now result }
{
    match Bytes::from_slice(alloc, name) {
        Ok(name) => Stop::Read(name),
        Err(_) => Stop::Memory,
    }
}

/// The refusal of a file that wasn't opened.
fn unopened(alloc: Global, name: &[u8], stop: OpenStop) -> Stop
    ensures unread { IsUnread name.now result }
    ensures memory { stop ≡ open_stop.Memory → result ≡ stops.Memory }
{
    match stop {
        OpenStop::Missing | OpenStop::Failed => unread(alloc, name),
        OpenStop::Memory => Stop::Memory,
    }
}

/// Opens a file, counts it as the next one and reads it whole. Its lines have the file 0.
fn open_file<F: Folder>(
    alloc: Global,
    folder: &mut F,
    name: &[u8],
    so_far: &mut Expansion,
) -> Result<Sequence<Line>, Stop>
    requires { length so_far.old.files + so_far.old.room ≤ most_bytes }
    ensures { OpensFile (F.state folder.old) (F.state folder.new) so_far.old so_far.new name.now result }
{
    if let Err(stop) = folder.open(name) {
        return Err(unopened(alloc, name, stop));
    }
    let file = so_far.files.len() as u32;
    so_far.files.push(Bytes::from_slice(alloc, name)?)?;
    match read_lines(alloc, folder, so_far.room) {
        Ok(read) => {
            so_far.room = read.room;
            Ok(read.lines)
        }
        Err(ReadStop::Long(line)) => {
            let place = Place { file, line };
            let kind = Kind::LongFile;
            Err(Stop::Fault(Fault { place, kind }))
        }
        Err(ReadStop::Failed) => Err(unread(alloc, name)),
        Err(ReadStop::Memory) => Err(Stop::Memory),
    }
}

/// Takes a line, or the lines of the file that it names, below which `left` more depths are allowed.
#[cycle(expand)]
fn take_line<F: Folder>(
    alloc: Global,
    folder: &mut F,
    line: Line,
    left: u32,
    so_far: &mut Expansion,
) -> Result<(), Stop>
    requires room { length so_far.old.files + so_far.old.room + length line.bytes ≤ most_bytes + 1 }
    requires place { line.place.file < length so_far.old.files }
    ensures expands { Expands (F.state folder.old) (F.state folder.new) (λ files. taken (includes left files) so_far.old line) so_far.old so_far.new (length line.bytes) (length line.bytes) result }
    ensures begun { (F.state folder.old).begun ≡ None → (F.state folder.new).begun ≡ None }
    ensures opened { IfKnown result (ComeFirst so_far.old.files so_far.new.files) }
{
    match included(line.bytes.as_slice()) {
        Some(name) => {
            if left == 0 {
                let place = line.place;
                let kind = Kind::IncludeDeep;
                return Err(Stop::Fault(Fault { place, kind }));
            }
            expand(alloc, folder, name, left - 1, so_far)
        }
        None => {
            so_far.lines.push(line)?;
            Ok(())
        }
    }
}

/// Takes the lines of the file of this name, in which include lines may go `left` depths further.
#[cycle(expand)]
pub fn expand<F: Folder>(
    alloc: Global,
    folder: &mut F,
    name: &[u8],
    left: u32,
    so_far: &mut Expansion,
) -> Result<(), Stop>
    requires room { length so_far.old.files + so_far.old.room ≤ most_bytes }
    ensures expands { Expands (F.state folder.old) (F.state folder.new) (λ files. opened files (includes left files) so_far.old name.now) so_far.old so_far.new 1 0 result }
    ensures begun { (F.state folder.new).begun ≡ None }
    ensures opened { IfKnown result (ComeFirst (so_far.old.files ++ name.now ∷ []) so_far.new.files) }
{
    let file = so_far.files.len() as u32;
    let lines = open_file(alloc, folder, name, so_far)?;
    for line in lines.into_vec() {
        let Line { place, bytes } = line;
        let place = Place {
            file,
            line: place.line,
        };
        take_line(alloc, folder, Line { place, bytes }, left, so_far)?;
    }
    Ok(())
}
