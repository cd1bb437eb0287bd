//! The rows of a whole file.
ghost use Rattle.std.specs.Prelude.{◌≡◌, ◌+◌, ◌≤◌, ◌≤ℤ◌, pos, length, Ok, IfOk, IfSome, option_map, unsigned_abs};
ghost use Rattle.zim_answer.specs.Gives.{Gives};
ghost use Rattle.zim_read.specs.Causes.{rows_cause};
ghost use Rattle.zim_read.specs.Lines as lines;
ghost use Rattle.zim_read.specs.Private.{manner_of, kept_of, ended_taken, rows_of_kept};
ghost use Rattle.zim_read.specs.Reading.{ReadsFile, IfRowsFault};
ghost use Rattle.zim_read.specs.Rows.{data_rows, line_taken, fault_at};

use crate::bytes::{ReadBytes, ReadStop, read_bytes};
use crate::rows::{DataRow, LineManner, Taken, take_in_turn};
use crate::slices::behind;
use crate::stops::{LineStop, RowsStop};
use crate::templates::Template;
use memchr::memchr;
use std::alloc::Global;
use zim_fault::{Fault, Kind, Place, Sequence};
use zim_gate::{Folder, OpenStop};

// A line without the byte 13 at its end.
#[tactic(auto, unfolding(crate::specs::Lines::without_return))]
fn without_return(line: &[u8]) -> &[u8]
    ensures { result.now ≡ lines.without_return line.now }
{
    if line.ends_with(b"\r") {
        &line[..line.len() - 1]
    } else {
        line
    }
}

// A fault at a line of the file.
fn fault_in(file: u32, line: u32, kind: Kind) -> Fault
    ensures { result ≡ fault_at file line kind }
{
    let place = Place { file, line };
    Fault { place, kind }
}

// Takes a line of the file in its turn.
#[tactic(auto, unfolding(crate::specs::Rows::line_taken))]
fn take_line(
    alloc: Global,
    file: u32,
    manner: &LineManner,
    number: u32,
    line: &[u8],
    taken: &mut Taken,
) -> Result<(), RowsStop>
    ensures answer { Gives (λ _. taken.new) rows_cause (line_taken file (manner_of manner.now) taken.old (number, line.now)) result }
    ensures place { IfRowsFault result (λ fault. fault.place.file ≡ file) }
{
    match take_in_turn(alloc, manner, number, line, taken) {
        Ok(()) => Ok(()),
        Err(LineStop::Fault(kind)) => Err(RowsStop::Fault(fault_in(file, number, kind))),
        Err(LineStop::Memory) => Err(RowsStop::Memory),
    }
}

// Takes the lines that end in a text, and gives the number of the next line and what stands of it.
fn take_ended<'a>(
    alloc: Global,
    file: u32,
    manner: &LineManner,
    text: &'a [u8],
    taken: &mut Taken,
) -> Result<(u32, &'a [u8]), RowsStop>
    requires { length text.now ≤ lines.most_file_bytes }
    ensures answer { Gives (λ _. taken.new) rows_cause (ended_taken file (manner_of manner.now) taken.old text.now) result }
    ensures number { IfOk result (λ next. next.0 ≡ length (lines.ended_lines text.now) + 1) }
    ensures rest { IfOk result (λ next. next.1.now ≡ lines.behind_last_end text.now) }
    ensures place { IfRowsFault result (λ fault. fault.place.file ≡ file) }
{
    let mut number = 1;
    let mut rest = text;
    while let Some(end) = memchr(b'\n', rest) {
        let line = without_return(&rest[..end]);
        take_line(alloc, file, manner, number, line, taken)?;
        number += 1;
        rest = behind(rest, end);
    }
    Ok((number, rest))
}

// The rows of a file of which these bytes are kept.
fn rows_of(
    alloc: Global,
    file: u32,
    manner: &LineManner,
    uses: Option<u128>,
    read: &ReadBytes,
) -> Result<Vec<DataRow>, RowsStop>
    requires { length read.now.bytes ≤ lines.most_file_bytes }
    ensures answer { Gives (λ rows. rows.items) rows_cause (rows_of_kept file (manner_of manner.now) uses read.now.is_whole read.now.bytes) result }
    ensures place { IfRowsFault result (λ fault. fault.place.file ≡ file) }
{
    let mut taken = Taken {
        rows: Sequence::new(alloc),
        left: uses,
    };
    let (number, rest) = take_ended(alloc, file, manner, read.bytes.as_slice(), &mut taken)?;
    if !read.is_whole {
        return Err(RowsStop::Fault(fault_in(file, number, Kind::LongFile)));
    }
    if !rest.is_empty() {
        take_line(alloc, file, manner, number, rest, &mut taken)?;
    }
    let Taken { rows, left: _ } = taken;
    Ok(rows.into_vec())
}

// Opens a file and reads what is kept of it.
fn read_file<F: Folder>(
    alloc: Global,
    folder: &mut F,
    name: &[u8],
    file: u32,
) -> Result<ReadBytes, RowsStop>
    ensures within { IfOk result (λ read. length read.bytes ≤ lines.most_file_bytes) }
    ensures reads { ReadsFile (λ read. read) (F.state folder.old) (F.state folder.new) name.now file (λ bytes. Ok (kept_of bytes)) result }
{
    match folder.open(name) {
        Ok(()) => match read_bytes(alloc, folder) {
            Ok(read) => Ok(read),
            Err(ReadStop::Failed) => Err(RowsStop::Read),
            Err(ReadStop::Memory) => Err(RowsStop::Memory),
        },
        Err(OpenStop::Missing | OpenStop::Failed) => Err(RowsStop::Read),
        Err(OpenStop::Memory) => Err(RowsStop::Memory),
    }
}

// How many lines are used at most, where a number is given.
fn most_of(uses: Option<i128>) -> Option<u128>
    ensures { result ≡ option_map unsigned_abs uses }
{
    match uses {
        Some(most) => Some(most.unsigned_abs()),
        None => None,
    }
}

/// The rows of the data file of this name, by a template. `file` is its number among the files, which is part of a fault's
/// place.
///
/// The first `skip` lines are skipped, and of the others at most `uses` are used, where a number is given; a line that has no
/// field isn't used. Each byte of `comment` begins a comment, which goes to the end of the line. Both numbers are 0 or more.
///
/// A fault is the first in the order of the lines: `LongFile` at the line of the first byte past 67,108,864, `LongLine` for a
/// line of more than 65,536 bytes, `BadField` where a quotation isn't closed, `ShortLine` for fewer fields than the
/// template wants, and then `BadField` and `Past` for a field that is no number or too great. Lines behind the last
/// one that is used are not looked at.
pub fn read_rows<F: Folder>(
    alloc: Global,
    folder: &mut F,
    name: &[u8],
    file: u32,
    template: &Template,
    skip: i128,
    uses: Option<i128>,
    comment: &[u8],
) -> Result<Vec<DataRow>, RowsStop>
    requires skip { pos 0 ≤ℤ skip }
    requires uses { IfSome uses (λ most. pos 0 ≤ℤ most) }
    ensures { ReadsFile (λ rows. rows.items) (F.state folder.old) (F.state folder.new) name.now file (data_rows file (record { template = template.now; skip = unsigned_abs skip; comment = comment.now }) (option_map unsigned_abs uses)) result }
{
    let skipped = skip.unsigned_abs();
    let manner = LineManner {
        template,
        skip: skipped,
        comment,
    };
    let read = read_file(alloc, folder, name, file)?;
    rows_of(alloc, file, &manner, most_of(uses), &read)
}
