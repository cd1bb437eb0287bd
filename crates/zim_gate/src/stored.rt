ghost use Rattle.std.specs.Prelude.{◌≡◌, ◌<◌, ◌≤◌, ◌-◌, min, take, length, vec_len, IfOk, OnOk, OnErr, option_copied};
ghost use Rattle.std.specs.FinMap as finite;
ghost use Rattle.zim_gate.specs.Counts.{last_count};
ghost use Rattle.zim_gate.specs.Stored.{files_of, entries_of, first_appended, new_first, room_left, first_room};

use crate::limited::Limited;
use std::alloc::Global;
use zim_fault::{Bytes, Memory};

/// A file in memory.
#[derive(Debug, Drop)]
pub(crate) struct Stored {
    pub(crate) name: Bytes,
    pub(crate) content: Limited,
}

/// The listed files, which have no room for more.
pub(crate) fn store(alloc: Global, files: Vec<(Bytes, Bytes)>) -> Result<Vec<Stored>, Memory>
    ensures { IfOk result (λ made. entries_of made.items ≡ files.items) }
{
    let mut made = Vec::with_capacity(alloc, files.len())?;
    for (name, bytes) in files {
        made.push(Stored {
            name,
            content: Limited::full(bytes.into_vec()?),
        })?;
    }
    Ok(made)
}

/// The bytes of the first file of that name.
pub(crate) fn find<'a>(files: &'a [Stored], name: &[u8]) -> Option<&'a [u8]>
    ensures { option_copied result ≡ finite.get (files_of files.now) name.now }
{
    for file in files {
        if file.name.as_slice() == name {
            return Some(file.content.as_slice());
        }
    }
    None
}

/// Appends what fits of the piece to the first file, and says how many bytes that were.
pub(crate) fn append_to_first(files: &mut Vec<Stored>, piece: &[u8]) -> usize
    requires { 0 < vec_len files.old }
    ensures count { result ≡ min (length piece.now) (room_left files.old.items) }
    ensures items { files.new.items ≡ first_appended files.old.items (take result piece.now) }
    ensures small { first_room files.old.items ≤ last_count }
{
    let file = &mut files[0];
    file.content.append(piece)
}

/// Puts an empty file of that name, with so much room, before the others.
pub(crate) fn begin_first(
    alloc: Global,
    files: &mut Vec<Stored>,
    name: &[u8],
    room: usize,
) -> Result<(), Memory>
    ensures ok { OnOk result (files.new.items ≡ new_first name.now room files.old.items) }
    ensures err { OnErr result (files.new.items ≡ files.old.items) }
{
    let name = Bytes::from_slice(alloc, name)?;
    let content = Limited::with_room(alloc, room)?;
    files.insert(0, Stored { name, content })?;
    Ok(())
}
