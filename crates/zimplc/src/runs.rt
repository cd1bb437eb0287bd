//! Runs of the command over a folder and sinks in memory, for tests.

use std::alloc::Global;
use std::test::Fail;
use zim_cli::{Status, run};
use zim_fault::Bytes;
use zim_gate::{MemoryFolder, MemorySink};

/// The room of each written file and of each sink, in bytes, where a test needs no less.
pub const ROOM: usize = 4096;

/// A run that has ended, and what it left.
#[derive(Drop)]
pub struct Ran {
    pub status: Status,
    pub folder: MemoryFolder,
    pub err: MemorySink,
}

/// A folder of these names and texts, in which no call fails.
pub fn folder_of(
    alloc: Global,
    texts: &[(&[u8], &[u8])],
    room: usize,
) -> Result<MemoryFolder, Fail> {
    let mut files = Vec::new(alloc);
    for (name, text) in texts {
        files.push((
            Bytes::from_slice(alloc, name)?,
            Bytes::from_slice(alloc, text)?,
        ))?;
    }
    Ok(MemoryFolder::new(alloc, files, room, Vec::new(alloc))?)
}

/// Runs the command over a folder that holds the model `m.zpl`.
pub fn outcome_of(alloc: Global, model: &[u8], words: &[&str], room: usize) -> Result<Ran, Fail> {
    let folder = folder_of(alloc, &[(b"m.zpl", model)], room)?;
    outcome_in(alloc, folder, words)
}

/// Runs the usual command over a folder that holds the model `m.zpl` and a file `v.zpl`.
pub fn outcome_with(alloc: Global, model: &[u8], included: &[u8]) -> Result<Ran, Fail> {
    let folder = folder_of(alloc, &[(b"m.zpl", model), (b"v.zpl", included)], ROOM)?;
    outcome_in(alloc, folder, &COMPILE)
}

/// Runs the command over a folder.
pub fn outcome_in(alloc: Global, mut folder: MemoryFolder, words: &[&str]) -> Result<Ran, Fail> {
    let mut out = MemorySink::new(alloc, ROOM, Vec::new(alloc))?;
    let mut err = MemorySink::new(alloc, ROOM, Vec::new(alloc))?;
    let mut given = Vec::new(alloc);
    for word in words {
        given.push(String::from_str(alloc, word)?)?;
    }
    let status = run(alloc, given.as_slice(), &mut folder, &mut out, &mut err);
    Ok(Ran {
        status,
        folder,
        err,
    })
}

/// The words of the usual run.
pub const COMPILE: [&str; 3] = ["m.zpl", "--out", "m"];
