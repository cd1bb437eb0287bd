ghost use Rattle.std.specs.Prelude.{◌≡◌, ◌≤◌, length, option_map, IfOk, IsSome, IsUtf8};
ghost use Rattle.zim_gate.specs.DiskFolder.{disk_state, new_disk};

use crate::calls::one_more;
use crate::folders::Folder;
use crate::stops::{BeginStop, Failed, OpenStop};
use std::alloc::Global;
use std::fs::File;
use std::io::{BufWriter, ErrorKind, Read, Write};
use std::rt::Files;
use std::{io, str};
use zim_fault::Bytes;

/// The file that is begun.
#[derive(Drop)]
struct Begun<W: Write + Drop> {
    name: Bytes,
    file: BufWriter<W>,
}

/// The folder that the program runs in. A name is taken as a path from there.
///
/// It tells no content, only its counts: each rises by one at each of its failures. A name that isn't
/// UTF-8 fails.
#[derive(Drop)]
pub struct DiskFolder<'a, R: Files> {
    files: &'a R,
    alloc: Global,
    reading: Option<R::File>,
    begun: Option<Begun<R::File>>,
    read_faults: u64,
    write_faults: u64,
}

impl<'a, R: Files> DiskFolder<'a, R> {
    /// The folder that the runtime's files are in. No call of it has failed yet.
    pub fn new(alloc: Global, files: &'a R) -> DiskFolder<'a, R>
        ensures { disk_state result ≡ new_disk }
    {
        DiskFolder {
            files,
            alloc,
            reading: None,
            begun: None,
            read_faults: 0,
            write_faults: 0,
        }
    }
}

impl<R: Files> Folder for DiskFolder<'_, R> {
    ghost use Rattle.zim_gate.specs.Folder.{Opens, Begins};
    ghost use Rattle.zim_gate.specs.Untold.{untold_folder-IsSound};

    ghost state = { disk_state };

    ghost sound = { λ folder. untold_folder-IsSound (option_map (λ it. it.name) folder.begun) folder.read_faults folder.write_faults };

    fn open(&mut self, name: &[u8]) -> Result<(), OpenStop>
        ensures opens { Opens (disk_state self.old) (disk_state self.new) name.now result }
        ensures text { ¬ (IsUtf8 name.now) → result ≡ Err OpenStop.Failed }
    {
        self.begun = None;
        self.reading = None;
        match open_file(self.files, name) {
            Ok(file) => {
                self.reading = Some(file);
                Ok(())
            }
            Err(stop) => {
                self.read_faults = one_more(self.read_faults);
                Err(stop)
            }
        }
    }

    fn read(&mut self, buf: &mut [u8]) -> Result<usize, Failed> {
        let Some(file) = &mut self.reading else {
            return Ok(0);
        };
        match read_some(file, buf) {
            Ok(count) => Ok(count),
            Err(_) => {
                self.read_faults = one_more(self.read_faults);
                Err(Failed)
            }
        }
    }

    fn begin(&mut self, name: &[u8]) -> Result<(), BeginStop>
        ensures begins { Begins (disk_state self.old) (disk_state self.new) name.now result }
        ensures text { ¬ (IsUtf8 name.now) → result ≡ Err BeginStop.Failed }
    {
        self.begun = None;
        self.reading = None;
        match begin_file(self.alloc, self.files, name) {
            Ok(begun) => {
                self.begun = Some(begun);
                Ok(())
            }
            Err(stop) => {
                self.write_faults = one_more(self.write_faults);
                Err(stop)
            }
        }
    }

    fn put(&mut self, piece: &[u8]) -> Result<(), Failed> {
        match append(&mut self.begun, piece) {
            Ok(()) => Ok(()),
            Err(_) => {
                self.write_faults = one_more(self.write_faults);
                Err(Failed)
            }
        }
    }

    fn end(&mut self) -> Result<(), Failed> {
        let Some(mut begun) = self.begun.take() else {
            unreachable!()
        };
        match begun.file.flush() {
            Ok(()) => Ok(()),
            Err(_) => {
                self.write_faults = one_more(self.write_faults);
                Err(Failed)
            }
        }
    }
}

/// Appends a piece to the file that is begun.
fn append<W: Write + Drop>(begun: &mut Option<Begun<W>>, piece: &[u8]) -> io::Result<()>
    requires { IsSome begun.old }
    ensures { option_map (λ it. it.name) begun.new ≡ option_map (λ it. it.name) begun.old }
{
    match begun {
        None => unreachable!(),
        Some(begun) => begun.file.write_all(piece),
    }
}

/// Opens a file for reading.
fn open_file<R: Files>(files: &R, name: &[u8]) -> Result<R::File, OpenStop>
    ensures { ¬ (IsUtf8 name.now) → result ≡ Err OpenStop.Failed }
{
    let Ok(path) = str::from_utf8(name) else {
        return Err(OpenStop::Failed);
    };
    File::open(files, path).map_err(|error| match error.kind() {
        ErrorKind::NotFound => OpenStop::Missing,
        ErrorKind::OutOfMemory => OpenStop::Memory,
        _ => OpenStop::Failed,
    })
}

/// Reads at least one byte, or none at the file's end. A read that a signal interrupted is tried again.
fn read_some<T: Read>(file: &mut T, buf: &mut [u8]) -> io::Result<usize>
    ensures { IfOk result (λ count. count ≤ length buf.new) }
{
    for _ in 0..u64::MAX {
        match file.read(buf) {
            Err(error) if error.kind() == ErrorKind::Interrupted => {}
            answer => return answer,
        }
    }
    Err(io::Error::from(ErrorKind::Interrupted))
}

/// Makes the named file anew, for writing.
fn begin_file<R: Files>(alloc: Global, files: &R, name: &[u8]) -> Result<Begun<R::File>, BeginStop>
    ensures name { IfOk result (λ begun. begun.name ≡ name.now) }
    ensures text { ¬ (IsUtf8 name.now) → result ≡ Err BeginStop.Failed }
{
    let Ok(path) = str::from_utf8(name) else {
        return Err(BeginStop::Failed);
    };
    let Ok(name) = Bytes::from_slice(alloc, name) else {
        return Err(BeginStop::Memory);
    };
    match File::create(files, path).and_then(|file| BufWriter::new(alloc, file)) {
        Ok(file) => Ok(Begun { name, file }),
        Err(error) if error.kind() == ErrorKind::OutOfMemory => Err(BeginStop::Memory),
        Err(_) => Err(BeginStop::Failed),
    }
}
