ghost use Rattle.std.specs.Prelude.{◌≡◌, ◌<◌, ◌⊎◌, ◌↔◌, [], length, take, IsTrue, IsSome, IsErr, IsErrOf, IfOk, OnOk, option_copied};
ghost use Rattle.zim_gate.specs.Stored.{is_ready};

use crate::calls::{Calls, counted_on, one_more};
use crate::folders::Folder;
use crate::reading::Reading;
use crate::stops::{BeginStop, Failed, OpenStop};
use crate::stored::{Stored, append_to_first, begin_first, find, store};
use std::alloc::Global;
use zim_fault::{Bytes, Memory};

/// A folder in memory, which tells all that it holds.
///
/// Its calls are numbered from 1, all five kinds together. A call fails exactly where its number is on
/// the list that the folder was made with, or where a put passes the room of the begun file. So where
/// the list is empty nothing fails before as many bytes were put as the room has.
#[derive(Debug, Drop)]
pub struct MemoryFolder {
    alloc: Global,
    /// The newest first; an older file of the same name is never seen again.
    files: Vec<Stored>,
    /// Whether the first file is begun.
    begun: bool,
    reading: Reading,
    wrote: u64,
    read_faults: u64,
    write_faults: u64,
    calls: Calls,
    room: usize,
    ghost ready: { IsTrue (is_ready begun files.items room wrote) },
    ghost faultless: { calls.fails.items ≡ [] → wrote < room → (read_faults ≡ 0) × (write_faults ≡ 0) },
}

impl MemoryFolder {
    ghost use Rattle.zim_gate.specs.Folder.{FolderState, bytes_of_name};
    ghost use Rattle.zim_gate.specs.MemoryFolder.{folder_state, new_state, call_count, failing_calls, folder_room};

    /// A folder with these files. Where a name stands twice, the first pair counts. `room` is the most
    /// bytes that a written file can have, and `fails` has the numbers of the calls that fail.
    pub fn new(
        alloc: Global,
        files: Vec<(Bytes, Bytes)>,
        room: usize,
        fails: Vec<u64>,
    ) -> Result<MemoryFolder, Memory>
        ensures state { IfOk result (λ folder. folder_state folder ≡ new_state files.items room fails.items) }
        ensures calls { IfOk result (λ folder. call_count folder ≡ 0) }
        ensures fails { IfOk result (λ folder. failing_calls folder ≡ fails.items) }
        ensures room { IfOk result (λ folder. folder_room folder ≡ room) }
    {
        Ok(MemoryFolder {
            alloc,
            files: store(alloc, files)?,
            begun: false,
            reading: Reading::closed(alloc),
            wrote: 0,
            read_faults: 0,
            write_faults: 0,
            calls: Calls { fails, done: 0 },
            room,
        })
    }

    /// The bytes that a name holds, or `None` exactly where it isn't held.
    pub fn bytes_of(&self, name: &[u8]) -> Option<&[u8]>
        ensures { option_copied result ≡ bytes_of_name (folder_state self.now).held name.now }
    {
        find(&self.files, name)
    }
}

impl Folder for MemoryFolder {
    ghost use Rattle.zim_gate.specs.Folder.{Opens, Reads, Begins, Puts, Ends, put_to};
    ghost use Rattle.zim_gate.specs.MemoryFolder.{folder_state, CallFails, PassesRoom, CountsCall, KeepsFaults, PutsWhatFits};
    ghost use Rattle.zim_gate.specs.MemoryFolderLaws.{folder_state-IsSound};

    ghost state = { folder_state };

    ghost sound = { folder_state-IsSound };

    fn open(&mut self, name: &[u8]) -> Result<(), OpenStop>
        ensures opens { Opens (folder_state self.old) (folder_state self.new) name.now result }
        ensures failed { IsErrOf result OpenStop.Failed ↔ CallFails self.old }
        ensures counts { CountsCall self.old self.new }
        ensures kept { OnOk result (KeepsFaults self.old self.new) }
    {
        self.begun = false;
        self.reading = Reading::closed(self.alloc);
        if self.calls.next_fails() {
            self.read_faults = one_more(self.read_faults);
            return Err(OpenStop::Failed);
        }
        let Some(bytes) = find(&self.files, name) else {
            return Err(OpenStop::Missing);
        };
        match Reading::open(self.alloc, bytes) {
            Ok(reading) => {
                self.reading = reading;
                Ok(())
            }
            Err(Memory) => Err(OpenStop::Memory),
        }
    }

    fn read(&mut self, buf: &mut [u8]) -> Result<usize, Failed>
        requires { 0 < length buf.old }
        ensures reads { Reads (folder_state self.old) (folder_state self.new) buf.new result }
        ensures failed { IsErr result ↔ CallFails self.old }
        ensures counts { CountsCall self.old self.new }
        ensures kept { OnOk result (KeepsFaults self.old self.new) }
    {
        if self.calls.next_fails() {
            self.read_faults = one_more(self.read_faults);
            return Err(Failed);
        }
        Ok(self.reading.take(buf))
    }

    fn begin(&mut self, name: &[u8]) -> Result<(), BeginStop>
        ensures begins { Begins (folder_state self.old) (folder_state self.new) name.now result }
        ensures failed { IsErrOf result BeginStop.Failed ↔ CallFails self.old }
        ensures counts { CountsCall self.old self.new }
        ensures kept { OnOk result (KeepsFaults self.old self.new) }
    {
        self.begun = false;
        self.reading = Reading::closed(self.alloc);
        if self.calls.next_fails() {
            self.write_faults = one_more(self.write_faults);
            return Err(BeginStop::Failed);
        }
        match begin_first(self.alloc, &mut self.files, name, self.room) {
            Ok(()) => {
                self.begun = true;
                Ok(())
            }
            Err(Memory) => Err(BeginStop::Memory),
        }
    }

    fn put(&mut self, piece: &[u8]) -> Result<(), Failed>
        requires { IsSome (folder_state self.old).begun }
        ensures puts { Puts (folder_state self.old) (folder_state self.new) piece.now result }
        ensures failed { IsErr result ↔ (CallFails self.old ⊎ PassesRoom self.old piece.now) }
        ensures fits { PutsWhatFits self.old self.new piece.now }
        ensures counts { CountsCall self.old self.new }
        ensures kept { OnOk result (KeepsFaults self.old self.new) }
    {
        if self.calls.next_fails() {
            self.write_faults = one_more(self.write_faults);
            return Err(Failed);
        }
        let count = append_to_first(&mut self.files, piece);
        self.wrote = counted_on(self.wrote, count as u64);
        if count < piece.len() {
            self.write_faults = one_more(self.write_faults);
            return Err(Failed);
        }
        Ok(())
    }

    fn end(&mut self) -> Result<(), Failed>
        requires { IsSome (folder_state self.old).begun }
        ensures ends { Ends (folder_state self.old) (folder_state self.new) result }
        ensures failed { IsErr result ↔ CallFails self.old }
        ensures counts { CountsCall self.old self.new }
        ensures kept { OnOk result (KeepsFaults self.old self.new) }
    {
        self.begun = false;
        if self.calls.next_fails() {
            self.write_faults = one_more(self.write_faults);
            return Err(Failed);
        }
        Ok(())
    }
}
