ghost use Rattle.std.specs.Prelude.{◌≡◌, ◌≤◌, ◌<◌, ◌++◌, [], IfOk, take, length};

use std::alloc::Global;
use std::marker::Model;
use zim_fault::Memory;

/// The rest of a file that is being read: a copy of its bytes, and how many of them were given.
#[derive(Debug, Drop)]
pub(crate) struct Reading {
    bytes: Vec<u8>,
    given: usize,
}

impl Model for Reading {
    ghost use Rattle.std.specs.Prelude.{ℕ, ◌≤◌, List, drop, vec_len};

    ghost Value = { List ℕ };

    ghost view = { λ it. drop it.given it.bytes.items };

    ghost invariant = { λ it. it.given ≤ vec_len it.bytes };
}

impl Reading {
    /// Nothing is open.
    pub(crate) fn closed(alloc: Global) -> Reading
        ensures { result ≡ [] }
    {
        Reading {
            bytes: Vec::new(alloc),
            given: 0,
        }
    }

    /// A file from its first byte.
    pub(crate) fn open(alloc: Global, bytes: &[u8]) -> Result<Reading, Memory>
        ensures { IfOk result (λ rest. rest ≡ bytes.now) }
    {
        Ok(Reading {
            bytes: Vec::from_slice(alloc, bytes)?,
            given: 0,
        })
    }

    /// Moves bytes from the front of the rest to the front of the buffer, as many as there are or fit.
    pub(crate) fn take(&mut self, buffer: &mut [u8]) -> usize
        requires { 0 < length buffer.old }
        ensures within { result ≤ length buffer.new }
        ensures bytes { self.old ≡ take result buffer.new ++ self.new }
        ensures at_end { result ≡ 0 → self.old ≡ [] }
    {
        let rest = &self.bytes[self.given..];
        let count = rest.len().min(buffer.len());
        buffer[..count].copy_from_slice(&rest[..count]);
        self.given += count;
        count
    }
}
