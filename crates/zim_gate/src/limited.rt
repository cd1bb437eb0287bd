ghost use Rattle.std.specs.Prelude.{◌≡◌, ◌-◌, ◌≤◌, ◌++◌, [], IfOk, take, length, min, vec_len, vec_capacity};
ghost use Rattle.zim_gate.specs.Counts.{last_count};
ghost use Rattle.zim_gate.specs.Limited.{LimitedBytes};

use std::alloc::Global;
use std::marker::Model;
use zim_fault::Memory;

/// Bytes that grow up to a room, whose memory was taken when they were made.
#[derive(Debug, Drop)]
pub(crate) struct Limited {
    bytes: Vec<u8>,
    room: usize,
}

impl Model for Limited {
    ghost use Rattle.std.specs.Prelude.{◌≤◌, vec_len, vec_capacity};
    ghost use Rattle.zim_gate.specs.Limited.{LimitedBytes};

    ghost Value = { LimitedBytes };

    ghost view = { λ it. record { bytes = it.bytes.items; room = it.room } };

    ghost invariant = { λ it. (vec_len it.bytes ≤ it.room) × (it.room ≤ vec_capacity it.bytes) };
}

impl Limited {
    /// No bytes, and room for so many.
    pub(crate) fn with_room(alloc: Global, room: usize) -> Result<Limited, Memory>
        ensures { IfOk result (λ it. it ≡ record { bytes = []; room = room }) }
    {
        let bytes = Vec::with_capacity(alloc, room)?;
        Ok(Limited { bytes, room })
    }

    /// These bytes, and no room for more.
    pub(crate) fn full(bytes: Vec<u8>) -> Limited
        ensures { result ≡ record { bytes = bytes.items; room = length bytes.items } }
    {
        let room = bytes.len();
        Limited { bytes, room }
    }

    pub(crate) fn as_slice(&self) -> &[u8]
        ensures { result.now ≡ self.now.bytes }
    {
        self.bytes.as_slice()
    }

    /// Appends what fits of the piece, from its front, and says how many bytes that were.
    pub(crate) fn append(&mut self, piece: &[u8]) -> usize
        ensures count { result ≡ min (length piece.now) (self.old.room - length self.old.bytes) }
        ensures bytes { self.new ≡ record self.old { bytes = self.old.bytes ++ take result piece.now } }
        ensures small { self.old.room ≤ last_count }
    {
        let left = self.room - self.bytes.len();
        let count = piece.len().min(left);
        match self.bytes.extend_from_slice(&piece[..count]) {
            Ok(()) => count,
            Err(_) => unreachable!(),
        }
    }
}
