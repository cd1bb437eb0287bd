ghost use Rattle.std.specs.Prelude.{◌≡◌, ◌⊎◌, ◌↔◌, IsErr, IfOk, OnOk, Some};

use crate::calls::{Calls, one_more};
use crate::limited::Limited;
use crate::sinks::Sink;
use crate::stops::Failed;
use std::alloc::Global;
use zim_fault::Memory;

/// A sink in memory, which tells all that it took.
///
/// Its calls are numbered from 1. A call fails exactly where its number is on the list that the sink
/// was made with, or where it passes the room.
#[derive(Debug, Drop)]
pub struct MemorySink {
    text: Limited,
    faults: u64,
    calls: Calls,
}

impl MemorySink {
    ghost use Rattle.zim_gate.specs.MemorySink.{sink_state, new_sink, sink_calls, failing_puts, sink_room};

    /// A sink that took nothing yet. `room` is the most bytes that it takes, and `fails` has the
    /// numbers of the calls that fail.
    pub fn new(alloc: Global, room: usize, fails: Vec<u64>) -> Result<MemorySink, Memory>
        ensures state { IfOk result (λ sink. sink_state sink ≡ new_sink) }
        ensures calls { IfOk result (λ sink. sink_calls sink ≡ 0) }
        ensures fails { IfOk result (λ sink. failing_puts sink ≡ fails.items) }
        ensures room { IfOk result (λ sink. sink_room sink ≡ room) }
    {
        Ok(MemorySink {
            text: Limited::with_room(alloc, room)?,
            faults: 0,
            calls: Calls { fails, done: 0 },
        })
    }

    /// What the sink took.
    pub fn taken(&self) -> &[u8]
        ensures { (sink_state self.now).taken ≡ Some result.now }
    {
        self.text.as_slice()
    }
}

impl Sink for MemorySink {
    ghost use Rattle.zim_gate.specs.Sink.{SinkPuts};
    ghost use Rattle.zim_gate.specs.MemorySink.{sink_state, PutFails, PutPassesRoom, CountsPut, TakesWhatFits};

    ghost state = { sink_state };

    fn put(&mut self, piece: &[u8]) -> Result<(), Failed>
        ensures puts { SinkPuts (sink_state self.old) (sink_state self.new) piece.now result }
        ensures failed { IsErr result ↔ (PutFails self.old ⊎ PutPassesRoom self.old piece.now) }
        ensures fits { TakesWhatFits self.old self.new piece.now }
        ensures counts { CountsPut self.old self.new }
        ensures kept { OnOk result ((sink_state self.new).faults ≡ (sink_state self.old).faults) }
    {
        if self.calls.next_fails() {
            self.faults = one_more(self.faults);
            return Err(Failed);
        }
        let count = self.text.append(piece);
        if count < piece.len() {
            self.faults = one_more(self.faults);
            return Err(Failed);
        }
        Ok(())
    }
}
