ghost use Rattle.std.specs.Prelude.{◌≡◌, ◌≤◌, ◌↔◌, IsTrue, Contains};
ghost use Rattle.zim_gate.specs.Counts.{count_on, Rose};

/// The calls of a folder or a sink in memory: how many there were, and the numbers of those that fail.
#[derive(Debug, Drop)]
pub(crate) struct Calls {
    pub(crate) fails: Vec<u64>,
    pub(crate) done: u64,
}

impl Calls {
    /// Counts one more call, from 1, and says whether it is one of those that fail.
    pub(crate) fn next_fails(&mut self) -> bool
        ensures fails { IsTrue result ↔ Contains self.old.fails.items (count_on 1 self.old.done) }
        ensures done { self.new.done ≡ count_on 1 self.old.done }
        ensures same { self.new.fails.items ≡ self.old.fails.items }
    {
        self.done = counted_on(self.done, 1);
        self.fails.contains(&self.done)
    }
}

/// A count with so many more, which stays at its last value.
pub(crate) fn counted_on(count: u64, more: u64) -> u64
    ensures { result ≡ count_on more count }
{
    count.saturating_add(more)
}

/// A count of faults after one more.
pub(crate) fn one_more(count: u64) -> u64
    ensures grows { count ≤ result }
    ensures rose { Rose count result }
{
    counted_on(count, 1)
}
