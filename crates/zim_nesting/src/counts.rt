ghost use Rattle.std.specs.Prelude.{◌≡◌};
ghost use Rattle.zim_nesting.specs.Counts.{counts_of};
ghost use Rattle.zim_nesting.specs.Depth as spec;
ghost use Rattle.zim_nesting.specs.Depth.{Depth, ◌followed_by◌};

/// What a piece of a statement adds to the nesting. Both counts stay at their last value.
#[derive(Clone, Copy, Debug)]
pub(crate) struct Counts {
    /// How many loops begin in it.
    pub(crate) loops: u64,
    /// Its greatest nesting, where nothing is open and no loop began before it.
    pub(crate) deepest: u64,
}

impl Counts {
    /// A piece that opens nothing and begins no loop.
    pub(crate) fn plain() -> Self
        ensures { result ≡ counts_of spec.no_nesting }
    {
        Self {
            loops: 0,
            deepest: 0,
        }
    }

    /// The word that begins a loop.
    pub(crate) fn a_loop() -> Self
        ensures { result ≡ counts_of spec.a_loop }
    {
        Self {
            loops: 1,
            deepest: 1,
        }
    }

    /// The piece in brackets, or between `if` and `end`.
    pub(crate) fn inside(self) -> Self
        ensures { (d : Depth) → self ≡ counts_of d → result ≡ counts_of (spec.nesting_in_brackets d) }
    {
        Self {
            loops: self.loops,
            deepest: self.deepest.saturating_add(1),
        }
    }

    /// The piece and another behind it.
    pub(crate) fn then(self, next: Self) -> Self
        ensures { (d e : Depth) → self ≡ counts_of d → next ≡ counts_of e → result ≡ counts_of (d followed_by e) }
    {
        let behind = self.loops.saturating_add(next.deepest);
        Self {
            loops: self.loops.saturating_add(next.loops),
            deepest: if self.deepest < behind {
                behind
            } else {
                self.deepest
            },
        }
    }
}
