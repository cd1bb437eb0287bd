ghost use Rattle.zim_gate.specs.Sink.{SinkState, SinkPuts};

use crate::stops::Failed;

/// Something that takes text, as a terminal or a pipe.
///
/// What is known of a sink is its `SinkState`: the text that it took, if it tells it, and a count of
/// failures that never falls.
pub trait Sink {
    ghost state: { Self → SinkState };

    /// Appends the piece to what the sink took. After `Failed` it took a prefix of the piece, and its
    /// count of faults rose.
    fn put(&mut self, piece: &[u8]) -> Result<(), Failed>
        ensures { SinkPuts (state self.old) (state self.new) piece.now result };
}
