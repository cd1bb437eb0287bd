ghost use Rattle.std.specs.Prelude.{◌≡◌};
ghost use Rattle.zim_gate.specs.StreamSink.{stream_state, new_stream};

use crate::calls::one_more;
use crate::sinks::Sink;
use crate::stops::Failed;
use std::io::Write;

/// A stream, as the standard output. It tells no content, only its count, which rises by one at each
/// of its failures.
#[derive(Drop)]
pub struct StreamSink<W: Write + Drop> {
    stream: W,
    faults: u64,
}

impl<W: Write + Drop> StreamSink<W> {
    /// A sink that puts its pieces to the stream, each at once. No put has failed yet.
    pub fn new(stream: W) -> StreamSink<W>
        ensures { stream_state result ≡ new_stream }
    {
        StreamSink { stream, faults: 0 }
    }
}

impl<W: Write + Drop> Sink for StreamSink<W> {
    ghost state = { stream_state };

    fn put(&mut self, piece: &[u8]) -> Result<(), Failed> {
        match put_at_once(&mut self.stream, piece) {
            Ok(()) => Ok(()),
            Err(Failed) => {
                self.faults = one_more(self.faults);
                Err(Failed)
            }
        }
    }
}

/// Writes the piece and hands on what the stream keeps back.
fn put_at_once<W: Write>(stream: &mut W, piece: &[u8]) -> Result<(), Failed> {
    match stream.write_all(piece) {
        Ok(()) => stream.flush().map_err(|_| Failed),
        Err(_) => Err(Failed),
    }
}
