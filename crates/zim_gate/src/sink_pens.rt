ghost use Rattle.std.specs.Prelude.{◌≡◌};
ghost use Rattle.zim_gate.specs.SinkPen.{SinkStarts, SinkWrites};

use crate::sinks::Sink;
use crate::stops::Failed;
use itoa::{Buffer, Integer};

/// A writer to a sink, which puts nothing more after a put that failed. See `Pen`.
pub struct SinkPen<'a, E: Sink> {
    sink: &'a mut E,
    outcome: Result<(), Failed>,
}

impl<'a, E: Sink> SinkPen<'a, E> {
    /// A pen for the sink.
    pub fn new(sink: &'a mut E) -> SinkPen<'a, E>
        ensures { SinkStarts sink.entry result }
    {
        SinkPen {
            sink,
            outcome: Ok(()),
        }
    }

    /// Puts the text, unless an earlier put failed.
    pub fn put(&mut self, text: &[u8])
        ensures { SinkWrites E.state self.old self.new text.now }
    {
        if let Ok(()) = self.outcome {
            self.outcome = self.sink.put(text);
        }
    }

    /// Puts a number in decimal, with a minus sign where it is negative.
    pub fn put_number<I: Integer>(&mut self, number: I)
        ensures { SinkWrites E.state self.old self.new (I.text number) }
    {
        let mut buffer = Buffer::new();
        self.put(buffer.format(number).as_bytes());
    }

    /// What became of the puts: `Failed` where one failed.
    pub fn finish(self) -> Result<(), Failed>
        ensures outcome { result ≡ self.entry.outcome }
        ensures sink { self.exit.0.now ≡ self.entry.sink.now }
    {
        let SinkPen { sink: _, outcome } = self;
        outcome
    }
}
