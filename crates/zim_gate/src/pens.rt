ghost use Rattle.std.specs.Prelude.{◌≡◌, IsSome, IsTrue, is_some};

use crate::folders::Folder;
use crate::stops::Failed;
use itoa::{Buffer, Integer};

/// A writer to the file that a folder has begun. After a put that failed it puts nothing more, so a
/// writer of a long text looks at the outcome once, at the end.
pub struct Pen<'a, F: Folder> {
    folder: &'a mut F,
    outcome: Result<(), Failed>,
    ghost begun: { IsTrue (is_some (F.state folder.now).begun) },
}

impl<'a, F: Folder> Pen<'a, F> {
    ghost use Rattle.zim_gate.specs.Pen.{Starts, Writes};

    /// A pen for the file that is begun.
    pub fn new(folder: &'a mut F) -> Pen<'a, F>
        requires { IsSome (F.state folder.old).begun }
        ensures { Starts folder.entry result }
    {
        Pen {
            folder,
            outcome: Ok(()),
        }
    }

    /// Puts the text, unless an earlier put failed.
    pub fn put(&mut self, text: &[u8])
        ensures { Writes F.state self.old self.new text.now }
    {
        if let Ok(()) = self.outcome {
            self.outcome = self.folder.put(text);
        }
    }

    /// Puts a number in decimal, with a minus sign where it is negative.
    pub fn put_number<I: Integer>(&mut self, number: I)
        ensures { Writes F.state self.old self.new (I.text number) }
    {
        let mut buffer = Buffer::new();
        self.put(buffer.format(number).as_bytes());
    }

    /// What became of the puts: `Failed` where one failed.
    pub fn finish(self) -> Result<(), Failed>
        ensures outcome { result ≡ self.entry.outcome }
        ensures folder { self.exit.0.now ≡ self.entry.folder.now }
    {
        let Pen { folder: _, outcome } = self;
        outcome
    }
}
