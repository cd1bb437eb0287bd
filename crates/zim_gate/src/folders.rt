ghost use Rattle.std.specs.Prelude.{◌<◌, length, IsSome};
ghost use Rattle.zim_gate.specs.Folder.{FolderState, Opens, Reads, Begins, Puts, Ends, IsSound};

use crate::stops::{BeginStop, Failed, OpenStop};

/// Named files, of which one at a time is read and one at a time is written.
///
/// What is known of a folder is its `FolderState`: the files that it holds, if it tells them, the rest
/// of the file that is open for reading, the name that is begun for writing, the number of bytes that
/// were written, two counts of failures that never fall, and up to how many bytes it promises that
/// nothing fails, if it does.
pub trait Folder {
    ghost state: { Self → FolderState };

    /// Opens the named file for reading, from its first byte. Afterwards no file is begun, and after
    /// a refusal nothing is open.
    ///
    /// `Failed` comes only where the count of read faults rose. A folder that tells its files answers
    /// Ok only for a name that it holds and `Missing` only for one that it doesn't hold. A folder
    /// that doesn't tell them answers `Missing` only where the count rose.
    fn open(&mut self, name: &[u8]) -> Result<(), OpenStop>
        ensures { Opens (state self.old) (state self.new) name.now result };

    /// Takes bytes from the front of the file that is open into the front of `buf`, and says how many:
    /// at least one, or 0 at the file's end or where nothing is open.
    ///
    /// `Failed` comes only where the count of read faults rose, and takes nothing.
    fn read(&mut self, buf: &mut [u8]) -> Result<usize, Failed>
        requires { 0 < length buf.old }
        ensures { Reads (state self.old) (state self.new) buf.new result };

    /// Makes the named file hold nothing and begins it for writing, in place of any file that was
    /// begun. Afterwards nothing is open for reading.
    ///
    /// After a refusal no file is begun, and the named file is as before or holds nothing. `Failed`
    /// comes only where the count of write faults rose.
    fn begin(&mut self, name: &[u8]) -> Result<(), BeginStop>
        ensures { Begins (state self.old) (state self.new) name.now result };

    /// Appends the piece to the file that is begun. After `Failed` a prefix of the piece was appended,
    /// and the count of write faults rose.
    fn put(&mut self, piece: &[u8]) -> Result<(), Failed>
        requires { IsSome (state self.old).begun }
        ensures { Puts (state self.old) (state self.new) piece.now result };

    /// Ends the file that is begun, whatever the answer. `Failed` comes only where the count of write
    /// faults rose.
    fn end(&mut self) -> Result<(), Failed>
        requires { IsSome (state self.old).begun }
        ensures { Ends (state self.old) (state self.new) result };

    // Where a folder tells its files, it tells what is open and how much was written; and nothing has
    // failed while fewer bytes were put than it promises.
    ghost sound: { (folder : Self) → IsSound (state folder) };
}
