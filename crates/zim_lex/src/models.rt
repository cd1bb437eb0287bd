ghost use Rattle.std.specs.Prelude.{◌≡◌};
ghost use Rattle.zim_lex.specs.Loading as faults;
ghost use Rattle.zim_lex.specs.Loading.{Loads};

use crate::expanding::{Expansion, Stop, expand};
use crate::faults::LoadFault;
use crate::lines::Loaded;
use crate::reading::MOST_BYTES;
use std::alloc::Global;
use zim_fault::{Files, Sequence};
use zim_gate::Folder;

/// How deep files may include one another, the model itself being the first.
const MOST_DEPTH: u32 = 16;

/// The fault of a load that stopped after these files were opened.
fn load_fault(stop: Stop, files: Files) -> LoadFault
    ensures { result ≡ faults.load_fault stop files }
{
    match stop {
        Stop::Fault(fault) => LoadFault::Fault(fault, files),
        Stop::Read(name) => LoadFault::Read(name),
        Stop::Memory => LoadFault::Memory,
    }
}

/// Loads a model: the lines of its file, each include line replaced by the lines of the file that it
/// names. Blanks aside, such a line is `include`, a name in double quotes and maybe a comment.
///
/// The files together may have 67,108,864 bytes. `LongFile` comes at the line of the first byte past
/// them, when the file is opened, and a byte 10 belongs to the line that it ends. `IncludeDeep` comes
/// at an include line of a file that is the sixteenth of those that include one another. `Read` comes
/// where a file isn't there, and where the folder failed and its count of read faults rose.
pub fn load<F: Folder>(alloc: Global, folder: &mut F, name: &[u8]) -> Result<Loaded, LoadFault>
    ensures { Loads (F.state folder.old) (F.state folder.new) name.now result }
{
    let mut all = Expansion {
        lines: Sequence::new(alloc),
        files: Files::new(alloc),
        room: MOST_BYTES,
    };
    let result = expand(alloc, folder, name, MOST_DEPTH - 1, &mut all);
    let Expansion {
        lines,
        files,
        room: _,
    } = all;
    match result {
        Ok(()) => Ok(Loaded { lines, files }),
        Err(stop) => Err(load_fault(stop, files)),
    }
}
