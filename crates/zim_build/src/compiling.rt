ghost use Rattle.std.specs.Prelude.{◌≡◌, All};
ghost use Rattle.zim_columns.specs.Names.{IsFoundByName};
ghost use Rattle.zim_columns.specs.Parts.{HasPartsWithin};
ghost use Rattle.zim_build.specs.Compile.{Compiles};
ghost use Rattle.zim_build.specs.Steps.{LinesAnswer, compiled_of};

use crate::compiled::{BuildFault, Compiled};
use crate::parsing::statements_of_lines;
use crate::stop::ReadStop;
use std::alloc::Global;
use zim_fault::{Bytes, Files};
use zim_gate::Folder;
use zim_lex::{Line, LoadFault, Loaded, load};
use zim_plain::{PlainProgram, PlainStop, plain_model};
use zim_table::Names;

/// The program of the model whose lines these are, or their first fault.
fn plain_of_lines(alloc: Global, lines: &[Line]) -> Result<PlainProgram, ReadStop>
    ensures { LinesAnswer lines.now result }
{
    let parsed = match statements_of_lines(alloc, lines) {
        Ok(parsed) => parsed,
        Err(stop) => return Err(stop),
    };
    match plain_model(alloc, parsed.as_slice()) {
        Ok(plain) => Ok(plain),
        Err(PlainStop::Fault(fault)) => Err(ReadStop::Refused(fault)),
        Err(PlainStop::Memory) => Err(ReadStop::Memory),
    }
}

/// What is handed out of a program and the files that were opened for it.
fn hand_out(alloc: Global, plain: PlainProgram, files: Files) -> Compiled
    ensures same { result ≡ compiled_of plain files }
    ensures found { All (IsFoundByName plain.columns) plain.columns }
    ensures parts { All HasPartsWithin plain.columns }
{
    plain.columns.one_to_one();
    let PlainProgram {
        system,
        columns,
        statements,
        objective,
    } = plain;
    Compiled {
        system,
        columns,
        names: Names {
            statements,
            objective,
        },
        files,
        printed: Bytes::new(alloc),
    }
}

/// Compiles the model of this name to its linear program.
///
/// The first fault is, in this order: files past 67,108,864 bytes together, an include line that is too deep or a file that isn't
/// there, whichever loading meets first; a quote that isn't closed on its line or another byte that begins no piece; tokens that no
/// semicolon ends; the first of all statements that the grammar refuses, in the order that `zim_parse::parse_statement` tells; a
/// statement that isn't of plain form or may not follow those before it, a number past 128 bits or a row or a column too many, in
/// the order that `zim_plain::plain_model` tells. Nothing is written.
///
/// `Read` comes only where the named file isn't there, or the folder's count of read faults rose.
pub fn compile<F: Folder>(
    alloc: Global,
    folder: &mut F,
    name: &[u8],
) -> Result<Compiled, BuildFault>
    ensures { Compiles (F.state folder.old) (F.state folder.new) name.now result }
{
    let loaded = match load(alloc, folder, name) {
        Ok(loaded) => loaded,
        Err(LoadFault::Fault(fault, files)) => {
            let printed = Bytes::new(alloc);
            return Err(BuildFault::Refused {
                fault,
                files,
                printed,
            });
        }
        Err(LoadFault::Read(name)) => {
            let printed = Bytes::new(alloc);
            return Err(BuildFault::Read { name, printed });
        }
        Err(LoadFault::Memory) => return Err(BuildFault::Memory),
    };
    let Loaded { lines, files } = loaded;
    match plain_of_lines(alloc, lines.as_slice()) {
        Ok(plain) => Ok(hand_out(alloc, plain, files)),
        Err(ReadStop::Refused(fault)) => {
            let printed = Bytes::new(alloc);
            Err(BuildFault::Refused {
                fault,
                files,
                printed,
            })
        }
        Err(ReadStop::Memory) => Err(BuildFault::Memory),
    }
}
