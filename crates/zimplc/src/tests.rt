//! Whole runs, with what they leave in the folder.

use crate::runs::*;
use crate::texts::*;
use std::test::Fail;
use zim_cli::Status;
use zim_fault::Bytes;
use zim_gate::MemoryFolder;

/// Models, and the three files that each of them gives.
const WHOLE: &[(&[u8], &[u8], &[u8], &[u8])] = &[
    (
        TWO_VARIABLES_MODEL,
        TWO_VARIABLES_LP,
        TWO_VARIABLES_MPS,
        TWO_VARIABLES_TABLE,
    ),
    (MOST_MODEL, MOST_LP, MOST_MPS, MOST_TABLE),
    (
        NO_VARIABLE_MODEL,
        NO_VARIABLE_LP,
        NO_VARIABLE_MPS,
        NO_VARIABLE_TABLE,
    ),
    (THIRDS_MODEL, THIRDS_LP, THIRDS_MPS, THIRDS_TABLE),
    (OFFSET_MODEL, OFFSET_LP, OFFSET_MPS, OFFSET_TABLE),
    (
        ONLY_OFFSET_MODEL,
        ONLY_OFFSET_LP,
        ONLY_OFFSET_MPS,
        ONLY_OFFSET_TABLE,
    ),
    (NO_TERM_MODEL, NO_TERM_LP, NO_TERM_MPS, NO_TERM_TABLE),
    (REPEATED_MODEL, REPEATED_LP, REPEATED_MPS, REPEATED_TABLE),
];

#[test]
fn models_with_their_three_files(rt: HostRuntime) -> Result<(), Fail> {
    for (model, lp, mps, table) in WHOLE {
        let ran = outcome_of(rt.alloc(), model, &COMPILE, ROOM)?;
        assert!(rt; ran.status == Status::Done);
        assert!(rt; ran.folder.bytes_of(b"m.lp") == Some(*lp));
        assert!(rt; ran.folder.bytes_of(b"m.mps") == Some(*mps));
        assert!(rt; ran.folder.bytes_of(b"m.tbl") == Some(*table));
        assert!(rt; ran.err.taken() == b"".as_slice());
    }
    Ok(())
}

#[test]
fn words_that_are_no_job(rt: HostRuntime) -> Result<(), Fail> {
    let none = outcome_of(rt.alloc(), b"", &[], ROOM)?;
    assert!(rt; none.status == Status::Usage);
    assert!(rt; none.err.taken() == b"usage: zimplc MODEL --out BASE\n".as_slice());
    let own_output = outcome_of(rt.alloc(), b"", &["m.lp", "--out", "m"], ROOM)?;
    assert!(rt; own_output.status == Status::Usage);
    assert!(rt; own_output.err.taken() == b"usage: zimplc MODEL --out BASE\n".as_slice());
    Ok(())
}

#[test]
fn a_model_at_the_limit_and_one_past_it(rt: HostRuntime) -> Result<(), Fail> {
    let mut text = vec![in rt.alloc(); b'#'; 67_108_864]?;
    let most = outcome_of(rt.alloc(), text.as_slice(), &COMPILE, ROOM)?;
    assert!(rt; most.status == Status::Done);
    text.push(b'#')?;
    let more = outcome_of(rt.alloc(), text.as_slice(), &COMPILE, ROOM)?;
    assert!(rt; more.status == Status::Refused);
    assert!(rt; more.err.taken() == b"m.zpl:1: 26 LongFile\n".as_slice());
    Ok(())
}

#[test]
fn files_at_the_limit_together_and_one_byte_past_it(rt: HostRuntime) -> Result<(), Fail> {
    let model = b"include \"v.zpl\"".as_slice();
    let mut text = vec![in rt.alloc(); b'#'; 67_108_849]?;
    let most = outcome_with(rt.alloc(), model, text.as_slice())?;
    assert!(rt; most.status == Status::Done);
    text.push(b'\n')?;
    let more = outcome_with(rt.alloc(), model, text.as_slice())?;
    assert!(rt; more.status == Status::Refused);
    assert!(rt; more.err.taken() == b"v.zpl:1: 26 LongFile\n".as_slice());
    Ok(())
}

#[test]
fn a_model_that_is_missing(rt: HostRuntime) -> Result<(), Fail> {
    let ran = outcome_of(rt.alloc(), b"", &["no.zpl", "--out", "m"], ROOM)?;
    assert!(rt; ran.status == Status::ReadFault);
    assert!(rt; ran.err.taken() == b"zimplc: cannot read no.zpl\n".as_slice());
    Ok(())
}

#[test]
fn an_include_line_is_replaced(rt: HostRuntime) -> Result<(), Fail> {
    let ran = outcome_with(rt.alloc(), b"include \"v.zpl\"", TWO_VARIABLES_MODEL)?;
    assert!(rt; ran.status == Status::Done);
    assert!(rt; ran.folder.bytes_of(b"m.lp") == Some(TWO_VARIABLES_LP));
    assert!(rt; ran.folder.bytes_of(b"m.mps") == Some(TWO_VARIABLES_MPS));
    assert!(rt; ran.folder.bytes_of(b"m.tbl") == Some(TWO_VARIABLES_TABLE));
    Ok(())
}

#[test]
fn an_included_file_that_is_missing(rt: HostRuntime) -> Result<(), Fail> {
    let ran = outcome_with(rt.alloc(), b"subto a b;\ninclude \"no.zpl\"", b"")?;
    assert!(rt; ran.status == Status::ReadFault);
    assert!(rt; ran.err.taken() == b"zimplc: cannot read no.zpl\n".as_slice());
    assert!(rt; ran.folder.bytes_of(b"m.tbl") == None);
    Ok(())
}

#[test]
fn a_file_without_room(rt: HostRuntime) -> Result<(), Fail> {
    let ran = outcome_of(rt.alloc(), b"var x;", &COMPILE, 9)?;
    assert!(rt; ran.status == Status::WriteFault);
    assert!(rt; ran.err.taken() == b"zimplc: cannot write m.lp\n".as_slice());
    assert!(rt; ran.folder.bytes_of(b"m.lp") == Some(b"\\ zimplc\n".as_slice()));
    assert!(rt; ran.folder.bytes_of(b"m.mps") == None);
    assert!(rt; ran.folder.bytes_of(b"m.tbl") == Some(b"".as_slice()));
    Ok(())
}

#[test]
fn a_put_that_fails(rt: HostRuntime) -> Result<(), Fail> {
    let alloc = rt.alloc();
    let mut files = Vec::new(alloc);
    files.push((
        Bytes::from_slice(alloc, b"m.zpl")?,
        Bytes::from_slice(alloc, TWO_VARIABLES_MODEL)?,
    ))?;
    files.push((
        Bytes::from_slice(alloc, b"m.mps")?,
        Bytes::from_slice(alloc, b"an old file")?,
    ))?;
    // The calls before it: open, two reads, begin and end of the table, begin of the LP file.
    let folder = MemoryFolder::new(alloc, files, ROOM, vec![in alloc; 7]?)?;
    let ran = outcome_in(alloc, folder, &COMPILE)?;
    assert!(rt; ran.status == Status::WriteFault);
    assert!(rt; ran.err.taken() == b"zimplc: cannot write m.lp\n".as_slice());
    assert!(rt; ran.folder.bytes_of(b"m.lp") == Some(b"".as_slice()));
    assert!(rt; ran.folder.bytes_of(b"m.mps") == Some(b"an old file".as_slice()));
    assert!(rt; ran.folder.bytes_of(b"m.tbl") == Some(b"".as_slice()));
    Ok(())
}
