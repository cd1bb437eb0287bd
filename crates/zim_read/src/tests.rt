use super::*;
use std::alloc::Global;
use std::test::Fail;
use zim_decimal::read_field;
use zim_fault::{Bytes, Fault, Kind, Place};
use zim_gate::MemoryFolder;
use zim_tuples::Elem;

/// A folder with one file, of which these calls fail.
fn folder(alloc: Global, text: &[u8], fails: Vec<u64>) -> Result<MemoryFolder, Fail> {
    let mut files = Vec::new(alloc);
    files.push((
        Bytes::from_slice(alloc, b"d.csv")?,
        Bytes::from_slice(alloc, text)?,
    ))?;
    Ok(MemoryFolder::new(alloc, files, 0, fails)?)
}

/// The rows of the file `d.csv` by a set's template, with one line skipped and two used.
fn rows(alloc: Global, text: &[u8]) -> Result<Result<Vec<DataRow>, RowsStop>, Fail> {
    let template = parse_template(alloc, b"<1s,5n,2n>", ReadKind::Set)?;
    let mut folder = folder(alloc, text, Vec::new(alloc))?;
    Ok(read_rows(alloc, &mut folder, b"d.csv", 1, &template, 1, Some(2), b"#"))
}

/// A fault at a line of the second file.
fn stop(line: u32, kind: Kind) -> RowsStop {
    let place = Place { file: 1, line };
    RowsStop::Fault(Fault { place, kind })
}

#[test]
fn rows_of_two_lines(rt: HostRuntime) -> Result<(), Fail> {
    let alloc = rt.alloc();
    let text = b"name;a;b;c;d\nHamburg;12;x;y;7\nBremen;1;a;b;2\nKiel;5;e;f;9";
    let Ok(found) = rows(alloc, text)? else {
        return Err(Fail::new("another answer"));
    };
    assert_eq!(rt; found.len(), 2);
    let first = found[0].items.as_slice();
    let Ok(Some(seven)) = read_field(b"7") else {
        return Err(Fail::new("another answer"));
    };
    assert_eq!(rt; first.len(), 3);
    assert!(rt; first[0] == Elem::Text(Bytes::from_slice(alloc, b"Hamburg")?));
    assert!(rt; first[1] == Elem::Number(seven));
    assert_eq!(rt; found[1].line, 3);
    Ok(())
}

#[test]
fn faults_at_their_lines(rt: HostRuntime) -> Result<(), Fail> {
    let alloc = rt.alloc();
    let short = rows(alloc, b"name;a;b;c;d\nHamburg;12;x;y;7\nBremen;1;a;b\n")?;
    assert!(rt; matches!(short, Err(found) if found == stop(3, Kind::ShortLine)));
    let bad = rows(alloc, b"name;a;b;c;d\nHamburg;12;x;y;7\nBremen;q;a;b;2\n")?;
    assert!(rt; matches!(bad, Err(found) if found == stop(3, Kind::BadField)));
    let mut text = Vec::from_slice(alloc, b"name;a;b;c;d\n")?;
    text.resize(13 + 65_537, b'a')?;
    let long = rows(alloc, text.as_slice())?;
    assert!(rt; matches!(long, Err(found) if found == stop(2, Kind::LongLine)));
    Ok(())
}

#[test]
fn a_missing_an_empty_and_a_failing_file(rt: HostRuntime) -> Result<(), Fail> {
    let alloc = rt.alloc();
    let template = parse_template(alloc, b"2n", ReadKind::Scalar)?;
    let mut empty = folder(alloc, b"", Vec::new(alloc))?;
    let missing = read_rows(alloc, &mut empty, b"e.csv", 1, &template, 0, None, b"#");
    assert!(rt; matches!(&missing, Err(RowsStop::Read)));
    let none = read_rows(alloc, &mut empty, b"d.csv", 1, &template, 0, None, b"#");
    assert!(rt; matches!(&none, Ok(found) if found.is_empty()));
    let mut fails = Vec::new(alloc);
    fails.push(2)?;
    let mut failing = folder(alloc, b"a 1\n", fails)?;
    let unread = read_rows(alloc, &mut failing, b"d.csv", 1, &template, 0, None, b"#");
    assert!(rt; matches!(&unread, Err(RowsStop::Read)));
    Ok(())
}

#[test]
fn templates_of_each_kind(rt: HostRuntime) -> Result<(), Fail> {
    let alloc = rt.alloc();
    let every = parse_template(alloc, b"<n+>", ReadKind::Set)?;
    assert!(rt; matches!(&every, Template::Every(FieldKind::Number)));
    let bad = parse_template(alloc, b"<1q>", ReadKind::Set);
    assert!(rt; matches!(&bad, Err(TemplateFault::BadTemplate)));
    let indexed = parse_template(alloc, b"< 1 s > 02n", ReadKind::Indexed)?;
    assert!(rt; matches!(&indexed, Template::Fields { index, value: Some(_) } if index.len() == 1));
    Ok(())
}
