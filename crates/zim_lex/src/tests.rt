use super::*;
use std::alloc::Global;
use std::test::Fail;
use zim_fault::{Bytes, Kind, Place, Placed, Token};
use zim_gate::MemoryFolder;

/// The lines of a file of one line.
fn one_line(alloc: Global, text: &[u8]) -> Result<Vec<Line>, Fail> {
    let place = Place { file: 0, line: 1 };
    let bytes = Bytes::from_slice(alloc, text)?;
    let mut lines = Vec::new(alloc);
    lines.push(Line { place, bytes })?;
    Ok(lines)
}

#[test]
fn a_statement_is_its_tokens(rt: HostRuntime) -> Result<(), Fail> {
    let lines = one_line(rt.alloc(), b"subto a: x+x >= 1; # twice x")?;
    let tokens = lex(rt.alloc(), lines.as_slice())?;
    assert_eq!(rt; tokens.len(), 9);
    let spans = statements(rt.alloc(), tokens.as_slice())?;
    assert_eq!(rt; spans.as_slice(), [Span { from: 0, to: 9 }].as_slice());
    Ok(())
}

#[test]
fn a_byte_that_begins_no_piece_is_a_fault(rt: HostRuntime) -> Result<(), Fail> {
    let lines = one_line(rt.alloc(), b"param p := 1 $;")?;
    let bad = match lex(rt.alloc(), lines.as_slice()) {
        Err(LexFault::Fault(fault)) => fault.kind == Kind::BadByte && fault.place.line == 1,
        _ => false,
    };
    assert!(rt; bad);
    Ok(())
}

#[test]
fn tokens_after_the_last_semicolon_are_a_fault(rt: HostRuntime) -> Result<(), Fail> {
    let lines = one_line(rt.alloc(), b"var x; param p := 1")?;
    let tokens = lex(rt.alloc(), lines.as_slice())?;
    let open = match statements(rt.alloc(), tokens.as_slice()) {
        Err(LexFault::Fault(fault)) => fault.kind == Kind::OpenStatement,
        _ => false,
    };
    assert!(rt; open);
    Ok(())
}

#[test]
fn tokens_are_as_long_as_they_can_be(rt: HostRuntime) -> Result<(), Fail> {
    let lines = one_line(rt.alloc(), b"1..2 .5e-3x 1.5.2 2e+ **")?;
    let tokens = lex(rt.alloc(), lines.as_slice())?;
    let numbers = numbers_of(tokens.as_slice());
    assert_eq!(rt; numbers, 6);
    assert_eq!(rt; tokens.len(), 11);
    Ok(())
}

/// How many of the tokens are numbers.
fn numbers_of(tokens: &[Placed]) -> usize {
    let mut count = 0;
    for placed in tokens {
        if matches!(placed.token, Token::Number(_)) && count < tokens.len() {
            count += 1;
        }
    }
    count
}

#[test]
fn a_string_has_one_kind_of_quotes(rt: HostRuntime) -> Result<(), Fail> {
    let lines = one_line(rt.alloc(), b"'a\"b'\"c'\"")?;
    let tokens = lex(rt.alloc(), lines.as_slice())?;
    let single = Token::Text(Bytes::from_slice(rt.alloc(), b"a\"b")?, false);
    let double = Token::Text(Bytes::from_slice(rt.alloc(), b"c'")?, true);
    assert_eq!(rt; tokens.len(), 2);
    assert!(rt; tokens[0].token == single && tokens[1].token == double);
    Ok(())
}

#[test]
fn a_quote_that_is_not_closed_is_a_fault(rt: HostRuntime) -> Result<(), Fail> {
    let lines = one_line(rt.alloc(), b"param p := 'a\";")?;
    let open = match lex(rt.alloc(), lines.as_slice()) {
        Err(LexFault::Fault(fault)) => fault.kind == Kind::OpenString,
        _ => false,
    };
    assert!(rt; open);
    Ok(())
}

/// A folder with files of these names and texts, in turn.
fn folder_of(alloc: Global, texts: &[(&[u8], &[u8])]) -> Result<MemoryFolder, Fail> {
    failing_folder_of(alloc, texts, &[])
}

/// The same, where the calls of these numbers fail.
fn failing_folder_of(
    alloc: Global,
    texts: &[(&[u8], &[u8])],
    calls: &[u64],
) -> Result<MemoryFolder, Fail> {
    let mut files = Vec::new(alloc);
    for (name, text) in texts {
        files.push((
            Bytes::from_slice(alloc, name)?,
            Bytes::from_slice(alloc, text)?,
        ))?;
    }
    let fails = Vec::from_slice(alloc, calls)?;
    Ok(MemoryFolder::new(alloc, files, 1, fails)?)
}

#[test]
fn an_include_line_is_replaced(rt: HostRuntime) -> Result<(), Fail> {
    let model = b"var x;\n include\t\"v\"# y\nvar z;".as_slice();
    let mut folder = folder_of(rt.alloc(), &[(b"m", model), (b"v", b"var y;\n")])?;
    let replaced = match load(rt.alloc(), &mut folder, b"m") {
        Ok(loaded) => {
            let lines = loaded.lines.as_slice();
            lines.len() == 3
                && lines[1].bytes.as_slice() == b"var y;".as_slice()
                && lines[1].place == Place { file: 1, line: 1 }
                && lines[2].place == Place { file: 0, line: 3 }
        }
        Err(_) => false,
    };
    assert!(rt; replaced);
    Ok(())
}

#[test]
fn an_included_file_includes_another(rt: HostRuntime) -> Result<(), Fail> {
    let texts = [
        (b"m".as_slice(), b"include \"v\"\nvar z;".as_slice()),
        (b"v".as_slice(), b"var x;\ninclude \"w\"".as_slice()),
        (b"w".as_slice(), b"var y;".as_slice()),
    ];
    let mut folder = folder_of(rt.alloc(), &texts)?;
    let replaced = match load(rt.alloc(), &mut folder, b"m") {
        Ok(loaded) => {
            let lines = loaded.lines.as_slice();
            lines.len() == 3
                && lines[0].place == Place { file: 1, line: 1 }
                && lines[1].bytes.as_slice() == b"var y;".as_slice()
                && lines[1].place == Place { file: 2, line: 1 }
                && lines[2].place == Place { file: 0, line: 2 }
        }
        Err(_) => false,
    };
    assert!(rt; replaced);
    Ok(())
}

#[test]
fn a_file_that_includes_itself_is_too_deep(rt: HostRuntime) -> Result<(), Fail> {
    let mut folder = folder_of(rt.alloc(), &[(b"m", b"include \"m\"")])?;
    let loaded = load(rt.alloc(), &mut folder, b"m");
    let deep = match &loaded {
        Err(LoadFault::Fault(fault, files)) => {
            fault.kind == Kind::IncludeDeep && fault.place.file == 15 && files.len() == 16
        }
        _ => false,
    };
    assert!(rt; deep);
    Ok(())
}

#[test]
fn a_file_that_is_not_there_is_named(rt: HostRuntime) -> Result<(), Fail> {
    let mut folder = folder_of(rt.alloc(), &[(b"m", b"include \"no\"")])?;
    let loaded = load(rt.alloc(), &mut folder, b"m");
    let named = match &loaded {
        Err(LoadFault::Read(name)) => name.as_slice() == b"no".as_slice(),
        _ => false,
    };
    assert!(rt; named);
    Ok(())
}

#[test]
fn a_read_that_fails_names_its_file(rt: HostRuntime) -> Result<(), Fail> {
    let texts = [
        (b"m".as_slice(), b"include \"v\"\nvar y;".as_slice()),
        (b"v", b"var x;"),
    ];
    // The calls are an open and two reads of each file.
    for (call, name) in [(2, b"m"), (3, b"m"), (4, b"v"), (5, b"v"), (6, b"v")] {
        let mut folder = failing_folder_of(rt.alloc(), &texts, &[call])?;
        let loaded = load(rt.alloc(), &mut folder, b"m");
        let named = match &loaded {
            Err(LoadFault::Read(unread)) => unread.as_slice() == name.as_slice(),
            _ => false,
        };
        assert!(rt; named);
    }
    Ok(())
}
