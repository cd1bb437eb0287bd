//! The answer to each case of the table.

use crate::chains::definition;
use std::alloc::Global;
use zim_fault::{Bytes, Fault, Memory, Place};
use zim_lex::{LexFault, Line, lex, line_numbers_are_kept};
use zim_parse::{ParseFault, parse_statement};
use zim_shown::{Shown, show_fault};
use zim_sort::{SortFault, sort};
use zim_static::Scope;
use zim_tree::tight_trees_are_made;
use zim_typing::read_trees_keep_numbers;

/// How far a statement goes that has no fault.
#[derive(Clone, Copy, PartialEq, Eq)]
enum Until {
    /// It is cut into tokens.
    Cut,
    /// It is parsed.
    Parsed,
    /// It is sorted.
    Sorted,
    /// Its name is declared.
    Declared,
}

/// The answer where there is a fault: its kind, and the token that it is marked at.
fn shown_fault(alloc: Global, fault: &Fault) -> Result<Bytes, Memory> {
    let mut shown = Shown::new(alloc, true);
    show_fault(fault, &mut shown);
    shown.finish()
}

/// The pieces of a text that is cut at blanks, each as a line, the first as line 1.
fn lines_of(alloc: Global, text: &[u8]) -> Result<Vec<Line>, Memory> {
    let mut lines = Vec::new(alloc);
    let mut line = 0;
    for piece in text.split(|byte| *byte == b' ') {
        if !piece.is_empty() {
            line = u32::saturating_add(line, 1);
            let place = Place { file: 0, line };
            let bytes = Bytes::from_slice(alloc, piece)?;
            lines.push(Line { place, bytes })?;
        }
    }
    Ok(lines)
}

/// The answer to the text of a statement.
fn answer_to_text(
    alloc: Global,
    scope: &mut Scope,
    until: Until,
    text: &[u8],
) -> Result<Bytes, Memory> {
    let lines = lines_of(alloc, text)?;
    let tokens = match lex(alloc, lines.as_slice()) {
        Ok(tokens) => tokens,
        Err(LexFault::Fault(fault)) => return shown_fault(alloc, &fault),
        Err(LexFault::Memory) => return Err(Memory),
    };
    if tokens.is_empty() {
        return Bytes::from_slice(alloc, b"no token");
    }
    if until == Until::Cut {
        return Bytes::from_slice(alloc, b"tokens");
    }
    line_numbers_are_kept();
    tight_trees_are_made();
    read_trees_keep_numbers();
    let stmt = match parse_statement(alloc, tokens.as_slice()) {
        Ok(stmt) => stmt,
        Err(ParseFault::Fault(fault)) => return shown_fault(alloc, &fault),
        Err(ParseFault::Memory) => return Err(Memory),
    };
    if until == Until::Parsed {
        return Bytes::from_slice(alloc, b"a statement");
    }
    let typed = match sort(alloc, scope, &stmt) {
        Ok(typed) => typed,
        Err(SortFault::Fault(fault)) => return shown_fault(alloc, &fault),
        Err(SortFault::Memory) => return Err(Memory),
    };
    if until == Until::Sorted {
        return Bytes::from_slice(alloc, b"no fault");
    }
    scope.declare(&typed)?;
    Bytes::from_slice(alloc, b"declared")
}

/// Declares so many functions, each of which calls the one before. The answer is that to the last.
fn answer_to_chain(alloc: Global, scope: &mut Scope, count: u32) -> Result<Bytes, Memory> {
    let mut last = Bytes::new(alloc);
    for before in 0..count {
        let text = definition(alloc, u32::saturating_add(before, 1))?;
        last = answer_to_text(alloc, scope, Until::Declared, text.as_slice())?;
    }
    Ok(last)
}

/// The answer to one case.
fn answer(alloc: Global, scope: &mut Scope, case: &str) -> Result<Bytes, Memory> {
    if case == "model" {
        *scope = Scope::new(alloc);
        return Bytes::from_slice(alloc, b"no names");
    }
    match case.split_once(' ') {
        Some(("cut", text)) => answer_to_text(alloc, scope, Until::Cut, text.as_bytes()),
        Some(("parse", text)) => answer_to_text(alloc, scope, Until::Parsed, text.as_bytes()),
        Some(("sort", text)) => answer_to_text(alloc, scope, Until::Sorted, text.as_bytes()),
        Some(("declare", text)) => answer_to_text(alloc, scope, Until::Declared, text.as_bytes()),
        Some(("chain", count)) => {
            answer_to_chain(alloc, scope, count.parse::<u32>().unwrap_or(0))
        }
        _ => Bytes::from_slice(alloc, b"no case"),
    }
}

/// The lines of a table, and behind each case, on a line of its own, its answer.
pub fn answers(alloc: Global, table: &str) -> Result<Bytes, Memory> {
    let mut page = Shown::new(alloc, false);
    let mut scope = Scope::new(alloc);
    for line in table.lines() {
        page.put(line.as_bytes());
        page.put(b"\n");
        if !line.is_empty() && !line.starts_with('#') {
            page.put(b"    ");
            page.put(answer(alloc, &mut scope, line)?.as_slice());
            page.put(b"\n");
        }
    }
    page.finish()
}
