//! The answer to each case of the table.

use crate::nested::nested_text;
use crate::tokens::tokens_of;
use std::alloc::Global;
use zim_fault::{Bytes, Memory, Placed};
use zim_parse::{ParseFault, parse_statement};
use zim_shown::{Shown, show_fault, show_stmt};
use zim_spelling::spelled;
use zim_tree::Stmt;
use zim_tree_copy::copy_stmt;

/// What a case asks of the tree of its text.
#[derive(Clone, Copy)]
enum Question {
    /// The tree without its places.
    Tree,
    /// The tree with the lines of its places.
    Places,
    /// That there is one.
    Statement,
    /// Whether a copy of it spells the tokens that it was read from.
    Spelling,
}

/// Whether these are the tokens that a copy of a tree spells.
fn is_spelled_by_a_copy(alloc: Global, stmt: &Stmt, tokens: &[Placed]) -> Result<bool, Memory> {
    let copied = copy_stmt(alloc, stmt)?;
    let spelling = spelled(alloc, &copied)?;
    if spelling.len() != tokens.len() {
        return Ok(false);
    }
    for (token, placed) in spelling.iter().zip(tokens.iter()) {
        if *token != placed.token {
            return Ok(false);
        }
    }
    Ok(true)
}

/// Puts what is asked of a tree at the end.
fn show_asked(
    alloc: Global,
    question: Question,
    stmt: &Stmt,
    tokens: &[Placed],
    to: &mut Shown,
) -> Result<(), Memory> {
    match question {
        Question::Tree | Question::Places => show_stmt(stmt, to),
        Question::Statement => to.put(b"a statement"),
        Question::Spelling => {
            let same = is_spelled_by_a_copy(alloc, stmt, tokens)?;
            to.put_one(same, b"otherwise than it was read", b"as it was read");
        }
    }
    Ok(())
}

/// What is asked of the tree of a text, or the text's fault. The tokens stand between blanks, each on a line
/// of its own, the first on line 1.
fn answer_to_text(alloc: Global, question: Question, text: &[u8]) -> Result<Bytes, Memory> {
    let tokens = tokens_of(alloc, text)?;
    let mut shown = Shown::new(alloc, !matches!(question, Question::Tree));
    if tokens.is_empty() {
        shown.put(b"no token");
        return shown.finish();
    }
    match parse_statement(alloc, tokens.as_slice()) {
        Ok(stmt) => show_asked(alloc, question, &stmt, tokens.as_slice(), &mut shown)?,
        Err(ParseFault::Fault(fault)) => show_fault(&fault, &mut shown),
        Err(ParseFault::Memory) => return Err(Memory),
    }
    shown.finish()
}

/// The answer to one case: a word that says what is asked, and the text of a statement.
fn answer(alloc: Global, case: &str) -> Result<Bytes, Memory> {
    match case.split_once(' ') {
        Some(("tree", text)) => answer_to_text(alloc, Question::Tree, text.as_bytes()),
        Some(("places", text)) => answer_to_text(alloc, Question::Places, text.as_bytes()),
        Some(("spelling", text)) => answer_to_text(alloc, Question::Spelling, text.as_bytes()),
        Some(("nested", parts)) => {
            let text = nested_text(alloc, parts)?;
            answer_to_text(alloc, Question::Statement, text.as_slice())
        }
        _ => Bytes::from_slice(alloc, b"no case"),
    }
}

/// The lines of a table, and behind each case, on a line of its own, its answer.
pub fn answers(alloc: Global, table: &str) -> Result<Bytes, Memory> {
    let mut page = Shown::new(alloc, false);
    for line in table.lines() {
        page.put(line.as_bytes());
        page.put(b"\n");
        if !line.is_empty() && !line.starts_with('#') {
            page.put(b"    ");
            page.put(answer(alloc, line)?.as_slice());
            page.put(b"\n");
        }
    }
    page.finish()
}
