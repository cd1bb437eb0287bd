//! The bytes of one line: where a comment begins, whether a quotation is left open, and the fields.
ghost use Rattle.std.specs.Prelude.{◌≡◌, ◌++◌, [], ◌∷◌, ◌==◌, ◌&&◌, not, false, filter, OnOk, IfOk};
ghost use Rattle.std.specs.List.{list_any};
ghost use Rattle.zim_read.specs.Private.{lent};
ghost use Rattle.zim_read.specs.Lines as lines;

use crate::slices::behind;
use memchr::memchr;
use std::alloc::Global;
use zim_fault::{Bytes, Memory};

// Whether a quotation is open behind a byte.
#[tactic(auto, unfolding(crate::specs::Lines::is_open_behind))]
fn is_open_behind(inside: bool, byte: u8) -> bool
    ensures { result ≡ lines.is_open_behind inside byte }
{
    if byte == b'"' { !inside } else { inside }
}

// Whether a byte parts fields.
fn is_parting(inside: bool, byte: u8) -> bool
    ensures { result ≡ (not inside && lines.is_separator byte) }
{
    !inside && (byte == b' ' || byte == b'\t' || byte == b',' || byte == b';' || byte == b':')
}

// Whether a byte begins a comment.
fn is_comment(inside: bool, byte: u8, comment: &[u8]) -> bool
    ensures { result ≡ (not inside && list_any (λ c. c == byte) comment.now) }
{
    !inside && comment.contains(&byte)
}

/// What stands before the first comment byte outside quotations.
pub fn before_comment<'a>(line: &'a [u8], comment: &[u8]) -> &'a [u8]
    ensures { result.now ≡ lines.before_comment comment.now false line.now }
{
    let mut inside = false;
    for at in 0..line.len() {
        let byte = line[at];
        if is_comment(inside, byte, comment) {
            return &line[..at];
        }
        inside = is_open_behind(inside, byte);
    }
    line
}

/// Whether a quotation is open at the end.
pub fn is_left_open(line: &[u8]) -> bool
    ensures { result ≡ lines.is_left_open false line.now }
{
    let mut inside = false;
    for byte in line {
        inside = is_open_behind(inside, *byte);
    }
    inside
}

// Adds a field, where it has a byte.
fn add_field<'a>(fields: &mut Vec<&'a [u8]>, field: &'a [u8]) -> Result<(), Memory>
    ensures { OnOk result (lent fields.new.items ≡ lent fields.old.items ++ filter lines.has_bytes (field.now ∷ [])) }
{
    if !field.is_empty() {
        fields.push(field)?;
    }
    Ok(())
}

/// The fields of a line, with their quotes.
pub fn fields_of<'a>(alloc: Global, line: &'a [u8]) -> Result<Vec<&'a [u8]>, Memory>
    ensures { IfOk result (λ fields. lent fields.items ≡ lines.line_fields line.now) }
{
    let mut fields = Vec::new(alloc);
    let mut from = 0;
    let mut inside = false;
    for at in 0..line.len() {
        let byte = line[at];
        if is_parting(inside, byte) {
            add_field(&mut fields, &line[from..at])?;
            from = at + 1;
        } else {
            inside = is_open_behind(inside, byte);
        }
    }
    add_field(&mut fields, &line[from..])?;
    Ok(fields)
}

/// The text of a field, without its quotes.
pub fn unquoted(alloc: Global, field: &[u8]) -> Result<Bytes, Memory>
    ensures { IfOk result (λ text. text ≡ lines.unquoted field.now) }
{
    let mut text = Bytes::new(alloc);
    let mut rest = field;
    while let Some(at) = memchr(b'"', rest) {
        text.extend_from_slice(&rest[..at])?;
        rest = behind(rest, at);
    }
    text.extend_from_slice(rest)?;
    Ok(text)
}
