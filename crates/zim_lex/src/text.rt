ghost use Rattle.std.specs.Prelude.{◌≡◌, ◌+◌, ◌≤◌, [], ◌∷◌, ◌++◌, length, count_by, ◌==◌, IfOk, OnOk};
ghost use Rattle.zim_lex.specs.Lines.{most_bytes, lines_of, placed_lines};
ghost use Rattle.zim_lex.specs.Text.{HasNoEnd};

use crate::lines::Line;
use memchr::memchr;
use std::alloc::Global;
use std::marker::Model;
use std::mem;
use zim_fault::{Bytes, Memory, Place, Sequence};

/// The lines of a text that is taken in pieces, which contracts see as the text so far.
#[derive(Drop)]
pub struct TextLines {
    alloc: Global,
    /// The lines that have ended.
    lines: Sequence<Line>,
    /// The bytes of the line that hasn't.
    bytes: Bytes,
}

impl Model for TextLines {
    ghost use Rattle.std.specs.Prelude.{ℕ, List};
    ghost use Rattle.zim_lex.specs.Text.{text_of, IsText};

    ghost Value = { List ℕ };

    ghost view = { λ text. text_of text.lines text.bytes };

    ghost invariant = { λ text. IsText text.lines text.bytes };
}

impl TextLines {
    pub fn new(alloc: Global) -> TextLines
        ensures { result ≡ [] }
    {
        TextLines {
            alloc,
            lines: Sequence::new(alloc),
            bytes: Bytes::new(alloc),
        }
    }

    /// The number, from 1, of the line that the text so far ends in.
    pub fn line(&self) -> u32
        ensures { result ≡ count_by (λ b. b == 10) self.now + 1 }
    {
        self.lines.len() as u32 + 1
    }

    /// Takes bytes that end a line, and its end.
    fn end_line(&mut self, bytes: &[u8]) -> Result<(), Memory>
        requires plain { HasNoEnd bytes.now }
        requires room { length self.old + length bytes.now + 1 ≤ most_bytes }
        ensures { OnOk result (self.new ≡ self.old ++ bytes.now ++ 10 ∷ []) }
    {
        self.bytes.extend_from_slice(bytes)?;
        let place = Place {
            file: 0,
            line: self.lines.len() as u32 + 1,
        };
        let bytes = mem::replace(&mut self.bytes, Bytes::new(self.alloc));
        self.lines.push(Line { place, bytes })?;
        Ok(())
    }

    /// Takes bytes of a line that goes on.
    fn go_on(&mut self, bytes: &[u8]) -> Result<(), Memory>
        requires plain { HasNoEnd bytes.now }
        requires room { length self.old + length bytes.now ≤ most_bytes }
        ensures { OnOk result (self.new ≡ self.old ++ bytes.now) }
    {
        self.bytes.extend_from_slice(bytes)
    }

    /// Takes the next piece of the text.
    pub fn add(&mut self, piece: &[u8]) -> Result<(), Memory>
        requires { length self.old + length piece.now ≤ most_bytes }
        ensures { OnOk result (self.new ≡ self.old ++ piece.now) }
    {
        let mut rest = piece;
        while let Some(end) = memchr(b'\n', rest) {
            self.end_line(&rest[..end])?;
            rest = &rest[end + 1..];
        }
        self.go_on(rest)
    }

    /// The lines of the whole text. What follows the last line end is a line where it isn't empty.
    pub fn finish(self) -> Result<Sequence<Line>, Memory>
        ensures { IfOk result (λ lines. lines ≡ placed_lines 0 1 (lines_of self)) }
    {
        let TextLines {
            alloc: _,
            mut lines,
            bytes,
        } = self;
        if bytes.is_empty() {
            return Ok(lines);
        }
        let place = Place {
            file: 0,
            line: lines.len() as u32 + 1,
        };
        lines.push(Line { place, bytes })?;
        Ok(lines)
    }
}
