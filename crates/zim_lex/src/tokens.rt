ghost use Rattle.std.specs.Prelude.{◌≡◌, ◌++◌, true, IfOk, OnOk};
ghost use Rattle.zim_answer.specs.Gives.{Gives};
ghost use Rattle.zim_lex.specs.Causes.{lex_cause, IfMet};
ghost use Rattle.zim_lex.specs.Cut as cuts;
ghost use Rattle.zim_lex.specs.Pieces.{is_piece, token_of};
ghost use Rattle.zim_lex.specs.Tokens.{AreTokens, IsFirstStuck, placed_token, tokens_of, with_line};

use crate::faults::LexFault;
use crate::lines::Line;
use crate::pieces::{is_quote, piece_length, token_in};
use std::alloc::Global;
use zim_fault::{Fault, Kind, Memory, Place, Placed};

/// Adds the token of a piece, if it is one.
fn add_piece(
    alloc: Global,
    place: Place,
    piece: &[u8],
    tokens: &mut Vec<Placed>,
) -> Result<(), Memory>
    requires { is_piece piece.now ≡ true }
    ensures { OnOk result (tokens.new.items ≡ tokens.old.items ++ placed_token place (token_of piece.now)) }
{
    if let Some(token) = token_in(alloc, piece)? {
        tokens.push(Placed { token, place })?;
    }
    Ok(())
}

/// What is the matter with a byte that begins no piece.
fn stuck_at(byte: u8) -> Kind
    ensures { result ≡ cuts.stuck_at byte }
{
    if is_quote(byte) {
        Kind::OpenString
    } else {
        Kind::BadByte
    }
}

/// Adds the tokens of a line.
fn add_line(alloc: Global, line: &Line, tokens: &mut Vec<Placed>) -> Result<(), LexFault>
    ensures { Gives (λ _. tokens.new.items) lex_cause (with_line tokens.old.items line.now) result }
{
    let place = line.place;
    let mut rest = line.bytes.as_slice();
    while !rest.is_empty() {
        let Some(length) = piece_length(rest) else {
            let kind = stuck_at(rest[0]);
            return Err(LexFault::Fault(Fault { place, kind }));
        };
        let (piece, after) = rest.split_at(length);
        add_piece(alloc, place, piece, tokens)?;
        rest = after;
    }
    Ok(())
}

/// The tokens of the lines in order, each with the place of its line.
///
/// A line is cut from left to right into runs of blanks, comments and tokens, each as long as it can
/// be. At the first line with a byte that begins none of them `OpenString` comes where the byte is a
/// quote, which then isn't closed on the line, and `BadByte` where it is another.
pub fn lex(alloc: Global, lines: &[Line]) -> Result<Vec<Placed>, LexFault>
    // The tokens are those of the lines' pieces, each as long as it can be.
    ensures tokens { IfOk result (λ tokens. AreTokens lines.now tokens.items) }
    // The fault is that of the first line with a byte that begins no piece.
    ensures stuck { IfMet result (IsFirstStuck lines.now) }
    // Which of the two it is.
    ensures exact { Gives (λ tokens. tokens.items) lex_cause (tokens_of lines.now) result }
{
    let mut tokens = Vec::new(alloc);
    for line in lines {
        add_line(alloc, line, &mut tokens)?;
    }
    Ok(tokens)
}
