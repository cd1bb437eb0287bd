ghost use Rattle.std.specs.Prelude.{◌≡◌, ◌<◌, length, Some, None, if◌then◌else◌, IfOk, true};
ghost use Rattle.std.specs.List.{prefix_len};
ghost use Rattle.zim_fault.specs.declared.tokens.Token.TheVariants as tokens;
ghost use Rattle.zim_lex.specs.Classes as class;
ghost use Rattle.zim_lex.specs.Cut.{longest};
ghost use Rattle.zim_lex.specs.Signs.{longest_sign};
ghost use Rattle.zim_lex.specs.Pieces.{is_piece, token_of};

use crate::numbers::{is_digit, number_length, string_length};
use crate::signs::sign_of;
use std::alloc::Global;
use zim_fault::{Bytes, Memory, Token, word_of};

fn is_blank(byte: u8) -> bool
    ensures { result ≡ class.is_blank byte }
{
    byte == b' ' || byte == b'\t' || byte == b'\r'
}

fn begins_name(byte: u8) -> bool
    ensures { result ≡ class.begins_name byte }
{
    b'A' <= byte && byte <= b'Z' || b'a' <= byte && byte <= b'z' || byte == b'_'
}

pub fn is_quote(byte: u8) -> bool
    ensures { result ≡ class.is_quote byte }
{
    byte == b'"' || byte == b'\''
}

fn starts_number(byte: u8) -> bool
    ensures { result ≡ class.starts_number byte }
{
    is_digit(byte) || byte == b'.'
}

fn continues_name(byte: u8) -> bool
    ensures { result ≡ class.continues_name byte }
{
    begins_name(byte) || is_digit(byte)
}

/// How many bytes at the front are blanks.
pub fn count_blanks(bytes: &[u8]) -> usize
    ensures { result ≡ prefix_len class.is_blank bytes.now }
{
    bytes.iter().take_while(|byte| is_blank(**byte)).count()
}

/// How many bytes at the front can stand in a name.
fn count_name_bytes(bytes: &[u8]) -> usize
    ensures { result ≡ prefix_len class.continues_name bytes.now }
{
    bytes
        .iter()
        .take_while(|byte| continues_name(**byte))
        .count()
}

/// How many bytes the sign at the front has: two where two bytes are a sign, else one where one is.
fn sign_length(bytes: &[u8]) -> Option<usize>
    ensures { result ≡ longest_sign bytes.now }
{
    if bytes.len() >= 2 && sign_of(&bytes[..2]).is_some() {
        Some(2)
    } else if !bytes.is_empty() && sign_of(&bytes[..1]).is_some() {
        Some(1)
    } else {
        None
    }
}

/// How many bytes the longest piece at the front has, or `None` where no piece begins.
pub fn piece_length(bytes: &[u8]) -> Option<usize>
    ensures { result ≡ longest bytes.now }
{
    if bytes.is_empty() {
        return None;
    }
    let first = bytes[0];
    if is_blank(first) {
        Some(count_blanks(bytes))
    } else if first == b'#' {
        Some(bytes.len())
    } else if begins_name(first) {
        Some(count_name_bytes(bytes))
    } else if is_quote(first) {
        string_length(bytes)
    } else {
        match number_length(bytes) {
            Some(length) => Some(length),
            None => sign_length(bytes),
        }
    }
}

/// The number that a piece is, or `None` where its first byte begins none.
fn number_in(alloc: Global, piece: &[u8], first: u8) -> Result<Option<Token>, Memory>
    ensures { IfOk result (λ token. token ≡ (if class.starts_number first then Some (tokens.Number piece.now) else None)) }
{
    if !starts_number(first) {
        return Ok(None);
    }
    Ok(Some(Token::Number(Bytes::from_slice(alloc, piece)?)))
}

/// The token that a piece spells, or `None` for blanks and comments.
pub fn token_in(alloc: Global, piece: &[u8]) -> Result<Option<Token>, Memory>
    requires { is_piece piece.now ≡ true }
    ensures { IfOk result (λ token. token ≡ token_of piece.now) }
{
    let first = piece[0];
    if begins_name(first) {
        match word_of(piece) {
            Some(word) => Ok(Some(Token::Word(word))),
            None => Ok(Some(Token::Name(Bytes::from_slice(alloc, piece)?))),
        }
    } else if is_quote(first) {
        let text = Bytes::from_slice(alloc, &piece[1..piece.len() - 1])?;
        Ok(Some(Token::Text(text, first == b'"')))
    } else {
        match sign_of(piece) {
            Some(sign) => Ok(Some(Token::Sign(sign))),
            None => number_in(alloc, piece, first),
        }
    }
}
