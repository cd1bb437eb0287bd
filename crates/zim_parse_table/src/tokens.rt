//! The tokens of a text that is cut at blanks.

use std::alloc::Global;
use zim_fault::{Bytes, Memory, Place, Placed, Sign, Token, sign_text, word_of};

/// The sign that a text spells.
fn sign_of(text: &[u8]) -> Option<Sign> {
    let signs = [
        Sign::SSemicolon,
        Sign::SComma,
        Sign::SColon,
        Sign::SLeftParen,
        Sign::SRightParen,
        Sign::SLeftBracket,
        Sign::SRightBracket,
        Sign::SLeftBrace,
        Sign::SRightBrace,
        Sign::SLess,
        Sign::SGreater,
        Sign::SLessEqual,
        Sign::SGreaterEqual,
        Sign::SEqual,
        Sign::SNotEqual,
        Sign::SAssign,
        Sign::SPlus,
        Sign::SMinus,
        Sign::SStar,
        Sign::SStarStar,
        Sign::SSlash,
        Sign::SCaret,
        Sign::SExclamation,
        Sign::SBar,
        Sign::SBackslash,
        Sign::SDots,
    ];
    for sign in signs {
        if sign_text(sign) == text {
            return Some(sign);
        }
    }
    None
}

/// The token that a text spells.
fn token_of(alloc: Global, text: &[u8]) -> Result<Token, Memory> {
    if let Some(sign) = sign_of(text) {
        return Ok(Token::Sign(sign));
    }
    if let Some(word) = word_of(text) {
        return Ok(Token::Word(word));
    }
    match text {
        [b'"', inside @ .., b'"'] => Ok(Token::Text(Bytes::from_slice(alloc, inside)?, true)),
        [b'\'', inside @ .., b'\''] => Ok(Token::Text(Bytes::from_slice(alloc, inside)?, false)),
        [b'0'..=b'9' | b'.', ..] => Ok(Token::Number(Bytes::from_slice(alloc, text)?)),
        _ => Ok(Token::Name(Bytes::from_slice(alloc, text)?)),
    }
}

/// The tokens of a text with blanks between them, the first on line 1 and each on a line of its own.
pub fn tokens_of(alloc: Global, text: &[u8]) -> Result<Vec<Placed>, Memory> {
    let mut tokens = Vec::new(alloc);
    let mut line = 0;
    for piece in text.split(|byte| *byte == b' ') {
        if !piece.is_empty() {
            line = u32::saturating_add(line, 1);
            let place = Place { file: 0, line };
            let token = token_of(alloc, piece)?;
            tokens.push(Placed { token, place })?;
        }
    }
    Ok(tokens)
}
