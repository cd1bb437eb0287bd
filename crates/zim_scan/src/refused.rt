//! Words that are refused.

ghost use Rattle.std.specs.Prelude.{◌≡◌};
ghost use Rattle.zim_scan.specs.Refused as spec;

use zim_fault::{Place, Placed, Token, Word};

/// The refused word that a token is.
fn refused_in(token: &Token) -> Option<Word>
    ensures { result ≡ spec.refused_in token.now }
{
    match token {
        Token::Word(word) => refused_word(*word),
        _ => None,
    }
}

/// The word, if it is refused.
fn refused_word(word: Word) -> Option<Word>
    ensures { result ≡ spec.refused_word word }
{
    match word {
        Word::WRandom
        | Word::WSqrt
        | Word::WLog
        | Word::WLn
        | Word::WExp
        | Word::WMatch
        | Word::WSos
        | Word::WImplicit
        | Word::WExists
        | Word::WScale
        | Word::WSeparate
        | Word::WCheckonly
        | Word::WIndicator => Some(word),
        _ => None,
    }
}

/// The first refused word, with its place.
#[tactic(auto, unfolding(crate::specs::Refused::first_refused))]
pub fn first_refused(tokens: &[Placed]) -> Option<(Place, Word)>
    ensures { result ≡ spec.first_refused tokens.now }
{
    let mut rest = tokens;
    while let [first, behind @ ..] = rest {
        if let Some(word) = refused_in(&first.token) {
            return Some((first.place, word));
        }
        rest = behind;
    }
    None
}
