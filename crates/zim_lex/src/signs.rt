ghost use Rattle.std.specs.Prelude.{◌≡◌, [], ◌∷◌};
ghost use Rattle.zim_lex.specs.Spelled.{sign_in};

use zim_fault::Sign;

/// The sign of one byte.
#[tactic(auto, unfolding(crate::specs::Spelled::sign_in))]
fn short_sign(byte: u8) -> Option<Sign>
    ensures { result ≡ sign_in (byte ∷ []) }
{
    match byte {
        b';' => Some(Sign::SSemicolon),
        b',' => Some(Sign::SComma),
        b':' => Some(Sign::SColon),
        b'(' => Some(Sign::SLeftParen),
        b')' => Some(Sign::SRightParen),
        b'[' => Some(Sign::SLeftBracket),
        b']' => Some(Sign::SRightBracket),
        b'{' => Some(Sign::SLeftBrace),
        b'}' => Some(Sign::SRightBrace),
        b'<' => Some(Sign::SLess),
        b'>' => Some(Sign::SGreater),
        b'+' => Some(Sign::SPlus),
        b'-' => Some(Sign::SMinus),
        b'*' => Some(Sign::SStar),
        b'/' => Some(Sign::SSlash),
        b'^' => Some(Sign::SCaret),
        b'!' => Some(Sign::SExclamation),
        b'|' => Some(Sign::SBar),
        b'\\' => Some(Sign::SBackslash),
        _ => None,
    }
}

/// The sign of two bytes of which the second is `=`.
#[tactic(auto, unfolding(crate::specs::Spelled::sign_in))]
fn equal_sign(first: u8) -> Option<Sign>
    ensures { result ≡ sign_in (first ∷ 61 ∷ []) }
{
    match first {
        b'<' => Some(Sign::SLessEqual),
        b'>' => Some(Sign::SGreaterEqual),
        b'=' => Some(Sign::SEqual),
        b'!' => Some(Sign::SNotEqual),
        b':' => Some(Sign::SAssign),
        _ => None,
    }
}

/// The sign of two bytes.
#[tactic(auto, unfolding(crate::specs::Spelled::sign_in))]
fn long_sign(first: u8, second: u8) -> Option<Sign>
    ensures { result ≡ sign_in (first ∷ second ∷ []) }
{
    match (first, second) {
        (_, b'=') => equal_sign(first),
        (b'*', b'*') => Some(Sign::SStarStar),
        (b'.', b'.') => Some(Sign::SDots),
        _ => None,
    }
}

/// The sign that is spelled so, or `None` where no sign is.
#[tactic(auto, unfolding(crate::specs::Spelled::sign_in))]
pub fn sign_of(text: &[u8]) -> Option<Sign>
    ensures { result ≡ sign_in text.now }
{
    match text {
        [byte] => short_sign(*byte),
        [first, second] => long_sign(*first, *second),
        _ => None,
    }
}
