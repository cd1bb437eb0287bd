ghost use Rattle.std.specs.Prelude.{◌≡◌};
ghost use Rattle.zim_fault.specs.Signs.{spelling_of_sign};

/// A sign of the language: punctuation, brackets and the operators that aren't words.
#[derive(Clone, Copy, Debug, PartialEq, Eq, Hash)]
pub enum Sign {
    SSemicolon,
    SComma,
    SColon,
    SLeftParen,
    SRightParen,
    SLeftBracket,
    SRightBracket,
    SLeftBrace,
    SRightBrace,
    SLess,
    SGreater,
    SLessEqual,
    SGreaterEqual,
    SEqual,
    SNotEqual,
    SAssign,
    SPlus,
    SMinus,
    SStar,
    SStarStar,
    SSlash,
    SCaret,
    SExclamation,
    SBar,
    SBackslash,
    SDots,
}

/// The bytes of a sign: one or two.
pub fn sign_text(sign: Sign) -> &'static [u8]
    ensures { result.now ≡ spelling_of_sign sign }
{
    match sign {
        Sign::SSemicolon => b";",
        Sign::SComma => b",",
        Sign::SColon => b":",
        Sign::SLeftParen => b"(",
        Sign::SRightParen => b")",
        Sign::SLeftBracket => b"[",
        Sign::SRightBracket => b"]",
        Sign::SLeftBrace => b"{",
        Sign::SRightBrace => b"}",
        Sign::SLess => b"<",
        Sign::SGreater => b">",
        Sign::SLessEqual => b"<=",
        Sign::SGreaterEqual => b">=",
        Sign::SEqual => b"==",
        Sign::SNotEqual => b"!=",
        Sign::SAssign => b":=",
        Sign::SPlus => b"+",
        Sign::SMinus => b"-",
        Sign::SStar => b"*",
        Sign::SStarStar => b"**",
        Sign::SSlash => b"/",
        Sign::SCaret => b"^",
        Sign::SExclamation => b"!",
        Sign::SBar => b"|",
        Sign::SBackslash => b"\\",
        Sign::SDots => b"..",
    }
}
