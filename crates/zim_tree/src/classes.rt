ghost use Rattle.std.specs.Prelude.{◌≡◌};
ghost use Rattle.zim_tree.specs.Classes.{token_class, word_class, sign_class};

use zim_fault::{Sign, Token, Word};

/// The terminals that the rules of expressions don't tell apart, as `+` and `-`.
#[derive(Clone, Copy, Debug)]
pub enum Class {
    Number,
    Text,
    /// `true` and `false`
    Truth,
    Infinity,
    Name,
    /// `+` and `-`, which also stand as a sign.
    PlusOrMinus,
    /// `\`, `union`, `without` and `symdiff`
    OtherSum,
    /// `*`, `/`, `mod`, `div`, `cross` and `inter`
    Product,
    /// `^` and `**`
    Power,
    Exclamation,
    Less,
    Greater,
    /// `<=`, `==`, `!=` and `>=`
    OtherRelation,
    And,
    OrOrXor,
    Not,
    In,
    Forall,
    /// `sum`, `prod`, `argmin` and `argmax`
    Loop,
    /// `min` and `max`: functions before a `(`, loops elsewhere.
    MinOrMax,
    /// The functions that are words, without `min` and `max` and the families.
    Function,
    /// `powerset` and `subsets`
    Family,
    Proj,
    IfOrVif,
    Then,
    Else,
    End,
    /// `with` and `|`
    WithOrBar,
    /// `:` and `do`
    ColonOrDo,
    Comma,
    /// `..` and `to`
    DotsOrTo,
    By,
    LeftParen,
    RightParen,
    LeftBracket,
    RightBracket,
    LeftBrace,
    RightBrace,
    /// What stands in no expression.
    Other,
}

/// The class of a token.
pub fn class_of(token: &Token) -> Class
    ensures { result ≡ token_class token.now }
{
    match token {
        Token::Name(_) => Class::Name,
        Token::Number(_) => Class::Number,
        Token::Text(_, _) => Class::Text,
        Token::Word(word) => class_of_word(*word),
        Token::Sign(sign) => class_of_sign(*sign),
    }
}

fn class_of_word(word: Word) -> Class
    ensures { result ≡ word_class word }
{
    match word {
        Word::WTrue | Word::WFalse => Class::Truth,
        Word::WInfinity => Class::Infinity,
        Word::WUnion | Word::WWithout | Word::WSymdiff => Class::OtherSum,
        Word::WMod | Word::WDiv | Word::WCross | Word::WInter => Class::Product,
        Word::WAnd => Class::And,
        Word::WOr | Word::WXor => Class::OrOrXor,
        Word::WNot => Class::Not,
        Word::WIn => Class::In,
        Word::WForall => Class::Forall,
        Word::WSum | Word::WProd | Word::WArgmin | Word::WArgmax => Class::Loop,
        Word::WMin | Word::WMax => Class::MinOrMax,
        Word::WAbs
        | Word::WSgn
        | Word::WFloor
        | Word::WCeil
        | Word::WRound
        | Word::WCard
        | Word::WOrd
        | Word::WLength
        | Word::WSubstr
        | Word::WIndexset
        | Word::WVabs => Class::Function,
        Word::WPowerset | Word::WSubsets => Class::Family,
        Word::WProj => Class::Proj,
        Word::WIf | Word::WVif => Class::IfOrVif,
        Word::WThen => Class::Then,
        Word::WElse => Class::Else,
        Word::WEnd => Class::End,
        Word::WWith => Class::WithOrBar,
        Word::WDo => Class::ColonOrDo,
        Word::WTo => Class::DotsOrTo,
        Word::WBy => Class::By,
        _ => Class::Other,
    }
}

fn class_of_sign(sign: Sign) -> Class
    ensures { result ≡ sign_class sign }
{
    match sign {
        Sign::SPlus | Sign::SMinus => Class::PlusOrMinus,
        Sign::SBackslash => Class::OtherSum,
        Sign::SStar | Sign::SSlash => Class::Product,
        Sign::SStarStar | Sign::SCaret => Class::Power,
        Sign::SExclamation => Class::Exclamation,
        Sign::SLess => Class::Less,
        Sign::SGreater => Class::Greater,
        Sign::SLessEqual | Sign::SGreaterEqual | Sign::SEqual | Sign::SNotEqual => {
            Class::OtherRelation
        }
        Sign::SBar => Class::WithOrBar,
        Sign::SColon => Class::ColonOrDo,
        Sign::SComma => Class::Comma,
        Sign::SDots => Class::DotsOrTo,
        Sign::SLeftParen => Class::LeftParen,
        Sign::SRightParen => Class::RightParen,
        Sign::SLeftBracket => Class::LeftBracket,
        Sign::SRightBracket => Class::RightBracket,
        Sign::SLeftBrace => Class::LeftBrace,
        Sign::SRightBrace => Class::RightBrace,
        Sign::SSemicolon | Sign::SAssign => Class::Other,
    }
}
