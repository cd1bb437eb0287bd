//! What the next tokens are, as far as a rule has to know.

ghost use Rattle.std.specs.Prelude.{◌≡◌};
ghost use Rattle.zim_parse_expression.specs.Next as spec;
ghost use Rattle.zim_parse_expression.specs.Parser as parser;
ghost use Rattle.zim_parse_expression.specs.Outcome.{sign_test, word_test};

use zim_fault::{Placed, Sign, Token, Word};
use zim_scan::begins_paren;
use zim_tree::{Class, class_of};

/// Whether the token is the wanted sign, of those that a rule of statements names.
pub fn is_sign(wanted: Sign, token: &Token) -> bool
    ensures { result ≡ sign_test wanted token.now }
{
    match wanted {
        Sign::SSemicolon => matches!(token, Token::Sign(Sign::SSemicolon)),
        Sign::SAssign => matches!(token, Token::Sign(Sign::SAssign)),
        Sign::SColon => matches!(token, Token::Sign(Sign::SColon)),
        Sign::SLeftBracket => matches!(token, Token::Sign(Sign::SLeftBracket)),
        Sign::SLeftBrace => matches!(token, Token::Sign(Sign::SLeftBrace)),
        Sign::SBar => matches!(token, Token::Sign(Sign::SBar)),
        _ => false,
    }
}

/// Whether the token is the wanted word, of those that a rule of statements names.
pub fn is_word(wanted: Word, token: &Token) -> bool
    ensures { result ≡ word_test wanted token.now }
{
    match wanted {
        Word::WRead => matches!(token, Token::Word(Word::WRead)),
        Word::WAs => matches!(token, Token::Word(Word::WAs)),
        Word::WDefault => matches!(token, Token::Word(Word::WDefault)),
        Word::WPriority => matches!(token, Token::Word(Word::WPriority)),
        Word::WStartval => matches!(token, Token::Word(Word::WStartval)),
        _ => false,
    }
}

/// Whether a token is `-`.
pub fn is_minus(token: &Token) -> bool
    ensures { result ≡ parser.is_minus token.now }
{
    matches!(token, Token::Sign(Sign::SMinus))
}

/// The sign that a token is.
pub fn sign_in(token: &Token) -> Sign
    ensures { result ≡ parser.sign_of_token token.now }
{
    match token {
        Token::Sign(sign) => *sign,
        _ => Sign::SCaret,
    }
}

/// The word that a token is.
pub fn word_in(token: &Token) -> Word
    ensures { result ≡ parser.word_of_token token.now }
{
    match token {
        Token::Word(word) => *word,
        _ => Word::WSum,
    }
}

/// Whether the word of a loop comes first: `min` and `max` before a `(` are none.
fn starts_loop(tokens: &[Placed]) -> bool
    ensures { result ≡ spec.starts_loop tokens.now }
{
    match tokens {
        [] => false,
        [first, rest @ ..] => match class_of(&first.token) {
            Class::Loop => true,
            Class::MinOrMax => !begins_paren(rest),
            _ => false,
        },
    }
}

/// Whether a loop, with or without a sign, comes first.
pub fn opens(tokens: &[Placed]) -> bool
    ensures { result ≡ spec.opens tokens.now }
{
    match tokens {
        [] => false,
        [first, rest @ ..] => match class_of(&first.token) {
            Class::PlusOrMinus => starts_loop(rest),
            Class::Loop => true,
            Class::MinOrMax => !begins_paren(rest),
            _ => false,
        },
    }
}

/// How loosely a power binds. What binds closer has a smaller number.
pub const POWER: usize = 3;
/// How loosely an operator like `*` binds.
pub const PRODUCT: usize = 4;
/// How loosely an operator like `*` binds where a loop, with or without a sign, comes behind it.
pub const PRODUCT_WITH_LOOP: usize = 5;
/// How loosely an operator like `+` binds.
pub const SUM: usize = 6;
/// How loosely a relation binds.
pub const RELATION: usize = 7;
/// How loosely `and` binds.
pub const CONJUNCTION: usize = 8;
/// How loosely `or` and `xor` bind.
pub const DISJUNCTION: usize = 9;

/// How loosely an operator of this class binds, where a loop opens behind it or not; 1 and 2 stand for brackets and `!`
/// behind an operand, 10 for what is no operator.
pub fn class_looseness(class: Class, open_behind: bool) -> usize
    ensures { result ≡ spec.class_looseness class open_behind }
{
    match class {
        Class::LeftBracket | Class::LeftParen => 1,
        Class::Exclamation => 2,
        Class::Power => POWER,
        Class::Product => {
            if open_behind {
                PRODUCT_WITH_LOOP
            } else {
                PRODUCT
            }
        }
        Class::PlusOrMinus | Class::OtherSum => SUM,
        Class::Less | Class::Greater | Class::OtherRelation => RELATION,
        Class::And => CONJUNCTION,
        Class::OrOrXor => DISJUNCTION,
        _ => 10,
    }
}
