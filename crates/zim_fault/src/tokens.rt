use crate::bytes::Bytes;
use crate::faults::Place;
use crate::memory::{Duplicate, Memory};
use crate::signs::Sign;
use crate::words::Word;

/// A token of the language.
#[derive(Debug, Drop, PartialEq, Eq, Hash)]
pub enum Token {
    /// A name: a letter or `_`, then letters, digits and `_`, and no word.
    Name(Bytes),
    Word(Word),
    /// A number as it is written.
    Number(Bytes),
    /// A string without its quotes, and whether these are double ones.
    Text(Bytes, bool),
    Sign(Sign),
}

/// A token and where it stands.
#[derive(Debug, Drop, PartialEq, Eq, Hash)]
pub struct Placed {
    pub token: Token,
    pub place: Place,
}

/// How two values are compared.
#[derive(Clone, Copy, Debug, PartialEq, Eq, Hash)]
pub enum Relation {
    /// `<`
    LessThan,
    /// `<=`
    AtMost,
    /// `==`
    EqualTo,
    /// `!=`
    NotEqualTo,
    /// `>=`
    AtLeast,
    /// `>`
    GreaterThan,
}

/// What joins two conditions.
#[derive(Clone, Copy, Debug, PartialEq, Eq, Hash)]
pub enum Join {
    And,
    Or,
    Xor,
}

impl Duplicate for Token {
    fn copy(&self) -> Result<Token, Memory> {
        match self {
            Token::Name(name) => Ok(Token::Name(name.copy()?)),
            Token::Word(word) => Ok(Token::Word(*word)),
            Token::Number(digits) => Ok(Token::Number(digits.copy()?)),
            Token::Text(text, double) => Ok(Token::Text(text.copy()?, *double)),
            Token::Sign(sign) => Ok(Token::Sign(*sign)),
        }
    }
}

impl Duplicate for Placed {
    fn copy(&self) -> Result<Placed, Memory> {
        Ok(Placed {
            token: self.token.copy()?,
            place: self.place,
        })
    }
}

#[cfg(test)]
mod tests {
    use super::*;
    use crate::lists::Sequence;
    use crate::words::word_of;
    use std::test::Fail;

    #[test]
    fn copies_a_token(rt: HostRuntime) -> Result<(), Fail> {
        let mut name = Bytes::new(rt.alloc());
        name.push(b'x')?;
        name.extend_from_slice(b"_1")?;
        let placed = Placed {
            token: Token::Name(name),
            place: Place { file: 0, line: 7 },
        };
        let copy = placed.copy()?;
        assert_eq!(rt; copy, placed);
        let mut names = Sequence::new(rt.alloc());
        names.push(Bytes::from_slice(rt.alloc(), b"m.zpl")?)?;
        assert_eq!(rt; names.copy()?, names);
        Ok(())
    }

    #[test]
    fn finds_words(rt: HostRuntime) {
        assert_eq!(rt; word_of(b"vabs"), Some(Word::WVabs));
        assert_eq!(rt; word_of(b"scale"), Some(Word::WScale));
        assert_eq!(rt; word_of(b"vsgn"), None);
    }
}
