ghost use Rattle.std.specs.Prelude.{◌≡◌, [], ◌∷◌, if◌then◌else◌, IfOk, IsOk};
ghost use Rattle.zim_spelling.specs.Speller.{Spells};
ghost use Rattle.zim_tree.specs.Spelling as spec;

use std::alloc::Global;
use zim_fault::{Bytes, Duplicate, Memory, Sequence, Sign, Token, Word};

/// The tokens that were put so far. After a put that failed nothing more is put, so who spells a
/// large tree looks at the outcome once, at the end.
#[derive(Drop)]
pub(crate) struct Speller {
    tokens: Sequence<Token>,
    outcome: Result<(), Memory>,
}

impl Speller {
    /// No tokens yet.
    pub(crate) fn new(alloc: Global) -> Speller
        ensures { result.tokens ≡ [] }
    {
        Speller {
            tokens: Sequence::new(alloc),
            outcome: Ok(()),
        }
    }

    /// Puts a token at the end, unless an earlier put failed.
    pub(crate) fn put(&mut self, token: Token)
        ensures { Spells self.old self.new (token ∷ []) }
    {
        if let Ok(()) = self.outcome {
            self.outcome = self.tokens.push(token);
        }
    }

    /// Puts a word at the end.
    pub(crate) fn put_word(&mut self, word: Word)
        ensures { Spells self.old self.new (spec.a_word word) }
    {
        self.put(Token::Word(word));
    }

    /// Puts one of two words at the end: the first where the flag is up.
    pub(crate) fn put_one_word(&mut self, first: bool, yes: Word, no: Word)
        ensures { Spells self.old self.new (spec.a_word (if first then yes else no)) }
    {
        self.put_word(if first { yes } else { no });
    }

    /// Puts a sign at the end.
    pub(crate) fn put_sign(&mut self, sign: Sign)
        ensures { Spells self.old self.new (spec.a_sign sign) }
    {
        self.put(Token::Sign(sign));
    }

    /// Puts one of two signs at the end: the first where the flag is up.
    pub(crate) fn put_one_sign(&mut self, first: bool, yes: Sign, no: Sign)
        ensures { Spells self.old self.new (spec.a_sign (if first then yes else no)) }
    {
        self.put_sign(if first { yes } else { no });
    }

    /// Puts a name at the end.
    pub(crate) fn put_name(&mut self, name: &Bytes)
        ensures { Spells self.old self.new (Token.Name name.now ∷ []) }
    {
        match name.copy() {
            Ok(name) => self.put(Token::Name(name)),
            Err(memory) => self.outcome = Err(memory),
        }
    }

    /// Puts a number at the end.
    pub(crate) fn put_number(&mut self, digits: &Bytes)
        ensures { Spells self.old self.new (Token.Number digits.now ∷ []) }
    {
        match digits.copy() {
            Ok(digits) => self.put(Token::Number(digits)),
            Err(memory) => self.outcome = Err(memory),
        }
    }

    /// Puts a string at the end.
    pub(crate) fn put_text(&mut self, text: &Bytes, double: bool)
        ensures { Spells self.old self.new (Token.Text text.now double ∷ []) }
    {
        match text.copy() {
            Ok(text) => self.put(Token::Text(text, double)),
            Err(memory) => self.outcome = Err(memory),
        }
    }

    /// Puts an equal token at the end.
    pub(crate) fn put_copy(&mut self, token: &Token)
        ensures { Spells self.old self.new (token.now ∷ []) }
    {
        match token.copy() {
            Ok(token) => self.put(token),
            Err(memory) => self.outcome = Err(memory),
        }
    }

    /// The tokens, if no put failed.
    pub(crate) fn finish(self) -> Result<Vec<Token>, Memory>
        ensures { IfOk result (λ made. IsOk self.outcome × (made.items ≡ self.tokens)) }
    {
        let Speller { tokens, outcome } = self;
        outcome?;
        Ok(tokens.into_vec())
    }
}
