ghost use Rattle.std.specs.Prelude.{◌≡◌, ◌∷◌, ◌<◌, ◌^◌, [], length, Some, None, MatchOption};
ghost use Rattle.zim_parse_expression.specs.Outcome.{IsParsed, Finds, class_next, found_next, is_less_start, terminal_test, sign_test, word_test};
ghost use Rattle.zim_parse_expression.specs.Steps.{operator_of, begins_operator, sees_class};
ghost use Rattle.zim_parse_expression.specs.Next as next;
ghost use Rattle.zim_parse_expression.specs.Parser as spec;
ghost use Rattle.zim_parse_expression.specs.StatementTokens as named;

use crate::failure::Failure;
use crate::next::{class_looseness, is_minus, is_sign, is_word, opens};
use crate::terminals::{Terminal, is_terminal};
use std::marker::Model;
use zim_fault::{Place, Placed, Sign, Token, Word};
use zim_tree::{Class, class_of};

/// The tokens that are left.
#[derive(Drop)]
pub struct Tokens<'a> {
    rest: &'a [Placed],
}

impl<'a> Model for Tokens<'a> {
    ghost use Rattle.zim_fault.specs.declared.tokens.Placed.{Placed};
    ghost use Rattle.std.specs.Prelude.{List};

    ghost Value = { List Placed };

    ghost view = { λ t. t.rest.now };
}

impl<'a> Tokens<'a> {
    pub fn new(rest: &'a [Placed]) -> Tokens<'a>
        ensures { result ≡ rest.now }
    {
        Tokens { rest }
    }

    /// How many are left.
    pub fn len(&self) -> usize
        ensures value { result ≡ length self.now }
        ensures small { result < 2 ^ 63 }
    {
        self.rest.len()
    }

    /// The class of the next token, if there is one.
    pub fn class(&self) -> Option<Class>
        ensures { result ≡ class_next self.now }
    {
        match self.rest {
            [] => None,
            [first, ..] => Some(class_of(&first.token)),
        }
    }

    /// Whether a `<` comes next.
    pub fn begins_less(&self) -> bool
        ensures { result ≡ is_less_start (next.start_of self.now) }
    {
        match self.rest {
            [] => false,
            [first, ..] => matches!(class_of(&first.token), Class::Less),
        }
    }

    /// Whether a loop, with or without a sign, comes next.
    pub fn opens(&self) -> bool
        ensures { result ≡ next.opens self.now }
    {
        opens(self.rest)
    }

    /// Takes the next token.
    pub fn take(&mut self) -> Option<&'a Placed>
        ensures { MatchOption result ((self.old ≡ []) × (self.new ≡ [])) (λ first. self.old ≡ first.now ∷ self.new) }
    {
        match self.rest {
            [] => None,
            [first, rest @ ..] => {
                self.rest = rest;
                Some(first)
            }
        }
    }

    /// Takes the next token where it is an operator that binds so loosely.
    pub fn operator(&mut self, looseness: usize) -> Option<&'a Placed>
        ensures { MatchOption result ((operator_of looseness self.old ≡ None) × (self.new ≡ self.old)) (λ first. operator_of looseness self.old ≡ Some (first.now, self.new)) }
    {
        match self.rest {
            [first, rest @ ..]
                if class_looseness(class_of(&first.token), opens(rest)) == looseness => {
                self.rest = rest;
                Some(first)
            }
            _ => None,
        }
    }

    /// Takes a sign where one comes next: its place, and whether it is `-`.
    pub fn eat_signed(&mut self) -> Option<(Place, bool)>
        ensures { spec.signed_of self.old ≡ (result, self.new) }
    {
        match self.rest {
            [first, rest @ ..] if matches!(class_of(&first.token), Class::PlusOrMinus) => {
                self.rest = rest;
                Some((first.place, is_minus(&first.token)))
            }
            _ => None,
        }
    }

    /// Whether an operator that binds so loosely comes next.
    pub fn begins_operator(&self, looseness: usize) -> bool
        ensures { result ≡ begins_operator looseness self.now }
    {
        match self.rest {
            [] => false,
            [first, rest @ ..] => {
                class_looseness(class_of(&first.token), opens(rest)) == looseness
            }
        }
    }

    /// Whether this terminal comes next.
    pub fn sees(&self, wanted: Terminal) -> bool
        ensures { result ≡ sees_class (terminal_test wanted) self.now }
    {
        match self.rest {
            [] => false,
            [first, ..] => is_terminal(wanted, class_of(&first.token)),
        }
    }

    /// Takes the next token where it is this terminal.
    pub fn eat(&mut self, wanted: Terminal) -> Option<Place>
        ensures { Finds (spec.expect (terminal_test wanted) self.old) result self.old self.new }
    {
        match self.rest {
            [first, rest @ ..] if is_terminal(wanted, class_of(&first.token)) => {
                self.rest = rest;
                Some(first.place)
            }
            _ => None,
        }
    }

    /// Takes the next token, which is to be this terminal.
    pub fn expect(&mut self, wanted: Terminal) -> Result<Place, Failure>
        ensures { IsParsed (spec.expect (terminal_test wanted) self.old) result self.new }
    {
        match self.eat(wanted) {
            Some(place) => Ok(place),
            None => Err(Failure::Syntax),
        }
    }

    /// Takes the next token where it is this sign.
    pub fn eat_sign(&mut self, wanted: Sign) -> Option<Place>
        ensures { Finds (named.expect_token (sign_test wanted) self.old) result self.old self.new }
    {
        match self.rest {
            [first, rest @ ..] if is_sign(wanted, &first.token) => {
                self.rest = rest;
                Some(first.place)
            }
            _ => None,
        }
    }

    /// Takes the next token, which is to be this sign.
    pub fn expect_sign(&mut self, wanted: Sign) -> Result<Place, Failure>
        ensures { IsParsed (named.expect_token (sign_test wanted) self.old) result self.new }
    {
        match self.eat_sign(wanted) {
            Some(place) => Ok(place),
            None => Err(Failure::Syntax),
        }
    }

    /// Takes the next token where it is this word.
    pub fn eat_word(&mut self, wanted: Word) -> Option<Place>
        ensures { Finds (named.expect_token (word_test wanted) self.old) result self.old self.new }
    {
        match self.rest {
            [first, rest @ ..] if is_word(wanted, &first.token) => {
                self.rest = rest;
                Some(first.place)
            }
            _ => None,
        }
    }

    /// Takes the next token, which is to be this word.
    pub fn expect_word(&mut self, wanted: Word) -> Result<Place, Failure>
        ensures { IsParsed (named.expect_token (word_test wanted) self.old) result self.new }
    {
        match self.eat_word(wanted) {
            Some(place) => Ok(place),
            None => Err(Failure::Syntax),
        }
    }

    /// Whether this word comes next.
    pub fn sees_word(&self, wanted: Word) -> bool
        ensures { result ≡ named.sees (word_test wanted) self.now }
    {
        match self.rest {
            [] => false,
            [first, ..] => is_word(wanted, &first.token),
        }
    }

    /// Whether this sign comes next.
    pub fn sees_sign(&self, wanted: Sign) -> bool
        ensures { result ≡ named.sees (sign_test wanted) self.now }
    {
        match self.rest {
            [] => false,
            [first, ..] => is_sign(wanted, &first.token),
        }
    }

    /// Whether `{` and `read` come next.
    pub fn begins_read(&self) -> bool
        ensures { result ≡ named.begins_read self.now }
    {
        match self.rest {
            [first, second, ..] => {
                is_sign(Sign::SLeftBrace, &first.token) && is_word(Word::WRead, &second.token)
            }
            _ => false,
        }
    }

    /// Takes `:` or `do`, and says whether it is `do`.
    pub fn separator(&mut self) -> Result<bool, Failure>
        ensures { IsParsed (spec.flag_of spec.separator_in self.old) result self.new }
    {
        let Some(first) = self.take() else {
            return Err(Failure::Syntax);
        };
        match first.token {
            Token::Sign(Sign::SColon) => Ok(false),
            Token::Word(Word::WDo) => Ok(true),
            _ => Err(Failure::Syntax),
        }
    }

    /// Takes a bar or `with` where one comes next, and says whether it is a bar.
    pub fn eat_condition(&mut self) -> Option<bool>
        ensures { Finds (spec.flag_of spec.condition_in self.old) result self.old self.new }
    {
        let [first, rest @ ..] = self.rest else {
            return None;
        };
        let bar = match first.token {
            Token::Sign(Sign::SBar) => true,
            Token::Word(Word::WWith) => false,
            _ => return None,
        };
        self.rest = rest;
        Some(bar)
    }

    /// Takes `..` or `to` where one comes next, and says whether it is `to`.
    pub fn eat_span(&mut self) -> Option<bool>
        ensures { Finds (spec.flag_of spec.span_in self.old) result self.old self.new }
    {
        let [first, rest @ ..] = self.rest else {
            return None;
        };
        let with_to = match first.token {
            Token::Sign(Sign::SDots) => false,
            Token::Word(Word::WTo) => true,
            _ => return None,
        };
        self.rest = rest;
        Some(with_to)
    }

    /// Takes an option's word of a `read` where one comes next, with its place.
    pub fn eat_option(&mut self) -> Option<(Place, Word)>
        ensures { MatchOption result ((found_next named.option_in self.old ≡ None) × (self.new ≡ self.old)) (λ x. found_next named.option_in self.old ≡ Some (x.0, x.1, self.new)) }
    {
        let [first, rest @ ..] = self.rest else {
            return None;
        };
        match first.token {
            Token::Word(word @ (Word::WSkip | Word::WUse | Word::WComment)) => {
                self.rest = rest;
                Some((first.place, word))
            }
            _ => None,
        }
    }

    /// Takes `>=` or `<=` where one comes next: its place, and whether it is `>=`.
    pub fn eat_limit(&mut self) -> Option<(Place, bool)>
        ensures { MatchOption result ((found_next named.limit_in self.old ≡ None) × (self.new ≡ self.old)) (λ x. found_next named.limit_in self.old ≡ Some (x.0, x.1, self.new)) }
    {
        let [first, rest @ ..] = self.rest else {
            return None;
        };
        let lower = match first.token {
            Token::Sign(Sign::SGreaterEqual) => true,
            Token::Sign(Sign::SLessEqual) => false,
            _ => return None,
        };
        self.rest = rest;
        Some((first.place, lower))
    }

    /// Takes the kind of a variable where one comes next.
    pub fn eat_kind(&mut self) -> Option<Word>
        ensures { named.kind_of self.old ≡ (result, self.new) }
    {
        let [first, rest @ ..] = self.rest else {
            return None;
        };
        match first.token {
            Token::Word(word @ (Word::WReal | Word::WInteger | Word::WBinary)) => {
                self.rest = rest;
                Some(word)
            }
            _ => None,
        }
    }

    /// The same tokens once more, to look ahead.
    pub fn ahead(&self) -> Tokens<'a>
        ensures { result ≡ self.now }
    {
        Tokens { rest: self.rest }
    }

    /// Goes on where another look has come.
    pub fn go_to(&mut self, ahead: Tokens<'a>)
        ensures { self.new ≡ ahead.entry }
    {
        self.rest = ahead.rest;
    }
}
