//! What binds closest: literals, names, calls, brackets and `if`.

ghost use Rattle.std.specs.Prelude.{[], ◌∷◌};
ghost use Rattle.zim_parse_expression.specs.Outcome.{IsParsed, Nests};
ghost use Rattle.zim_parse_expression.specs.Parser as spec;
ghost use Rattle.zim_parse_expression.specs.Next.{is_else};
ghost use Rattle.zim_parse_expression.specs.Parser.{parse, expect};
ghost use Rattle.zim_parse_expression.specs.Steps as steps;
ghost use Rattle.zim_tree.specs.Classes.{word_class, sign_class};

use crate::failure::Failure;
use crate::grammar::{Grammar, Wanted};
use crate::terminals::Terminal;
use crate::tokens::Tokens;
use sqlite_items::{Boxed, Items};
use std::alloc::Global;
use zim_fault::{Bytes, Duplicate, Place, Sign, Token, Word};
use zim_tree::{Angle, Body, Class, Expr, class_of};

impl<F: Fn(Global, &mut Tokens<'_>, usize, Wanted) -> Result<Expr, Failure>> Grammar<F> {
    /// The end of a span, and its step.
    #[tactic(auto, unfolding(crate::specs::Steps::span_behind, crate::specs::Parser::and_then))]
    fn span_end(
        &self,
        tokens: &mut Tokens<'_>,
        from: Boxed<Expr>,
        with_to: bool,
    ) -> Result<Body, Failure>
        requires { Nests self.now.depth (F.pre self.now.inner) (F.post self.now.inner) }
        ensures { IsParsed (steps.span_behind (parse self.now.depth) from with_to tokens.old) result tokens.new }
    {
        let to = self.inner_boxed(tokens, Wanted::Sum)?;
        if tokens.eat(Terminal::By).is_none() {
            return Ok(Body::Span(from, with_to, to, None));
        }
        let by = self.inner_boxed(tokens, Wanted::Sum)?;
        Ok(Body::Span(from, with_to, to, Some(by)))
    }

    /// What stands in braces behind its first expression: a span or members.
    #[tactic(auto, unfolding(crate::specs::Steps::body_end, crate::specs::Steps::span_behind, crate::specs::Parser::and_then))]
    fn body_behind(&self, tokens: &mut Tokens<'_>, first: Expr) -> Result<Body, Failure>
        requires { Nests self.now.depth (F.pre self.now.inner) (F.post self.now.inner) }
        ensures { IsParsed (steps.body_end (parse self.now.depth) first tokens.old) result tokens.new }
    {
        match tokens.eat_span() {
            None => Ok(Body::Members(self.exprs_behind(tokens, Wanted::Sum, first)?)),
            Some(with_to) => self.span_end(tokens, Boxed::new(self.alloc, first)?, with_to),
        }
    }

    /// What stands in braces and begins with a tuple: tuples or an index.
    #[tactic(auto, unfolding(crate::specs::Steps::body_less, crate::specs::Parser::and_then))]
    fn body_tuple(&self, tokens: &mut Tokens<'_>) -> Result<Body, Failure>
        requires { Nests self.now.depth (F.pre self.now.inner) (F.post self.now.inner) }
        ensures { IsParsed (steps.body_less (parse self.now.depth) tokens.old) result tokens.new }
    {
        let tuple = self.tuple(tokens)?;
        match tokens.eat(Terminal::In) {
            None => Ok(Body::Tuples(self.tuples_behind(tokens, tuple)?)),
            Some(place) => {
                let index = self.index_behind(tokens, tuple, place)?;
                Ok(Body::Those(Boxed::new(self.alloc, index)?))
            }
        }
    }

    /// What stands in braces.
    #[tactic(auto, using(crate::proofs::StepLemmas::body_next), unfolding(crate::specs::Steps::body_less, crate::specs::Steps::body_end, crate::specs::Parser::and_then))]
    fn body(&self, tokens: &mut Tokens<'_>) -> Result<Body, Failure>
        requires { Nests self.now.depth (F.pre self.now.inner) (F.post self.now.inner) }
        ensures { IsParsed (spec.body_of (parse self.now.depth) tokens.old) result tokens.new }
    {
        match tokens.class() {
            None => Err(Failure::Syntax),
            Some(Class::RightBrace) => Ok(Body::Empty),
            Some(Class::Less) => self.body_tuple(tokens),
            Some(_) => {
                let first = self.inner(tokens, Wanted::Sum)?;
                self.body_behind(tokens, first)
            }
        }
    }

    /// A call behind its `(`.
    #[tactic(auto, unfolding(crate::specs::Steps::call_behind, crate::specs::Parser::and_then))]
    fn call(&self, tokens: &mut Tokens<'_>, place: Place, name: Bytes) -> Result<Expr, Failure>
        requires { Nests self.now.depth (F.pre self.now.inner) (F.post self.now.inner) }
        ensures { IsParsed (steps.call_behind (parse self.now.depth) place name tokens.old) result tokens.new }
    {
        if tokens.eat(Terminal::RightParen).is_some() {
            return Ok(Expr::Call(place, name, Items::new(self.alloc)));
        }
        let given = self.arguments(tokens)?;
        Ok(Expr::Call(place, name, given))
    }

    /// An item of an indexed name behind its `[`.
    #[tactic(auto, unfolding(crate::specs::Steps::item_behind, crate::specs::Parser::and_then))]
    fn item(&self, tokens: &mut Tokens<'_>, place: Place, name: Bytes) -> Result<Expr, Failure>
        requires { Nests self.now.depth (F.pre self.now.inner) (F.post self.now.inner) }
        ensures { IsParsed (steps.item_behind (parse self.now.depth) place name tokens.old) result tokens.new }
    {
        let index = self.exprs(tokens, Wanted::Sum)?;
        tokens.expect(Terminal::RightBracket)?;
        Ok(Expr::Item(place, name, index))
    }

    /// What begins with this name.
    #[tactic(auto, unfolding(crate::specs::Parser::named, crate::specs::Steps::call_behind, crate::specs::Steps::item_behind, crate::specs::Parser::and_then))]
    fn named(&self, tokens: &mut Tokens<'_>, place: Place, name: Bytes) -> Result<Expr, Failure>
        requires { Nests self.now.depth (F.pre self.now.inner) (F.post self.now.inner) }
        ensures { IsParsed (spec.named (parse self.now.depth) place name tokens.old) result tokens.new }
    {
        match tokens.class() {
            Some(Class::LeftBracket) => {
                tokens.take();
                self.item(tokens, place, name)
            }
            Some(Class::LeftParen) => {
                tokens.take();
                self.call(tokens, place, name)
            }
            _ => Ok(Expr::Name(place, name)),
        }
    }

    /// The part behind `else`, if there is one, and `end`.
    #[tactic(auto, unfolding(crate::specs::Steps::otherwise, crate::specs::Parser::and_then))]
    fn otherwise(&self, tokens: &mut Tokens<'_>) -> Result<Option<Boxed<Expr>>, Failure>
        requires { Nests self.now.depth (F.pre self.now.inner) (F.post self.now.inner) }
        ensures { IsParsed (steps.otherwise (parse self.now.depth) tokens.old) result tokens.new }
    {
        if tokens.eat(Terminal::Else).is_none() {
            tokens.expect(Terminal::End)?;
            return Ok(None);
        }
        let otherwise = self.inner_boxed(tokens, Wanted::Whole)?;
        tokens.expect(Terminal::End)?;
        Ok(Some(otherwise))
    }

    /// The end of an `if` or `vif` behind its first branch.
    #[tactic(auto, using(crate::proofs::StepLemmas::if_otherwise), unfolding(crate::specs::Parser::and_then))]
    fn choice_end(
        &self,
        tokens: &mut Tokens<'_>,
        place: Place,
        vif: bool,
        test: Boxed<Expr>,
        branch: Boxed<Expr>,
    ) -> Result<Expr, Failure>
        requires { Nests self.now.depth (F.pre self.now.inner) (F.post self.now.inner) }
        ensures { IsParsed (spec.if_end (parse self.now.depth) place vif test branch (expect is_else tokens.old) tokens.old) result tokens.new }
    {
        let otherwise = self.otherwise(tokens)?;
        Ok(Expr::If(place, vif, test, branch, otherwise))
    }

    /// An `if` or `vif` behind its word.
    #[tactic(auto, unfolding(crate::specs::Parser::if_from, crate::specs::Parser::and_then))]
    fn choice(&self, tokens: &mut Tokens<'_>, place: Place, vif: bool) -> Result<Expr, Failure>
        requires { Nests self.now.depth (F.pre self.now.inner) (F.post self.now.inner) }
        ensures { IsParsed (spec.if_from (parse self.now.depth) place vif tokens.old) result tokens.new }
    {
        let test = self.inner_boxed(tokens, Wanted::Disjunction)?;
        tokens.expect(Terminal::Then)?;
        let branch = self.inner_boxed(tokens, Wanted::Whole)?;
        self.choice_end(tokens, place, vif, test, branch)
    }

    /// A function behind its word.
    #[tactic(auto, unfolding(crate::specs::Parser::function_from, crate::specs::Parser::and_then))]
    fn function(&self, tokens: &mut Tokens<'_>, place: Place, word: Word) -> Result<Expr, Failure>
        requires { Nests self.now.depth (F.pre self.now.inner) (F.post self.now.inner) }
        ensures { IsParsed (spec.function_from (parse self.now.depth) place word tokens.old) result tokens.new }
    {
        tokens.expect(Terminal::LeftParen)?;
        let given = self.arguments(tokens)?;
        Ok(Expr::Func(place, word, given))
    }

    /// A projection behind its word.
    #[tactic(auto, unfolding(crate::specs::Parser::projection_from, crate::specs::Parser::and_then))]
    fn projection(&self, tokens: &mut Tokens<'_>, place: Place) -> Result<Expr, Failure>
        requires { Nests self.now.depth (F.pre self.now.inner) (F.post self.now.inner) }
        ensures { IsParsed (spec.projection_from (parse self.now.depth) place tokens.old) result tokens.new }
    {
        tokens.expect(Terminal::LeftParen)?;
        let set = self.inner_boxed(tokens, Wanted::Disjunction)?;
        tokens.expect(Terminal::Comma)?;
        let positions = self.tuple(tokens)?;
        tokens.expect(Terminal::RightParen)?;
        Ok(Expr::Proj(place, set, positions))
    }

    /// What begins with this word.
    #[tactic(auto, unfolding(crate::specs::Parser::and_then))]
    fn worded(&self, tokens: &mut Tokens<'_>, place: Place, word: Word) -> Result<Expr, Failure>
        requires { Nests self.now.depth (F.pre self.now.inner) (F.post self.now.inner) }
        ensures { IsParsed (spec.from_word (parse self.now.depth) place word (word_class word) tokens.old) result tokens.new }
    {
        match class_of(&Token::Word(word)) {
            Class::Truth => Ok(Expr::Truth(place, matches!(word, Word::WTrue))),
            Class::Infinity => Ok(Expr::Infinity(place)),
            Class::Function | Class::MinOrMax => self.function(tokens, place, word),
            Class::Proj => self.projection(tokens, place),
            Class::IfOrVif => self.choice(tokens, place, matches!(word, Word::WVif)),
            _ => Err(Failure::Syntax),
        }
    }

    /// What begins with this sign.
    #[tactic(auto, unfolding(crate::specs::Parser::and_then))]
    fn bracketed(&self, tokens: &mut Tokens<'_>, place: Place, sign: Sign) -> Result<Expr, Failure>
        requires { Nests self.now.depth (F.pre self.now.inner) (F.post self.now.inner) }
        ensures { IsParsed (spec.sign_at (parse self.now.depth) place (sign_class sign) tokens.old) result tokens.new }
    {
        match sign {
            Sign::SLeftParen => {
                let inner = self.inner_boxed(tokens, Wanted::Disjunction)?;
                tokens.expect(Terminal::RightParen)?;
                Ok(Expr::Paren(place, inner))
            }
            Sign::SLeftBrace => {
                let body = Boxed::new(self.alloc, self.body(tokens)?)?;
                tokens.expect(Terminal::RightBrace)?;
                Ok(Expr::Braces(place, body))
            }
            _ => Err(Failure::Syntax),
        }
    }

    /// What binds closest.
    #[tactic(auto, unfolding(crate::specs::Parser::primary_of, crate::specs::Parser::and_then))]
    pub fn primary(&self, tokens: &mut Tokens<'_>) -> Result<Expr, Failure>
        requires { Nests self.now.depth (F.pre self.now.inner) (F.post self.now.inner) }
        ensures { IsParsed (spec.primary_of (parse self.now.depth) tokens.old) result tokens.new }
    {
        let Some(first) = tokens.take() else {
            return Err(Failure::Syntax);
        };
        match &first.token {
            Token::Number(digits) => Ok(Expr::Number(first.place, digits.copy()?)),
            Token::Text(text, double) => Ok(Expr::Text(first.place, text.copy()?, *double)),
            Token::Name(name) => self.named(tokens, first.place, name.copy()?),
            Token::Word(word) => self.worded(tokens, first.place, *word),
            Token::Sign(sign) => self.bracketed(tokens, first.place, *sign),
        }
    }
}
