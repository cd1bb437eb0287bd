//! Lists with commas, tuples and indices.

ghost use Rattle.std.specs.Prelude.{length};
ghost use Rattle.zim_parse_expression.specs.Outcome.{IsParsed, Nests, level_wanted};
ghost use Rattle.zim_parse_expression.specs.Parser as spec;
ghost use Rattle.zim_parse_expression.specs.Parser.{parse};

use crate::failure::Failure;
use crate::grammar::{Grammar, Wanted};
use crate::terminals::Terminal;
use crate::tokens::Tokens;
use crate::turns::{items_behind, items_of};
use sqlite_items::{Boxed, Items};
use std::alloc::Global;
use zim_fault::Place;
use zim_tree::{Angle, Expr, Index};

impl<F: Fn(Global, &mut Tokens<'_>, usize, Wanted) -> Result<Expr, Failure>> Grammar<F> {
    /// The expressions with commas between them of which the first was read.
    pub fn exprs_behind(
        &self,
        tokens: &mut Tokens<'_>,
        level: Wanted,
        first: Expr,
    ) -> Result<Items<Expr>, Failure>
        requires { Nests self.now.depth (F.pre self.now.inner) (F.post self.now.inner) }
        ensures { IsParsed (spec.items_behind (parse self.now.depth (level_wanted level)) (length tokens.old) first tokens.old) result tokens.new }
    {
        items_behind(self.alloc, tokens, first, |left| self.inner(left, level))
    }

    /// One or more expressions with commas between them.
    pub fn exprs(&self, tokens: &mut Tokens<'_>, level: Wanted) -> Result<Items<Expr>, Failure>
        requires { Nests self.now.depth (F.pre self.now.inner) (F.post self.now.inner) }
        ensures { IsParsed (spec.items_of (parse self.now.depth (level_wanted level)) tokens.old) result tokens.new }
    {
        items_of(self.alloc, tokens, |left| self.inner(left, level))
    }

    /// Arguments, and `)`.
    #[tactic(auto, unfolding(crate::specs::Parser::arguments, crate::specs::Parser::and_then))]
    pub fn arguments(&self, tokens: &mut Tokens<'_>) -> Result<Items<Expr>, Failure>
        requires { Nests self.now.depth (F.pre self.now.inner) (F.post self.now.inner) }
        ensures { IsParsed (spec.arguments (parse self.now.depth) tokens.old) result tokens.new }
    {
        let given = self.exprs(tokens, Wanted::Disjunction)?;
        tokens.expect(Terminal::RightParen)?;
        Ok(given)
    }

    /// `<a, b>`
    #[tactic(auto, unfolding(crate::specs::Parser::tuple_of, crate::specs::Parser::and_then))]
    pub fn tuple(&self, tokens: &mut Tokens<'_>) -> Result<Angle, Failure>
        requires { Nests self.now.depth (F.pre self.now.inner) (F.post self.now.inner) }
        ensures { IsParsed (spec.tuple_of (parse self.now.depth) tokens.old) result tokens.new }
    {
        let place = tokens.expect(Terminal::Less)?;
        let items = self.exprs(tokens, Wanted::Sum)?;
        tokens.expect(Terminal::Greater)?;
        Ok(Angle { place, items })
    }

    /// The tuples with commas between them of which the first was read.
    pub fn tuples_behind(
        &self,
        tokens: &mut Tokens<'_>,
        first: Angle,
    ) -> Result<Items<Angle>, Failure>
        requires { Nests self.now.depth (F.pre self.now.inner) (F.post self.now.inner) }
        ensures { IsParsed (spec.items_behind (spec.tuple_of (parse self.now.depth)) (length tokens.old) first tokens.old) result tokens.new }
    {
        items_behind(self.alloc, tokens, first, |left| self.tuple(left))
    }

    /// The set of an index and its condition, behind its `in`.
    #[tactic(auto, unfolding(crate::specs::Parser::index_behind, crate::specs::Parser::and_then))]
    pub fn index_behind(
        &self,
        tokens: &mut Tokens<'_>,
        tuple: Angle,
        place: Place,
    ) -> Result<Index, Failure>
        requires { Nests self.now.depth (F.pre self.now.inner) (F.post self.now.inner) }
        ensures { IsParsed (spec.index_behind (parse self.now.depth) tuple place tokens.old) result tokens.new }
    {
        let set = self.inner_boxed(tokens, Wanted::Sum)?;
        match tokens.eat_condition() {
            None => Ok(Index {
                place,
                tuple,
                set,
                cond: None,
            }),
            Some(bar) => {
                let cond = self.inner_boxed(tokens, Wanted::Disjunction)?;
                Ok(Index {
                    place,
                    tuple,
                    set,
                    cond: Some((bar, cond)),
                })
            }
        }
    }

    /// `<i, j> in set with condition`
    #[tactic(auto, unfolding(crate::specs::Parser::index_from, crate::specs::Parser::and_then))]
    pub fn index(&self, tokens: &mut Tokens<'_>) -> Result<Boxed<Index>, Failure>
        requires { Nests self.now.depth (F.pre self.now.inner) (F.post self.now.inner) }
        ensures { IsParsed (spec.index_from (parse self.now.depth) tokens.old) result tokens.new }
    {
        let tuple = self.tuple(tokens)?;
        let place = tokens.expect(Terminal::In)?;
        let index = self.index_behind(tokens, tuple, place)?;
        Ok(Boxed::new(self.alloc, index)?)
    }
}
