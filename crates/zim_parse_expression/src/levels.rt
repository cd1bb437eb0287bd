//! Expressions of every level.

ghost use Rattle.zim_parse_expression.specs.Outcome.{IsParsed, Nests, level_wanted};
ghost use Rattle.zim_parse_expression.specs.Parser as spec;
ghost use Rattle.zim_parse_expression.specs.Parser.{parse};
ghost use Rattle.zim_parse_expression.specs.Steps as steps;

use crate::failure::Failure;
use crate::grammar::{Grammar, Wanted};
use crate::terminals::Terminal;
use crate::tokens::Tokens;
use sqlite_items::{Boxed, Items};
use std::alloc::Global;
use zim_fault::Place;
use zim_tree::{Angle, Expr, Index};

impl<F: Fn(Global, &mut Tokens<'_>, usize, Wanted) -> Result<Expr, Failure>> Grammar<F> {
    /// A `forall` behind its word.
    #[tactic(auto, unfolding(crate::specs::Steps::forall_behind, crate::specs::Parser::and_then))]
    fn forall(&self, tokens: &mut Tokens<'_>, place: Place) -> Result<Expr, Failure>
        requires { Nests self.now.depth (F.pre self.now.inner) (F.post self.now.inner) }
        ensures { IsParsed (steps.forall_behind (parse self.now.depth) place tokens.old) result tokens.new }
    {
        let index = self.index(tokens)?;
        let with_do = tokens.separator()?;
        let inside = self.inner_boxed(tokens, Wanted::Whole)?;
        Ok(Expr::Forall(place, index, with_do, inside))
    }

    /// An expression of any kind.
    #[tactic(auto, using(crate::proofs::StepLemmas::whole_next), unfolding(crate::specs::Parser::and_then))]
    fn whole(&self, tokens: &mut Tokens<'_>) -> Result<Expr, Failure>
        requires { Nests self.now.depth (F.pre self.now.inner) (F.post self.now.inner) }
        ensures { IsParsed (spec.expression_of (parse self.now.depth) tokens.old) result tokens.new }
    {
        match tokens.eat(Terminal::Forall) {
            None => self.disjunction(tokens),
            Some(place) => self.forall(tokens, place),
        }
    }

    /// An expression of this level.
    pub fn level(&self, tokens: &mut Tokens<'_>, level: Wanted) -> Result<Expr, Failure>
        requires { Nests self.now.depth (F.pre self.now.inner) (F.post self.now.inner) }
        ensures { IsParsed (spec.at_level (parse self.now.depth) (level_wanted level) tokens.old) result tokens.new }
    {
        match level {
            Wanted::Unary => self.unary(tokens),
            Wanted::Term => self.term(tokens),
            Wanted::Sum => self.sum(tokens),
            Wanted::Disjunction => self.disjunction(tokens),
            Wanted::Whole => self.whole(tokens),
        }
    }
}

/// An expression of this level, at most so many levels deep.
pub fn expression(
    alloc: Global,
    tokens: &mut Tokens<'_>,
    depth: usize,
    level: Wanted,
) -> Result<Expr, Failure>
    ensures { IsParsed (parse depth (level_wanted level) tokens.old) result tokens.new }
{
    if depth == 0 {
        return Err(Failure::Syntax);
    }
    Grammar {
        alloc,
        depth: depth - 1,
        inner: expression,
    }
    .level(tokens, level)
}

/// One or more expressions of this level with commas between them, at most so many levels deep.
pub fn expressions(
    alloc: Global,
    tokens: &mut Tokens<'_>,
    depth: usize,
    level: Wanted,
) -> Result<Items<Expr>, Failure>
    ensures { IsParsed (spec.items_of (parse depth (level_wanted level)) tokens.old) result tokens.new }
{
    let grammar = Grammar {
        alloc,
        depth,
        inner: expression,
    };
    grammar.exprs(tokens, level)
}

/// Arguments, and `)`, at most so many levels deep.
pub fn arguments(
    alloc: Global,
    tokens: &mut Tokens<'_>,
    depth: usize,
) -> Result<Items<Expr>, Failure>
    ensures { IsParsed (spec.arguments (parse depth) tokens.old) result tokens.new }
{
    let grammar = Grammar {
        alloc,
        depth,
        inner: expression,
    };
    grammar.arguments(tokens)
}

/// `<a, b>`, at most so many levels deep.
pub fn tuple(alloc: Global, tokens: &mut Tokens<'_>, depth: usize) -> Result<Angle, Failure>
    ensures { IsParsed (spec.tuple_of (parse depth) tokens.old) result tokens.new }
{
    let grammar = Grammar {
        alloc,
        depth,
        inner: expression,
    };
    grammar.tuple(tokens)
}

/// `<i, j> in set with condition`, at most so many levels deep.
pub fn index(alloc: Global, tokens: &mut Tokens<'_>, depth: usize) -> Result<Boxed<Index>, Failure>
    ensures { IsParsed (spec.index_from (parse depth) tokens.old) result tokens.new }
{
    let grammar = Grammar {
        alloc,
        depth,
        inner: expression,
    };
    grammar.index(tokens)
}
