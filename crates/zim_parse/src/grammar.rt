//! The expressions of statements.

ghost use Rattle.zim_parse_expression.specs.Outcome.{IsParsed, level_wanted};
ghost use Rattle.zim_parse_expression.specs.Parser as parser;
ghost use Rattle.zim_parse_expression.specs.Parser.{parse};

use sqlite_items::{Boxed, Items};
use std::alloc::Global;
use zim_parse_expression::{
    Failure, Tokens, Wanted, arguments, expression, expressions, index, tuple,
};
use zim_tree::{Angle, Expr, Index};

/// The rules of statements.
#[derive(Clone, Copy)]
pub struct Grammar {
    pub alloc: Global,
    /// How many levels deep expressions stand at most.
    pub depth: usize,
}

impl Grammar {
    /// An expression of this level.
    pub fn expression(&self, tokens: &mut Tokens<'_>, level: Wanted) -> Result<Expr, Failure>
        ensures { IsParsed (parse self.now.depth (level_wanted level) tokens.old) result tokens.new }
    {
        expression(self.alloc, tokens, self.depth, level)
    }

    /// The same in a box.
    pub fn boxed(&self, tokens: &mut Tokens<'_>, level: Wanted) -> Result<Boxed<Expr>, Failure>
        ensures { IsParsed (parse self.now.depth (level_wanted level) tokens.old) result tokens.new }
    {
        Ok(Boxed::new(self.alloc, self.expression(tokens, level)?)?)
    }

    /// One or more expressions with commas between them.
    pub fn exprs(&self, tokens: &mut Tokens<'_>, level: Wanted) -> Result<Items<Expr>, Failure>
        ensures { IsParsed (parser.items_of (parse self.now.depth (level_wanted level)) tokens.old) result tokens.new }
    {
        expressions(self.alloc, tokens, self.depth, level)
    }

    /// Arguments, and `)`.
    pub fn arguments(&self, tokens: &mut Tokens<'_>) -> Result<Items<Expr>, Failure>
        ensures { IsParsed (parser.arguments (parse self.now.depth) tokens.old) result tokens.new }
    {
        arguments(self.alloc, tokens, self.depth)
    }

    /// `<a, b>`
    pub fn tuple(&self, tokens: &mut Tokens<'_>) -> Result<Angle, Failure>
        ensures { IsParsed (parser.tuple_of (parse self.now.depth) tokens.old) result tokens.new }
    {
        tuple(self.alloc, tokens, self.depth)
    }

    /// `<i, j> in set with condition`
    pub fn index(&self, tokens: &mut Tokens<'_>) -> Result<Boxed<Index>, Failure>
        ensures { IsParsed (parser.index_from (parse self.now.depth) tokens.old) result tokens.new }
    {
        index(self.alloc, tokens, self.depth)
    }
}
