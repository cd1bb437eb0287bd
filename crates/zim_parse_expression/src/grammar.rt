//! The rules take the parser of what stands deeper as a parameter, so that each is proved by itself.

ghost use Rattle.zim_parse_expression.specs.Outcome.{IsParsed, Nests, level_wanted};
ghost use Rattle.zim_parse_expression.specs.Parser.{parse, at_level};

use crate::failure::Failure;
use crate::tokens::Tokens;
use sqlite_items::Boxed;
use std::alloc::Global;
use zim_tree::Expr;

/// The levels at which a rule begins anew inside brackets or behind a word.
#[derive(Clone, Copy)]
pub enum Wanted {
    Unary,
    Term,
    Sum,
    Disjunction,
    Whole,
}

#[derive(Clone, Copy)]
pub struct Grammar<F> {
    pub alloc: Global,
    /// How many levels deep `inner` still goes.
    pub depth: usize,
    pub inner: F,
}

impl<F: Fn(Global, &mut Tokens<'_>, usize, Wanted) -> Result<Expr, Failure>> Grammar<F> {
    /// An expression of a level that stands deeper.
    pub fn inner(&self, tokens: &mut Tokens<'_>, level: Wanted) -> Result<Expr, Failure>
        requires { Nests self.now.depth (F.pre self.now.inner) (F.post self.now.inner) }
        ensures { IsParsed (parse self.now.depth (level_wanted level) tokens.old) result tokens.new }
    {
        (self.inner)(self.alloc, tokens, self.depth, level)
    }

    /// The same in a box.
    pub fn inner_boxed(
        &self,
        tokens: &mut Tokens<'_>,
        level: Wanted,
    ) -> Result<Boxed<Expr>, Failure>
        requires { Nests self.now.depth (F.pre self.now.inner) (F.post self.now.inner) }
        ensures { IsParsed (parse self.now.depth (level_wanted level) tokens.old) result tokens.new }
    {
        Ok(Boxed::new(self.alloc, self.inner(tokens, level)?)?)
    }
}
