//! Products, loops and sums.

ghost use Rattle.std.specs.Prelude.{◌≡◌, [], ◌∷◌, length, IfOk};
ghost use Rattle.zim_tree.specs.Levels.{products, sums};
ghost use Rattle.zim_parse_expression.specs.Outcome.{IsParsed, Nests};
ghost use Rattle.zim_parse_expression.specs.Parser as spec;
ghost use Rattle.zim_parse_expression.specs.Parser.{parse};
ghost use Rattle.zim_parse_expression.specs.Steps as steps;
ghost use Rattle.zim_parse_expression.specs.Turns as turns;
ghost use Rattle.zim_parse_expression.specs.Turns.{repeat, operand_turn};

use crate::failure::Failure;
use crate::grammar::{Grammar, Wanted};
use crate::next::{PRODUCT, PRODUCT_WITH_LOOP, SUM, word_in};
use crate::tokens::Tokens;
use crate::turns::{add, repeat};
use sqlite_items::{Boxed, Items};
use std::alloc::{AllocError, Global};
use zim_fault::{Duplicate, Place, Placed, Token, Word};
use zim_tree::{Class, Expr, class_of};

/// A product, unless the first operand stands alone.
fn multiplied(first: Boxed<Expr>, others: Items<(Place, Token, Expr)>) -> Expr
    ensures { result ≡ turns.multiplied first others }
{
    if others.len() == 0 {
        return first.into_inner();
    }
    Expr::Times(first, others)
}

/// A sum, unless the first operand stands alone.
fn added(first: Boxed<Expr>, others: Items<(Place, Token, Expr)>) -> Expr
    ensures { result ≡ turns.added first others }
{
    if others.len() == 0 {
        return first.into_inner();
    }
    Expr::Plus(first, others)
}

/// The list of one operand behind its operator.
fn one_operand(
    alloc: Global,
    place: Place,
    token: Token,
    operand: Expr,
) -> Result<Items<(Place, Token, Expr)>, AllocError>
    ensures { IfOk result (λ others. others ≡ (place, token, operand) ∷ []) }
{
    let mut others = Items::new(alloc);
    add(alloc, &mut others, (place, token, operand))?;
    Ok(others)
}

impl<F: Fn(Global, &mut Tokens<'_>, usize, Wanted) -> Result<Expr, Failure>> Grammar<F> {
    /// The next operator like `*` with its operand, if one comes next.
    #[tactic(auto, unfolding(crate::specs::Turns::operand_turn, crate::specs::Parser::and_then))]
    fn next_factor(&self, tokens: &mut Tokens<'_>) -> Result<Option<(Place, Token, Expr)>, Failure>
        requires { Nests self.now.depth (F.pre self.now.inner) (F.post self.now.inner) }
        ensures { IsParsed (operand_turn turns.as_operand products (spec.unary_of (parse self.now.depth)) tokens.old) result tokens.new }
    {
        let Some(operator) = tokens.operator(PRODUCT) else {
            return Ok(None);
        };
        let token = operator.token.copy()?;
        let operand = self.unary(tokens)?;
        Ok(Some((operator.place, token, operand)))
    }

    /// The operators like `*` that come next, each with its operand.
    fn factors(&self, tokens: &mut Tokens<'_>) -> Result<Items<(Place, Token, Expr)>, Failure>
        requires { Nests self.now.depth (F.pre self.now.inner) (F.post self.now.inner) }
        ensures { IsParsed (repeat (operand_turn turns.as_operand products (spec.unary_of (parse self.now.depth))) (length tokens.old) tokens.old) result tokens.new }
    {
        repeat(
            self.alloc,
            tokens,
            tokens.len(),
            |left| self.next_factor(left),
        )
    }

    /// Operands with operators like `*` between them, behind the first.
    #[tactic(auto, using(crate::proofs::TurnLaws::product_by_turns), unfolding(crate::specs::Parser::and_then))]
    fn product_behind(&self, tokens: &mut Tokens<'_>, first: Boxed<Expr>) -> Result<Expr, Failure>
        requires { Nests self.now.depth (F.pre self.now.inner) (F.post self.now.inner) }
        ensures { IsParsed (steps.chain_behind products (spec.unary_of (parse self.now.depth)) first tokens.old) result tokens.new }
    {
        let others = self.factors(tokens)?;
        Ok(multiplied(first, others))
    }

    /// Operands with operators like `*` between them.
    #[tactic(auto, using(crate::proofs::StepLemmas::chain_next), unfolding(crate::specs::Parser::and_then))]
    pub fn product(&self, tokens: &mut Tokens<'_>) -> Result<Expr, Failure>
        requires { Nests self.now.depth (F.pre self.now.inner) (F.post self.now.inner) }
        ensures { IsParsed (spec.products_of (parse self.now.depth) tokens.old) result tokens.new }
    {
        let first = self.unary(tokens)?;
        if tokens.begins_operator(PRODUCT) {
            return self.product_behind(tokens, Boxed::new(self.alloc, first)?);
        }
        Ok(first)
    }

    /// A loop behind its word.
    #[tactic(auto, unfolding(crate::specs::Steps::big_behind, crate::specs::Parser::and_then))]
    fn big_behind(&self, tokens: &mut Tokens<'_>, place: Place, word: Word) -> Result<Expr, Failure>
        requires { Nests self.now.depth (F.pre self.now.inner) (F.post self.now.inner) }
        ensures { IsParsed (steps.big_behind (parse self.now.depth) place word tokens.old) result tokens.new }
    {
        let index = self.index(tokens)?;
        let with_do = tokens.separator()?;
        let operand = self.inner_boxed(tokens, Wanted::Term)?;
        Ok(Expr::Big(place, word, index, with_do, operand))
    }

    /// A loop without a sign.
    #[tactic(auto, unfolding(crate::specs::Parser::big_of, crate::specs::Steps::big_behind, crate::specs::Parser::and_then))]
    fn big(&self, tokens: &mut Tokens<'_>) -> Result<Expr, Failure>
        requires { Nests self.now.depth (F.pre self.now.inner) (F.post self.now.inner) }
        ensures { IsParsed (spec.big_of (parse self.now.depth) tokens.old) result tokens.new }
    {
        let Some(first) = tokens.take() else {
            return Err(Failure::Syntax);
        };
        match class_of(&first.token) {
            Class::Loop | Class::MinOrMax => {
                self.big_behind(tokens, first.place, word_in(&first.token))
            }
            _ => Err(Failure::Syntax),
        }
    }

    /// A loop with or without a sign.
    #[tactic(auto, using(crate::proofs::StepLemmas::loop_next), unfolding(crate::specs::Parser::and_then))]
    fn signed_loop(&self, tokens: &mut Tokens<'_>) -> Result<Expr, Failure>
        requires { Nests self.now.depth (F.pre self.now.inner) (F.post self.now.inner) }
        ensures { IsParsed (spec.loop_of (parse self.now.depth) tokens.old) result tokens.new }
    {
        match tokens.eat_signed() {
            None => self.big(tokens),
            Some((place, minus)) => {
                let operand = Boxed::new(self.alloc, self.big(tokens)?)?;
                Ok(Expr::Signed(place, minus, operand))
            }
        }
    }

    /// A product and the loop behind this operator.
    #[tactic(auto, unfolding(crate::specs::Steps::loop_behind, crate::specs::Parser::and_then))]
    fn times_loop(
        &self,
        tokens: &mut Tokens<'_>,
        first: Boxed<Expr>,
        operator: &Placed,
    ) -> Result<Expr, Failure>
        requires { Nests self.now.depth (F.pre self.now.inner) (F.post self.now.inner) }
        ensures { IsParsed (steps.loop_behind (parse self.now.depth) first operator.now tokens.old) result tokens.new }
    {
        let token = operator.token.copy()?;
        let last = self.signed_loop(tokens)?;
        let others = one_operand(self.alloc, operator.place, token, last)?;
        Ok(multiplied(first, others))
    }

    /// An operand of a sum: a product, a loop, or a product with a loop as its last operand.
    #[tactic(auto, using(crate::proofs::StepLemmas::term_next), unfolding(crate::specs::Parser::term_of, crate::specs::Parser::and_then))]
    pub fn term(&self, tokens: &mut Tokens<'_>) -> Result<Expr, Failure>
        requires { Nests self.now.depth (F.pre self.now.inner) (F.post self.now.inner) }
        ensures { IsParsed (spec.term_of (parse self.now.depth) tokens.old) result tokens.new }
    {
        if tokens.opens() {
            return self.signed_loop(tokens);
        }
        let first = self.product(tokens)?;
        match tokens.operator(PRODUCT_WITH_LOOP) {
            None => Ok(first),
            Some(operator) => { self.times_loop(tokens, Boxed::new(self.alloc, first)?, operator) }
        }
    }

    /// The next operator like `+` with its operand, if one comes next.
    #[tactic(auto, unfolding(crate::specs::Turns::operand_turn, crate::specs::Parser::and_then))]
    fn next_summand(&self, tokens: &mut Tokens<'_>) -> Result<Option<(Place, Token, Expr)>, Failure>
        requires { Nests self.now.depth (F.pre self.now.inner) (F.post self.now.inner) }
        ensures { IsParsed (operand_turn turns.as_operand sums (spec.term_of (parse self.now.depth)) tokens.old) result tokens.new }
    {
        let Some(operator) = tokens.operator(SUM) else {
            return Ok(None);
        };
        let token = operator.token.copy()?;
        let operand = self.term(tokens)?;
        Ok(Some((operator.place, token, operand)))
    }

    /// The operators like `+` that come next, each with its operand.
    fn summands(&self, tokens: &mut Tokens<'_>) -> Result<Items<(Place, Token, Expr)>, Failure>
        requires { Nests self.now.depth (F.pre self.now.inner) (F.post self.now.inner) }
        ensures { IsParsed (repeat (operand_turn turns.as_operand sums (spec.term_of (parse self.now.depth))) (length tokens.old) tokens.old) result tokens.new }
    {
        repeat(
            self.alloc,
            tokens,
            tokens.len(),
            |left| self.next_summand(left),
        )
    }

    /// Operands with operators like `+` between them, behind the first.
    #[tactic(auto, using(crate::proofs::TurnLaws::sum_by_turns), unfolding(crate::specs::Parser::and_then))]
    fn sum_behind(&self, tokens: &mut Tokens<'_>, first: Boxed<Expr>) -> Result<Expr, Failure>
        requires { Nests self.now.depth (F.pre self.now.inner) (F.post self.now.inner) }
        ensures { IsParsed (steps.chain_behind sums (spec.term_of (parse self.now.depth)) first tokens.old) result tokens.new }
    {
        let others = self.summands(tokens)?;
        Ok(added(first, others))
    }

    /// Operands with operators like `+` between them.
    #[tactic(auto, using(crate::proofs::StepLemmas::chain_next), unfolding(crate::specs::Parser::and_then))]
    pub fn sum(&self, tokens: &mut Tokens<'_>) -> Result<Expr, Failure>
        requires { Nests self.now.depth (F.pre self.now.inner) (F.post self.now.inner) }
        ensures { IsParsed (spec.sum_of (parse self.now.depth) tokens.old) result tokens.new }
    {
        let first = self.term(tokens)?;
        if tokens.begins_operator(SUM) {
            return self.sum_behind(tokens, Boxed::new(self.alloc, first)?);
        }
        Ok(first)
    }
}
