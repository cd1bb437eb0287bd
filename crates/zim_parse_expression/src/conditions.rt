//! Comparisons and what joins them.

ghost use Rattle.std.specs.Prelude.{◌≡◌, length};
ghost use Rattle.zim_tree.specs.Levels as level;
ghost use Rattle.zim_tree.specs.Levels.{relations, conjunctions, disjunctions};
ghost use Rattle.zim_parse_expression.specs.Outcome.{IsParsed, Nests};
ghost use Rattle.zim_parse_expression.specs.Parser as spec;
ghost use Rattle.zim_parse_expression.specs.Parser.{parse};
ghost use Rattle.zim_parse_expression.specs.Steps as steps;
ghost use Rattle.zim_parse_expression.specs.Turns as turns;
ghost use Rattle.zim_parse_expression.specs.Turns.{repeat, operand_turn};

use crate::failure::Failure;
use crate::grammar::{Grammar, Wanted};
use crate::next::{CONJUNCTION, DISJUNCTION, RELATION};
use crate::terminals::Terminal;
use crate::tokens::Tokens;
use crate::turns::repeat;
use sqlite_items::{Boxed, Items};
use std::alloc::Global;
use zim_fault::{Place, Relation, Sign, Token, Word};
use zim_tree::Expr;

/// The relation that a sign spells.
fn relation_of(token: &Token) -> Relation
    ensures { result ≡ level.relation_of token.now }
{
    match token {
        Token::Sign(Sign::SLess) => Relation::LessThan,
        Token::Sign(Sign::SLessEqual) => Relation::AtMost,
        Token::Sign(Sign::SEqual) => Relation::EqualTo,
        Token::Sign(Sign::SNotEqual) => Relation::NotEqualTo,
        Token::Sign(Sign::SGreaterEqual) => Relation::AtLeast,
        _ => Relation::GreaterThan,
    }
}

/// Whether a token is `xor`.
fn is_xor(token: &Token) -> bool
    ensures { result ≡ level.is_xor token.now }
{
    matches!(token, Token::Word(Word::WXor))
}

/// A comparison, unless the first operand stands alone.
fn related(first: Boxed<Expr>, others: Items<(Place, Relation, Expr)>) -> Expr
    ensures { result ≡ turns.comparison first others }
{
    if others.len() == 0 {
        return first.into_inner();
    }
    Expr::Compare(first, others)
}

/// A conjunction, unless the first operand stands alone.
fn both(first: Boxed<Expr>, others: Items<(Place, Expr)>) -> Expr
    ensures { result ≡ turns.both first others }
{
    if others.len() == 0 {
        return first.into_inner();
    }
    Expr::And(first, others)
}

/// A disjunction, unless the first operand stands alone.
fn either(first: Boxed<Expr>, others: Items<(Place, bool, Expr)>) -> Expr
    ensures { result ≡ turns.either first others }
{
    if others.len() == 0 {
        return first.into_inner();
    }
    Expr::Or(first, others)
}

impl<F: Fn(Global, &mut Tokens<'_>, usize, Wanted) -> Result<Expr, Failure>> Grammar<F> {
    /// The next relation with its operand, if one comes next.
    #[tactic(auto, unfolding(crate::specs::Turns::operand_turn, crate::specs::Parser::and_then))]
    fn next_compared(
        &self,
        tokens: &mut Tokens<'_>,
    ) -> Result<Option<(Place, Relation, Expr)>, Failure>
        requires { Nests self.now.depth (F.pre self.now.inner) (F.post self.now.inner) }
        ensures { IsParsed (operand_turn turns.as_compared relations (spec.sum_of (parse self.now.depth)) tokens.old) result tokens.new }
    {
        let Some(operator) = tokens.operator(RELATION) else {
            return Ok(None);
        };
        let operand = self.sum(tokens)?;
        Ok(Some((operator.place, relation_of(&operator.token), operand)))
    }

    /// The relations that come next, at most two, each with its operand.
    fn compared(&self, tokens: &mut Tokens<'_>) -> Result<Items<(Place, Relation, Expr)>, Failure>
        requires { Nests self.now.depth (F.pre self.now.inner) (F.post self.now.inner) }
        ensures { IsParsed (repeat (operand_turn turns.as_compared relations (spec.sum_of (parse self.now.depth))) 2 tokens.old) result tokens.new }
    {
        repeat(self.alloc, tokens, 2, |left| self.next_compared(left))
    }

    /// A membership.
    #[tactic(auto, unfolding(crate::specs::Parser::member_of, crate::specs::Parser::and_then))]
    fn member(&self, tokens: &mut Tokens<'_>) -> Result<Expr, Failure>
        requires { Nests self.now.depth (F.pre self.now.inner) (F.post self.now.inner) }
        ensures { IsParsed (spec.member_of (parse self.now.depth) tokens.old) result tokens.new }
    {
        let tuple = self.tuple(tokens)?;
        let place = tokens.expect(Terminal::In)?;
        let set = Boxed::new(self.alloc, self.sum(tokens)?)?;
        Ok(Expr::Member(place, tuple, set))
    }

    /// Operands with relations between them, behind the first.
    #[tactic(auto, using(crate::proofs::TurnLaws::relation_by_turns), unfolding(crate::specs::Parser::and_then))]
    fn relation_behind(&self, tokens: &mut Tokens<'_>, first: Boxed<Expr>) -> Result<Expr, Failure>
        requires { Nests self.now.depth (F.pre self.now.inner) (F.post self.now.inner) }
        ensures { IsParsed (steps.chain_behind relations (spec.sum_of (parse self.now.depth)) first tokens.old) result tokens.new }
    {
        let others = self.compared(tokens)?;
        Ok(related(first, others))
    }

    /// Operands with relations between them.
    #[tactic(auto, using(crate::proofs::StepLemmas::chain_next), unfolding(crate::specs::Parser::and_then))]
    fn relation(&self, tokens: &mut Tokens<'_>) -> Result<Expr, Failure>
        requires { Nests self.now.depth (F.pre self.now.inner) (F.post self.now.inner) }
        ensures { IsParsed (spec.chain_of relations (spec.sum_of (parse self.now.depth)) tokens.old) result tokens.new }
    {
        let first = self.sum(tokens)?;
        if tokens.begins_operator(RELATION) {
            return self.relation_behind(tokens, Boxed::new(self.alloc, first)?);
        }
        Ok(first)
    }

    /// A membership or a comparison.
    #[tactic(auto, using(crate::proofs::StepLemmas::comparison_next), unfolding(crate::specs::Parser::and_then))]
    fn comparison(&self, tokens: &mut Tokens<'_>) -> Result<Expr, Failure>
        requires { Nests self.now.depth (F.pre self.now.inner) (F.post self.now.inner) }
        ensures { IsParsed (spec.comparison_of (parse self.now.depth) tokens.old) result tokens.new }
    {
        if tokens.begins_less() {
            self.member(tokens)
        } else {
            self.relation(tokens)
        }
    }

    /// A comparison with or without a `not`.
    #[tactic(auto, using(crate::proofs::StepLemmas::negation_next), unfolding(crate::specs::Parser::and_then))]
    fn negation(&self, tokens: &mut Tokens<'_>) -> Result<Expr, Failure>
        requires { Nests self.now.depth (F.pre self.now.inner) (F.post self.now.inner) }
        ensures { IsParsed (spec.negation_of (parse self.now.depth) tokens.old) result tokens.new }
    {
        match tokens.eat(Terminal::Not) {
            None => self.comparison(tokens),
            Some(place) => {
                let operand = Boxed::new(self.alloc, self.comparison(tokens)?)?;
                Ok(Expr::Not(place, operand))
            }
        }
    }

    /// The next `and` with its operand, if one comes next.
    #[tactic(auto, unfolding(crate::specs::Turns::operand_turn, crate::specs::Parser::and_then))]
    fn next_conjunct(&self, tokens: &mut Tokens<'_>) -> Result<Option<(Place, Expr)>, Failure>
        requires { Nests self.now.depth (F.pre self.now.inner) (F.post self.now.inner) }
        ensures { IsParsed (operand_turn turns.as_conjunct conjunctions (spec.negation_of (parse self.now.depth)) tokens.old) result tokens.new }
    {
        let Some(operator) = tokens.operator(CONJUNCTION) else {
            return Ok(None);
        };
        let operand = self.negation(tokens)?;
        Ok(Some((operator.place, operand)))
    }

    /// Each `and` that comes next, with its operand.
    fn conjuncts(&self, tokens: &mut Tokens<'_>) -> Result<Items<(Place, Expr)>, Failure>
        requires { Nests self.now.depth (F.pre self.now.inner) (F.post self.now.inner) }
        ensures { IsParsed (repeat (operand_turn turns.as_conjunct conjunctions (spec.negation_of (parse self.now.depth))) (length tokens.old) tokens.old) result tokens.new }
    {
        repeat(
            self.alloc,
            tokens,
            tokens.len(),
            |left| self.next_conjunct(left),
        )
    }

    /// Operands with `and` between them, behind the first.
    #[tactic(auto, using(crate::proofs::TurnLaws::conjunction_by_turns), unfolding(crate::specs::Parser::and_then))]
    fn conjunction_behind(
        &self,
        tokens: &mut Tokens<'_>,
        first: Boxed<Expr>,
    ) -> Result<Expr, Failure>
        requires { Nests self.now.depth (F.pre self.now.inner) (F.post self.now.inner) }
        ensures { IsParsed (steps.chain_behind conjunctions (spec.negation_of (parse self.now.depth)) first tokens.old) result tokens.new }
    {
        let others = self.conjuncts(tokens)?;
        Ok(both(first, others))
    }

    /// Operands with `and` between them.
    #[tactic(auto, using(crate::proofs::StepLemmas::chain_next), unfolding(crate::specs::Parser::and_then))]
    fn conjunction(&self, tokens: &mut Tokens<'_>) -> Result<Expr, Failure>
        requires { Nests self.now.depth (F.pre self.now.inner) (F.post self.now.inner) }
        ensures { IsParsed (spec.conjunction_of (parse self.now.depth) tokens.old) result tokens.new }
    {
        let first = self.negation(tokens)?;
        if tokens.begins_operator(CONJUNCTION) {
            return self.conjunction_behind(tokens, Boxed::new(self.alloc, first)?);
        }
        Ok(first)
    }

    /// The next `or` or `xor` with its operand, if one comes next.
    #[tactic(auto, unfolding(crate::specs::Turns::operand_turn, crate::specs::Parser::and_then))]
    fn next_disjunct(&self, tokens: &mut Tokens<'_>) -> Result<Option<(Place, bool, Expr)>, Failure>
        requires { Nests self.now.depth (F.pre self.now.inner) (F.post self.now.inner) }
        ensures { IsParsed (operand_turn turns.as_disjunct disjunctions (spec.conjunction_of (parse self.now.depth)) tokens.old) result tokens.new }
    {
        let Some(operator) = tokens.operator(DISJUNCTION) else {
            return Ok(None);
        };
        let operand = self.conjunction(tokens)?;
        Ok(Some((operator.place, is_xor(&operator.token), operand)))
    }

    /// Each `or` and `xor` that comes next, with its operand.
    fn disjuncts(&self, tokens: &mut Tokens<'_>) -> Result<Items<(Place, bool, Expr)>, Failure>
        requires { Nests self.now.depth (F.pre self.now.inner) (F.post self.now.inner) }
        ensures { IsParsed (repeat (operand_turn turns.as_disjunct disjunctions (spec.conjunction_of (parse self.now.depth))) (length tokens.old) tokens.old) result tokens.new }
    {
        repeat(
            self.alloc,
            tokens,
            tokens.len(),
            |left| self.next_disjunct(left),
        )
    }

    /// Operands with `or` and `xor` between them, behind the first.
    #[tactic(auto, using(crate::proofs::TurnLaws::disjunction_by_turns), unfolding(crate::specs::Parser::and_then))]
    fn disjunction_behind(
        &self,
        tokens: &mut Tokens<'_>,
        first: Boxed<Expr>,
    ) -> Result<Expr, Failure>
        requires { Nests self.now.depth (F.pre self.now.inner) (F.post self.now.inner) }
        ensures { IsParsed (steps.chain_behind disjunctions (spec.conjunction_of (parse self.now.depth)) first tokens.old) result tokens.new }
    {
        let others = self.disjuncts(tokens)?;
        Ok(either(first, others))
    }

    /// Operands with `or` and `xor` between them.
    #[tactic(auto, using(crate::proofs::StepLemmas::chain_next), unfolding(crate::specs::Parser::and_then))]
    pub fn disjunction(&self, tokens: &mut Tokens<'_>) -> Result<Expr, Failure>
        requires { Nests self.now.depth (F.pre self.now.inner) (F.post self.now.inner) }
        ensures { IsParsed (spec.disjunction_of (parse self.now.depth) tokens.old) result tokens.new }
    {
        let first = self.conjunction(tokens)?;
        if tokens.begins_operator(DISJUNCTION) {
            return self.disjunction_behind(tokens, Boxed::new(self.alloc, first)?);
        }
        Ok(first)
    }
}
