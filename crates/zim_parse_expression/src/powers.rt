//! Factorials, powers and signs.

ghost use Rattle.std.specs.Prelude.{◌≡◌};
ghost use Rattle.zim_tree.specs.Levels.{factorial};
ghost use Rattle.zim_parse_expression.specs.Outcome.{IsParsed, Nests};
ghost use Rattle.zim_parse_expression.specs.Parser as spec;
ghost use Rattle.zim_parse_expression.specs.Parser.{parse};
ghost use Rattle.zim_parse_expression.specs.Steps as steps;

use crate::failure::Failure;
use crate::grammar::{Grammar, Wanted};
use crate::marks::marks;
use crate::next::{POWER, sign_in};
use crate::terminals::Terminal;
use crate::tokens::Tokens;
use sqlite_items::{Boxed, Items};
use std::alloc::Global;
use zim_fault::{Place, Placed};
use zim_tree::Expr;

/// The tree of an operand with `!` at these places.
fn factorial(operand: Boxed<Expr>, marks: Items<Place>) -> Expr
    ensures { result ≡ factorial operand marks }
{
    if marks.len() == 0 {
        return operand.into_inner();
    }
    Expr::Factorial(operand, marks)
}

/// An operand with every `!` that comes next behind it.
#[tactic(auto, using(crate::proofs::TurnLaws::marks_by_turns), unfolding(crate::specs::Steps::marks_behind))]
fn marks_behind(
    alloc: Global,
    tokens: &mut Tokens<'_>,
    operand: Boxed<Expr>,
) -> Result<Expr, Failure>
    ensures { IsParsed (steps.marks_behind operand tokens.old) result tokens.new }
{
    let places = marks(alloc, tokens)?;
    Ok(factorial(operand, places))
}

impl<F: Fn(Global, &mut Tokens<'_>, usize, Wanted) -> Result<Expr, Failure>> Grammar<F> {
    /// An operand with its `!`.
    #[tactic(auto, using(crate::proofs::StepLemmas::postfix_next), unfolding(crate::specs::Parser::and_then))]
    pub fn postfix(&self, tokens: &mut Tokens<'_>) -> Result<Expr, Failure>
        requires { Nests self.now.depth (F.pre self.now.inner) (F.post self.now.inner) }
        ensures { IsParsed (spec.postfix_of (parse self.now.depth) tokens.old) result tokens.new }
    {
        let operand = self.primary(tokens)?;
        if tokens.sees(Terminal::Exclamation) {
            return marks_behind(self.alloc, tokens, Boxed::new(self.alloc, operand)?);
        }
        Ok(operand)
    }

    /// The power whose base was read, behind its operator.
    #[tactic(auto, unfolding(crate::specs::Steps::exponent_of, crate::specs::Parser::and_then))]
    fn exponent(
        &self,
        tokens: &mut Tokens<'_>,
        base: Expr,
        operator: &Placed,
    ) -> Result<Expr, Failure>
        requires { Nests self.now.depth (F.pre self.now.inner) (F.post self.now.inner) }
        ensures { IsParsed (steps.exponent_of (parse self.now.depth) base operator.now tokens.old) result tokens.new }
    {
        let base = Boxed::new(self.alloc, base)?;
        let signed = tokens.eat_signed();
        let exponent = Boxed::new(self.alloc, self.postfix(tokens)?)?;
        Ok(Expr::Power(
            operator.place,
            sign_in(&operator.token),
            base,
            signed,
            exponent,
        ))
    }

    /// A power, or an operand without one.
    #[tactic(auto, using(crate::proofs::StepLemmas::power_next), unfolding(crate::specs::Parser::power_of, crate::specs::Parser::and_then))]
    pub fn power(&self, tokens: &mut Tokens<'_>) -> Result<Expr, Failure>
        requires { Nests self.now.depth (F.pre self.now.inner) (F.post self.now.inner) }
        ensures { IsParsed (spec.power_of (parse self.now.depth) tokens.old) result tokens.new }
    {
        let base = self.postfix(tokens)?;
        match tokens.operator(POWER) {
            None => Ok(base),
            Some(operator) => self.exponent(tokens, base, operator),
        }
    }

    /// An operand with or without a sign.
    #[tactic(auto, using(crate::proofs::StepLemmas::unary_next), unfolding(crate::specs::Parser::and_then))]
    pub fn unary(&self, tokens: &mut Tokens<'_>) -> Result<Expr, Failure>
        requires { Nests self.now.depth (F.pre self.now.inner) (F.post self.now.inner) }
        ensures { IsParsed (spec.unary_of (parse self.now.depth) tokens.old) result tokens.new }
    {
        match tokens.eat_signed() {
            None => self.power(tokens),
            Some((place, minus)) => {
                let operand = Boxed::new(self.alloc, self.power(tokens)?)?;
                Ok(Expr::Signed(place, minus, operand))
            }
        }
    }
}
