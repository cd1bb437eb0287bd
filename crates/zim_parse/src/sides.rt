//! What sets, parameters and variables are declared to be.

ghost use Rattle.std.specs.Prelude.{◌≡◌, length};
ghost use Rattle.zim_parse_expression.specs.Outcome.{IsParsed};
ghost use Rattle.zim_parse_expression.specs.Parser.{parse};
ghost use Rattle.zim_parse.specs.StatementParser as spec;
ghost use Rattle.zim_parse.specs.StatementSteps as steps;
ghost use Rattle.zim_tree.specs.Classes.{word_class};
ghost use Rattle.zim_parse.specs.StatementTurns.{limit_turn};
ghost use Rattle.zim_parse_expression.specs.Turns.{repeat};

use crate::counts::limits_kept;
use crate::grammar::Grammar;
use sqlite_items::{Boxed, Items};
use zim_fault::{Sign, Token, Word};
use zim_parse_expression::{Failure, Terminal, Tokens, Wanted, repeat};
use zim_tree::{Bracket, Class, Expr, Limit, ParSide, SetSide, Shape, class_of};

/// Whether a word is `powerset` or `subsets`.
fn is_family(word: Word) -> bool
    ensures { result ≡ spec.is_family (word_class word) }
{
    matches!(class_of(&Token::Word(word)), Class::Family)
}

impl Grammar {
    /// A set that is read, in its braces.
    #[tactic(auto, unfolding(zim_parse_expression::specs::Parser::and_then))]
    fn set_read(&self, tokens: &mut Tokens<'_>) -> Result<SetSide, Failure>
        ensures { IsParsed (spec.set_read (parse self.now.depth) tokens.old) result tokens.new }
    {
        tokens.expect_sign(Sign::SLeftBrace)?;
        let reading = self.reading(tokens)?;
        tokens.expect(Terminal::RightBrace)?;
        Ok(SetSide::Read(reading))
    }

    /// A set by its value.
    #[tactic(auto, unfolding(zim_parse_expression::specs::Parser::and_then))]
    fn set_value(&self, tokens: &mut Tokens<'_>) -> Result<SetSide, Failure>
        ensures { IsParsed (spec.set_value (parse self.now.depth) tokens.old) result tokens.new }
    {
        let value = self.boxed(tokens, Wanted::Sum)?;
        Ok(SetSide::Value(value))
    }

    /// A call of `powerset` or `subsets`.
    #[tactic(auto, unfolding(zim_parse_expression::specs::Parser::and_then))]
    fn family(&self, tokens: &mut Tokens<'_>) -> Result<SetSide, Failure>
        ensures { IsParsed (spec.family_call (parse self.now.depth) tokens.old) result tokens.new }
    {
        let Some(first) = tokens.take() else {
            return Err(Failure::Syntax);
        };
        let Token::Word(word) = first.token else {
            return Err(Failure::Syntax);
        };
        if !is_family(word) {
            return Err(Failure::Syntax);
        }
        tokens.expect(Terminal::LeftParen)?;
        let given = self.arguments(tokens)?;
        let call = Boxed::new(self.alloc, Expr::Func(first.place, word, given))?;
        Ok(SetSide::Value(call))
    }

    /// What a set without brackets is declared to be.
    #[tactic(auto, unfolding(crate::specs::StatementSteps::set_alone, zim_parse_expression::specs::Parser::and_then))]
    fn set_alone(&self, tokens: &mut Tokens<'_>) -> Result<SetSide, Failure>
        ensures { IsParsed (steps.set_alone (parse self.now.depth) tokens.old) result tokens.new }
    {
        if tokens.begins_read() {
            self.set_read(tokens)
        } else {
            self.set_value(tokens)
        }
    }

    /// The sets of a family, each behind its index.
    #[tactic(auto, unfolding(crate::specs::StatementSteps::set_entries, zim_parse_expression::specs::Parser::and_then))]
    fn set_entries(&self, tokens: &mut Tokens<'_>) -> Result<SetSide, Failure>
        ensures { IsParsed (steps.set_entries (parse self.now.depth) tokens.old) result tokens.new }
    {
        let entries = self.entries(tokens)?;
        Ok(SetSide::Entries(entries))
    }

    /// A set behind its `:=`.
    #[tactic(auto, unfolding(crate::specs::StatementSteps::set_end, crate::specs::StatementSteps::set_alone, crate::specs::StatementSteps::set_entries, crate::specs::StatementParser::set_side_of, zim_parse_expression::specs::Parser::and_then))]
    pub fn set_end(
        &self,
        tokens: &mut Tokens<'_>,
        brackets: Option<Bracket>,
    ) -> Result<Shape, Failure>
        ensures { IsParsed (steps.set_end (parse self.now.depth) brackets tokens.old) result tokens.new }
    {
        match brackets {
            None => {
                let side = self.set_alone(tokens)?;
                Ok(Shape::Set(None, side))
            }
            Some(Bracket::Empty) => {
                let side = self.family(tokens)?;
                Ok(Shape::Set(Some(Bracket::Empty), side))
            }
            Some(Bracket::Loop(index)) => {
                let side = self.set_value(tokens)?;
                Ok(Shape::Set(Some(Bracket::Loop(index)), side))
            }
            Some(Bracket::Over(set)) => {
                let side = self.set_entries(tokens)?;
                Ok(Shape::Set(Some(Bracket::Over(set)), side))
            }
        }
    }

    /// A parameter by its value.
    #[tactic(auto, unfolding(zim_parse_expression::specs::Parser::and_then))]
    fn par_value(&self, tokens: &mut Tokens<'_>) -> Result<ParSide, Failure>
        ensures { IsParsed (spec.par_value (parse self.now.depth) tokens.old) result tokens.new }
    {
        let value = self.boxed(tokens, Wanted::Disjunction)?;
        Ok(ParSide::Value(value))
    }

    /// A parameter that is read, with a default.
    #[tactic(auto, unfolding(zim_parse_expression::specs::Parser::and_then))]
    fn par_read(&self, tokens: &mut Tokens<'_>) -> Result<ParSide, Failure>
        ensures { IsParsed (spec.par_read (parse self.now.depth) tokens.old) result tokens.new }
    {
        let reading = self.reading(tokens)?;
        let default = self.given(tokens, Word::WDefault)?;
        Ok(ParSide::Read(reading, default))
    }

    /// A parameter without index that is read.
    #[tactic(auto, unfolding(zim_parse_expression::specs::Parser::and_then))]
    fn par_read_alone(&self, tokens: &mut Tokens<'_>) -> Result<ParSide, Failure>
        ensures { IsParsed (spec.par_read_alone (parse self.now.depth) tokens.old) result tokens.new }
    {
        let reading = self.reading(tokens)?;
        Ok(ParSide::Read(reading, None))
    }

    /// What a parameter without brackets is declared to be.
    #[tactic(auto, unfolding(crate::specs::StatementSteps::par_alone, zim_parse_expression::specs::Parser::and_then))]
    fn par_alone(&self, tokens: &mut Tokens<'_>) -> Result<ParSide, Failure>
        ensures { IsParsed (steps.par_alone (parse self.now.depth) tokens.old) result tokens.new }
    {
        if tokens.sees_word(Word::WRead) {
            self.par_read_alone(tokens)
        } else {
            self.par_value(tokens)
        }
    }

    /// A parameter in a table, with a default.
    #[tactic(auto, unfolding(zim_parse_expression::specs::Parser::and_then))]
    fn par_table(&self, tokens: &mut Tokens<'_>) -> Result<ParSide, Failure>
        ensures { IsParsed (spec.par_table (parse self.now.depth) tokens.old) result tokens.new }
    {
        tokens.expect_sign(Sign::SBar)?;
        let table = self.table(tokens)?;
        let default = self.given(tokens, Word::WDefault)?;
        Ok(ParSide::Table(table, default))
    }

    /// A parameter by its entries, with a default.
    #[tactic(auto, unfolding(zim_parse_expression::specs::Parser::and_then))]
    fn par_entries(&self, tokens: &mut Tokens<'_>) -> Result<ParSide, Failure>
        ensures { IsParsed (spec.par_entries (parse self.now.depth) tokens.old) result tokens.new }
    {
        let entries = self.entries(tokens)?;
        let default = self.given(tokens, Word::WDefault)?;
        Ok(ParSide::Entries(entries, default))
    }

    /// A parameter by its default alone.
    #[tactic(auto, unfolding(zim_parse_expression::specs::Parser::and_then))]
    fn par_default(&self, tokens: &mut Tokens<'_>) -> Result<ParSide, Failure>
        ensures { IsParsed (spec.par_default (parse self.now.depth) tokens.old) result tokens.new }
    {
        let place = tokens.expect_word(Word::WDefault)?;
        let value = self.boxed(tokens, Wanted::Sum)?;
        Ok(ParSide::Default(place, value))
    }

    /// What a parameter over a set is declared to be.
    #[tactic(auto, unfolding(crate::specs::StatementSteps::par_listed, zim_parse_expression::specs::Parser::and_then))]
    fn par_listed(&self, tokens: &mut Tokens<'_>) -> Result<ParSide, Failure>
        ensures { IsParsed (steps.par_listed (parse self.now.depth) tokens.old) result tokens.new }
    {
        if tokens.sees_word(Word::WDefault) {
            self.par_default(tokens)
        } else if tokens.sees_sign(Sign::SBar) {
            self.par_table(tokens)
        } else if tokens.sees_word(Word::WRead) {
            self.par_read(tokens)
        } else {
            self.par_entries(tokens)
        }
    }

    /// A parameter behind its `:=`.
    #[tactic(auto, unfolding(crate::specs::StatementSteps::param_end, crate::specs::StatementSteps::par_alone, crate::specs::StatementSteps::par_listed, crate::specs::StatementParser::par_side_of, zim_parse_expression::specs::Parser::and_then))]
    pub fn param_end(
        &self,
        tokens: &mut Tokens<'_>,
        brackets: Option<Bracket>,
    ) -> Result<Shape, Failure>
        ensures { IsParsed (steps.param_end (parse self.now.depth) brackets tokens.old) result tokens.new }
    {
        match brackets {
            None => {
                let side = self.par_alone(tokens)?;
                Ok(Shape::Param(None, side))
            }
            Some(Bracket::Empty) => Err(Failure::Syntax),
            Some(Bracket::Loop(index)) => {
                let side = self.par_value(tokens)?;
                Ok(Shape::Param(Some(Bracket::Loop(index)), side))
            }
            Some(Bracket::Over(set)) => {
                let side = self.par_listed(tokens)?;
                Ok(Shape::Param(Some(Bracket::Over(set)), side))
            }
        }
    }

    /// What stands in brackets: an index or a set.
    #[tactic(auto, unfolding(crate::specs::StatementSteps::bracket_inside, zim_parse_expression::specs::Parser::and_then))]
    fn bracket_inside(&self, tokens: &mut Tokens<'_>) -> Result<Bracket, Failure>
        ensures { IsParsed (steps.bracket_inside (parse self.now.depth) tokens.old) result tokens.new }
    {
        if tokens.begins_less() {
            let index = self.index(tokens)?;
            Ok(Bracket::Loop(index))
        } else {
            let set = self.boxed(tokens, Wanted::Sum)?;
            Ok(Bracket::Over(set))
        }
    }

    /// What stands behind `[`, and `]`.
    #[tactic(auto, using(crate::proofs::StatementForms::bracket_next), unfolding(zim_parse_expression::specs::Parser::and_then))]
    fn bracket(&self, tokens: &mut Tokens<'_>) -> Result<Bracket, Failure>
        ensures { IsParsed (spec.bracket_of (parse self.now.depth) tokens.old) result tokens.new }
    {
        let inside = self.bracket_inside(tokens)?;
        tokens.expect(Terminal::RightBracket)?;
        Ok(inside)
    }

    /// Brackets that aren't empty, or none.
    #[tactic(auto, unfolding(crate::specs::StatementParser::brackets_of, zim_parse_expression::specs::Parser::and_then))]
    pub fn brackets(&self, tokens: &mut Tokens<'_>) -> Result<Option<Bracket>, Failure>
        ensures { IsParsed (spec.brackets_of (parse self.now.depth) tokens.old) result tokens.new }
    {
        if tokens.eat_sign(Sign::SLeftBracket).is_none() {
            return Ok(None);
        }
        let inside = self.bracket(tokens)?;
        Ok(Some(inside))
    }

    /// Brackets that may be empty, or none.
    #[tactic(auto, unfolding(crate::specs::StatementParser::set_brackets_of, zim_parse_expression::specs::Parser::and_then))]
    pub fn set_brackets(&self, tokens: &mut Tokens<'_>) -> Result<Option<Bracket>, Failure>
        ensures { IsParsed (spec.set_brackets_of (parse self.now.depth) tokens.old) result tokens.new }
    {
        if tokens.eat_sign(Sign::SLeftBracket).is_none() {
            return Ok(None);
        }
        if tokens.eat(Terminal::RightBracket).is_some() {
            return Ok(Some(Bracket::Empty));
        }
        let inside = self.bracket(tokens)?;
        Ok(Some(inside))
    }

    /// The next bound of a variable, if one comes next.
    #[tactic(auto, unfolding(crate::specs::StatementTurns::limit_turn, zim_parse_expression::specs::Parser::and_then))]
    fn next_limit(&self, tokens: &mut Tokens<'_>) -> Result<Option<Limit>, Failure>
        ensures { IsParsed (limit_turn (parse self.now.depth) tokens.old) result tokens.new }
    {
        let Some((place, lower)) = tokens.eat_limit() else {
            return Ok(None);
        };
        let side = self.boxed(tokens, Wanted::Sum)?;
        Ok(Some(Limit { place, lower, side }))
    }

    /// The bounds of a variable that come next.
    fn limits(&self, tokens: &mut Tokens<'_>) -> Result<Items<Limit>, Failure>
        ensures { IsParsed (repeat (limit_turn (parse self.now.depth)) (length tokens.old) tokens.old) result tokens.new }
    {
        repeat(
            self.alloc,
            tokens,
            tokens.len(),
            |left| self.next_limit(left),
        )
    }

    /// The options of a variable behind its bounds.
    #[tactic(auto, unfolding(crate::specs::StatementSteps::var_end, zim_parse_expression::specs::Parser::and_then))]
    fn variable_end(
        &self,
        tokens: &mut Tokens<'_>,
        brackets: Option<Bracket>,
        kind: Option<Word>,
        limits: Items<Limit>,
    ) -> Result<Shape, Failure>
        ensures { IsParsed (steps.var_end (parse self.now.depth) brackets kind limits tokens.old) result tokens.new }
    {
        let priority = self.given(tokens, Word::WPriority)?;
        let startval = self.given(tokens, Word::WStartval)?;
        if !limits_kept(kind, limits.as_slice()) {
            return Err(Failure::Syntax);
        }
        Ok(Shape::Var(brackets, kind, limits, priority, startval))
    }

    /// A variable behind its name.
    #[tactic(auto, using(crate::proofs::StatementTurns::limits_by_turns), unfolding(crate::specs::StatementParser::var_of, crate::specs::StatementSteps::var_end, zim_parse_expression::specs::Parser::and_then))]
    pub fn variable(&self, tokens: &mut Tokens<'_>) -> Result<Shape, Failure>
        ensures { IsParsed (spec.var_of (parse self.now.depth) tokens.old) result tokens.new }
    {
        let brackets = self.brackets(tokens)?;
        let kind = tokens.eat_kind();
        let limits = self.limits(tokens)?;
        self.variable_end(tokens, brackets, kind, limits)
    }
}
