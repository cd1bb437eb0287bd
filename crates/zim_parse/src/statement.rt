//! Statements.

ghost use Rattle.std.specs.Prelude.{◌≡◌, length};
ghost use Rattle.zim_parse_expression.specs.Outcome.{IsParsed};
ghost use Rattle.zim_parse_expression.specs.Parser as parser;
ghost use Rattle.zim_parse_expression.specs.Parser.{parse};
ghost use Rattle.zim_parse.specs.StatementParser as spec;
ghost use Rattle.zim_parse.specs.StatementSteps as steps;

use crate::grammar::Grammar;
use sqlite_items::{Boxed, Items};
use std::alloc::Global;
use zim_fault::{Bytes, Duplicate, Place, Sign, Token, Word};
use zim_parse_expression::{Failure, Terminal, Tokens, Wanted, items_of};
use zim_tree::{Doing, Printed, Shape, Stmt};

/// A name that comes next, with its place.
#[tactic(auto, unfolding(crate::specs::StatementParser::name_of))]
fn name(tokens: &mut Tokens<'_>) -> Result<(Place, Bytes), Failure>
    ensures { IsParsed (spec.name_of tokens.old) result tokens.new }
{
    let Some(first) = tokens.take() else {
        return Err(Failure::Syntax);
    };
    match &first.token {
        Token::Name(name) => Ok((first.place, name.copy()?)),
        _ => Err(Failure::Syntax),
    }
}

/// The parameters of a function behind `(`, and `)`.
#[tactic(auto, unfolding(zim_parse_expression::specs::Parser::items_of, zim_parse_expression::specs::Parser::and_then))]
fn parameters(alloc: Global, tokens: &mut Tokens<'_>) -> Result<Items<(Place, Bytes)>, Failure>
    ensures { IsParsed (spec.parameters_of tokens.old) result tokens.new }
{
    if tokens.eat(Terminal::RightParen).is_some() {
        return Ok(Items::new(alloc));
    }
    let names = items_of(alloc, tokens, |left| name(left))?;
    tokens.expect(Terminal::RightParen)?;
    Ok(names)
}

impl Grammar {
    /// A value that is printed.
    #[tactic(auto, unfolding(crate::specs::StatementSteps::printed_value, zim_parse_expression::specs::Parser::and_then))]
    fn printed_value(&self, tokens: &mut Tokens<'_>) -> Result<Printed, Failure>
        ensures { IsParsed (steps.printed_value (parse self.now.depth) tokens.old) result tokens.new }
    {
        let value = self.boxed(tokens, Wanted::Disjunction)?;
        Ok(Printed::Value(value))
    }

    /// Something that begins with `<` and is printed: a tuple, unless `in` follows it.
    #[tactic(auto, unfolding(crate::specs::StatementSteps::printed_less, crate::specs::StatementSteps::printed_value, zim_parse_expression::specs::Parser::and_then))]
    fn printed_less(&self, tokens: &mut Tokens<'_>) -> Result<Printed, Failure>
        ensures { IsParsed (steps.printed_less (parse self.now.depth) tokens.old) result tokens.new }
    {
        let mut ahead = tokens.ahead();
        let tuple = self.tuple(&mut ahead)?;
        if ahead.eat(Terminal::In).is_some() {
            return self.printed_value(tokens);
        }
        tokens.go_to(ahead);
        Ok(Printed::Tuple(tuple))
    }

    /// Something that is printed.
    #[tactic(auto, using(crate::proofs::StatementForms::printed_next), unfolding(zim_parse_expression::specs::Parser::and_then))]
    fn printed(&self, tokens: &mut Tokens<'_>) -> Result<Printed, Failure>
        ensures { IsParsed (spec.printed_of (parse self.now.depth) tokens.old) result tokens.new }
    {
        if tokens.begins_less() {
            self.printed_less(tokens)
        } else {
            self.printed_value(tokens)
        }
    }

    /// One or more printed items with commas between them.
    fn all_printed(&self, tokens: &mut Tokens<'_>) -> Result<Items<Printed>, Failure>
        ensures { IsParsed (parser.items_of (spec.printed_of (parse self.now.depth)) tokens.old) result tokens.new }
    {
        items_of(self.alloc, tokens, |left| self.printed(left))
    }

    /// What a `do` does, at most so many loops deep.
    #[cycle(doing)]
    fn doing(&self, tokens: &mut Tokens<'_>, loops: usize) -> Result<Doing, Failure>
        ensures { IsParsed (spec.doing_of (parse self.now.depth) loops tokens.old) result tokens.new }
    {
        if loops == 0 {
            return Err(Failure::Syntax);
        }
        self.doing_by(tokens, loops - 1)
    }

    /// What a `do` does, with at most so many loops behind the first.
    #[tactic(auto, unfolding(crate::specs::StatementSteps::doing_by, zim_parse_expression::specs::Parser::and_then))]
    #[cycle(doing)]
    fn doing_by(&self, tokens: &mut Tokens<'_>, loops: usize) -> Result<Doing, Failure>
        ensures { IsParsed (steps.doing_by (parse self.now.depth) (spec.doing_of (parse self.now.depth) loops) tokens.old) result tokens.new }
    {
        let Some(first) = tokens.take() else {
            return Err(Failure::Syntax);
        };
        let Token::Word(word) = first.token else {
            return Err(Failure::Syntax);
        };
        match word {
            Word::WPrint => {
                let items = self.all_printed(tokens)?;
                Ok(Doing::Print(first.place, items))
            }
            Word::WCheck => {
                let test = self.boxed(tokens, Wanted::Disjunction)?;
                Ok(Doing::Check(first.place, test))
            }
            Word::WForall => {
                let index = self.index(tokens)?;
                let with_do = tokens.separator()?;
                let inside = Boxed::new(self.alloc, self.doing(tokens, loops)?)?;
                Ok(Doing::Forall(first.place, index, with_do, inside))
            }
            _ => Err(Failure::Syntax),
        }
    }

    /// An objective behind its name.
    #[tactic(auto, unfolding(zim_parse_expression::specs::Parser::and_then))]
    fn goal(&self, tokens: &mut Tokens<'_>, maximize: bool) -> Result<Shape, Failure>
        ensures { IsParsed (spec.goal_of (parse self.now.depth) maximize tokens.old) result tokens.new }
    {
        tokens.expect_sign(Sign::SColon)?;
        let objective = self.boxed(tokens, Wanted::Sum)?;
        Ok(Shape::Goal(maximize, objective))
    }

    /// A constraint behind its name.
    #[tactic(auto, unfolding(crate::specs::StatementSteps::constraint_of, zim_parse_expression::specs::Parser::and_then))]
    fn constraint(&self, tokens: &mut Tokens<'_>) -> Result<Shape, Failure>
        ensures { IsParsed (steps.constraint_of (parse self.now.depth) tokens.old) result tokens.new }
    {
        tokens.expect_sign(Sign::SColon)?;
        let constraint = self.boxed(tokens, Wanted::Whole)?;
        Ok(Shape::Subto(constraint))
    }

    /// A function behind its name.
    #[tactic(auto, unfolding(zim_parse_expression::specs::Parser::and_then))]
    fn definition(&self, tokens: &mut Tokens<'_>, word: Word) -> Result<Shape, Failure>
        ensures { IsParsed (spec.definition_of (parse self.now.depth) word tokens.old) result tokens.new }
    {
        tokens.expect(Terminal::LeftParen)?;
        let parameters = parameters(self.alloc, tokens)?;
        tokens.expect_sign(Sign::SAssign)?;
        let inside = self.boxed(tokens, Wanted::Disjunction)?;
        Ok(Shape::Define(word, parameters, inside))
    }

    /// A set behind its name.
    #[tactic(auto, unfolding(crate::specs::StatementSteps::set_of, zim_parse_expression::specs::Parser::and_then))]
    fn set(&self, tokens: &mut Tokens<'_>) -> Result<Shape, Failure>
        ensures { IsParsed (steps.set_of (parse self.now.depth) tokens.old) result tokens.new }
    {
        let brackets = self.set_brackets(tokens)?;
        tokens.expect_sign(Sign::SAssign)?;
        self.set_end(tokens, brackets)
    }

    /// A parameter behind its name.
    #[tactic(auto, unfolding(crate::specs::StatementSteps::param_of, zim_parse_expression::specs::Parser::and_then))]
    fn param(&self, tokens: &mut Tokens<'_>) -> Result<Shape, Failure>
        ensures { IsParsed (steps.param_of (parse self.now.depth) tokens.old) result tokens.new }
    {
        let brackets = self.brackets(tokens)?;
        tokens.expect_sign(Sign::SAssign)?;
        self.param_end(tokens, brackets)
    }

    /// What a statement that begins with this word says of its name.
    #[tactic(auto, unfolding(crate::specs::StatementSteps::set_of, crate::specs::StatementSteps::set_end, crate::specs::StatementSteps::param_of, crate::specs::StatementSteps::param_end, crate::specs::StatementSteps::constraint_of, zim_parse_expression::specs::Parser::and_then))]
    fn declared(&self, tokens: &mut Tokens<'_>, word: Word) -> Result<Shape, Failure>
        ensures { IsParsed (spec.declared_of (parse self.now.depth) word tokens.old) result tokens.new }
    {
        match word {
            Word::WSet => self.set(tokens),
            Word::WParam => self.param(tokens),
            Word::WVar => self.variable(tokens),
            Word::WMinimize => self.goal(tokens, false),
            Word::WMaximize => self.goal(tokens, true),
            Word::WSubto => self.constraint(tokens),
            Word::WDefnumb | Word::WDefstrg | Word::WDefbool | Word::WDefset => {
                self.definition(tokens, word)
            }
            _ => Err(Failure::Syntax),
        }
    }

    /// A `do` behind its word.
    #[tactic(auto, unfolding(crate::specs::StatementSteps::performed_of, zim_parse_expression::specs::Parser::and_then))]
    fn performed(&self, tokens: &mut Tokens<'_>, first: Place) -> Result<Stmt, Failure>
        ensures { IsParsed (steps.performed_of (parse self.now.depth) first tokens.old) result tokens.new }
    {
        let loops = tokens.len();
        let doing = self.doing(tokens, loops)?;
        Ok(Stmt {
            first,
            at: first,
            name: Bytes::new(self.alloc),
            shape: Boxed::new(self.alloc, Shape::Do(doing))?,
        })
    }

    /// A declaration behind its word.
    #[tactic(auto, unfolding(crate::specs::StatementSteps::declaration_of, zim_parse_expression::specs::Parser::and_then))]
    fn declaration(
        &self,
        tokens: &mut Tokens<'_>,
        first: Place,
        word: Word,
    ) -> Result<Stmt, Failure>
        ensures { IsParsed (steps.declaration_of (parse self.now.depth) first word tokens.old) result tokens.new }
    {
        let (at, name) = name(tokens)?;
        let shape = Boxed::new(self.alloc, self.declared(tokens, word)?)?;
        Ok(Stmt {
            first,
            at,
            name,
            shape,
        })
    }

    /// A statement without its `;`, behind its first token.
    #[tactic(auto, unfolding(crate::specs::StatementSteps::performed_of, crate::specs::StatementSteps::declaration_of, zim_parse_expression::specs::Parser::and_then))]
    fn behind_first(
        &self,
        tokens: &mut Tokens<'_>,
        first: Place,
        word: Word,
    ) -> Result<Stmt, Failure>
        ensures { IsParsed (spec.behind_word (parse self.now.depth) first word tokens.old) result tokens.new }
    {
        match word {
            Word::WDo => self.performed(tokens, first),
            _ => self.declaration(tokens, first, word),
        }
    }

    /// A statement with its `;`.
    #[tactic(auto, unfolding(crate::specs::StatementParser::whole_statement, zim_parse_expression::specs::Parser::and_then))]
    pub fn statement(&self, tokens: &mut Tokens<'_>) -> Result<Stmt, Failure>
        ensures { IsParsed (spec.whole_statement (parse self.now.depth) tokens.old) result tokens.new }
    {
        let Some(first) = tokens.take() else {
            return Err(Failure::Syntax);
        };
        let Token::Word(word) = first.token else {
            return Err(Failure::Syntax);
        };
        let stmt = self.behind_first(tokens, first.place, word)?;
        tokens.expect_sign(Sign::SSemicolon)?;
        Ok(stmt)
    }
}
