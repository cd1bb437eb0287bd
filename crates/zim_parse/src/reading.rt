//! `read`, entries, tables and defaults.

ghost use Rattle.std.specs.Prelude.{length};
ghost use Rattle.zim_parse_expression.specs.Outcome.{IsParsed, word_test};
ghost use Rattle.zim_parse_expression.specs.Parser as parser;
ghost use Rattle.zim_parse_expression.specs.Parser.{parse};
ghost use Rattle.zim_parse.specs.StatementParser as spec;
ghost use Rattle.zim_parse.specs.StatementSteps as steps;
ghost use Rattle.zim_parse.specs.StatementTurns.{option_turn};
ghost use Rattle.zim_parse_expression.specs.Turns.{repeat};

use crate::counts::each_once;
use crate::grammar::Grammar;
use sqlite_items::{Boxed, Items};
use zim_fault::{Place, Sign, Word};
use zim_parse_expression::{Failure, Tokens, Wanted, items_of, repeat};
use zim_tree::{Angle, Expr, Reading, Table};

impl Grammar {
    /// The next option of a `read` with its operand, if one comes next.
    #[tactic(auto, unfolding(crate::specs::StatementTurns::option_turn, zim_parse_expression::specs::Parser::and_then))]
    fn next_option(&self, tokens: &mut Tokens<'_>) -> Result<Option<(Place, Word, Expr)>, Failure>
        ensures { IsParsed (option_turn (parse self.now.depth) tokens.old) result tokens.new }
    {
        let Some((place, word)) = tokens.eat_option() else {
            return Ok(None);
        };
        let operand = self.expression(tokens, Wanted::Sum)?;
        Ok(Some((place, word, operand)))
    }

    /// The options that come next.
    fn options(&self, tokens: &mut Tokens<'_>) -> Result<Items<(Place, Word, Expr)>, Failure>
        ensures { IsParsed (repeat (option_turn (parse self.now.depth)) (length tokens.old) tokens.old) result tokens.new }
    {
        repeat(
            self.alloc,
            tokens,
            tokens.len(),
            |left| self.next_option(left),
        )
    }

    /// A `read` behind its template.
    #[tactic(auto, using(crate::proofs::StatementTurns::options_by_turns), unfolding(crate::specs::StatementSteps::reading_end, zim_parse_expression::specs::Parser::and_then))]
    fn reading_end(
        &self,
        tokens: &mut Tokens<'_>,
        place: Place,
        file: Boxed<Expr>,
        template: Boxed<Expr>,
    ) -> Result<Reading, Failure>
        ensures { IsParsed (steps.reading_end (parse self.now.depth) place file template tokens.old) result tokens.new }
    {
        let options = self.options(tokens)?;
        if !each_once(options.as_slice()) {
            return Err(Failure::Syntax);
        }
        Ok(Reading {
            place,
            file,
            template,
            options,
        })
    }

    /// A `read` with its options.
    #[tactic(auto, unfolding(crate::specs::StatementParser::reading_of, crate::specs::StatementSteps::reading_end, zim_parse_expression::specs::Parser::and_then))]
    pub fn reading(&self, tokens: &mut Tokens<'_>) -> Result<Reading, Failure>
        ensures { IsParsed (spec.reading_of (parse self.now.depth) tokens.old) result tokens.new }
    {
        tokens.expect_word(Word::WRead)?;
        let file = self.boxed(tokens, Wanted::Sum)?;
        let place = tokens.expect_word(Word::WAs)?;
        let template = self.boxed(tokens, Wanted::Sum)?;
        self.reading_end(tokens, place, file, template)
    }

    /// An index and what belongs to it.
    #[tactic(auto, unfolding(crate::specs::StatementParser::entry_of, zim_parse_expression::specs::Parser::and_then))]
    fn entry(&self, tokens: &mut Tokens<'_>) -> Result<(Angle, Expr), Failure>
        ensures { IsParsed (spec.entry_of (parse self.now.depth) tokens.old) result tokens.new }
    {
        let tuple = self.tuple(tokens)?;
        let given = self.expression(tokens, Wanted::Sum)?;
        Ok((tuple, given))
    }

    /// One or more entries with commas between them.
    pub fn entries(&self, tokens: &mut Tokens<'_>) -> Result<Items<(Angle, Expr)>, Failure>
        ensures { IsParsed (parser.items_of (spec.entry_of (parse self.now.depth)) tokens.old) result tokens.new }
    {
        items_of(self.alloc, tokens, |left| self.entry(left))
    }

    /// An operand behind this word, if the word comes next.
    #[tactic(auto, unfolding(zim_parse_expression::specs::Parser::and_then))]
    pub fn given(
        &self,
        tokens: &mut Tokens<'_>,
        word: Word,
    ) -> Result<Option<(Place, Boxed<Expr>)>, Failure>
        ensures { IsParsed (spec.given_of (parse self.now.depth) (word_test word) tokens.old) result tokens.new }
    {
        match tokens.eat_word(word) {
            None => Ok(None),
            Some(place) => {
                let operand = self.boxed(tokens, Wanted::Sum)?;
                Ok(Some((place, operand)))
            }
        }
    }

    /// The values of a row behind its items and a bar, as many as there are columns.
    #[tactic(auto, unfolding(crate::specs::StatementSteps::row_end, zim_parse_expression::specs::Parser::and_then))]
    fn row_end(
        &self,
        tokens: &mut Tokens<'_>,
        columns: usize,
        items: Items<Expr>,
    ) -> Result<(Items<Expr>, Items<Expr>), Failure>
        ensures { IsParsed (steps.row_end (parse self.now.depth) columns items tokens.old) result tokens.new }
    {
        let values = self.exprs(tokens, Wanted::Unary)?;
        tokens.expect_sign(Sign::SBar)?;
        if values.len() != columns {
            return Err(Failure::Syntax);
        }
        Ok((items, values))
    }

    /// A row of a table behind its first bar, with as many values as there are columns.
    #[tactic(auto, unfolding(crate::specs::StatementParser::table_row, crate::specs::StatementSteps::row_end, zim_parse_expression::specs::Parser::and_then))]
    fn row(
        &self,
        tokens: &mut Tokens<'_>,
        columns: usize,
    ) -> Result<(Items<Expr>, Items<Expr>), Failure>
        ensures { IsParsed (spec.table_row (parse self.now.depth) columns tokens.old) result tokens.new }
    {
        let items = self.exprs(tokens, Wanted::Unary)?;
        tokens.expect_sign(Sign::SBar)?;
        self.row_end(tokens, columns, items)
    }

    /// One or more rows of a table behind the first bar.
    fn rows(
        &self,
        tokens: &mut Tokens<'_>,
        columns: usize,
        turns: usize,
    ) -> Result<Items<(Items<Expr>, Items<Expr>)>, Failure>
        ensures { IsParsed (spec.table_rows (parse self.now.depth) columns turns tokens.old) result tokens.new }
    {
        let mut rows = Items::new(self.alloc);
        for _turn in 0..turns {
            let row = self.row(tokens, columns)?;
            rows.push(row)?;
            match tokens.eat_sign(Sign::SBar) {
                None => return Ok(rows),
                Some(_bar) => {}
            }
        }
        Err(Failure::Syntax)
    }

    /// The rows of a table behind its head.
    #[tactic(auto, unfolding(crate::specs::StatementSteps::table_end, zim_parse_expression::specs::Parser::and_then))]
    fn table_end(&self, tokens: &mut Tokens<'_>, head: Items<Expr>) -> Result<Table, Failure>
        ensures { IsParsed (steps.table_end (parse self.now.depth) head tokens.old) result tokens.new }
    {
        let turns = tokens.len() + 1;
        let rows = self.rows(tokens, head.len(), turns)?;
        Ok(Table { head, rows })
    }

    /// A table behind its first bar.
    #[tactic(auto, unfolding(crate::specs::StatementParser::table_behind, crate::specs::StatementSteps::table_end, zim_parse_expression::specs::Parser::and_then))]
    pub fn table(&self, tokens: &mut Tokens<'_>) -> Result<Table, Failure>
        ensures { IsParsed (spec.table_behind (parse self.now.depth) tokens.old) result tokens.new }
    {
        let head = self.exprs(tokens, Wanted::Unary)?;
        tokens.expect_sign(Sign::SBar)?;
        tokens.expect_sign(Sign::SBar)?;
        self.table_end(tokens, head)
    }
}
