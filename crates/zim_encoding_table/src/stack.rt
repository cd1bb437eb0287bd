//! Constraints that are spelled with each word behind its operands.

use crate::formulas::{
    OverCondition, OverConstraint, OverTerm, RowRelation, absolute, asked, between, both, column,
    compared, joined, known, minus, not, picked, picked_of_two, product, quotient, sum, truth,
};
use crate::stops::Stop;
use std::alloc::Global;
use zim_decimal::read_field;
use zim_fault::{Join, Relation};
use zim_formula::GTerm;
use zim_fraction::{Fraction, div};

/// What words spell.
#[derive(Drop)]
enum Piece {
    Term(OverTerm),
    Condition(OverCondition),
    Constraint(OverConstraint),
}

/// What was spelled and isn't yet an operand.
#[derive(Drop)]
struct Stack {
    alloc: Global,
    columns: usize,
    pieces: Vec<Piece>,
}

/// The number that a text writes: a decimal, or one over another.
pub fn number_of(text: &str) -> Result<Fraction, Stop> {
    match text.split_once('/') {
        Some((above, below)) => {
            let (above, below) = (decimal_of(above)?, decimal_of(below)?);
            div(above, below).or(Err(Stop::NoCase))
        }
        None => decimal_of(text),
    }
}

/// The number of a decimal.
fn decimal_of(text: &str) -> Result<Fraction, Stop> {
    match read_field(text.as_bytes()) {
        Ok(Some(q)) => Ok(q),
        _ => Err(Stop::NoCase),
    }
}

impl Stack {
    fn pop_term(&mut self) -> Result<OverTerm, Stop> {
        match self.pieces.pop() {
            Some(Piece::Term(term)) => Ok(term),
            _ => Err(Stop::NoCase),
        }
    }

    fn pop_number(&mut self) -> Result<Fraction, Stop> {
        let term = self.pop_term()?;
        match &term.tree {
            GTerm::Known(q) => Ok(*q),
            _ => Err(Stop::NoCase),
        }
    }

    fn pop_condition(&mut self) -> Result<OverCondition, Stop> {
        match self.pieces.pop() {
            Some(Piece::Condition(condition)) => Ok(condition),
            _ => Err(Stop::NoCase),
        }
    }

    fn pop_constraint(&mut self) -> Result<OverConstraint, Stop> {
        match self.pieces.pop() {
            Some(Piece::Constraint(constraint)) => Ok(constraint),
            _ => Err(Stop::NoCase),
        }
    }

    fn compared(&mut self, relation: Relation) -> Result<Piece, Stop> {
        let right = self.pop_term()?;
        let left = self.pop_term()?;
        Ok(Piece::Condition(compared(self.alloc, left, relation, right)?))
    }

    fn joined(&mut self, join: Join) -> Result<Piece, Stop> {
        let right = self.pop_condition()?;
        let left = self.pop_condition()?;
        Ok(Piece::Condition(joined(self.alloc, left, join, right)?))
    }

    fn asked(&mut self, relation: RowRelation) -> Result<Piece, Stop> {
        let right = self.pop_term()?;
        let left = self.pop_term()?;
        Ok(Piece::Constraint(asked(self.alloc, left, relation, right)?))
    }

    fn sum(&mut self, minus: bool) -> Result<Piece, Stop> {
        let right = self.pop_term()?;
        let left = self.pop_term()?;
        Ok(Piece::Term(sum(self.alloc, left, minus, right)?))
    }

    fn between(&mut self, rising: bool) -> Result<Piece, Stop> {
        let last = self.pop_number()?;
        let term = self.pop_term()?;
        let first = self.pop_number()?;
        Ok(Piece::Constraint(between(self.alloc, first, rising, term, last)?))
    }

    /// What a word makes of terms, if it is one of these.
    fn term_word(&mut self, word: &str) -> Result<Piece, Stop> {
        match word {
            "+" => self.sum(false),
            "-" => self.sum(true),
            "*" => {
                let term = self.pop_term()?;
                let factor = self.pop_number()?;
                Ok(Piece::Term(product(self.alloc, factor, term)?))
            }
            "/" => {
                let divisor = self.pop_number()?;
                let term = self.pop_term()?;
                Ok(Piece::Term(quotient(self.alloc, term, divisor)?))
            }
            "minus" => {
                let term = self.pop_term()?;
                Ok(Piece::Term(minus(self.alloc, term)?))
            }
            "vabs" => {
                let term = self.pop_term()?;
                Ok(Piece::Term(absolute(self.alloc, term)?))
            }
            _ => self.leaf(word),
        }
    }

    /// The column or the number that a word spells.
    fn leaf(&self, word: &str) -> Result<Piece, Stop> {
        match word.strip_prefix('x') {
            Some(digits) => match digits.parse::<u32>() {
                Ok(number) => Ok(Piece::Term(column(self.columns, number)?)),
                Err(_) => Err(Stop::NoCase),
            },
            None => Ok(Piece::Term(known(self.columns, number_of(word)?))),
        }
    }

    /// What a word makes of conditions, or of terms.
    fn condition_word(&mut self, word: &str) -> Result<Piece, Stop> {
        match word {
            "<" => self.compared(Relation::LessThan),
            "<=" => self.compared(Relation::AtMost),
            "==" => self.compared(Relation::EqualTo),
            "!=" => self.compared(Relation::NotEqualTo),
            ">=" => self.compared(Relation::AtLeast),
            ">" => self.compared(Relation::GreaterThan),
            "and" => self.joined(Join::And),
            "or" => self.joined(Join::Or),
            "xor" => self.joined(Join::Xor),
            "not" => {
                let condition = self.pop_condition()?;
                Ok(Piece::Condition(not(self.alloc, condition)?))
            }
            "true" => Ok(Piece::Condition(truth(self.columns, true))),
            "false" => Ok(Piece::Condition(truth(self.columns, false))),
            _ => self.term_word(word),
        }
    }

    /// What a word makes.
    fn word(&mut self, word: &str) -> Result<Piece, Stop> {
        match word {
            "at-most" => self.asked(RowRelation::AtMost),
            "at-least" => self.asked(RowRelation::AtLeast),
            "equal" => self.asked(RowRelation::Equal),
            "between" => self.between(true),
            "down" => self.between(false),
            "both" => {
                let second = self.pop_constraint()?;
                let first = self.pop_constraint()?;
                Ok(Piece::Constraint(both(self.alloc, first, second)?))
            }
            "vif" => {
                let first = self.pop_constraint()?;
                let test = self.pop_condition()?;
                Ok(Piece::Constraint(picked(self.alloc, test, first)?))
            }
            "vif-else" => {
                let second = self.pop_constraint()?;
                let first = self.pop_constraint()?;
                let test = self.pop_condition()?;
                Ok(Piece::Constraint(picked_of_two(self.alloc, test, first, second)?))
            }
            _ => self.condition_word(word),
        }
    }
}

/// The constraint over the columns from 1 to this number that words with blanks between them spell.
pub fn constraint_of(alloc: Global, columns: usize, words: &str) -> Result<OverConstraint, Stop> {
    let mut stack = Stack {
        alloc,
        columns,
        pieces: Vec::new(alloc),
    };
    for word in words.split(' ') {
        let piece = stack.word(word)?;
        stack.pieces.push(piece)?;
    }
    let constraint = stack.pop_constraint()?;
    if stack.pieces.is_empty() {
        Ok(constraint)
    } else {
        Err(Stop::NoCase)
    }
}
