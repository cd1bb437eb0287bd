ghost use Rattle.std.specs.Prelude.{◌≡◌, ◌<◌, ◌≤◌, ◌↔◌, List, [], ◌∷◌, ◌++◌, length, map, All, slice_index_or, false, IsTrue, Option, Some, IfSome, IfOk, OnOk, OnErr};
ghost use Rattle.zim_rational.specs.Rational.{Rational, IsBelow, times, whole};
ghost use Rattle.zim_linear.specs.Forms.{AreTerms, AreColumns};
ghost use Rattle.zim_linear.specs.Ends.{IsUncrossed};
ghost use Rattle.zim_rows.specs.System as exact;
ghost use Rattle.zim_rows.specs.System.{empty_system, column_of, column_at, row_of, with_objective, AreWholeSides, IsKind, IsSystem, ColumnAnswer, RowAdded};
ghost use Rattle.zim_rows.specs.Points.{IsSystemPoint, IsPoint, system_objective_at, objective_at};
ghost use Rattle.zim_rows.specs.Program.{IsWithin, HasSidesWithin};
ghost use Rattle.zim_rows.specs.Scaled.{FinishAnswer};
ghost use Rattle.zim_rows.specs.Covered.{IsCovered, written_program};
ghost use Rattle.zim_rows.specs.Finished.{program_of, answered};

use crate::entries::list_entries;
use crate::faults::{FinishFault, RowFault};
use crate::finished::Finished;
use crate::rows::{Column, GivenRow, Objective, RowFrom, RowKind, Sense};
use crate::scaled::{scaled_rows, scaled_target};
use std::alloc::Global;
use std::marker::Model;
use zim_fault::{Memory, Place, Sequence};
use zim_fraction::Fraction;
use zim_linear::{Form, Sides, Term};

/// How many columns a system has at most, and how many rows.
pub(crate) const MOST: usize = 1_000_000;

/// A linear program that is being built: columns, rows and an objective.
///
/// Contracts see it as a `LinearSystem`: its columns and its rows in their order, and its objective, if it has one.
#[derive(Debug, Drop)]
pub struct System {
    alloc: Global,
    marks: Vec<bool>,
    sides: Sequence<Sides>,
    rows: Sequence<GivenRow>,
    objective: Option<Objective>,
}

impl Model for System {
    ghost use Rattle.zim_rows.specs.System.{LinearSystem, columns_of, IsKeptSystem};

    ghost Value = { LinearSystem };

    ghost view = { λ it. record {
      columns = columns_of it.marks.items it.sides;
      rows = it.rows;
      objective = it.objective;
    } };

    ghost invariant = { λ it. IsKeptSystem it.marks.items it.sides it.rows it.objective };
}

impl System {
    /// A system without columns, rows and objective. It takes no memory yet.
    pub fn new(alloc: Global) -> System
        ensures { result ≡ empty_system }
    {
        System {
            alloc,
            marks: Vec::new(alloc),
            sides: Sequence::new(alloc),
            rows: Sequence::new(alloc),
            objective: None,
        }
    }

    /// How many columns there are, at most 1,000,000.
    pub fn column_count(&self) -> usize
        ensures value { result ≡ length self.now.columns }
        ensures within { result ≤ 1000000 }
    {
        self.sides.len()
    }

    /// How many rows there are, at most 1,000,000.
    pub fn row_count(&self) -> usize
        ensures value { result ≡ length self.now.rows }
        ensures within { result ≤ 1000000 }
    {
        self.rows.len()
    }

    /// What holds of every system, for those who prove: the call does nothing.
    pub fn valid(&self)
        ensures { IsSystem self.now.columns self.now.rows self.now.objective }
    {
        let _ = &self.alloc;
    }

    /// The sides of all columns; those of column 1 stand first.
    pub fn sides(&self) -> &[Sides]
        ensures { result.now ≡ map (λ c. c.sides) self.now.columns }
    {
        self.sides.as_slice()
    }

    /// Whether column j, counted from 1, is integer.
    pub fn is_integer(&self, j: u32) -> bool
        requires from_one { 1 ≤ j }
        requires in_columns { j ≤ length self.now.columns }
        ensures { result ≡ (column_at self.now.columns j).integer }
    {
        mark_at(self.marks.as_slice(), j as usize - 1)
    }

    /// Adds a column, and gives its number, from 1.
    ///
    /// `TooManyColumns` comes exactly where 1,000,000 are there. After a fault the system is as it was.
    pub fn new_column(&mut self, integer: bool, sides: Sides) -> Result<u32, RowFault>
        requires uncrossed { IsUncrossed sides }
        requires whole { IsTrue integer → AreWholeSides sides }
        ensures { ColumnAnswer self.old (column_of integer sides) self.new result }
    {
        if self.sides.len() >= MOST {
            return Err(RowFault::TooManyColumns);
        }
        let number = match push_pair(&mut self.marks, &mut self.sides, integer, &sides) {
            Ok(number) => number,
            Err(_) => return Err(RowFault::Memory),
        };
        Ok(number)
    }

    /// Adds the row that the terms of the form compare with a right side; the form's constant isn't used.
    ///
    /// `TooManyRows` comes exactly where 1,000,000 are there. After a fault the system is as it was.
    pub fn add_row(
        &mut self,
        from: RowFrom,
        form: &Form,
        sense: Sense,
        right: Fraction,
    ) -> Result<(), RowFault>
        requires { AreColumns (length self.old.columns) form.now.terms }
        ensures { RowAdded self.old (row_of from form.now.terms (RowKind.One sense right)) self.new result }
    {
        self.push_row(from, form.terms(), RowKind::One(sense, right))
    }

    /// Adds the row that the terms of the form lie between two numbers; the form's constant isn't used.
    ///
    /// `TooManyRows` comes exactly where 1,000,000 are there. After a fault the system is as it was.
    pub fn add_range(
        &mut self,
        from: RowFrom,
        form: &Form,
        low: Fraction,
        high: Fraction,
    ) -> Result<(), RowFault>
        requires columns { AreColumns (length self.old.columns) form.now.terms }
        requires below { IsBelow low high }
        ensures { RowAdded self.old (row_of from form.now.terms (RowKind.Range low high)) self.new result }
    {
        self.push_row(from, form.terms(), RowKind::Range(low, high))
    }

    // Adds a row of these terms and this kind at the end.
    pub(crate) fn push_row(
        &mut self,
        from: RowFrom,
        terms: &[Term],
        kind: RowKind,
    ) -> Result<(), RowFault>
        requires terms { AreTerms terms.now }
        requires columns { AreColumns (length self.old.columns) terms.now }
        requires kind { IsKind kind }
        ensures { RowAdded self.old (row_of from terms.now kind) self.new result }
    {
        if self.rows.len() >= MOST {
            return Err(RowFault::TooManyRows);
        }
        let terms = Sequence::from_slice(self.alloc, terms)?;
        self.rows.push(GivenRow { from, terms, kind })?;
        Ok(())
    }

    /// Makes the form the objective, in place of the one that was there. The place is where `finish` tells a number of
    /// the objective that is past.
    pub fn set_objective(&mut self, maximize: bool, place: Place, form: Form)
        requires { AreColumns (length self.old.columns) form.terms }
        ensures { self.new ≡ with_objective self.old maximize place form }
    {
        self.objective = Some(Objective {
            maximize,
            place,
            form,
        });
    }

    /// The system with each row and the objective times the least factor that makes their numbers decimals of at most
    /// 15 places, and with its entries by column. Points stay, and the objective is at each of them its factor times
    /// what it was. Where the system is covered, they also stay when the sides are left out that aren't such decimals,
    /// since each of these stands as a row. The time is proportional to the numbers of columns, rows and entries.
    ///
    /// The fault is `Past`, with the place of the first row of which the factor, a scaled number or the difference of a
    /// range's scaled sides passes 128 bits, or else with that of such an objective. No other fault comes.
    pub fn finish(self) -> Result<Finished, FinishFault>
        ensures answer { FinishAnswer self (answered result) }
        ensures points { IfOk result
            (λ finished. (numbers : List Rational) → IsPoint (program_of finished) numbers ↔ IsSystemPoint self numbers) }
        ensures objective { IfOk result
            (λ finished. (numbers : List Rational) →
            objective_at (program_of finished) numbers ≡ times (system_objective_at self numbers) (whole finished.target.factor)) }
        ensures covered { IfOk result
            (λ finished. IsCovered self → (numbers : List Rational) →
            IsPoint (written_program (program_of finished)) numbers ↔ IsSystemPoint self numbers) }
    {
        let System {
            alloc,
            marks,
            sides,
            rows,
            objective,
        } = self;
        let rows = scaled_rows(alloc, rows.as_slice())?;
        let target = scaled_target(alloc, &objective)?;
        let columns = all_columns(alloc, marks.as_slice(), sides.as_slice())?;
        let entries = list_entries(alloc, columns.len(), rows.as_slice())?;
        Ok(Finished {
            columns,
            rows,
            entries,
            target,
        })
    }
}

// Adds a mark and sides at the ends of their lists, and gives the number of sides; where these find no room, the mark
// is taken off again.
fn push_pair(
    marks: &mut Vec<bool>,
    sides: &mut Sequence<Sides>,
    mark: bool,
    pair: &Sides,
) -> Result<u32, Memory>
    requires { length sides.old < 1000000 }
    ensures number { IfOk result (λ n. n ≡ length sides.new) }
    ensures ok_marks { OnOk result (marks.new.items ≡ marks.old.items ++ mark ∷ []) }
    ensures ok_sides { OnOk result (sides.new ≡ sides.old ++ pair.now ∷ []) }
    ensures err_marks { OnErr result (marks.new.items ≡ marks.old.items) }
    ensures err_sides { OnErr result (sides.new ≡ sides.old) }
{
    marks.push(mark)?;
    match push_sides(sides, pair) {
        Ok(()) => Ok(sides.len() as u32),
        Err(refused) => {
            marks.pop();
            Err(refused)
        }
    }
}

// Adds sides at the end of their list.
fn push_sides(sides: &mut Sequence<Sides>, pair: &Sides) -> Result<(), Memory>
    ensures ok { OnOk result (sides.new ≡ sides.old ++ pair.now ∷ []) }
    ensures err { OnErr result (sides.new ≡ sides.old) }
{
    sides.push(Sides {
        low: pair.low,
        high: pair.high,
    })?;
    Ok(())
}

// The mark that stands behind i others.
fn mark_at(marks: &[bool], i: usize) -> bool
    requires { i < length marks.now }
    ensures { result ≡ slice_index_or marks.now i false }
{
    marks[i]
}

// The columns of marks and sides.
fn all_columns(alloc: Global, marks: &[bool], sides: &[Sides]) -> Result<Sequence<Column>, Memory>
    requires { length marks.now ≡ length sides.now }
    ensures columns { IfOk result (λ columns. columns ≡ exact.columns_of marks.now sides.now) }
    ensures within { IfOk result (λ columns. All HasSidesWithin columns) }
{
    let mut columns = Vec::with_capacity(alloc, sides.len())?;
    for (i, sides) in sides.iter().enumerate() {
        let integer = mark_at(marks, i);
        columns.push(column_of(integer, sides))?;
    }
    Ok(Sequence::from_vec(columns))
}

// The column with this mark and these sides, whose numbers are within the limit as all are that the code holds.
fn column_of(integer: bool, sides: &Sides) -> Column
    ensures column { result ≡ exact.column_of integer sides.now }
    ensures within { HasSidesWithin result }
{
    Column {
        integer,
        sides: Sides {
            low: side_within(&sides.low),
            high: side_within(&sides.high),
        },
    }
}

// The side, which is within the limit if there is one.
fn side_within(side: &Option<Fraction>) -> Option<Fraction>
    ensures same { result ≡ side.now }
    ensures within { IfSome result IsWithin }
{
    match side {
        None => None,
        Some(number) => Some(number_within(*number)),
    }
}

// The number, whose numerator and denominator tell that it is within the limit.
fn number_within(number: Fraction) -> Fraction
    ensures same { result ≡ number }
    ensures within { IsWithin result }
{
    let _parts = (number.numer(), number.denom());
    number
}
