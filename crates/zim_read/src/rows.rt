//! The rows of one line.
ghost use Rattle.std.specs.Prelude.{◌≡◌};
ghost use Rattle.zim_answer.specs.Gives.{Gives};
ghost use Rattle.zim_read.specs.Private.{lent, manner_of, with_each};
ghost use Rattle.zim_read.specs.Causes.{line_cause};
ghost use Rattle.zim_read.specs.Rows as spec;

use crate::elements::{element_of, elements_at, is_short_line, value_element};
use crate::lines::{before_comment, fields_of, is_left_open};
use crate::stops::LineStop;
use crate::templates::{FieldKind, Template};
use std::alloc::Global;
use zim_fault::{Kind, Sequence};
use zim_tuples::{Elem, Tuple};

/// How many bytes a line may have, without its end.
const MOST_LINE_BYTES: usize = 65_536;

/// What a line of a data file gives.
#[derive(Debug, Drop)]
pub struct DataRow {
    /// The line in its file, from 1.
    pub line: u32,
    /// The components of a tuple, in the template's order.
    pub items: Tuple,
    /// The value behind it, where the template has one.
    pub value: Option<Elem>,
}

/// The rows so far, and how many lines may still be used; any, where no number is given.
#[derive(Drop)]
pub struct Taken {
    pub rows: Sequence<DataRow>,
    pub left: Option<u128>,
}

/// How the lines of a file are read: by which template, how many are skipped, and which bytes begin a comment.
#[derive(Clone, Copy, Drop)]
pub struct LineManner<'a> {
    pub template: &'a Template,
    pub skip: u128,
    pub comment: &'a [u8],
}

// Adds the row of a field as a tuple of its own.
fn add_field(
    alloc: Global,
    kind: FieldKind,
    number: u32,
    rows: &mut Sequence<DataRow>,
    field: &[u8],
) -> Result<(), LineStop>
    ensures { Gives (λ _. rows.new) line_cause (spec.with_field kind number rows.old field.now) result }
{
    let mut items = Tuple::new(alloc);
    items.push(element_of(alloc, kind, field)?)?;
    rows.push(DataRow {
        line: number,
        items,
        value: None,
    })?;
    Ok(())
}

// Adds a row for each field.
fn add_each(
    alloc: Global,
    kind: FieldKind,
    number: u32,
    rows: &mut Sequence<DataRow>,
    line: &[&[u8]],
) -> Result<(), LineStop>
    ensures { Gives (λ _. rows.new) line_cause (with_each kind number rows.old (lent line.now)) result }
{
    for field in line {
        add_field(alloc, kind, number, rows, field)?;
    }
    Ok(())
}

// Adds the rows that a template makes of the fields of a line.
#[tactic(auto, unfolding(crate::specs::Rows::with_fields))]
fn add_rows(
    alloc: Global,
    template: &Template,
    number: u32,
    rows: &mut Sequence<DataRow>,
    line: &[&[u8]],
) -> Result<(), LineStop>
    ensures { Gives (λ _. rows.new) line_cause (spec.with_fields template.now number rows.old (lent line.now)) result }
{
    match template {
        Template::Every(kind) => add_each(alloc, *kind, number, rows, line),
        Template::Fields { index, value } => {
            if is_short_line(line, index.as_slice(), *value) {
                return Err(LineStop::Fault(Kind::ShortLine));
            }
            let items = elements_at(alloc, line, index.as_slice())?;
            let value = value_element(alloc, line, *value)?;
            rows.push(DataRow {
                line: number,
                items,
                value,
            })?;
            Ok(())
        }
    }
}

// Whether no more lines are used.
fn is_enough(left: Option<u128>) -> bool
    ensures { result ≡ spec.is_enough left }
{
    match left {
        Some(left) => left == 0,
        None => false,
    }
}

// One line less is left to be used.
fn one_less(left: Option<u128>) -> Option<u128>
    ensures { result ≡ spec.one_less left }
{
    match left {
        Some(left) => Some(left.saturating_sub(1)),
        None => None,
    }
}

// Takes a line: what stands before a comment byte.
#[tactic(auto, unfolding(crate::specs::Rows::with_data_line))]
fn take_line(
    alloc: Global,
    manner: &LineManner,
    number: u32,
    line: &[u8],
    taken: &mut Taken,
) -> Result<(), LineStop>
    ensures { Gives (λ _. taken.new) line_cause (spec.with_data_line (manner_of manner.now) taken.old number line.now) result }
{
    let line = before_comment(line, manner.comment);
    if is_left_open(line) {
        return Err(LineStop::Fault(Kind::BadField));
    }
    let fields = fields_of(alloc, line)?;
    if fields.is_empty() {
        return Ok(());
    }
    add_rows(alloc, manner.template, number, &mut taken.rows, &fields)?;
    taken.left = one_less(taken.left);
    Ok(())
}

#[tactic(auto, unfolding(crate::specs::Rows::in_turn))]
/// Takes a line in its turn: one that is skipped may not be too long, and behind the last that is used none is looked at.
pub fn take_in_turn(
    alloc: Global,
    manner: &LineManner,
    number: u32,
    line: &[u8],
    taken: &mut Taken,
) -> Result<(), LineStop>
    ensures { Gives (λ _. taken.new) line_cause (spec.in_turn (manner_of manner.now) taken.old number line.now) result }
{
    let is_skipped = number as u128 <= manner.skip;
    if !is_skipped && is_enough(taken.left) {
        return Ok(());
    }
    if line.len() > MOST_LINE_BYTES {
        return Err(LineStop::Fault(Kind::LongLine));
    }
    if is_skipped {
        return Ok(());
    }
    take_line(alloc, manner, number, line, taken)
}
