//! Conjunctions of conditions, each of a column of its own.
ghost use Rattle.std.specs.Prelude.{◌<◌, ◌≤◌, IsTrue, IfOk};
ghost use Rattle.zim_formula.specs.GroundRules.{is_condition_over};

use sqlite_items::{Boxed, Items};
use std::alloc::{AllocError, Global};
use zim_fault::{Join, Place, Relation};
use zim_formula::{GCond, GTerm};
use zim_fraction::Fraction;

/// The place of all that is encoded.
pub const PLACE: Place = Place { file: 0, line: 1 };

/// The conjunction of `x >= 1` for each x of the columns from 1 to this number.
pub fn conjunction(alloc: Global, columns: u32) -> Result<GCond, AllocError>
    requires { 0 < columns }
    ensures { IfOk result (λ c. IsTrue (is_condition_over columns c)) }
{
    let first = Boxed::new(alloc, is_one(alloc, columns, 1)?)?;
    let mut others = Items::new(alloc);
    for number in 1..columns {
        let condition = is_one(alloc, columns, number + 1)?;
        others.push((PLACE, Join::And, condition))?;
    }
    Ok(GCond::Chain(first, others))
}

/// The condition `x >= 1` of one of the columns from 1 to a number.
fn is_one(alloc: Global, columns: u32, number: u32) -> Result<GCond, AllocError>
    requires from_one { 0 < number }
    requires in_columns { number ≤ columns }
    ensures { IfOk result (λ c. IsTrue (is_condition_over columns c)) }
{
    let left = Boxed::new(alloc, GTerm::Column(number))?;
    let right = Boxed::new(alloc, GTerm::Known(Fraction::one()))?;
    Ok(GCond::Compare(PLACE, Relation::AtLeast, left, right))
}
