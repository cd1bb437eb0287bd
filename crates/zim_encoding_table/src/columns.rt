//! Columns by the texts of their sides.
ghost use Rattle.std.specs.Prelude.{◌≡◌, IsTrue, IfSome, IfOk};
ghost use Rattle.zim_rational.specs.Rational as exact;
ghost use Rattle.zim_linear.specs.Ends.{IsUncrossed};
ghost use Rattle.zim_rows.specs.System.{AreWholeSides};

use crate::stack::number_of;
use crate::stops::Stop;
use std::cmp::Ordering;
use zim_fraction::{Fraction, compare};
use zim_linear::Sides;
use zim_rows::System;

/// Whether a number isn't above another.
pub fn is_at_most(a: Fraction, b: Fraction) -> bool
    ensures { result ≡ exact.at_most a b }
{
    match compare(a, b) {
        Ordering::Less => true,
        Ordering::Equal => true,
        Ordering::Greater => false,
    }
}

/// Adds a column whose sides a text writes, and gives its number.
pub fn add_column(system: &mut System, integer: bool, text: &str) -> Result<u32, Stop> {
    let (low, high) = sides_of(integer, text)?;
    system
        .new_column(integer, Sides { low, high })
        .or(Err(Stop::Memory))
}

/// The sides of a column that a text writes, the low one first, where a column can have these: the low one isn't above the
/// high one, and those of an integer column are whole.
fn sides_of(integer: bool, text: &str) -> Result<(Option<Fraction>, Option<Fraction>), Stop>
    ensures uncrossed { IfOk result (λ sides. IsUncrossed (record { low = sides.0; high = sides.1 })) }
    ensures whole { IfOk result (λ sides. IsTrue integer → AreWholeSides (record { low = sides.0; high = sides.1 })) }
{
    let Some((low, high)) = text.split_once(' ') else {
        return Err(Stop::NoCase);
    };
    let sides = Sides {
        low: side_of(low)?,
        high: side_of(high)?,
    };
    if are_uncrossed(&sides) && (!integer || are_whole(&sides)) {
        Ok((sides.low, sides.high))
    } else {
        Err(Stop::NoCase)
    }
}

/// A side of a column, where `-` stands for none.
fn side_of(text: &str) -> Result<Option<Fraction>, Stop> {
    if text == "-" {
        Ok(None)
    } else {
        Ok(Some(number_of(text)?))
    }
}

/// Whether the low side isn't above the high one.
fn are_uncrossed(sides: &Sides) -> bool
    ensures { IsTrue result → IsUncrossed sides.now }
{
    match (&sides.low, &sides.high) {
        (Some(low), Some(high)) => is_at_most(*low, *high),
        _ => true,
    }
}

/// Whether the sides that there are, are whole numbers.
fn are_whole(sides: &Sides) -> bool
    ensures { IsTrue result → AreWholeSides sides.now }
{
    is_whole_side(&sides.low) && is_whole_side(&sides.high)
}

/// Whether a side is a whole number, or there is none.
fn is_whole_side(side: &Option<Fraction>) -> bool
    ensures { IsTrue result → IfSome side.now (λ q. IsTrue (exact.is_whole q)) }
{
    match side {
        Some(number) => is_whole(number),
        None => true,
    }
}

/// Whether a number is whole.
fn is_whole(number: &Fraction) -> bool
    ensures { result ≡ exact.is_whole number.now }
{
    number.denom() == 1
}
