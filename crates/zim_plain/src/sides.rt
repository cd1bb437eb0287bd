//! What is read of a list before it is added up: its numbers, each with its sign and the column of its name.

ghost use Rattle.std.specs.Prelude.{◌≡◌, ◌≤◌, false, List, length, map, option_map};
ghost use Rattle.zim_plain.specs.Suits.{SuitsItem, SuitsSum};
ghost use Rattle.zim_plain.specs.Statements.{WrittenText, first_negative};
ghost use Rattle.zim_plain.specs.Faults.{item_fault, numbers_fault};
ghost use Rattle.zim_plain.specs.Faults as faults;
ghost use Rattle.zim_plain.specs.Reader.{item_of, sign_said, further_of, sum_said};
ghost use Rattle.zim_plain.specs.Parts as parts;
ghost use Rattle.zim_plain.specs.Parts.{part_at};
ghost use Rattle.zim_plain.specs.Sides.{PartAnswer, MadeAnswer, KnownAnswer, HavePartsOf, parts_numbers_fault, IsSideOf};

use crate::numbers::{amount, past_at};
use crate::parts::{Part, Side};
use crate::statement::{Further, Item, SignAt, Sum};
use crate::stop::PlainStop;
use crate::suits::column;
use indexmap::IndexSet;
use std::alloc::Global;
use zim_fault::{Bytes, Fault, Place};
use zim_fraction::{Fraction, add};

/// Whether an item has a name.
fn has_name(item: &Item<'_>) -> bool
    ensures { result ≡ faults.has_name (item_of item.now) }
{
    match item {
        Item::Constant(_) => false,
        Item::Multiple(_, _, _) => true,
    }
}

/// Whether one of further items has a name.
fn any_has_name(others: &[Further<'_>]) -> bool
    ensures { result ≡ faults.any_has_name (map further_of others.now) }
{
    for further in others {
        if has_name(&further.item) {
            return true;
        }
    }
    false
}

/// Whether a list names a variable.
fn names_variable(sum: &Sum<'_>) -> bool
    ensures { result ≡ faults.has_variable (sum_said sum.now) }
{
    if has_name(&sum.first) {
        return true;
    }
    any_has_name(sum.others.as_slice())
}

/// Whether the sign before a list is a minus.
fn is_negative(sign: &Option<SignAt>) -> bool
    ensures { result ≡ first_negative (option_map sign_said sign.now) }
{
    match sign {
        Some(sign) => sign.negative,
        None => false,
    }
}

/// Where an item begins.
fn place_of(item: &Item<'_>) -> Place {
    match item {
        Item::Constant(number) => number.number.place,
        Item::Multiple(_, place, _) => *place,
    }
}

/// The column of an item's name; a number has none.
fn item_column(variables: &IndexSet<Bytes>, item: &Item<'_>) -> Option<u32>
    requires { length variables.now.keys ≤ 1000000 }
    ensures { result ≡ parts.item_column variables.now.keys (item_of item.now) }
{
    match item {
        Item::Constant(_) => None,
        Item::Multiple(_, _, name) => Some(column(variables, name)),
    }
}

/// The part of an item behind an operator at a place, or its first number that is past.
fn part(
    variables: &IndexSet<Bytes>,
    place: Place,
    negative: bool,
    item: &Item<'_>,
) -> Result<Part, Fault>
    requires few { length variables.now.keys ≤ 1000000 }
    requires suits { SuitsItem variables.now.keys (false, item_of item.now) }
    ensures { PartAnswer (item_fault (item_of item.now)) (part_at variables.now.keys place negative (item_of item.now)) result }
{
    match amount(negative, item) {
        Ok(amount) => Ok(Part {
            place,
            column: item_column(variables, item),
            amount,
        }),
        Err(fault) => Err(fault),
    }
}

/// The parts of a list, or its first number that is past.
fn parts(alloc: Global, variables: &IndexSet<Bytes>, sum: &Sum<'_>) -> Result<Vec<Part>, PlainStop>
    requires few { length variables.now.keys ≤ 1000000 }
    requires suits { SuitsSum variables.now.keys (sum_said sum.now) }
    ensures { MadeAnswer (parts_numbers_fault (sum_said sum.now)) (HavePartsOf variables.now.keys (sum_said sum.now)) result }
{
    let first = match part(
        variables,
        place_of(&sum.first),
        is_negative(&sum.sign),
        &sum.first,
    ) {
        Ok(first) => first,
        Err(fault) => return Err(PlainStop::Fault(fault)),
    };
    let mut parts = Vec::new(alloc);
    parts.push(first)?;
    for further in &sum.others {
        match part(
            variables,
            further.sign.place,
            further.sign.negative,
            &further.item,
        ) {
            Ok(part) => parts.push(part)?,
            Err(fault) => return Err(PlainStop::Fault(fault)),
        }
    }
    Ok(parts)
}

/// The number of a list that names no variable, or its first number or sum that is past.
fn known(sum: &Sum<'_>) -> Result<Fraction, Fault>
    requires numbers { faults.has_variable (sum_said sum.now) ≡ false }
    requires suits { (names : List WrittenText) × SuitsSum names (sum_said sum.now) }
    ensures { KnownAnswer (sum_said sum.now) result }
{
    let mut total = match amount(is_negative(&sum.sign), &sum.first) {
        Ok(first) => first,
        Err(fault) => return Err(fault),
    };
    for further in &sum.others {
        let next = match amount(further.sign.negative, &further.item) {
            Ok(next) => next,
            Err(fault) => return Err(fault),
        };
        total = match add(total, next) {
            Ok(total) => total,
            Err(_) => return Err(past_at(further.sign.place)),
        };
    }
    Ok(total)
}

/// What a list says before it is added up: its number where it names no variable, else its parts; or its first number
/// that is past.
pub fn read_side(
    alloc: Global,
    variables: &IndexSet<Bytes>,
    sum: &Sum<'_>,
) -> Result<Side, PlainStop>
    requires few { length variables.now.keys ≤ 1000000 }
    requires suits { SuitsSum variables.now.keys (sum_said sum.now) }
    ensures { MadeAnswer (numbers_fault (sum_said sum.now)) (IsSideOf variables.now.keys (sum_said sum.now)) result }
{
    if names_variable(sum) {
        match parts(alloc, variables, sum) {
            Ok(parts) => Ok(Side::Parts(parts)),
            Err(stop) => Err(stop),
        }
    } else {
        match known(sum) {
            Ok(number) => Ok(Side::Known(number)),
            Err(fault) => Err(PlainStop::Fault(fault)),
        }
    }
}
