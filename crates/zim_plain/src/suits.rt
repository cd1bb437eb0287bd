//! Which lists suit the variables that are declared before them.

ghost use Rattle.std.specs.Prelude.{◌≡◌, ◌↔◌, ◌<◌, ◌≤◌, IsTrue, length, map, false};
ghost use Rattle.zim_decimal.specs.Token as token;
ghost use Rattle.zim_plain.specs.Suits.{SuitsLiteral, SuitsDivisor, SuitsCoefficient, SuitsItem, SuitsSum};
ghost use Rattle.zim_plain.specs.Systems as systems;
ghost use Rattle.zim_plain.specs.Systems.{column_of_name};
ghost use Rattle.zim_plain.specs.Reader.{literal_of, divisor_of, coefficient_said, item_of, further_of, sum_said};
ghost use Rattle.zim_plain.specs.Sides.{IsDeclared, SuitsNumbers, SuitOthers, starts_with_sign};

use crate::numbers::is_zero;
use crate::statement::{Coefficient, Divisor, Further, Item, Literal, Sum};
use indexmap::IndexSet;
use zim_decimal::read_field;
use zim_fault::Bytes;

/// Whether a text begins with a sign.
fn has_sign(text: &[u8]) -> bool
    ensures { result ≡ starts_with_sign text.now }
{
    match text.first() {
        Some(first) => *first == b'+' || *first == b'-',
        None => false,
    }
}

/// Whether a text is written as number tokens are: as a field without a sign.
fn is_number(text: &[u8]) -> bool
    ensures { result ≡ token.is_number_token text.now }
{
    if has_sign(text) {
        return false;
    }
    match read_field(text) {
        Ok(Some(_)) => true,
        Ok(None) => false,
        Err(_) => true,
    }
}

/// Whether a literal is written as number tokens are.
fn suits_literal(literal: &Literal<'_>) -> bool
    ensures { IsTrue result ↔ SuitsLiteral (literal_of literal.now) }
{
    is_number(literal.text.as_slice())
}

/// Whether a divisor is a number token that isn't 0.
fn suits_divisor(divisor: &Divisor<'_>) -> bool
    ensures { IsTrue result ↔ SuitsDivisor (Some (divisor_of divisor.now)) }
{
    suits_literal(&divisor.literal) && !is_zero(&divisor.literal)
}

/// Whether a coefficient is a number token, perhaps over one that isn't 0.
fn suits_coefficient(coefficient: &Coefficient<'_>) -> bool
    ensures { IsTrue result ↔ SuitsCoefficient (coefficient_said coefficient.now) }
{
    if !suits_literal(&coefficient.number) {
        return false;
    }
    match &coefficient.divisor {
        None => true,
        Some(divisor) => suits_divisor(divisor),
    }
}

/// Whether the numbers of an item are such.
fn suits_numbers(item: &Item<'_>) -> bool
    ensures { IsTrue result ↔ SuitsNumbers (item_of item.now) }
{
    match item {
        Item::Constant(number) => suits_coefficient(number),
        Item::Multiple(None, _, _) => true,
        Item::Multiple(Some(factor), _, _) => suits_coefficient(&factor.coefficient),
    }
}

/// Whether an item's name is declared, if it has one.
fn is_declared(variables: &IndexSet<Bytes>, item: &Item<'_>) -> bool
    ensures { IsTrue result ↔ IsDeclared variables.now.keys (item_of item.now) }
{
    match item {
        Item::Constant(_) => true,
        Item::Multiple(_, _, name) => place(variables, name).is_some(),
    }
}

/// Whether each item of a list has such numbers and a declared name, or none.
pub fn suits_sum(variables: &IndexSet<Bytes>, sum: &Sum<'_>) -> bool
    ensures { IsTrue result ↔ SuitsSum variables.now.keys (sum_said sum.now) }
{
    suits_item(variables, &sum.first) && suits_others(variables, sum.others.as_slice())
}

/// Whether each further item has such numbers and a declared name, or none.
fn suits_others(variables: &IndexSet<Bytes>, others: &[Further<'_>]) -> bool
    ensures { IsTrue result ↔ SuitOthers variables.now.keys (map further_of others.now) }
{
    for further in others {
        if !suits_item(variables, &further.item) {
            return false;
        }
    }
    true
}

/// Whether an item has such numbers and a declared name, or none.
fn suits_item(variables: &IndexSet<Bytes>, item: &Item<'_>) -> bool
    ensures { IsTrue result ↔ SuitsItem variables.now.keys (false, item_of item.now) }
{
    suits_numbers(item) && is_declared(variables, item)
}

/// The place of a name among the variables, from 0.
fn place(variables: &IndexSet<Bytes>, name: &Bytes) -> Option<usize>
    ensures { result ≡ systems.place_of variables.now.keys name.now }
{
    variables.get_index_of(name)
}

/// The number of a name's column, from 1; 0 for a name that isn't declared.
pub fn column(variables: &IndexSet<Bytes>, name: &Bytes) -> u32
    requires { length variables.now.keys ≤ 1000000 }
    ensures { result ≡ column_of_name variables.now.keys name.now }
{
    match place(variables, name) {
        Some(place) => place as u32 + 1,
        None => 0,
    }
}
