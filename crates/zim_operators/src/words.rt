//! The functions that are words.
ghost use Rattle.std.specs.Prelude.{◌≡◌, pos, min, unsigned_abs, IfOk, option_copied};
ghost use Rattle.zim_answer.specs.Gives.{Gives};
ghost use Rattle.zim_fault.specs.declared.words.Word.TheVariants as words;
ghost use Rattle.zim_functions.specs.Texts as texts;
ghost use Rattle.zim_meaning.specs.Operations.{signum, item_at_number, word_applied};
ghost use Rattle.zim_meaning.specs.Operations as spec;
ghost use Rattle.zim_meaning.specs.declared.values.Value.TheVariants.{Number};
ghost use Rattle.zim_operators.specs.Causes.{stop_cause};
ghost use Rattle.zim_rational.specs.Rational.{whole};
ghost use Rattle.zim_rational.specs.Rounding as exact;

use crate::arithmetic::{are_natural, are_whole, is_whole};
use crate::extremes::extreme;
use crate::kinds::value_of_element;
use crate::stop::{Stop, settled};
use std::alloc::Global;
use std::cmp::Ordering;
use zim_fault::{Bytes, Duplicate, Kind, Memory, Word};
use zim_fraction::{Fraction, ceil, compare, floor, negated, round};
use zim_functions::substring;
use zim_meaning::Value;
use zim_sets::TupleSet;

// A number without its sign.
fn absolute(number: Fraction) -> Fraction
    ensures { result ≡ exact.absolute number }
{
    match compare(Fraction::zero(), number) {
        Ordering::Less => number,
        Ordering::Equal => number,
        Ordering::Greater => negated(number),
    }
}

// 1, 0 or -1.
fn sign_of(number: Fraction) -> Fraction
    ensures { result ≡ signum number }
{
    Fraction::whole(number.numer().signum())
}

// The number of items of a list, as a value.
fn counted(count: usize) -> Value
    ensures { result ≡ Number (whole (pos count)) }
{
    Value::Number(Fraction::whole(count as i128))
}

// The item at a position counted from 1, a whole number; there is none at 0, below it and past the end.
fn item_at<T>(items: &[T], position: Fraction) -> Option<&T>
    ensures { option_copied result ≡ item_at_number items.now position }
{
    let at = position.numer();
    if at < 1 || at > items.len() as i128 {
        return None;
    }
    items.get(at as usize - 1)
}

// `ord(A, n, c)`.
#[tactic(auto, unfolding(zim_meaning::specs::Operations::component_of))]
fn component_of(a: &TupleSet, n: Fraction, c: Fraction) -> Result<Value, Stop>
    ensures { Gives (λ value. value) stop_cause (spec.component_of a.now n c) result }
{
    if !(is_whole(&n) && is_whole(&c)) {
        return Err(Stop::Kind(Kind::NotInteger));
    }
    let tuple = match item_at(a.as_slice(), n) {
        Some(tuple) => tuple,
        None => return Err(Stop::Kind(Kind::NoEntry)),
    };
    match item_at(tuple.as_slice(), c) {
        Some(element) => Ok(value_of_element(element)?),
        None => Err(Stop::Kind(Kind::NoEntry)),
    }
}

// The size of a number, or the length where it is past it.
fn size_within(number: &Fraction, length: usize) -> usize
    ensures { result ≡ min (unsigned_abs number.now.numer) length }
{
    let at = number.numer().unsigned_abs();
    if at < length as u128 {
        at as usize
    } else {
        length
    }
}

// At most so many bytes of a text from a position on.
fn cut_text(alloc: Global, s: &Bytes, from: &Fraction, len: &Fraction) -> Result<Bytes, Memory>
    ensures { IfOk result (λ text. text ≡ texts.substring s.now (unsigned_abs from.now.numer) (unsigned_abs len.now.numer)) }
{
    let begin = size_within(from, s.len());
    let most = size_within(len, s.len());
    substring(alloc, s, begin, most)
}

// `substr(s, b, n)`.
#[tactic(auto, unfolding(zim_meaning::specs::Operations::part_of_text))]
fn part_of_text(alloc: Global, s: &Bytes, from: &Fraction, len: &Fraction) -> Result<Value, Stop>
    ensures { Gives (λ value. value) stop_cause (spec.part_of_text s.now from.now len.now) result }
{
    if !are_whole(from, len) {
        return Err(Stop::Kind(Kind::NotInteger));
    }
    if !are_natural(from, len) {
        return Err(Stop::Kind(Kind::NoEntry));
    }
    Ok(Value::Text(cut_text(alloc, s, from, len)?))
}

// `abs(a)`.
#[tactic(auto, unfolding(zim_meaning::specs::Operations::word_applied))]
fn absolute_of(values: &[Value]) -> Result<Value, Kind>
    ensures { result ≡ word_applied words.WAbs values.now }
{
    match values {
        [Value::Number(number)] => Ok(Value::Number(absolute(*number))),
        _ => Err(Kind::WrongKind),
    }
}

// `sgn(a)`.
#[tactic(auto, unfolding(zim_meaning::specs::Operations::word_applied))]
fn sign_of_value(values: &[Value]) -> Result<Value, Kind>
    ensures { result ≡ word_applied words.WSgn values.now }
{
    match values {
        [Value::Number(number)] => Ok(Value::Number(sign_of(*number))),
        _ => Err(Kind::WrongKind),
    }
}

// `floor(a)`.
#[tactic(auto, unfolding(zim_meaning::specs::Operations::word_applied))]
fn floor_of(values: &[Value]) -> Result<Value, Kind>
    ensures { result ≡ word_applied words.WFloor values.now }
{
    match values {
        [Value::Number(number)] => Ok(Value::Number(floor(*number))),
        _ => Err(Kind::WrongKind),
    }
}

// `ceil(a)`.
#[tactic(auto, unfolding(zim_meaning::specs::Operations::word_applied))]
fn ceil_of(values: &[Value]) -> Result<Value, Kind>
    ensures { result ≡ word_applied words.WCeil values.now }
{
    match values {
        [Value::Number(number)] => Ok(Value::Number(ceil(*number))),
        _ => Err(Kind::WrongKind),
    }
}

// `round(a)`.
#[tactic(auto, unfolding(zim_meaning::specs::Operations::word_applied))]
fn round_of(values: &[Value]) -> Result<Value, Kind>
    ensures { result ≡ word_applied words.WRound values.now }
{
    match values {
        [Value::Number(number)] => Ok(Value::Number(round(*number))),
        _ => Err(Kind::WrongKind),
    }
}

// `card(A)`.
#[tactic(auto, unfolding(zim_meaning::specs::Operations::word_applied))]
fn size_of(values: &[Value]) -> Result<Value, Kind>
    ensures { result ≡ word_applied words.WCard values.now }
{
    match values {
        [Value::Set(a)] => Ok(counted(a.len())),
        _ => Err(Kind::WrongKind),
    }
}

// `length(s)`.
#[tactic(auto, unfolding(zim_meaning::specs::Operations::word_applied))]
fn length_of(values: &[Value]) -> Result<Value, Kind>
    ensures { result ≡ word_applied words.WLength values.now }
{
    match values {
        [Value::Text(s)] => Ok(counted(s.len())),
        _ => Err(Kind::WrongKind),
    }
}

// `ord(A, n, c)` of its arguments.
#[tactic(auto, unfolding(zim_meaning::specs::Operations::word_applied))]
fn order_of(values: &[Value]) -> Result<Value, Stop>
    ensures { Gives (λ value. value) stop_cause (word_applied words.WOrd values.now) result }
{
    match values {
        [Value::Set(a), Value::Number(n), Value::Number(c)] => component_of(a, *n, *c),
        _ => Err(Stop::Kind(Kind::WrongKind)),
    }
}

// `substr(s, b, n)` of its arguments.
#[tactic(auto, unfolding(zim_meaning::specs::Operations::word_applied))]
fn part_of(alloc: Global, values: &[Value]) -> Result<Value, Stop>
    ensures { Gives (λ value. value) stop_cause (word_applied words.WSubstr values.now) result }
{
    match values {
        [Value::Text(s), Value::Number(from), Value::Number(len)] => {
            part_of_text(alloc, s, from, len)
        }
        _ => Err(Stop::Kind(Kind::WrongKind)),
    }
}

// `indexset(P)`, whose argument is the index set.
#[tactic(auto, unfolding(zim_meaning::specs::Operations::word_applied))]
fn indices_of(values: &[Value]) -> Result<Value, Stop>
    ensures { Gives (λ value. value) stop_cause (word_applied words.WIndexset values.now) result }
{
    match values {
        [Value::Set(a)] => Ok(Value::Set(a.copy()?)),
        _ => Err(Stop::Kind(Kind::WrongKind)),
    }
}

/// A function that is a word, on the values of its arguments: `abs`, `sgn`, `floor`, `ceil`, `round`, `min`, `max`,
/// `card`, `ord`, `length`, `substr` and `indexset`, of which the last one's argument is the index set itself.
///
/// `WrongKind` exactly where it doesn't take so many arguments of these kinds, else `NotInteger` where `ord` or
/// `substr` has a position that isn't whole, else `NoEntry` where nothing stands there; `EmptyChoice` is the least
/// or greatest of an empty set.
#[tactic(auto, unfolding(zim_meaning::specs::Operations::word_applied))]
pub fn applied(alloc: Global, word: Word, values: &[Value]) -> Result<Value, Stop>
    ensures { Gives (λ value. value) stop_cause (word_applied word values.now) result }
{
    match word {
        Word::WAbs => settled(absolute_of(values)),
        Word::WSgn => settled(sign_of_value(values)),
        Word::WFloor => settled(floor_of(values)),
        Word::WCeil => settled(ceil_of(values)),
        Word::WRound => settled(round_of(values)),
        Word::WMin => settled(extreme(false, values)),
        Word::WMax => settled(extreme(true, values)),
        Word::WCard => settled(size_of(values)),
        Word::WOrd => order_of(values),
        Word::WLength => settled(length_of(values)),
        Word::WSubstr => part_of(alloc, values),
        Word::WIndexset => indices_of(values),
        _ => Err(Stop::Kind(Kind::WrongKind)),
    }
}
