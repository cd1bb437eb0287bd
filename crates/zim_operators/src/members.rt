//! Sets of listed members, ranges, and projections.
ghost use Rattle.std.specs.Prelude.{◌≡◌, [], ◌∷◌, ◌&&◌, not, pos, int_lt, IsTrue, IfOk, map, unsigned_abs};
ghost use Rattle.std.specs.List.{list_all};
ghost use Rattle.zim_answer.specs.Answer.{goes};
ghost use Rattle.zim_answer.specs.Gives.{Gives};
ghost use Rattle.zim_meaning.specs.Operations.{element_of_value, with_member, with_position, projected_at};
ghost use Rattle.zim_meaning.specs.Operations as spec;
ghost use Rattle.zim_operators.specs.Causes.{stop_cause};
ghost use Rattle.zim_operators.specs.Private.{between_numbers, cut_to};
ghost use Rattle.zim_rational.specs.Rational as exact;

use crate::arithmetic::is_whole;
use crate::kinds::{number_of, set_of};
use crate::stop::{Stop, set_or_stop};
use std::alloc::Global;
use zim_fault::{Duplicate, Kind, Memory, Sequence};
use zim_fraction::Fraction;
use zim_meaning::Value;
use zim_sets::{TupleSet, proj, range, set_of_list};
use zim_tuples::{Elem, Tuple};

// The number or text that a value is, copied.
fn member_of(value: &Value) -> Result<Elem, Stop>
    ensures { Gives (λ member. member) stop_cause (element_of_value value.now) result }
{
    match value {
        Value::Number(number) => Ok(Elem::Number(*number)),
        Value::Text(text) => Ok(Elem::Text(text.copy()?)),
        _ => Err(Stop::Kind(Kind::WrongKind)),
    }
}

// The tuple of one component.
fn single(alloc: Global, member: Elem) -> Result<Tuple, Memory>
    ensures { IfOk result (λ tuple. tuple ≡ member ∷ []) }
{
    let mut tuple = Tuple::new(alloc);
    tuple.push(member)?;
    Ok(tuple)
}

// Adds a value, as a tuple of one component, at the end.
fn add_member(alloc: Global, tuples: &mut Sequence<Tuple>, value: &Value) -> Result<(), Stop>
    ensures { Gives (λ _. tuples.new) stop_cause (with_member tuples.old value.now) result }
{
    let member = member_of(value)?;
    tuples.push(single(alloc, member)?)?;
    Ok(())
}

// The values as tuples of one component.
fn members_of(alloc: Global, values: &[Value]) -> Result<Sequence<Tuple>, Stop>
    ensures { Gives (λ tuples. tuples) stop_cause (goes with_member [] values.now) result }
{
    let mut tuples = Sequence::new(alloc);
    for value in values {
        add_member(alloc, &mut tuples, value)?;
    }
    Ok(tuples)
}

/// The set of values, each as a tuple of one component, of equal ones the first.
///
/// `WrongKind` exactly where one is neither a number nor a text or two differ in kind, else `SetSize` exactly where
/// more than 1,048,576 are left.
#[tactic(auto, unfolding(zim_meaning::specs::Operations::set_of_members))]
pub fn set_of_members(alloc: Global, values: &[Value]) -> Result<Value, Stop>
    ensures { Gives (λ value. value) stop_cause (spec.set_of_members values.now) result }
{
    let tuples = members_of(alloc, values)?;
    set_or_stop(set_of_list(alloc, tuples.as_slice()))
}

// Whether all three are whole numbers.
fn are_three_whole(n: &Fraction, m: &Fraction, s: &Fraction) -> bool
    ensures { result ≡ (exact.is_whole n.now && exact.is_whole m.now && exact.is_whole s.now) }
{
    is_whole(n) && is_whole(m) && is_whole(s)
}

// The set of the numbers from n to m by s, which are whole.
fn between(alloc: Global, n: &Fraction, m: &Fraction, s: &Fraction) -> Result<Value, Stop>
    ensures { Gives (λ value. value) stop_cause (between_numbers n.now m.now s.now) result }
{
    if !are_three_whole(n, m, s) {
        return Err(Stop::Kind(Kind::NotInteger));
    }
    set_or_stop(range(alloc, n.numer(), m.numer(), s.numer()))
}

/// The set of the numbers from `n` to `m` by `s`.
///
/// `WrongKind` exactly where one of the three is no number, else `NotInteger` where one isn't whole, else `StepZero`
/// where `s` is 0, else `SetSize` where they are more than 1,048,576.
#[tactic(auto, unfolding(zim_meaning::specs::Operations::set_between))]
pub fn set_between(alloc: Global, n: &Value, m: &Value, s: &Value) -> Result<Value, Stop>
    ensures { Gives (λ value. value) stop_cause (spec.set_between n.now m.now s.now) result }
{
    match (n, m, s) {
        (Value::Number(n), Value::Number(m), Value::Number(s)) => between(alloc, n, m, s),
        _ => Err(Stop::Kind(Kind::WrongKind)),
    }
}

// Adds the number that a value is at the end.
fn add_position(positions: &mut Sequence<Fraction>, value: &Value) -> Result<(), Stop>
    ensures { Gives (λ _. positions.new) stop_cause (with_position positions.old value.now) result }
{
    match number_of(value) {
        Ok(number) => {
            positions.push(number)?;
            Ok(())
        }
        Err(kind) => Err(Stop::Kind(kind)),
    }
}

// The numbers that values are.
fn positions_of(alloc: Global, values: &[Value]) -> Result<Sequence<Fraction>, Stop>
    ensures { Gives (λ positions. positions) stop_cause (goes with_position [] values.now) result }
{
    let mut positions = Sequence::new(alloc);
    for value in values {
        add_position(&mut positions, value)?;
    }
    Ok(positions)
}

// Whether a whole number is the position of a component of tuples of this length.
fn is_within(length: usize, number: &Fraction) -> bool
    ensures { result ≡ (not (int_lt number.now.numer (pos 1)) && not (int_lt (pos length) number.now.numer)) }
{
    let at = number.numer();
    !(at < 1) && !((length as i128) < at)
}

// Whole numbers from 1 up to some length as positions.
fn as_positions(
    alloc: Global,
    length: usize,
    numbers: &[Fraction],
) -> Result<Sequence<usize>, Memory>
    requires { IsTrue (list_all (λ q. not (int_lt q.numer (pos 1)) && not (int_lt (pos length) q.numer)) numbers.now) }
    ensures { IfOk result (λ positions. positions ≡ map (λ q. unsigned_abs q.numer) numbers.now) }
{
    let mut positions = Sequence::new(alloc);
    for number in numbers {
        positions.push(number.numer() as usize)?;
    }
    Ok(positions)
}

// Whether all are whole numbers.
fn are_whole(numbers: &[Fraction]) -> bool
    ensures { result ≡ list_all exact.is_whole numbers.now }
{
    numbers.iter().all(|number| is_whole(number))
}

// Whether all are positions of components of tuples of this length.
fn are_within(length: usize, numbers: &[Fraction]) -> bool
    ensures { result ≡ list_all (λ q. not (int_lt q.numer (pos 1)) && not (int_lt (pos length) q.numer)) numbers.now }
{
    numbers.iter().all(|number| is_within(length, number))
}

// The tuples of a set, of which this is the first, cut to the components at these whole numbers.
fn cut(alloc: Global, a: &TupleSet, length: usize, numbers: &[Fraction]) -> Result<Value, Stop>
    ensures { Gives (λ value. value) stop_cause (cut_to a.now length numbers.now) result }
{
    if !are_within(length, numbers) {
        return Err(Stop::Kind(Kind::NoEntry));
    }
    let positions = as_positions(alloc, length, numbers)?;
    set_or_stop(proj(alloc, a, positions.as_slice()))
}

// A set's tuples cut to the components at these positions.
#[tactic(auto, unfolding(zim_meaning::specs::Operations::projected_at))]
fn projected(alloc: Global, a: &TupleSet, numbers: &[Fraction]) -> Result<Value, Stop>
    ensures { Gives (λ value. value) stop_cause (projected_at a.now numbers.now) result }
{
    if !are_whole(numbers) {
        return Err(Stop::Kind(Kind::NotInteger));
    }
    match a.as_slice() {
        [] => Ok(Value::Set(TupleSet::new(alloc))),
        [tuple, ..] => cut(alloc, a, tuple.len(), numbers),
    }
}

/// A set's tuples cut to the components at positions, which are counted from 1: of equal ones the first is kept.
///
/// `WrongKind` exactly where the first value is no set or a position no number, else `NotInteger` where a position
/// isn't whole, else `NoEntry` where the tuples have no such component.
#[tactic(auto, unfolding(zim_meaning::specs::Operations::projection))]
pub fn projection(alloc: Global, set: &Value, values: &[Value]) -> Result<Value, Stop>
    ensures { Gives (λ value. value) stop_cause (spec.projection set.now values.now) result }
{
    let a = match set_of(set) {
        Ok(a) => a,
        Err(kind) => return Err(Stop::Kind(kind)),
    };
    let positions = positions_of(alloc, values)?;
    projected(alloc, a, positions.as_slice())
}
