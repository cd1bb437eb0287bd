//! Operators between two operands.
ghost use Rattle.std.specs.Prelude.{◌≡◌};
ghost use Rattle.zim_answer.specs.Gives.{Gives};
ghost use Rattle.zim_meaning.specs.Operations.{values_added, values_subtracted, values_multiplied, on_sets, sign_operated, word_operated, values_operated};
ghost use Rattle.zim_meaning.specs.Operations as spec;
ghost use Rattle.zim_fault.specs.declared.signs.Sign.TheVariants.{SSlash};
ghost use Rattle.zim_fault.specs.declared.words.Word.TheVariants.{WMod, WDiv};
ghost use Rattle.zim_operators.specs.Causes.{stop_cause};
ghost use Rattle.zim_sets.specs.Operators.{union_of, without_of, inter_of, symdiff_of};
ghost use Rattle.zim_sets.specs.Products.{cross_of};

use crate::arithmetic::{number_or_fault, number_or_past, number_or_stop};
use crate::stop::{Stop, set_or_stop, settled};
use std::alloc::Global;
use zim_fault::{Kind, Sign, Token, Word};
use zim_fraction::{add, div, mul, sub};
use zim_functions::{join, quotient, rest};
use zim_meaning::Value;
use zim_sets::{cross, inter, symdiff, union, without};

// `+`.
#[tactic(auto, unfolding(zim_meaning::specs::Operations::values_added))]
fn added(alloc: Global, v: &Value, w: &Value) -> Result<Value, Stop>
    ensures { Gives (λ value. value) stop_cause (values_added v.now w.now) result }
{
    match (v, w) {
        (Value::Number(p), Value::Number(q)) => settled(number_or_past(add(*p, *q))),
        (Value::Text(s), Value::Text(t)) => Ok(Value::Text(join(alloc, s, t)?)),
        (Value::Set(a), Value::Set(b)) => set_or_stop(union(alloc, a, b)),
        _ => Err(Stop::Kind(Kind::WrongKind)),
    }
}

// `-`.
#[tactic(auto, unfolding(zim_meaning::specs::Operations::values_subtracted))]
fn subtracted(alloc: Global, v: &Value, w: &Value) -> Result<Value, Stop>
    ensures { Gives (λ value. value) stop_cause (values_subtracted v.now w.now) result }
{
    match (v, w) {
        (Value::Number(p), Value::Number(q)) => settled(number_or_past(sub(*p, *q))),
        (Value::Set(a), Value::Set(b)) => set_or_stop(without(alloc, a, b)),
        _ => Err(Stop::Kind(Kind::WrongKind)),
    }
}

// `*`.
#[tactic(auto, unfolding(zim_meaning::specs::Operations::values_multiplied))]
fn multiplied(alloc: Global, v: &Value, w: &Value) -> Result<Value, Stop>
    ensures { Gives (λ value. value) stop_cause (values_multiplied v.now w.now) result }
{
    match (v, w) {
        (Value::Number(p), Value::Number(q)) => settled(number_or_past(mul(*p, *q))),
        (Value::Set(a), Value::Set(b)) => set_or_stop(cross(alloc, a, b)),
        _ => Err(Stop::Kind(Kind::WrongKind)),
    }
}

// `/`.
fn divided(v: &Value, w: &Value) -> Result<Value, Kind>
    ensures { result ≡ sign_operated SSlash v.now w.now }
{
    match (v, w) {
        (Value::Number(p), Value::Number(q)) => number_or_fault(div(*p, *q)),
        _ => Err(Kind::WrongKind),
    }
}

// `mod`.
fn rest_of(v: &Value, w: &Value) -> Result<Value, Kind>
    ensures { result ≡ word_operated WMod v.now w.now }
{
    match (v, w) {
        (Value::Number(p), Value::Number(q)) => number_or_stop(rest(*p, *q)),
        _ => Err(Kind::WrongKind),
    }
}

// `div`.
fn quotient_of(v: &Value, w: &Value) -> Result<Value, Kind>
    ensures { result ≡ word_operated WDiv v.now w.now }
{
    match (v, w) {
        (Value::Number(p), Value::Number(q)) => number_or_stop(quotient(*p, *q)),
        _ => Err(Kind::WrongKind),
    }
}

// `union`.
fn united(alloc: Global, v: &Value, w: &Value) -> Result<Value, Stop>
    ensures { Gives (λ value. value) stop_cause (on_sets union_of v.now w.now) result }
{
    match (v, w) {
        (Value::Set(a), Value::Set(b)) => set_or_stop(union(alloc, a, b)),
        _ => Err(Stop::Kind(Kind::WrongKind)),
    }
}

// `without` and `\`.
fn left_out(alloc: Global, v: &Value, w: &Value) -> Result<Value, Stop>
    ensures { Gives (λ value. value) stop_cause (on_sets without_of v.now w.now) result }
{
    match (v, w) {
        (Value::Set(a), Value::Set(b)) => set_or_stop(without(alloc, a, b)),
        _ => Err(Stop::Kind(Kind::WrongKind)),
    }
}

// `inter`.
fn intersected(alloc: Global, v: &Value, w: &Value) -> Result<Value, Stop>
    ensures { Gives (λ value. value) stop_cause (on_sets inter_of v.now w.now) result }
{
    match (v, w) {
        (Value::Set(a), Value::Set(b)) => set_or_stop(inter(alloc, a, b)),
        _ => Err(Stop::Kind(Kind::WrongKind)),
    }
}

// `symdiff`.
fn set_apart(alloc: Global, v: &Value, w: &Value) -> Result<Value, Stop>
    ensures { Gives (λ value. value) stop_cause (on_sets symdiff_of v.now w.now) result }
{
    match (v, w) {
        (Value::Set(a), Value::Set(b)) => set_or_stop(symdiff(alloc, a, b)),
        _ => Err(Stop::Kind(Kind::WrongKind)),
    }
}

// `cross`.
fn crossed(alloc: Global, v: &Value, w: &Value) -> Result<Value, Stop>
    ensures { Gives (λ value. value) stop_cause (on_sets cross_of v.now w.now) result }
{
    match (v, w) {
        (Value::Set(a), Value::Set(b)) => set_or_stop(cross(alloc, a, b)),
        _ => Err(Stop::Kind(Kind::WrongKind)),
    }
}

// The operators that are signs.
fn by_sign(alloc: Global, sign: Sign, v: &Value, w: &Value) -> Result<Value, Stop>
    ensures { Gives (λ value. value) stop_cause (sign_operated sign v.now w.now) result }
{
    match sign {
        Sign::SPlus => added(alloc, v, w),
        Sign::SMinus => subtracted(alloc, v, w),
        Sign::SStar => multiplied(alloc, v, w),
        Sign::SSlash => settled(divided(v, w)),
        Sign::SBackslash => left_out(alloc, v, w),
        _ => Err(Stop::Kind(Kind::WrongKind)),
    }
}

// The operators that are words.
fn by_word(alloc: Global, word: Word, v: &Value, w: &Value) -> Result<Value, Stop>
    ensures { Gives (λ value. value) stop_cause (word_operated word v.now w.now) result }
{
    match word {
        Word::WMod => settled(rest_of(v, w)),
        Word::WDiv => settled(quotient_of(v, w)),
        Word::WUnion => united(alloc, v, w),
        Word::WWithout => left_out(alloc, v, w),
        Word::WInter => intersected(alloc, v, w),
        Word::WSymdiff => set_apart(alloc, v, w),
        Word::WCross => crossed(alloc, v, w),
        _ => Err(Stop::Kind(Kind::WrongKind)),
    }
}

/// The value of two operands with the operator between them: sums, differences, products, quotients and rests of
/// numbers, two texts one after the other, and unions, differences and products of sets.
///
/// `WrongKind` exactly where the operator doesn't take operands of these kinds, else what the numbers or the sets
/// answer: `NotInteger` before `DivZero` before `Past`, and `WrongKind` before `SetSize`.
#[tactic(auto, unfolding(zim_meaning::specs::Operations::values_operated))]
pub fn operated(alloc: Global, token: &Token, v: &Value, w: &Value) -> Result<Value, Stop>
    ensures { Gives (λ value. value) stop_cause (values_operated token.now v.now w.now) result }
{
    match token {
        Token::Sign(sign) => by_sign(alloc, *sign, v, w),
        Token::Word(word) => by_word(alloc, *word, v, w),
        _ => Err(Stop::Kind(Kind::WrongKind)),
    }
}
