// The rows of the columns that join two literals.
ghost use Rattle.std.specs.Prelude.{◌≡◌, ◌<◌, ◌≤◌, ◌≤ℤ◌, pos, neg_ℤ, if◌then◌else◌, map, IfOk};
ghost use Rattle.zim_rational.specs.Rational.{whole};
ghost use Rattle.zim_forms.specs.Algebra.{◌⊕◌, ◌⊙◌, the};
ghost use Rattle.zim_rows.specs.Steps.{given_row};
ghost use Rattle.zim_logic_rows.specs.LogicRows.{compared_row};
ghost use Rattle.zim_logic_rows.specs.Literals as exact;
ghost use Rattle.zim_logic_rows.specs.Literals.{is};

use crate::Literal;
use crate::steps::new_row;
use std::alloc::Global;
use zim_fault::{Join, Memory, Sequence};
use zim_forms::with_column;
use zim_fraction::Fraction;
use zim_linear::Form;
use zim_rows::{NewRow, RowFrom, Sense};

/// Two literals and the column that joins them, whose numbers rise in this order, and where its rows come from.
#[derive(Clone, Copy, Debug)]
struct Joining {
    from: RowFrom,
    p: Literal,
    q: Literal,
    r: u32,
}

/// The rows of the column r that joins two literals. The column of p stands before that of q, and r behind both.
pub fn join_rows(
    alloc: Global,
    from: RowFrom,
    join: Join,
    p: Literal,
    q: Literal,
    r: u32,
) -> Result<Sequence<NewRow>, Memory>
    requires from_one { 0 < p.column }
    requires in_order { p.column < q.column }
    requires behind { q.column < r }
    ensures { IfOk result (λ rows. map given_row rows ≡ exact.join_rows from join (is p) (is q) (the r)) }
{
    let on = Joining { from, p, q, r };
    match join {
        Join::And => and_rows(alloc, on),
        Join::Or => or_rows(alloc, on),
        Join::Xor => xor_rows(alloc, on),
    }
}

/// The row of the column e that is 1 exactly where the columns g and l both are, of which one always is. Their numbers
/// rise in the order g, l, e.
pub fn equal_rows(
    alloc: Global,
    from: RowFrom,
    g: u32,
    l: u32,
    e: u32,
) -> Result<Sequence<NewRow>, Memory>
    requires from_one { 0 < g }
    requires in_order { g < l }
    requires behind { l < e }
    ensures { IfOk result (λ rows. map given_row rows ≡ exact.equal_rows from g l e) }
{
    let on = Joining {
        from,
        p: Literal {
            column: g,
            positive: true,
        },
        q: Literal {
            column: l,
            positive: true,
        },
        r: e,
    };
    let mut rows = Sequence::new(alloc);
    rows.push(row(alloc, on, 1, -1, -1, Sense::Equal, -1)?)?;
    Ok(rows)
}

// The rows of a conjunction.
fn and_rows(alloc: Global, on: Joining) -> Result<Sequence<NewRow>, Memory>
    requires from_one { 0 < on.p.column }
    requires in_order { on.p.column < on.q.column }
    requires behind { on.q.column < on.r }
    ensures { IfOk result (λ rows. map given_row rows ≡ exact.join_rows on.from Join.And (is on.p) (is on.q) (the on.r)) }
{
    let mut rows = Sequence::new(alloc);
    rows.push(row(alloc, on, 2, -1, -1, Sense::AtMost, 0)?)?;
    rows.push(row(alloc, on, 1, -1, -1, Sense::AtLeast, -1)?)?;
    Ok(rows)
}

// The rows of a disjunction.
fn or_rows(alloc: Global, on: Joining) -> Result<Sequence<NewRow>, Memory>
    requires from_one { 0 < on.p.column }
    requires in_order { on.p.column < on.q.column }
    requires behind { on.q.column < on.r }
    ensures { IfOk result (λ rows. map given_row rows ≡ exact.join_rows on.from Join.Or (is on.p) (is on.q) (the on.r)) }
{
    let mut rows = Sequence::new(alloc);
    rows.push(row(alloc, on, 2, -1, -1, Sense::AtLeast, 0)?)?;
    rows.push(row(alloc, on, 1, -1, -1, Sense::AtMost, 0)?)?;
    Ok(rows)
}

// The rows of a column that says whether exactly one of the literals is true.
fn xor_rows(alloc: Global, on: Joining) -> Result<Sequence<NewRow>, Memory>
    requires from_one { 0 < on.p.column }
    requires in_order { on.p.column < on.q.column }
    requires behind { on.q.column < on.r }
    ensures { IfOk result (λ rows. map given_row rows ≡ exact.join_rows on.from Join.Xor (is on.p) (is on.q) (the on.r)) }
{
    let mut rows = Sequence::new(alloc);
    rows.push(row(alloc, on, 1, -1, -1, Sense::AtMost, 0)?)?;
    rows.push(row(alloc, on, 1, -1, 1, Sense::AtLeast, 0)?)?;
    rows.push(row(alloc, on, 1, 1, -1, Sense::AtLeast, 0)?)?;
    rows.push(row(alloc, on, 1, 1, 1, Sense::AtMost, 2)?)?;
    Ok(rows)
}

// The row that compares the sum of a share of r, one of p and one of q with a number.
fn row(
    alloc: Global,
    on: Joining,
    r: i8,
    p: i8,
    q: i8,
    sense: Sense,
    right: i8,
) -> Result<NewRow, Memory>
    requires from_one { 0 < on.p.column }
    requires in_order { on.p.column < on.q.column }
    requires behind { on.q.column < on.r }
    ensures { IfOk result (λ row. given_row row ≡
        compared_row on.from (whole r ⊙ the on.r ⊕ whole p ⊙ is on.p ⊕ whole q ⊙ is on.q) sense (whole right)) }
{
    let constant = constant_of(on.p, p) + constant_of(on.q, q);
    let known = Form::constant(alloc, Fraction::whole(constant));
    let with_p = with_column(alloc, &known, coefficient_of(on.p, p), on.p.column)?;
    let with_q = with_column(alloc, &with_p, coefficient_of(on.q, q), on.q.column)?;
    let form = with_column(alloc, &with_q, Fraction::whole(r as i128), on.r)?;
    let right = Fraction::whole(right as i128 - constant);
    Ok(new_row(on.from, form, sense, right))
}

// What the column of a literal has as its coefficient in a share of the literal.
fn coefficient_of(l: Literal, share: i8) -> Fraction
    ensures { result ≡ whole (if l.positive then share else neg_ℤ share) }
{
    let share = share as i128;
    Fraction::whole(if l.positive { share } else { -share })
}

// The constant of a share of a literal.
fn constant_of(l: Literal, share: i8) -> i128
    ensures value { result ≡ (if l.positive then pos 0 else share) }
    ensures above { neg_ℤ (pos 128) ≤ℤ result }
    ensures below { result ≤ℤ pos 127 }
{
    if l.positive { 0 } else { share as i128 }
}
