// Conditions as literals.
ghost use Rattle.std.specs.Prelude.{◌≡◌, ◌<◌, ◌≤◌, IsTrue, length, IfOk};
ghost use Rattle.zim_formula.specs.Ground.{condition_holds};
ghost use Rattle.zim_formula.specs.GroundRules.{is_condition_over};
ghost use Rattle.zim_rows.specs.Points.{assigned};
ghost use Rattle.zim_rows.specs.Steps.{Encodes};
ghost use Rattle.zim_logic_rows.specs.Literals as literals;
ghost use Rattle.zim_cond.specs.Conditions.{makes_condition, known_literal};
ghost use Rattle.zim_cond.specs.ConditionTurns.{chain_makes, operands_are_over};
ghost use Rattle.zim_cond.specs.Meaning.{LiteralMade};

use crate::columns::joined;
use crate::comparisons::{comparison, signed};
use std::alloc::Global;
use zim_fault::{Join, Place};
use zim_formula::GCond;
use zim_fraction::Fraction;
use zim_linear::Form;
use zim_logic_rows::{Literal, Ranged};
use zim_rows::{EncodeFault, RowFrom, System};

/// A condition as a literal, whose column is 1 or whose negation is exactly where the condition is true.
///
/// Rows stand under the statement of `from`. The fault is the first that is met, with the operands from left to right:
/// those of terms as in `form_of`; at a comparison `CondReal` or `CondUnbounded` where a column of its form, the first such
/// one by number, is real, or integer without both sides, or `Past` where one of its numbers is; `TooManyColumns` or
/// `TooManyRows` where there is no room for a column and its rows, at the comparison, at the word of the join, or at the
/// place of `from` for a known truth value. After `Memory` some of the columns and rows may be there.
pub fn truth(
    alloc: Global,
    system: &mut System,
    from: RowFrom,
    c: &GCond,
) -> Result<Literal, EncodeFault>
    requires { IsTrue (is_condition_over (length system.old.columns) c.now) }
    ensures steps { Encodes (λ l. l) (makes_condition from c.now) system.old system.new result }
    ensures made { IfOk result (λ l. LiteralMade system.old system.old (λ p. condition_holds (assigned p) c.now) l system.new) }
{
    system.valid();
    condition(alloc, system, from, c)
}

/// The other literal of the same column.
pub fn negation(l: Literal) -> Literal
    ensures { result ≡ literals.negation l }
{
    Literal {
        column: l.column,
        positive: !l.positive,
    }
}

// A condition as a literal.
#[cycle(condition)]
fn condition(
    alloc: Global,
    system: &mut System,
    from: RowFrom,
    c: &GCond,
) -> Result<Literal, EncodeFault>
    requires { IsTrue (is_condition_over (length system.old.columns) c.now) }
    ensures { Encodes (λ l. l) (makes_condition from c.now) system.old system.new result }
{
    match c {
        GCond::Known(truth) => known(alloc, system, from, *truth),
        GCond::Compare(place, relation, left, right) => {
            let at = RowFrom {
                statement: from.statement,
                place: *place,
            };
            comparison(alloc, system, at, *relation, left.get(), right.get())
        }
        GCond::Chain(first, others) => {
            system.valid();
            let p = condition(alloc, system, from, first.get())?;
            chain(alloc, system, from, p, others.as_slice())
        }
        GCond::Not(_, operand) => {
            let p = condition(alloc, system, from, operand.get())?;
            Ok(negation(p))
        }
    }
}

// A literal and the operands that are joined to it, one after another.
#[cycle(condition)]
fn chain(
    alloc: Global,
    system: &mut System,
    from: RowFrom,
    first: Literal,
    others: &[(Place, Join, GCond)],
) -> Result<Literal, EncodeFault>
    requires over { IsTrue (operands_are_over (length system.old.columns) others.now) }
    requires from_one { 0 < first.column }
    requires in_columns { first.column ≤ length system.old.columns }
    ensures { Encodes (λ l. l) (λ s. chain_makes from (first, s) others.now) system.old system.new result }
{
    let mut p = first;
    for operand in others {
        system.valid();
        let (place, join, c) = operand;
        let q = condition(alloc, system, from, c)?;
        let at = RowFrom {
            statement: from.statement,
            place: *place,
        };
        p = joined(alloc, system, at, *join, p, q)?;
    }
    Ok(p)
}

// The literal of a known truth value.
fn known(
    alloc: Global,
    system: &mut System,
    from: RowFrom,
    truth: bool,
) -> Result<Literal, EncodeFault>
    ensures { Encodes (λ l. l) (known_literal from truth) system.old system.new result }
{
    let nought = Ranged {
        form: Form::constant(alloc, Fraction::zero()),
        low: Fraction::zero(),
        high: Fraction::zero(),
    };
    if truth {
        signed(alloc, system, from, &nought, Fraction::zero(), true)
    } else {
        signed(alloc, system, from, &nought, Fraction::one(), true)
    }
}
