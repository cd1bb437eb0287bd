// Constraints as rows.
ghost use Rattle.std.specs.Prelude.{◌≡◌, ◌<◌, ◌≤◌, IsTrue, length, map, All, IfSome, OnOk, option_map};
ghost use Rattle.zim_formula.specs.declared.ground.GCon.{GCon-F};
ghost use Rattle.zim_formula.specs.Ground.{all_hold, constraint_holds, otherwise_holds};
ghost use Rattle.zim_formula.specs.GroundRules.{is_term_over, is_condition_over, is_constraint_over};
ghost use Rattle.zim_rows.specs.Points.{assigned};
ghost use Rattle.zim_rows.specs.Steps.{given_row, Encodes, IsNewRow};
ghost use Rattle.zim_logic_rows.specs.LogicRows.{with_rows};
ghost use Rattle.zim_vif.specs.Constraints as steps;
ghost use Rattle.zim_vif.specs.Constraints.{each_part, under_literal, constraint_makes, makes_constraint};
ghost use Rattle.zim_vif.specs.ConstraintTurns.{parts_make, vif_makes};
ghost use Rattle.zim_vif.specs.Meaning.{IsLiteralOf, IsGuardOf, AskedUnder};

use crate::rows::{comparison_rows, ranged_rows};
use sqlite_items::Boxed;
use std::alloc::Global;
use zim_cond::{difference, joined, negation, truth};
use zim_fault::{Join, Place, Relation};
use zim_formula::{GCon, GCond, GTerm};
use zim_fraction::Fraction;
use zim_logic_rows::{Guard, Literal};
use zim_rows::{EncodeFault, NewRow, RowFrom, System};
use zim_vabs::form_of;

/// A constraint as rows, which are asked where the guard's literal is 1, or always where it has none.
///
/// Rows stand under the statement of `from`. The fault is the first that is met, with parts from left to right and a
/// condition before its parts: those of terms and conditions as in `form_of` and `truth`; at a comparison `Past` where a
/// number of its form or, under a guard, of its ends is, then `GuardUnbounded` where an end that a row needs is infinite,
/// then `Past` where a number of a row is, then `TooManyRows` where there is no room. The literal that joins a guard with
/// a condition has the place of the `vif`. After `Memory` some of the columns and rows may be there.
pub fn encode(
    alloc: Global,
    system: &mut System,
    from: RowFrom,
    guard: Guard,
    c: &GCon,
) -> Result<(), EncodeFault>
    requires over { IsTrue (is_constraint_over (length system.old.columns) c.now) }
    requires guard { IsGuardOf system.old guard }
    ensures steps { Encodes (λ _. tt) (makes_constraint from.statement c.now guard) system.old system.new result }
    ensures asked { OnOk result (AskedUnder system.old guard (λ p. constraint_holds (assigned p) c.now) system.new) }
{
    system.valid();
    constraint(alloc, system, from.statement, guard, c)
}

// A constraint as rows.
#[cycle(constraint)]
fn constraint(
    alloc: Global,
    system: &mut System,
    statement: u32,
    guard: Guard,
    c: &GCon,
) -> Result<(), EncodeFault>
    requires over { IsTrue (is_constraint_over (length system.old.columns) c.now) }
    requires guard { IsGuardOf system.old guard }
    ensures { Encodes (λ _. tt) (makes_constraint statement c.now guard) system.old system.new result }
{
    match c {
        GCon::Compare(place, relation, left, right) => {
            let from = RowFrom {
                statement,
                place: *place,
            };
            compare(
                alloc,
                system,
                from,
                guard,
                *relation,
                left.get(),
                right.get(),
            )
        }
        GCon::Range(place, relation, first, t, last) => {
            let from = RowFrom {
                statement,
                place: *place,
            };
            range(
                alloc,
                system,
                from,
                guard,
                *relation,
                *first,
                t.get(),
                *last,
            )
        }
        GCon::And(parts) => each(alloc, system, statement, guard, parts.as_slice()),
        GCon::Vif(place, test, first, otherwise) => {
            let from = RowFrom {
                statement,
                place: *place,
            };
            choice(
                alloc,
                system,
                from,
                guard,
                test.get(),
                first.get(),
                otherwise,
            )
        }
    }
}

// Constraints one after another.
#[cycle(constraint)]
fn each(
    alloc: Global,
    system: &mut System,
    statement: u32,
    guard: Guard,
    parts: &[GCon],
) -> Result<(), EncodeFault>
    requires over { IsTrue (all_hold (map (is_constraint_over (length system.old.columns)) parts.now)) }
    requires guard { IsGuardOf system.old guard }
    ensures { Encodes (λ _. tt) (parts_make statement guard parts.now) system.old system.new result }
{
    for part in parts {
        system.valid();
        constraint(alloc, system, statement, guard, part)?;
    }
    Ok(())
}

// The literal of a condition, and the parts that stand under it and under its negation.
#[cycle(constraint)]
fn choice(
    alloc: Global,
    system: &mut System,
    from: RowFrom,
    guard: Guard,
    test: &GCond,
    first: &GCon,
    otherwise: &Option<Boxed<GCon>>,
) -> Result<(), EncodeFault>
    requires test { IsTrue (is_condition_over (length system.old.columns) test.now) }
    requires first { IsTrue (is_constraint_over (length system.old.columns) first.now) }
    requires otherwise { IsTrue (otherwise_holds (option_map (is_constraint_over (length system.old.columns)) otherwise.now)) }
    requires guard { IsGuardOf system.old guard }
    ensures { Encodes (λ _. tt) (vif_makes from guard test.now first.now otherwise.now) system.old system.new result }
{
    system.valid();
    let b = truth(alloc, system, from, test)?;
    system.valid();
    under(alloc, system, from, guard, b, first)?;
    match otherwise {
        None => Ok(()),
        Some(part) => under(alloc, system, from, guard, negation(b), part.get()),
    }
}

// A constraint under a literal, which is joined to the guard where there is one.
#[cycle(constraint)]
fn under(
    alloc: Global,
    system: &mut System,
    from: RowFrom,
    guard: Guard,
    b: Literal,
    c: &GCon,
) -> Result<(), EncodeFault>
    requires over { IsTrue (is_constraint_over (length system.old.columns) c.now) }
    requires guard { IsGuardOf system.old guard }
    requires literal { IsLiteralOf system.old b }
    requires in_order { IfSome guard (λ g. g.column < b.column) }
    ensures { Encodes (λ _. tt) (under_literal from guard b (makes_constraint from.statement c.now)) system.old system.new result }
{
    system.valid();
    let l = part_guard(alloc, system, from, guard, b)?;
    constraint(alloc, system, from.statement, Some(l), c)
}

// The literal of a part: that of its condition, joined to the guard where there is one.
fn part_guard(
    alloc: Global,
    system: &mut System,
    from: RowFrom,
    guard: Guard,
    b: Literal,
) -> Result<Literal, EncodeFault>
    requires guard { IsGuardOf system.old guard }
    requires literal { IsLiteralOf system.old b }
    requires in_order { IfSome guard (λ g. g.column < b.column) }
    ensures { Encodes (λ l. l) (steps.part_guard from guard b) system.old system.new result }
{
    match guard {
        None => Ok(b),
        Some(g) => joined(alloc, system, from, Join::And, g, b),
    }
}

// The rows of a comparison of two terms.
fn compare(
    alloc: Global,
    system: &mut System,
    from: RowFrom,
    guard: Guard,
    relation: Relation,
    left: &GTerm,
    right: &GTerm,
) -> Result<(), EncodeFault>
    requires left { IsTrue (is_term_over (length system.old.columns) left.now) }
    requires right { IsTrue (is_term_over (length system.old.columns) right.now) }
    requires guard { IsGuardOf system.old guard }
    ensures { Encodes (λ _. tt) (constraint_makes from.statement (GCon-F.Compare from.place relation left.now right.now) guard) system.old system.new result }
{
    system.valid();
    let form = difference(alloc, system, from, left, right)?;
    let _ordered = form.terms();
    let rows = comparison_rows(alloc, system, from, guard, relation, &form)?;
    add_rows(system, from.place, rows.as_slice())
}

// The rows of a range of a term.
fn range(
    alloc: Global,
    system: &mut System,
    from: RowFrom,
    guard: Guard,
    relation: Relation,
    first: Fraction,
    t: &GTerm,
    last: Fraction,
) -> Result<(), EncodeFault>
    requires over { IsTrue (is_term_over (length system.old.columns) t.now) }
    requires guard { IsGuardOf system.old guard }
    ensures { Encodes (λ _. tt) (constraint_makes from.statement (GCon-F.Range from.place relation first t.now last) guard) system.old system.new result }
{
    system.valid();
    let form = form_of(alloc, system, from, t)?;
    let _ordered = form.terms();
    let low = low_of_range(relation, first, last);
    let high = low_of_range(relation, last, first);
    let rows = ranged_rows(alloc, system, from, guard, &form, low, high)?;
    add_rows(system, from.place, rows.as_slice())
}

// Which of the two numbers of a range is the low side.
fn low_of_range(relation: Relation, first: Fraction, last: Fraction) -> Fraction
    ensures { result ≡ steps.low_of_range relation first last }
{
    match relation {
        Relation::AtLeast => last,
        Relation::AtMost => first,
        Relation::LessThan => first,
        Relation::EqualTo => first,
        Relation::NotEqualTo => first,
        Relation::GreaterThan => first,
    }
}

// Adds rows.
fn add_rows(system: &mut System, place: Place, rows: &[NewRow]) -> Result<(), EncodeFault>
    requires { All (IsNewRow (length system.old.columns)) rows.now }
    ensures { Encodes (λ _. tt) (with_rows place (map given_row rows.now)) system.old system.new result }
{
    system.add_step(place, &[], rows)
}
