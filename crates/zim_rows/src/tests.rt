// One run through each call that takes memory: rows, a range and an objective with fractions; and systems with a number
// past 128 bits.
use crate::{FinishFault, RowFrom, RowKind, Sense, System};
use std::test::Fail;
use zim_fault::{Kind, Place};
use zim_fraction::{Fraction, of};
use zim_linear::{Form, Sides, add, scale};

const FROM: RowFrom = RowFrom {
    statement: 0,
    place: Place { file: 0, line: 1 },
};

const UNBOUNDED: Sides = Sides {
    low: None,
    high: None,
};

// x >= 1/3 is 3 x >= 1, and 2 <= x <= 8 stays as it is.
#[test]
fn a_third_makes_the_factor_three(rt: HostRuntime) -> Result<(), Fail> {
    let alloc = rt.alloc();
    let mut system = System::new(alloc);
    let x = system.new_column(true, UNBOUNDED)?;
    assert_eq!(rt; x, 1);
    assert!(rt; system.is_integer(x));
    let form = Form::column(alloc, x)?;
    system.add_row(FROM, &form, Sense::AtLeast, of(1, 3)?)?;
    system.add_range(FROM, &form, Fraction::whole(2), Fraction::whole(8))?;
    system.set_objective(true, FROM.place, form);
    let finished = system.finish()?;
    let row = &finished.rows.as_slice()[0];
    assert_eq!(rt; row.factor, 3);
    assert!(rt; row.terms.as_slice() == [(1, Fraction::whole(3))].as_slice());
    assert!(rt;
        matches!(&row.kind, RowKind::One(Sense::AtLeast, right) if right.same_number(&Fraction::one()))
    );
    assert_eq!(rt; finished.rows.as_slice()[1].factor, 1);
    assert_eq!(rt; finished.entries.as_slice()[0].len(), 2);
    assert_eq!(rt; finished.target.factor, 1);
    assert!(rt; finished.target.maximize);
    Ok(())
}

fn from_line(line: u32) -> RowFrom {
    RowFrom {
        statement: 0,
        place: Place { file: 0, line },
    }
}

// The line at which finishing finds a number past 128 bits; 0 where it doesn't.
fn past_line(system: System) -> u32 {
    match system.finish() {
        Err(FinishFault::Fault(fault)) if fault.kind == Kind::Past => fault.place.line,
        _ => 0,
    }
}

// 2^127 - 1 is prime, so the factor of 1/(2^127 - 1) x >= 1/3 is 3 (2^127 - 1).
#[test]
fn a_rows_factor_can_be_past(rt: HostRuntime) -> Result<(), Fail> {
    let alloc = rt.alloc();
    let mut system = System::new(alloc);
    let x = system.new_column(false, UNBOUNDED)?;
    let form = scale(alloc, &Form::column(alloc, x)?, of(1, i128::MAX)?)?;
    system.add_row(from_line(2), &form, Sense::AtLeast, of(1, 2)?)?;
    system.add_row(from_line(3), &form, Sense::AtLeast, of(1, 3)?)?;
    assert_eq!(rt; past_line(system), 3);
    Ok(())
}

// Both sides of the range are numbers, and their difference is 2^127.
#[test]
fn the_difference_of_a_ranges_sides_can_be_past(rt: HostRuntime) -> Result<(), Fail> {
    let alloc = rt.alloc();
    let mut system = System::new(alloc);
    let x = system.new_column(false, UNBOUNDED)?;
    let form = Form::column(alloc, x)?;
    system.add_range(
        from_line(2),
        &form,
        Fraction::whole(-i128::MAX),
        Fraction::whole(0),
    )?;
    system.add_range(
        from_line(3),
        &form,
        Fraction::whole(-i128::MAX),
        Fraction::whole(1),
    )?;
    assert_eq!(rt; past_line(system), 3);
    Ok(())
}

// The same as in a row, with the constant in place of the right side.
#[test]
fn an_objectives_factor_can_be_past(rt: HostRuntime) -> Result<(), Fail> {
    let alloc = rt.alloc();
    let mut system = System::new(alloc);
    let x = system.new_column(false, UNBOUNDED)?;
    let form = scale(alloc, &Form::column(alloc, x)?, of(1, i128::MAX)?)?;
    let third = Form::constant(alloc, of(1, 3)?);
    system.set_objective(false, from_line(4).place, add(alloc, &form, &third)?);
    assert_eq!(rt; past_line(system), 4);
    Ok(())
}
