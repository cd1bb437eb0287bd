// One run through each call, with the infinite end of a column without a side.
use crate::{Form, LinFault, Sides, add, add_to, bounds, integer_form, scale, sub};
use std::test::Fail;
use zim_fraction::{Fraction, of};

#[test]
fn opposite_coefficients_leave_no_term(rt: HostRuntime) -> Result<(), Fail> {
    let alloc = rt.alloc();
    let both = add(alloc, &Form::column(alloc, 1)?, &Form::column(alloc, 2)?)?;
    let with_constant = add(alloc, &both, &Form::constant(alloc, of(1, 3)?))?;
    let second = sub(alloc, &with_constant, &Form::column(alloc, 1)?)?;
    let half = scale(alloc, &second, of(1, 2)?)?;
    assert!(rt; half.terms() == [(2, of(1, 2)?)].as_slice());
    assert_eq!(rt; half.constant_part(), of(1, 6)?);
    Ok(())
}

#[test]
fn a_column_without_a_side_has_an_infinite_end(rt: HostRuntime) -> Result<(), Fail> {
    let low = Some(Fraction::whole(-2));
    let sides = [Sides { low, high: None }];
    let ends = bounds(&Form::column(rt.alloc(), 1)?, &sides)?;
    assert!(rt; ends.low == Some(of(-2, 1)?));
    assert!(rt; ends.high.is_none());
    Ok(())
}

#[test]
fn the_least_multiple_of_halves_and_thirds_is_by_six(rt: HostRuntime) -> Result<(), Fail> {
    let alloc = rt.alloc();
    let half = scale(alloc, &Form::column(alloc, 3)?, of(1, 2)?)?;
    let form = add(alloc, &half, &Form::constant(alloc, of(-2, 3)?))?;
    let made = integer_form(alloc, &form)?;
    assert_eq!(rt; made.k, 6);
    assert!(rt; made.form.terms() == [(3, of(3, 1)?)].as_slice());
    assert_eq!(rt; made.form.constant_part(), of(-4, 1)?);
    Ok(())
}

#[test]
fn a_long_sum_is_added_to_one_form(rt: HostRuntime) -> Result<(), Fail> {
    let alloc = rt.alloc();
    let mut sum = Form::constant(alloc, of(1, 2)?);
    for j in [2, 5, 9, 5] {
        add_to(&mut sum, &Form::column(alloc, j)?)?;
    }
    let one = Fraction::one();
    assert!(rt; sum.terms() == [(2, one), (5, of(2, 1)?), (9, one)].as_slice());
    let limit = Form::constant(alloc, Fraction::whole(i128::MAX));
    assert_eq!(rt; add_to(&mut sum, &limit), Err(LinFault::Past));
    assert_eq!(rt; sum.constant_part(), of(1, 2)?);
    Ok(())
}
