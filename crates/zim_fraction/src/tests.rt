// Worked examples of rounding, powers and the limit, and numbers as keys.
use crate::{
    Fraction, NumFault, Past, add, ceil, compare, div, floor, gcd, lcm, mul, negated, of, power,
    round, sub,
};
use std::cmp::Ordering;
use std::collections::HashSet;
use std::test::Fail;

#[test]
fn halves_round_away_from_zero(rt: HostRuntime) -> Result<(), Fail> {
    assert_eq!(rt; round(of(5, 2)?), of(3, 1)?);
    assert_eq!(rt; round(of(-5, 2)?), of(-3, 1)?);
    assert_eq!(rt; floor(of(-5, 2)?), of(-3, 1)?);
    Ok(())
}

#[test]
fn powers_of_zero(rt: HostRuntime) -> Result<(), Fail> {
    assert_eq!(rt; power(Fraction::zero(), 0), Ok(Fraction::one()));
    assert_eq!(rt; power(Fraction::zero(), -1), Err(NumFault::DivZero));
    assert_eq!(rt; power(of(2, 3)?, -2), of(9, 4));
    Ok(())
}

// 33! is the greatest factorial that is no more than the limit.
#[test]
fn factorials_to_the_limit(rt: HostRuntime) -> Result<(), Fail> {
    let before = Fraction::whole(263_130_836_933_693_530_167_218_012_160_000_000);
    let product = mul(before, of(33, 1)?)?;
    let wanted = 8_683_317_618_811_886_495_518_194_401_280_000_000;
    assert_eq!(rt; product, Fraction::whole(wanted));
    assert_eq!(rt; mul(product, of(34, 1)?), Err(Past));
    Ok(())
}

#[test]
fn quotients_are_in_lowest_terms(rt: HostRuntime) -> Result<(), Fail> {
    let third = div(of(2, 1)?, of(6, 1)?)?;
    assert_eq!(rt; (third.numer(), third.denom()), (1, 3));
    assert_eq!(rt; sub(third, of(1, 2)?), Ok(of(-1, 6)?));
    assert_eq!(rt; ceil(third), Fraction::one());
    assert_eq!(rt; negated(third).numer(), -1);
    assert_eq!(rt; (gcd(12, 18), lcm(4, 6)), (6, Ok(12)));
    Ok(())
}

// L/2 + L/2 would be L, but its numerator over the common denominator 2 is twice L.
#[test]
fn sums_at_the_limit(rt: HostRuntime) -> Result<(), Fail> {
    let half = of(i128::MAX, 2)?;
    assert_eq!(rt; add(half, half), Err(Past));
    assert_eq!(rt; add(of(i128::MAX, 1)?, Fraction::one()), Err(Past));
    assert_eq!(rt; mul(half, of(2, 1)?), Ok(Fraction::whole(i128::MAX)));
    assert_eq!(rt; of(i128::MIN, 1), Err(NumFault::Past));
    assert_eq!(rt; of(i128::MIN, 2)?.numer(), i128::MIN / 2);
    Ok(())
}

#[test]
fn products_across_are_compared_at_twice_the_width(rt: HostRuntime) -> Result<(), Fail> {
    let less = of(i128::MAX - 1, i128::MAX)?;
    let more = div(of(i128::MAX - 2, 1)?, of(i128::MAX - 3, 1)?)?;
    assert_eq!(rt; compare(less, more), Ordering::Less);
    assert_eq!(rt; compare(more, less), Ordering::Greater);
    Ok(())
}

#[test]
fn equal_numbers_are_one_key(rt: HostRuntime) -> Result<(), Fail> {
    let mut seen = HashSet::new(rt.alloc());
    assert!(rt; seen.insert(of(2, 4)?)?);
    assert!(rt; !seen.insert(of(-1, -2)?)?);
    Ok(())
}
