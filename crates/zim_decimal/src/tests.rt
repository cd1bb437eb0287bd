// Literals at the limits, a text, and a row's factor.
use crate::{factor, is_short, read_field, read_literal, write_short};
use std::test::Fail;
use zim_fraction::{Fraction, Past, mul, of};

#[test]
fn literals_at_the_limits(rt: HostRuntime) -> Result<(), Fail> {
    assert_eq!(rt; read_field(b"0e999999999999"), Ok(Some(Fraction::zero())));
    assert_eq!(rt; read_field(b"-2.50e1"), Ok(Some(Fraction::whole(-25))));
    let most = 100_000_000_000_000_000_000_000_000_000_000_000_000;
    assert_eq!(rt; read_literal(b"1e38"), Ok(Fraction::whole(most)));
    assert_eq!(rt; read_field(b"1e-38")?, Some(of(1, most)?));
    let limit = Fraction::whole(i128::MAX);
    assert_eq!(rt;
        read_field(b"170141183460469231731687303715884105727"),
        Ok(Some(limit))
    );
    assert_eq!(rt;
        read_field(b"170141183460469231731687303715884105728"),
        Err(Past)
    );
    assert_eq!(rt; read_field(b"1e39"), Err(Past));
    assert_eq!(rt; read_field(b"1e-39"), Err(Past));
    assert_eq!(rt; read_field(b"10e38"), Err(Past));
    assert_eq!(rt; read_field(b"1."), Ok(None));
    Ok(())
}

#[test]
fn text_of_a_negative_number(rt: HostRuntime) -> Result<(), Fail> {
    let a = of(-5, 4)?;
    assert!(rt; is_short(a));
    let mut to = [0; 64];
    let end = write_short(a, &mut to);
    assert_eq!(rt; &to[..end], b"-1.25".as_slice());
    Ok(())
}

// 1/3, 1/2 and 1/7 have the factor 21, times which they are written `7`, `10.5` and `3`.
#[test]
fn numbers_times_their_factor_are_written(rt: HostRuntime) -> Result<(), Fail> {
    assert_eq!(rt; factor(1, 3), Ok(3));
    assert_eq!(rt; factor(3, 2), Ok(3));
    assert_eq!(rt; factor(3, 7), Ok(21));
    for (d, wanted) in [
        (3, b"7".as_slice()),
        (2, b"10.5".as_slice()),
        (7, b"3".as_slice()),
    ] {
        let scaled = mul(of(1, d)?, Fraction::whole(21))?;
        assert!(rt; is_short(scaled));
        let mut to = [0; 64];
        let end = write_short(scaled, &mut to);
        assert_eq!(rt; &to[..end], wanted);
    }
    Ok(())
}
