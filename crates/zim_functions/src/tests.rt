use super::{Definition, Defs, NumStop, factorial, join, quotient, rest, substring};
use sqlite_items::Boxed;
use std::alloc::Global;
use std::test::Fail;
use zim_fault::{Bytes, Memory, Place, Sequence, Word};
use zim_fraction::{Fraction, of};
use zim_typed::Const;

// Whether an answer is this whole number.
fn is_number(answer: Result<Fraction, NumStop>, number: i128) -> bool {
    match answer {
        Ok(found) => found.numer() == number && found.denom() == 1,
        Err(_) => false,
    }
}

// Whether there is no result, for this reason.
fn stops(answer: Result<Fraction, NumStop>, stop: NumStop) -> bool {
    answer.err() == Some(stop)
}

#[test]
fn factorials_end_at_the_limit(rt: HostRuntime) -> Result<(), Fail> {
    let last = 8_683_317_618_811_886_495_518_194_401_280_000_000;
    assert!(rt; is_number(factorial(Fraction::zero()), 1));
    assert!(rt; is_number(factorial(of(33, 1)?), last));
    assert!(rt; stops(factorial(of(34, 1)?), NumStop::Past));
    assert!(rt; stops(factorial(of(1, 2)?), NumStop::NotInteger));
    assert!(rt; stops(factorial(of(-1, 1)?), NumStop::NotInteger));
    Ok(())
}

#[test]
fn quotients_are_cut_towards_zero(rt: HostRuntime) -> Result<(), Fail> {
    let (minus_seven, two) = (of(-7, 1)?, of(2, 1)?);
    assert!(rt; is_number(quotient(minus_seven, two), -3));
    assert!(rt; is_number(rest(minus_seven, two), -1));
    assert!(rt; stops(quotient(two, Fraction::zero()), NumStop::DivZero));
    assert!(rt; stops(rest(of(1, 2)?, Fraction::zero()), NumStop::NotInteger));
    Ok(())
}

// Whether the part of `hamburg` with at most `len` bytes from byte `from` on is this text.
fn is_part(alloc: Global, from: usize, len: usize, wanted: &[u8]) -> Result<bool, Memory> {
    let text = Bytes::from_slice(alloc, b"hamburg")?;
    let part = substring(alloc, &text, from, len)?;
    Ok(part.as_slice() == wanted)
}

// Whether two texts joined are this text.
fn is_joined(alloc: Global, front: &[u8], back: &[u8], wanted: &[u8]) -> Result<bool, Memory> {
    let front = Bytes::from_slice(alloc, front)?;
    let back = Bytes::from_slice(alloc, back)?;
    let joined = join(alloc, &front, &back)?;
    Ok(joined.as_slice() == wanted)
}

#[test]
fn texts_are_cut_and_joined(rt: HostRuntime) -> Result<(), Fail> {
    let alloc = rt.alloc();
    assert!(rt; is_part(alloc, 1, 3, b"amb")?);
    assert!(rt; is_part(alloc, 5, 9, b"rg")?);
    assert!(rt; is_part(alloc, 8, 1, b"")?);
    assert!(rt; is_joined(alloc, b"ab", b"c", b"abc")?);
    Ok(())
}

// A function without parameters that is true.
fn always(alloc: Global, name: &[u8]) -> Result<Definition, Fail> {
    let name = Bytes::from_slice(alloc, name)?;
    let body = Boxed::new(alloc, Const::Truth(Place { file: 0, line: 1 }, true))?;
    Ok(Definition {
        kind: Word::WDefbool,
        name,
        params: Sequence::new(alloc),
        body,
    })
}

// Whether a function has this name.
fn is_defined(functions: &Defs, alloc: Global, name: &[u8]) -> Result<bool, Fail> {
    let name = Bytes::from_slice(alloc, name)?;
    Ok(functions.get(&name).is_some())
}

#[test]
fn a_function_is_found_by_its_name(rt: HostRuntime) -> Result<(), Fail> {
    let alloc = rt.alloc();
    let yes = always(alloc, b"yes")?;
    let mut functions = Defs::new(alloc);
    if functions.get(&yes.name).is_none() {
        functions.add(yes)?;
    }
    assert!(rt; is_defined(&functions, alloc, b"yes")?);
    assert!(rt; !is_defined(&functions, alloc, b"no")?);
    Ok(())
}
