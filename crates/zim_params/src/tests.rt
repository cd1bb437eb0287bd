use super::{InsertFault, Param};
use std::alloc::Global;
use std::test::Fail;
use zim_fraction::of;
use zim_tuples::{Elem, Tuple};

// The index of one whole number.
fn index(alloc: Global, number: i128) -> Result<Tuple, Fail> {
    let component = Elem::Number(of(number, 1)?);
    let mut tuple = Tuple::new(alloc);
    tuple.push(component)?;
    Ok(tuple)
}

// Gives a value to the index of a whole number, and says whether that was its first.
fn is_given(
    param: &mut Param<i128>,
    alloc: Global,
    number: i128,
    value: i128,
) -> Result<bool, Fail> {
    let at = index(alloc, number)?;
    match param.insert(at, value) {
        Ok(()) => Ok(true),
        Err(InsertFault::Twice) => Ok(false),
        Err(InsertFault::Memory) => Err(Fail::from("no memory")),
    }
}

// Whether the index of a whole number has this value.
fn has(
    param: &Param<i128>,
    alloc: Global,
    number: i128,
    value: Option<i128>,
) -> Result<bool, Fail> {
    let at = index(alloc, number)?;
    Ok(param.get(&at).copied() == value)
}

#[test]
fn other_indices_have_the_default(rt: HostRuntime) -> Result<(), Fail> {
    let alloc = rt.alloc();
    let mut param = Param::new(alloc, Some(-1));
    assert!(rt; is_given(&mut param, alloc, 1, 5)?);
    assert!(rt; is_given(&mut param, alloc, 3, 7)?);
    assert!(rt; has(&param, alloc, 3, Some(7))?);
    assert!(rt; has(&param, alloc, 2, Some(-1))?);
    Ok(())
}

#[test]
fn an_index_is_given_a_value_once(rt: HostRuntime) -> Result<(), Fail> {
    let alloc = rt.alloc();
    let mut param = Param::new(alloc, None);
    assert!(rt; is_given(&mut param, alloc, 1, 5)?);
    assert!(rt; !is_given(&mut param, alloc, 1, 6)?);
    assert!(rt; has(&param, alloc, 1, Some(5))?);
    assert!(rt; has(&param, alloc, 2, None)?);
    Ok(())
}
