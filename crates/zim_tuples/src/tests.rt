use super::{Binding, Elem, Env, Slot, Tuple, element_named, match_pattern};
use std::test::Fail;
use zim_fault::{Bytes, Duplicate};
use zim_fraction::Fraction;

#[test]
fn a_pattern_binds_its_free_names(rt: HostRuntime) -> Result<(), Fail> {
    let alloc = rt.alloc();
    let mut tuple = Tuple::new(alloc);
    tuple.push(Elem::Number(Fraction::whole(3)))?;
    tuple.push(Elem::Number(Fraction::whole(3)))?;
    let slots = [Slot::Free(Bytes::from_slice(alloc, b"i")?), Slot::Again(0)];
    let env = Env::new(alloc);
    let found = match_pattern(alloc, &env, &slots, &tuple)?.ok_or("no match")?;
    assert_eq!(rt; found.len(), 1);
    Ok(())
}

#[test]
fn a_copied_environment_has_the_last_element_of_a_name(rt: HostRuntime) -> Result<(), Fail> {
    let alloc = rt.alloc();
    let name = Bytes::from_slice(alloc, b"p")?;
    let mut env = Env::new(alloc);
    for town in [b"Kiel".as_slice(), b"Bremen".as_slice()] {
        env.push(Binding {
            name: name.copy()?,
            value: Elem::Text(Bytes::from_slice(alloc, town)?),
        })?;
    }
    let copied = env.copy()?;
    let found = element_named(&copied, &name).ok_or("no element")?;
    assert!(rt; *found == Elem::Text(Bytes::from_slice(alloc, b"Bremen")?));
    Ok(())
}
