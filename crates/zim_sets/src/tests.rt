use super::{
    SetFault, TupleSet, cross, inter, powerset, proj, range, set_of_list, subsets, symdiff, union,
    without,
};
use std::alloc::Global;
use std::test::Fail;
use zim_fault::{Bytes, Duplicate};
use zim_fraction::of;
use zim_tuples::{Elem, Tuple};

const LAST: i128 = i128::MAX;

// The set of the tuples of one number each.
fn set_of(alloc: Global, numbers: &[i128]) -> Result<TupleSet, Fail> {
    let mut set = TupleSet::new(alloc);
    for number in numbers {
        let mut tuple = Tuple::new(alloc);
        tuple.push(Elem::Number(of(*number, 1)?))?;
        set.insert(tuple)?;
    }
    Ok(set)
}

// The set of the tuples of one text each.
fn set_of_texts(alloc: Global, texts: &[&[u8]]) -> Result<TupleSet, Fail> {
    let mut set = TupleSet::new(alloc);
    for text in texts {
        let mut tuple = Tuple::new(alloc);
        tuple.push(Elem::Text(Bytes::from_slice(alloc, text)?))?;
        set.insert(tuple)?;
    }
    Ok(set)
}

// Whether an element is this whole number.
fn is_number(element: &Elem, number: i128) -> bool {
    match element {
        Elem::Number(found) => found.numer() == number && found.denom() == 1,
        Elem::Text(_) => false,
    }
}

// Whether the components of all tuples, one after another, are these numbers.
fn has_numbers(set: &TupleSet, wanted: &[i128]) -> bool {
    let mut seen = 0;
    for tuple in set.as_slice() {
        for element in tuple.as_slice() {
            if seen >= wanted.len() || !is_number(element, wanted[seen]) {
                return false;
            }
            seen += 1;
        }
    }
    seen == wanted.len()
}

// The fault, if it is one.
fn fault_of<T: Drop>(made: Result<T, SetFault>) -> Option<SetFault> {
    made.err()
}

#[test]
fn union_and_symdiff_begin_with_the_first(rt: HostRuntime) -> Result<(), Fail> {
    let alloc = rt.alloc();
    let a = set_of(alloc, &[3, 1, 2, 1])?;
    let b = set_of(alloc, &[2, 4])?;
    assert!(rt; has_numbers(&union(alloc, &a, &b)?, &[3, 1, 2, 4]));
    assert!(rt; has_numbers(&symdiff(alloc, &a, &b)?, &[3, 1, 4]));
    Ok(())
}

#[test]
fn inter_and_without_keep_of_the_first(rt: HostRuntime) -> Result<(), Fail> {
    let alloc = rt.alloc();
    let a = set_of(alloc, &[3, 1, 2, 1])?;
    let b = set_of(alloc, &[2, 4])?;
    assert!(rt; has_numbers(&inter(alloc, &a, &b)?, &[2]));
    assert!(rt; has_numbers(&without(alloc, &a, &b)?, &[3, 1]));
    Ok(())
}

#[test]
fn subsets_come_by_positions(rt: HostRuntime) -> Result<(), Fail> {
    let alloc = rt.alloc();
    let family = subsets(alloc, &set_of(alloc, &[3, 1, 2])?, 2)?;
    assert_eq!(rt; family.len(), 3);
    let last = family.last().ok_or("no subset")?;
    assert!(rt; has_numbers(last, &[1, 2]));
    Ok(())
}

#[test]
fn a_powerset_comes_by_sizes(rt: HostRuntime) -> Result<(), Fail> {
    let alloc = rt.alloc();
    let a = set_of(alloc, &[1, 2])?;
    let family = powerset(alloc, &a)?;
    let expected: [&[i128]; 4] = [&[], &[1], &[2], &[1, 2]];
    assert_eq!(rt; family.len(), 4);
    for (set, numbers) in family.iter().zip(expected.iter()) {
        assert!(rt; has_numbers(set, numbers));
    }
    assert_eq!(rt; subsets(alloc, &a, 3)?.len(), 0);
    Ok(())
}

#[test]
fn a_product_runs_faster_in_the_second(rt: HostRuntime) -> Result<(), Fail> {
    let alloc = rt.alloc();
    let a = set_of(alloc, &[1, 2])?;
    let product = cross(alloc, &a, &set_of(alloc, &[4, 3])?)?;
    assert!(rt; has_numbers(&product, &[1, 4, 1, 3, 2, 4, 2, 3]));
    Ok(())
}

#[test]
fn a_projection_keeps_the_first(rt: HostRuntime) -> Result<(), Fail> {
    let alloc = rt.alloc();
    let a = set_of(alloc, &[1, 2])?;
    let product = cross(alloc, &a, &set_of_texts(alloc, &[b"a"])?)?;
    assert_eq!(rt; proj(alloc, &product, &[2])?.len(), 1);
    assert!(rt; has_numbers(&proj(alloc, &product, &[1])?, &[1, 2]));
    Ok(())
}

#[test]
fn ranges_lead_up_and_down(rt: HostRuntime) -> Result<(), Fail> {
    let alloc = rt.alloc();
    assert!(rt; has_numbers(&range(alloc, 1, 6, 2)?, &[1, 3, 5]));
    assert!(rt; has_numbers(&range(alloc, 5, 1, -2)?, &[5, 3, 1]));
    assert!(rt; has_numbers(&range(alloc, 5, 1, 1)?, &[]));
    assert!(rt; has_numbers(&range(alloc, 1, 5, -1)?, &[]));
    Ok(())
}

#[test]
fn ranges_reach_the_ends_of_128_bits(rt: HostRuntime) -> Result<(), Fail> {
    let alloc = rt.alloc();
    assert!(rt; has_numbers(&range(alloc, LAST - 3, LAST, 2)?, &[LAST - 3, LAST - 1]));
    assert!(rt; has_numbers(&range(alloc, 1 - LAST, -LAST, -1)?, &[1 - LAST, -LAST]));
    assert!(rt; has_numbers(&range(alloc, -LAST, LAST, LAST)?, &[-LAST, 0, LAST]));
    assert_eq!(rt;
        fault_of(range(alloc, -LAST, LAST, 1)),
        Some(SetFault::SetSize)
    );
    Ok(())
}

#[test]
fn a_set_has_at_most_1048576_tuples(rt: HostRuntime) -> Result<(), Fail> {
    let alloc = rt.alloc();
    let all = range(alloc, 1, 1_048_576, 1)?;
    assert_eq!(rt; all.len(), 1_048_576);
    assert_eq!(rt; subsets(alloc, &all, 1_048_576)?.len(), 1);
    assert_eq!(rt;
        fault_of(range(alloc, 1, 1_048_577, 1)),
        Some(SetFault::SetSize)
    );
    Ok(())
}

#[test]
fn a_family_has_at_most_1048576_sets(rt: HostRuntime) -> Result<(), Fail> {
    let alloc = rt.alloc();
    let a = range(alloc, 1, 1025, 1)?;
    assert_eq!(rt; fault_of(subsets(alloc, &a, 3)), Some(SetFault::SetSize));
    assert_eq!(rt; fault_of(powerset(alloc, &a)), Some(SetFault::SetSize));
    assert_eq!(rt; fault_of(cross(alloc, &a, &a)), Some(SetFault::SetSize));
    Ok(())
}

#[test]
fn faults_have_their_causes(rt: HostRuntime) -> Result<(), Fail> {
    let alloc = rt.alloc();
    let a = set_of(alloc, &[1])?;
    let texts = set_of_texts(alloc, &[b"a"])?;
    assert_eq!(rt;
        fault_of(union(alloc, &a, &texts)),
        Some(SetFault::WrongKind)
    );
    assert_eq!(rt; fault_of(range(alloc, 1, 2, 0)), Some(SetFault::StepZero));
    Ok(())
}

#[test]
fn a_list_keeps_the_first_of_equal_tuples(rt: HostRuntime) -> Result<(), Fail> {
    let alloc = rt.alloc();
    let mut listed = Vec::new(alloc);
    for number in [3, 1, 3] {
        let mut tuple = Tuple::new(alloc);
        tuple.push(Elem::Number(of(number, 1)?))?;
        listed.push(tuple)?;
    }
    let set = set_of_list(alloc, listed.as_slice())?;
    assert!(rt; has_numbers(&set, &[3, 1]));
    assert!(rt; has_numbers(&set.copy()?, &[3, 1]));
    Ok(())
}
