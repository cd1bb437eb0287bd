// Copies of trees.
use crate::{copy_constraint, copy_term};
use sqlite_items::{Boxed, Items};
use std::alloc::{AllocError, Global};
use std::test::Fail;
use zim_fault::{Join, Place, Relation};
use zim_formula::{GCon, GCond, GTerm};
use zim_fraction::Fraction;

const PLACE: Place = Place { file: 0, line: 1 };

// 2 (x1 - |x2|) / 3
fn term(alloc: Global) -> Result<GTerm, AllocError> {
    let mut taken = Items::new(alloc);
    let size = GTerm::Abs(PLACE, Boxed::new(alloc, GTerm::Column(2))?);
    taken.push((PLACE, true, size))?;
    let difference = GTerm::Sum(Boxed::new(alloc, GTerm::Column(1))?, taken);
    let mut divisors = Items::new(alloc);
    divisors.push((PLACE, true, Fraction::whole(3)))?;
    let factor = Some((Fraction::whole(2), PLACE));
    Ok(GTerm::Product(factor, Boxed::new(alloc, difference)?, divisors))
}

#[test]
fn copies_a_term(rt: HostRuntime) -> Result<(), Fail> {
    let alloc = rt.alloc();
    let made = copy_term(alloc, &term(alloc)?)?;
    let GTerm::Product(Some((factor, _)), difference, divisors) = &made else {
        return Err(Fail::new("another tree"));
    };
    assert_eq!(rt; *factor, Fraction::whole(2));
    assert_eq!(rt; divisors.len(), 1);
    let GTerm::Sum(first, others) = difference.get() else {
        return Err(Fail::new("another tree"));
    };
    assert!(rt; matches!(first.get(), GTerm::Column(1)));
    assert!(rt; matches!(others.get(0), Some((_, true, GTerm::Abs(_, _)))));
    Ok(())
}

#[test]
fn copies_a_constraint(rt: HostRuntime) -> Result<(), Fail> {
    let alloc = rt.alloc();
    let test = GCond::Compare(
        PLACE,
        Relation::LessThan,
        Boxed::new(alloc, term(alloc)?)?,
        Boxed::new(alloc, GTerm::Known(Fraction::zero()))?,
    );
    let mut joined = Items::new(alloc);
    joined.push((
        PLACE,
        Join::Xor,
        GCond::Not(PLACE, Boxed::new(alloc, GCond::Known(true))?),
    ))?;
    let test = GCond::Chain(Boxed::new(alloc, test)?, joined);
    let row = GCon::Range(
        PLACE,
        Relation::AtMost,
        Fraction::zero(),
        Boxed::new(alloc, term(alloc)?)?,
        Fraction::one(),
    );
    let nothing = GCon::And(Items::new(alloc));
    let whole = GCon::Vif(
        PLACE,
        Boxed::new(alloc, test)?,
        Boxed::new(alloc, row)?,
        Some(Boxed::new(alloc, nothing)?),
    );
    let made = copy_constraint(alloc, &whole)?;
    let GCon::Vif(_, test, _, Some(otherwise)) = &made else {
        return Err(Fail::new("another tree"));
    };
    assert!(rt; matches!(otherwise.get(), GCon::And(_)));
    let GCond::Chain(_, joined) = test.get() else {
        return Err(Fail::new("another tree"));
    };
    assert!(rt; matches!(joined.get(0), Some((_, Join::Xor, GCond::Not(_, _)))));
    Ok(())
}
