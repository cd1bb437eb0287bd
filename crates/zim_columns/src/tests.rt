// Columns that are declared with whole, short and other bounds, bounds that cross, and names with several tuples.
ghost use Rattle.std.specs.Prelude.{OnOk, All};
ghost use Rattle.zim_columns.specs.Declaring.{IsInSystem};

use crate::{Ask, Bound, Columns, Declared, VarKind, declare};
use std::alloc::Global;
use std::test::Fail;
use zim_fault::{Bytes, Kind, Place};
use zim_fraction::{Fraction, of};
use zim_rows::{EncodeFault, RowFrom, RowKind, Sense, System};
use zim_tuples::{Elem, Tuple};

const FROM: RowFrom = RowFrom {
    statement: 0,
    place: Place { file: 0, line: 1 },
};

// What `var x` with this kind and these bounds asks for.
fn asked(alloc: Global, kind: VarKind, lower: Bound, upper: Bound) -> Result<Ask, Fail> {
    Ok(Ask {
        name: Bytes::from_slice(alloc, b"x")?,
        tuple: Tuple::new(alloc),
        kind,
        lower,
        upper,
        priority: None,
        startval: None,
    })
}

// The system of the one column that is declared so.
fn system_of(alloc: Global, kind: VarKind, lower: Bound, upper: Bound) -> Result<System, Fail> {
    let ask = asked(alloc, kind, lower, upper)?;
    let mut system = System::new(alloc);
    let mut columns = Columns::new(alloc);
    declare(&mut columns, &mut system, FROM, ask)?;
    Ok(system)
}

// Whether there is a side, and it is this number.
fn is_side(side: &Option<Fraction>, number: Fraction) -> bool {
    match side {
        Some(found) => found.same_number(&number),
        None => false,
    }
}

// x >= 1/3 keeps the bound, and has the row 3 x1 >= 1.
#[test]
fn a_bound_that_no_decimal_writes_makes_a_row(rt: HostRuntime) -> Result<(), Fail> {
    let third = of(1, 3)?;
    let system = system_of(rt.alloc(), VarKind::Real, Bound::At(third), Bound::Plus)?;
    for sides in system.sides() {
        assert!(rt; is_side(&sides.low, third) && sides.high.is_none());
    }
    let finished = system.finish()?;
    for row in finished.rows.as_slice() {
        assert_eq!(rt; row.factor, 3);
        assert!(rt;
            matches!(&row.kind, RowKind::One(Sense::AtLeast, right) if right.same_number(&Fraction::one()))
        );
    }
    assert_eq!(rt; (finished.columns.len(), finished.rows.len()), (1, 1));
    Ok(())
}

// n integer >= 1/3 <= 5/2 has the bounds 1 and 2, and no row.
#[test]
fn bounds_of_whole_columns_are_rounded_inwards(rt: HostRuntime) -> Result<(), Fail> {
    let (third, half) = (Bound::At(of(1, 3)?), Bound::At(of(5, 2)?));
    let system = system_of(rt.alloc(), VarKind::Integer, third, half)?;
    for sides in system.sides() {
        assert!(rt; is_side(&sides.low, Fraction::one()));
        assert!(rt; is_side(&sides.high, Fraction::whole(2)));
    }
    assert_eq!(rt; (system.column_count(), system.row_count()), (1, 0));
    Ok(())
}

// How many rows a real column with these bounds makes, and whether the first says that it is at least something.
fn rows_of(alloc: Global, lower: Bound, upper: Bound) -> Result<(usize, bool), Fail> {
    let system = system_of(alloc, VarKind::Real, lower, upper)?;
    let finished = system.finish()?;
    let rows = finished.rows.as_slice();
    let is_lower = match rows.first() {
        Some(row) => matches!(&row.kind, RowKind::One(Sense::AtLeast, _)),
        None => false,
    };
    Ok((rows.len(), is_lower))
}

// Bounds on both sides, on one and on none, of numbers that decimals write and of others.
#[test]
fn each_bound_that_no_decimal_writes_makes_a_row(rt: HostRuntime) -> Result<(), Fail> {
    let alloc = rt.alloc();
    let (third, two_thirds) = (Bound::At(of(1, 3)?), Bound::At(of(2, 3)?));
    let half = Bound::At(of(1, 2)?);
    assert_eq!(rt; rows_of(alloc, third, two_thirds)?, (2, true));
    assert_eq!(rt; rows_of(alloc, half, two_thirds)?, (1, false));
    assert_eq!(rt; rows_of(alloc, Bound::Minus, third)?, (1, false));
    assert_eq!(rt; rows_of(alloc, half, Bound::Plus)?, (0, false));
    assert_eq!(rt; rows_of(alloc, Bound::Minus, Bound::Plus)?, (0, false));
    Ok(())
}

// Whether declaring it is BoundsCross, and lists nothing.
fn crosses(alloc: Global, ask: Ask) -> bool {
    let mut columns = Columns::new(alloc);
    let mut system = System::new(alloc);
    let refused = match declare(&mut columns, &mut system, FROM, ask) {
        Err(EncodeFault::Fault(fault)) => fault.kind == Kind::BoundsCross,
        _ => false,
    };
    refused && columns.list().is_empty()
}

// n integer >= 1/3 <= 1/2, x >= infinity and x <= -infinity.
#[test]
fn bounds_can_cross(rt: HostRuntime) -> Result<(), Fail> {
    let alloc = rt.alloc();
    let (third, half) = (Bound::At(of(1, 3)?), Bound::At(of(1, 2)?));
    assert!(rt; crosses(alloc, asked(alloc, VarKind::Integer, third, half)?));
    assert!(rt; !crosses(alloc, asked(alloc, VarKind::Real, third, half)?));
    assert!(rt;
        crosses(
            alloc,
            asked(alloc, VarKind::Real, Bound::Plus, Bound::Plus)?
        )
    );
    assert!(rt;
        crosses(
            alloc,
            asked(alloc, VarKind::Real, Bound::Minus, Bound::Minus)?
        )
    );
    Ok(())
}

// What `var x[..] binary priority 5 startval 1` asks for at this number of its index.
fn asked_at(alloc: Global, number: i128) -> Result<Ask, Fail> {
    let mut tuple = Tuple::new(alloc);
    tuple.push(Elem::Number(of(number, 1)?))?;
    Ok(Ask {
        name: Bytes::from_slice(alloc, b"x")?,
        tuple,
        kind: VarKind::Binary,
        lower: Bound::At(Fraction::zero()),
        upper: Bound::At(Fraction::one()),
        priority: Some(Fraction::whole(5)),
        startval: Some(Fraction::one()),
    })
}

// Declares what isn't declared yet.
fn declare_new(columns: &mut Columns, system: &mut System, ask: Ask) -> Result<(), Fail>
    requires { All (IsInSystem system.old) columns.old }
    ensures { OnOk result (All (IsInSystem system.new) columns.new) }
{
    if columns.find(&ask.name, &ask.tuple).is_some() {
        return Err(Fail::from("declared again"));
    }
    declare(columns, system, FROM, ask)?;
    Ok(())
}

// Whether the column has the priority and the start value that were asked for.
fn has_hints(declared: &Declared) -> bool {
    is_side(&declared.priority, Fraction::whole(5)) && is_side(&declared.startval, Fraction::one())
}

#[test]
fn each_tuple_of_a_name_has_a_column(rt: HostRuntime) -> Result<(), Fail> {
    let alloc = rt.alloc();
    let sought = asked_at(alloc, 8)?;
    let mut columns = Columns::new(alloc);
    let mut system = System::new(alloc);
    declare_new(&mut columns, &mut system, asked_at(alloc, 7)?)?;
    assert_eq!(rt; columns.find(&sought.name, &sought.tuple), None);
    declare_new(&mut columns, &mut system, asked_at(alloc, 8)?)?;
    assert_eq!(rt; columns.find(&sought.name, &sought.tuple), Some(2));
    assert_eq!(rt; columns.list().len(), 2);
    for declared in columns.list() {
        assert!(rt; has_hints(declared));
    }
    Ok(())
}
