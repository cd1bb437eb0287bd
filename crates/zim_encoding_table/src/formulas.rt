//! Terms, conditions and constraints that are over the first so many columns: what the encodings ask of theirs.
ghost use Rattle.std.specs.Prelude.{IsTrue};
ghost use Rattle.zim_formula.specs.GroundRules.{is_term_over, is_condition_over, is_constraint_over};

use crate::stops::Stop;
use sqlite_items::{Boxed, Items};
use std::alloc::Global;
use zim_fault::{Join, Place, Relation};
use zim_formula::{GCon, GCond, GTerm};
use zim_fraction::Fraction;

/// The place of all that is encoded.
pub const PLACE: Place = Place { file: 0, line: 1 };

/// A term over the columns from 1 to this number.
#[derive(Drop)]
pub struct OverTerm {
    pub columns: usize,
    pub tree: GTerm,
    pub ghost over: { IsTrue (is_term_over columns tree) },
}

/// A condition over the columns from 1 to this number.
#[derive(Drop)]
pub struct OverCondition {
    pub columns: usize,
    pub tree: GCond,
    pub ghost over: { IsTrue (is_condition_over columns tree) },
}

/// A constraint over the columns from 1 to this number.
#[derive(Drop)]
pub struct OverConstraint {
    pub columns: usize,
    pub tree: GCon,
    pub ghost over: { IsTrue (is_constraint_over columns tree) },
}

/// A number.
pub fn known(columns: usize, q: Fraction) -> OverTerm {
    OverTerm {
        columns,
        tree: GTerm::Known(q),
    }
}

/// A column.
pub fn column(columns: usize, number: u32) -> Result<OverTerm, Stop> {
    if number == 0 || columns < number as usize {
        return Err(Stop::NoCase);
    }
    Ok(OverTerm {
        columns,
        tree: GTerm::Column(number),
    })
}

/// The sum of two terms, or their difference.

pub fn sum(alloc: Global, left: OverTerm, minus: bool, right: OverTerm) -> Result<OverTerm, Stop> {
    let columns = left.columns;
    if right.columns != columns {
        return Err(Stop::NoCase);
    }
    let mut others = Items::new(alloc);
    others.push((PLACE, minus, right.tree))?;
    Ok(OverTerm {
        columns,
        tree: GTerm::Sum(Boxed::new(alloc, left.tree)?, others),
    })
}

/// A number times a term.
pub fn product(alloc: Global, factor: Fraction, term: OverTerm) -> Result<OverTerm, Stop> {
    Ok(OverTerm {
        columns: term.columns,
        tree: GTerm::Product(
            Some((factor, PLACE)),
            Boxed::new(alloc, term.tree)?,
            Items::new(alloc),
        ),
    })
}

/// A term over a number, which isn't 0.
pub fn quotient(alloc: Global, term: OverTerm, divisor: Fraction) -> Result<OverTerm, Stop> {
    if divisor.same_number(&Fraction::zero()) {
        return Err(Stop::NoCase);
    }
    let mut others = Items::new(alloc);
    others.push((PLACE, true, divisor))?;
    Ok(OverTerm {
        columns: term.columns,
        tree: GTerm::Product(None, Boxed::new(alloc, term.tree)?, others),
    })
}

/// A term with its sign turned.
pub fn minus(alloc: Global, term: OverTerm) -> Result<OverTerm, Stop> {
    Ok(OverTerm {
        columns: term.columns,
        tree: GTerm::Minus(PLACE, Boxed::new(alloc, term.tree)?),
    })
}

/// The absolute value of a term.
pub fn absolute(alloc: Global, term: OverTerm) -> Result<OverTerm, Stop> {
    Ok(OverTerm {
        columns: term.columns,
        tree: GTerm::Abs(PLACE, Boxed::new(alloc, term.tree)?),
    })
}

/// A truth value.
pub fn truth(columns: usize, truth: bool) -> OverCondition {
    OverCondition {
        columns,
        tree: GCond::Known(truth),
    }
}

/// Two terms compared, as a condition.
pub fn compared(
    alloc: Global,
    left: OverTerm,
    relation: Relation,
    right: OverTerm,
) -> Result<OverCondition, Stop> {
    let columns = left.columns;
    if right.columns != columns {
        return Err(Stop::NoCase);
    }
    Ok(OverCondition {
        columns,
        tree: GCond::Compare(
            PLACE,
            relation,
            Boxed::new(alloc, left.tree)?,
            Boxed::new(alloc, right.tree)?,
        ),
    })
}

/// Two conditions joined.

pub fn joined(
    alloc: Global,
    left: OverCondition,
    join: Join,
    right: OverCondition,
) -> Result<OverCondition, Stop> {
    let columns = left.columns;
    if right.columns != columns {
        return Err(Stop::NoCase);
    }
    let mut others = Items::new(alloc);
    others.push((PLACE, join, right.tree))?;
    Ok(OverCondition {
        columns,
        tree: GCond::Chain(Boxed::new(alloc, left.tree)?, others),
    })
}

/// The condition that another isn't true.
pub fn not(alloc: Global, condition: OverCondition) -> Result<OverCondition, Stop> {
    Ok(OverCondition {
        columns: condition.columns,
        tree: GCond::Not(PLACE, Boxed::new(alloc, condition.tree)?),
    })
}

/// A relation by which a row can compare.
#[derive(Clone, Copy, Debug, PartialEq, Eq)]
pub enum RowRelation {
    AtMost,
    AtLeast,
    Equal,
}

/// Two terms compared, as a constraint.

pub fn asked(
    alloc: Global,
    left: OverTerm,
    relation: RowRelation,
    right: OverTerm,
) -> Result<OverConstraint, Stop> {
    let columns = left.columns;
    if right.columns != columns {
        return Err(Stop::NoCase);
    }
    let left = Boxed::new(alloc, left.tree)?;
    let right = Boxed::new(alloc, right.tree)?;
    match relation {
        RowRelation::AtMost => Ok(OverConstraint {
            columns,
            tree: GCon::Compare(PLACE, Relation::AtMost, left, right),
        }),
        RowRelation::AtLeast => Ok(OverConstraint {
            columns,
            tree: GCon::Compare(PLACE, Relation::AtLeast, left, right),
        }),
        RowRelation::Equal => Ok(OverConstraint {
            columns,
            tree: GCon::Compare(PLACE, Relation::EqualTo, left, right),
        }),
    }
}

/// A term between two numbers, of which the first is the least one, or else the greatest.

pub fn between(
    alloc: Global,
    first: Fraction,
    rising: bool,
    term: OverTerm,
    last: Fraction,
) -> Result<OverConstraint, Stop> {
    let columns = term.columns;
    let term = Boxed::new(alloc, term.tree)?;
    if rising {
        Ok(OverConstraint {
            columns,
            tree: GCon::Range(PLACE, Relation::AtMost, first, term, last),
        })
    } else {
        Ok(OverConstraint {
            columns,
            tree: GCon::Range(PLACE, Relation::AtLeast, first, term, last),
        })
    }
}

/// Two constraints.

pub fn both(
    alloc: Global,
    first: OverConstraint,
    second: OverConstraint,
) -> Result<OverConstraint, Stop> {
    let columns = first.columns;
    if second.columns != columns {
        return Err(Stop::NoCase);
    }
    let mut parts = Items::new(alloc);
    parts.push(first.tree)?;
    parts.push(second.tree)?;
    Ok(OverConstraint {
        columns,
        tree: GCon::And(parts),
    })
}

/// A constraint where a condition is true, and where it isn't nothing.

pub fn picked(
    alloc: Global,
    test: OverCondition,
    first: OverConstraint,
) -> Result<OverConstraint, Stop> {
    let columns = test.columns;
    if first.columns != columns {
        return Err(Stop::NoCase);
    }
    Ok(OverConstraint {
        columns,
        tree: GCon::Vif(
            PLACE,
            Boxed::new(alloc, test.tree)?,
            Boxed::new(alloc, first.tree)?,
            None,
        ),
    })
}

/// One of two constraints, the first where a condition is true.

pub fn picked_of_two(
    alloc: Global,
    test: OverCondition,
    first: OverConstraint,
    second: OverConstraint,
) -> Result<OverConstraint, Stop> {
    let columns = test.columns;
    if first.columns != columns || second.columns != columns {
        return Err(Stop::NoCase);
    }
    Ok(OverConstraint {
        columns,
        tree: GCon::Vif(
            PLACE,
            Boxed::new(alloc, test.tree)?,
            Boxed::new(alloc, first.tree)?,
            Some(Boxed::new(alloc, second.tree)?),
        ),
    })
}
