//! Comparisons of two numbers or of two texts.
ghost use Rattle.std.specs.Prelude.{◌≡◌};
ghost use Rattle.zim_meaning.specs.Operations.{relation_holds, values_compared};

use std::cmp::Ordering;
use zim_fault::{Kind, Relation};
use zim_fraction::compare;
use zim_meaning::Value;

// Whether two things that are ordered so stand in this relation.
fn holds(relation: Relation, order: Ordering) -> bool
    ensures { result ≡ relation_holds relation order }
{
    match relation {
        Relation::LessThan => matches!(order, Ordering::Less),
        Relation::AtMost => !matches!(order, Ordering::Greater),
        Relation::EqualTo => matches!(order, Ordering::Equal),
        Relation::NotEqualTo => !matches!(order, Ordering::Equal),
        Relation::AtLeast => !matches!(order, Ordering::Less),
        Relation::GreaterThan => matches!(order, Ordering::Greater),
    }
}

/// Whether two numbers, or two texts byte by byte, stand in a relation, as a truth value. `WrongKind` exactly where
/// they are neither two numbers nor two texts.
#[tactic(auto, unfolding(zim_meaning::specs::Operations::values_compared))]
pub fn compared(relation: Relation, left: &Value, right: &Value) -> Result<Value, Kind>
    ensures { result ≡ values_compared relation left.now right.now }
{
    match (left, right) {
        (Value::Number(p), Value::Number(q)) => Ok(Value::Truth(holds(relation, compare(*p, *q)))),
        (Value::Text(s), Value::Text(t)) => {
            let order = s.as_slice().cmp(t.as_slice());
            Ok(Value::Truth(holds(relation, order)))
        }
        _ => Err(Kind::WrongKind),
    }
}
