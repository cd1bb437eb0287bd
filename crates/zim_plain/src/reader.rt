//! Statements of plain form, read off their trees: a function for each class.

ghost use Rattle.std.specs.Prelude.{◌≡◌, map, option_map};
ghost use Rattle.zim_plain.specs.Reader.{IsRead, FindsRead, GivesRead, literal_of, coefficient_said, item_of, sign_said, further_of, sum_said, heading_of, statement_said};
ghost use Rattle.zim_plain.specs.Reading as spec;

use crate::statement::{
    Coefficient, Divisor, Factor, Further, Head, Item, Literal, SignAt, Statement, Sum,
};
use crate::stop::{NotPlain, Stop};
use std::alloc::Global;
use zim_fault::{Bytes, Place, Relation, Sign, Token};
use zim_rows::Sense;
use zim_tree::{Expr, Shape, Stmt};

/// A number.
#[tactic(auto, unfolding(crate::specs::Reading::read_literal))]
fn literal(tree: &Expr) -> Result<Literal<'_>, NotPlain>
    ensures { FindsRead literal_of result (spec.read_literal tree.now) }
{
    match tree {
        Expr::Number(place, text) => Ok(Literal {
            place: *place,
            text,
        }),
        _ => Err(NotPlain),
    }
}

/// A name, and where it stands.
#[tactic(auto, unfolding(crate::specs::Reading::read_as_name))]
fn name(tree: &Expr) -> Result<(Place, &Bytes), NotPlain>
    ensures { FindsRead (λ p. (p.0, p.1.now)) result (spec.read_as_name tree.now) }
{
    match tree {
        Expr::Name(place, name) => Ok((*place, name)),
        _ => Err(NotPlain),
    }
}

/// The sign of an expression, if it begins with one, and the expression behind it.
#[tactic(auto, unfolding(crate::specs::Reading::read_signed))]
fn signed(tree: &Expr) -> (Option<SignAt>, &Expr)
    ensures { (option_map sign_said result.0, result.1.now) ≡ spec.read_signed tree.now }
{
    match tree {
        Expr::Signed(place, negative, operand) => {
            let sign = SignAt {
                place: *place,
                negative: *negative,
            };
            (Some(sign), operand.get())
        }
        _ => (None, tree),
    }
}

/// A number with its divisor, or with the name that it is a factor of, or with both.
#[tactic(auto, unfolding(crate::specs::Reading::read_product))]
fn product<'a>(
    number: Literal<'a>,
    others: &'a [(Place, Token, Expr)],
) -> Result<Item<'a>, NotPlain>
    ensures { FindsRead item_of result (spec.read_product (literal_of number.entry) others.now) }
{
    match others {
        [(slash, Token::Sign(Sign::SSlash), divisor)] => {
            let literal = literal(divisor)?;
            Ok(Item::Constant(over(number, *slash, literal)))
        }
        [(star, Token::Sign(Sign::SStar), operand)] => {
            let coefficient = Coefficient {
                number,
                divisor: None,
            };
            let (place, name) = name(operand)?;
            Ok(multiple(coefficient, *star, place, name))
        }
        [
            (slash, Token::Sign(Sign::SSlash), divisor),
            (star, Token::Sign(Sign::SStar), operand),
        ] => {
            let literal = literal(divisor)?;
            let (place, name) = name(operand)?;
            Ok(multiple(over(number, *slash, literal), *star, place, name))
        }
        _ => Err(NotPlain),
    }
}

/// A number over another, with the slash at a place.
fn over<'a>(number: Literal<'a>, slash: Place, literal: Literal<'a>) -> Coefficient<'a>
    ensures { coefficient_said result ≡ spec.quotient_of (literal_of number.entry) slash (literal_of literal.entry) }
{
    Coefficient {
        number,
        divisor: Some(Divisor { slash, literal }),
    }
}

/// A coefficient times a variable, with the star at a place.
fn multiple<'a>(
    coefficient: Coefficient<'a>,
    star: Place,
    place: Place,
    name: &'a Bytes,
) -> Item<'a>
    ensures { item_of result ≡ spec.multiple (coefficient_said coefficient.entry) star (place, name.now) }
{
    Item::Multiple(Some(Factor { coefficient, star }), place, name)
}

/// A number alone, or a name alone.
#[tactic(auto, unfolding(crate::specs::Reading::read_operand))]
fn operand(tree: &Expr) -> Result<Item<'_>, NotPlain>
    ensures { FindsRead item_of result (spec.read_operand tree.now) }
{
    match tree {
        Expr::Number(place, text) => Ok(Item::Constant(Coefficient {
            number: Literal {
                place: *place,
                text,
            },
            divisor: None,
        })),
        Expr::Name(place, name) => Ok(Item::Multiple(None, *place, name)),
        _ => Err(NotPlain),
    }
}

/// An item with its sign, which stands before its first operand.
#[tactic(auto, unfolding(crate::specs::Reading::read_item))]
fn item(tree: &Expr) -> Result<(Option<SignAt>, Item<'_>), NotPlain>
    ensures { FindsRead (λ p. (option_map sign_said p.0, item_of p.1)) result (spec.read_item tree.now) }
{
    match tree {
        Expr::Times(first, others) => {
            let (sign, number) = signed(first.get());
            let number = literal(number)?;
            let item = product(number, others.as_slice())?;
            Ok((sign, item))
        }
        _ => {
            let (sign, alone) = signed(tree);
            let item = operand(alone)?;
            Ok((sign, item))
        }
    }
}

/// A plus or a minus, at a place.
#[tactic(auto, unfolding(crate::specs::Reading::read_sign))]
fn sign(place: Place, operator: &Token) -> Result<SignAt, NotPlain>
    ensures { FindsRead sign_said result (spec.read_sign place operator.now) }
{
    match operator {
        Token::Sign(Sign::SPlus) => Ok(SignAt {
            place,
            negative: false,
        }),
        Token::Sign(Sign::SMinus) => Ok(SignAt {
            place,
            negative: true,
        }),
        _ => Err(NotPlain),
    }
}

/// An item behind others, with the operator before it. It has no sign of its own.
#[tactic(auto, unfolding(crate::specs::Reading::read_further))]
fn further(other: &(Place, Token, Expr)) -> Result<Further<'_>, NotPlain>
    ensures { FindsRead further_of result (spec.read_further other.now) }
{
    let (place, operator, operand) = other;
    let sign = sign(*place, operator)?;
    match item(operand)? {
        (None, item) => Ok(Further { sign, item }),
        (Some(_), _) => Err(NotPlain),
    }
}

/// Items behind others.
fn others(alloc: Global, operands: &[(Place, Token, Expr)]) -> Result<Vec<Further<'_>>, Stop>
    ensures { GivesRead (λ v. map further_of v.items) result (spec.read_others operands.now) }
{
    let mut others = Vec::new(alloc);
    for operand in operands {
        let further = further(operand)?;
        others.push(further)?;
    }
    Ok(others)
}

/// A list: the sum of at least two items, or one item.
#[tactic(auto, unfolding(crate::specs::Reading::read_sum))]
fn sum(alloc: Global, tree: &Expr) -> Result<Sum<'_>, Stop>
    ensures { GivesRead sum_said result (spec.read_sum tree.now) }
{
    match tree {
        Expr::Plus(first, operands) => {
            if operands.is_empty() {
                return Err(Stop::Outside);
            }
            let (sign, first) = item(first.get())?;
            let others = others(alloc, operands.as_slice())?;
            Ok(Sum {
                sign,
                first,
                others,
            })
        }
        _ => {
            let (sign, first) = item(tree)?;
            let others = Vec::new(alloc);
            Ok(Sum {
                sign,
                first,
                others,
            })
        }
    }
}

/// The relation between the sides of a constraint.
#[tactic(auto, unfolding(crate::specs::Reading::read_sense))]
fn sense(relation: Relation) -> Result<Sense, NotPlain>
    ensures { FindsRead (λ s. s) result (spec.read_sense relation) }
{
    match relation {
        Relation::AtMost => Ok(Sense::AtMost),
        Relation::AtLeast => Ok(Sense::AtLeast),
        Relation::EqualTo => Ok(Sense::Equal),
        _ => Err(NotPlain),
    }
}

/// What a constraint compares.
#[tactic(auto, unfolding(crate::specs::Reading::read_constraint))]
fn constraint<'a>(alloc: Global, head: Head<'a>, condition: &'a Expr) -> Result<Statement<'a>, Stop>
    ensures { GivesRead statement_said result (spec.read_constraint (heading_of head.entry) condition.now) }
{
    match condition {
        Expr::Compare(left, others) => match others.as_slice() {
            [(at, relation, right)] => {
                let left = sum(alloc, left.get())?;
                let sense = sense(*relation)?;
                let right = sum(alloc, right)?;
                Ok(Statement::Constraint(head, left, sense, *at, right))
            }
            _ => Err(Stop::Outside),
        },
        _ => Err(Stop::Outside),
    }
}

/// What a statement says of its name.
#[tactic(auto, unfolding(crate::specs::Reading::read_goal))]
fn shape<'a>(alloc: Global, head: Head<'a>, shape: &'a Shape) -> Result<Statement<'a>, Stop>
    ensures { GivesRead statement_said result (spec.shape_of (heading_of head.entry) shape.now) }
{
    match shape {
        Shape::Var(None, None, limits, None, None) => {
            if limits.is_empty() {
                Ok(Statement::Variable(head))
            } else {
                Err(Stop::Outside)
            }
        }
        Shape::Goal(maximize, objective) => {
            let sum = sum(alloc, objective.get())?;
            Ok(Statement::Objective(*maximize, head, sum))
        }
        Shape::Subto(condition) => constraint(alloc, head, condition.get()),
        _ => Err(Stop::Outside),
    }
}

/// A statement of plain form. `Outside` comes exactly where the tree is that of none.
pub fn statement(alloc: Global, tree: &Stmt) -> Result<Statement<'_>, Stop>
    ensures { IsRead tree.now result }
{
    let head = Head {
        word: tree.first,
        at: tree.at,
        name: &tree.name,
    };
    shape(alloc, head, tree.shape.get())
}
