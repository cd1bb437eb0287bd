//! The term or the constant that is made of those of its parts.
ghost use Rattle.std.specs.Prelude.{◌≡◌, IfOk, None};
ghost use Rattle.std.specs.Option.{option_copied};
ghost use Rattle.zim_static.specs.Around.{names_in};
ghost use Rattle.zim_static.specs.Faults.{is_slash};
ghost use Rattle.zim_typed.specs.declared.constraint.Term.TheVariants.{Column, Product};
ghost use Rattle.zim_sort.specs.declared.part.TermPart.TheVariants.{Varies, Fixed};
ghost use Rattle.zim_typing.specs.Typing.{is_minus, known_product, typed_const, typed_consts, typed_factors};
ghost use Rattle.zim_sort.specs.Parts.{as_term, summands, fixed_operands, one_varying};
ghost use Rattle.zim_sort.specs.Parts as spec;

use crate::constants::{boxed_constant, constant, constants};
use crate::part::TermPart;
use sqlite_items::{Boxed, Items};
use std::alloc::Global;
use zim_fault::{Bytes, Duplicate, Memory, Place, Sign, Token, Word};
use zim_static::{Around, Scope};
use zim_tree::Expr;
use zim_typed::{Const, Loop, Term};

/// Whether a token is `-`.
fn is_minus(token: &Token) -> bool
    ensures { result ≡ is_minus token.now }
{
    match token {
        Token::Sign(Sign::SMinus) => true,
        _ => false,
    }
}

/// Whether a token is `/`.
fn is_slash(token: &Token) -> bool
    ensures { result ≡ is_slash token.now }
{
    match token {
        Token::Sign(Sign::SSlash) => true,
        _ => false,
    }
}

/// Whether a word is `sum`.
pub(crate) fn is_summation(word: Word) -> bool
    ensures { result ≡ spec.is_summation word }
{
    match word {
        Word::WSum => true,
        _ => false,
    }
}

/// The operand of a `vabs` that has one.
pub(crate) fn absolute_operand(word: Word, given: &[Expr]) -> Option<&Expr>
    ensures { option_copied result ≡ spec.absolute_operand word given.now }
{
    match word {
        Word::WVabs => match given {
            [operand] => Some(operand),
            _ => None,
        },
        _ => None,
    }
}

/// An expression that is a constant.
pub(crate) fn fixed(
    alloc: Global,
    scope: &Scope,
    around: &Around,
    tree: &Expr,
) -> Result<TermPart, Memory>
    ensures { IfOk result (λ made. made ≡ Fixed (typed_const scope.now (names_in scope.now around.now) tree.now)) }
{
    Ok(TermPart::Fixed(boxed_constant(alloc, scope, around, tree)?))
}

/// A variable with its index.
pub(crate) fn column(
    alloc: Global,
    scope: &Scope,
    around: &Around,
    place: Place,
    name: &Bytes,
    index: &[Expr],
) -> Result<TermPart, Memory>
    ensures { IfOk result (λ made. made ≡ Varies (Column place name.now (typed_consts scope.now (names_in scope.now around.now) index.now))) }
{
    let index = constants(alloc, scope, around, index)?;
    varying(alloc, Term::Column(place, name.copy()?, index))
}

/// A term with variables, as a part.
pub(crate) fn varying(alloc: Global, term: Term) -> Result<TermPart, Memory>
    ensures { IfOk result (λ made. made ≡ Varies term) }
{
    Ok(TermPart::Varies(Boxed::new(alloc, term)?))
}

/// A product that begins with a term.
pub(crate) fn multiplied(
    alloc: Global,
    scope: &Scope,
    around: &Around,
    term: Boxed<Term>,
    others: &[(Place, Token, Expr)],
) -> Result<TermPart, Memory>
    ensures { IfOk result (λ made. made ≡ Varies (Product None term (typed_factors scope.now (names_in scope.now around.now) others.now))) }
{
    let behind = factors(alloc, scope, around, others)?;
    varying(alloc, Term::Product(None, term, behind))
}

/// The term that a part is, with variables or without, boxed.
pub(crate) fn boxed_term_of(alloc: Global, part: TermPart) -> Result<Boxed<Term>, Memory>
    ensures { IfOk result (λ made. made ≡ as_term part) }
{
    match part {
        TermPart::Varies(term) => Ok(term),
        TermPart::Fixed(tree) => Ok(Boxed::new(alloc, Term::Known(tree))?),
    }
}

/// The term that a part is, with variables or without.
pub(crate) fn term_of(part: TermPart) -> Term
    ensures { result ≡ as_term part }
{
    match part {
        TermPart::Varies(term) => term.into_inner(),
        TermPart::Fixed(tree) => Term::Known(tree),
    }
}

/// A part behind a sign.
pub(crate) fn signed(
    alloc: Global,
    place: Place,
    minus: bool,
    part: TermPart,
) -> Result<TermPart, Memory>
    ensures { IfOk result (λ made. made ≡ spec.signed_part place minus part) }
{
    match part {
        TermPart::Varies(term) => {
            if minus {
                varying(alloc, Term::Minus(place, term))
            } else {
                Ok(TermPart::Varies(term))
            }
        }
        TermPart::Fixed(tree) => {
            Ok(TermPart::Fixed(Boxed::new(alloc, Const::Signed(place, minus, tree))?))
        }
    }
}

/// A part in parentheses.
pub(crate) fn parenthesised(alloc: Global, place: Place, part: TermPart) -> Result<TermPart, Memory>
    ensures { IfOk result (λ made. made ≡ spec.parenthesised_part place part) }
{
    match part {
        TermPart::Varies(term) => Ok(TermPart::Varies(term)),
        TermPart::Fixed(tree) => {
            Ok(TermPart::Fixed(Boxed::new(alloc, Const::Paren(place, tree))?))
        }
    }
}

/// A sum over an index.
pub(crate) fn summed(
    alloc: Global,
    place: Place,
    word: Word,
    index: Boxed<Loop>,
    with_do: bool,
    part: TermPart,
) -> Result<TermPart, Memory>
    ensures { IfOk result (λ made. made ≡ spec.summed_part place word index with_do part) }
{
    match part {
        TermPart::Varies(term) => varying(alloc, Term::SumOver(place, index, term)),
        TermPart::Fixed(tree) => {
            let sum = Const::Big(place, word, index, with_do, tree);
            Ok(TermPart::Fixed(Boxed::new(alloc, sum)?))
        }
    }
}

/// The operand of a `vabs`, as a term.
pub(crate) fn absolute(alloc: Global, place: Place, part: TermPart) -> Result<TermPart, Memory>
    ensures { IfOk result (λ made. made ≡ spec.absolute_part place part) }
{
    let term = boxed_term_of(alloc, part)?;
    varying(alloc, Term::Abs(place, term))
}

/// One of two parts, which an `if` picks.
pub(crate) fn picked(
    alloc: Global,
    place: Place,
    test: Boxed<Const>,
    branch: TermPart,
    otherwise: TermPart,
) -> Result<TermPart, Memory>
    ensures { IfOk result (λ made. made ≡ spec.picked_part place test branch otherwise) }
{
    match branch {
        TermPart::Varies(term) => {
            let otherwise = boxed_term_of(alloc, otherwise)?;
            varying(alloc, Term::If(place, test, term, otherwise))
        }
        TermPart::Fixed(tree) => match otherwise {
            TermPart::Varies(term) => {
                let branch = Boxed::new(alloc, Term::Known(tree))?;
                varying(alloc, Term::If(place, test, branch, term))
            }
            TermPart::Fixed(other) => {
                let choice = Const::If(place, test, tree, other);
                Ok(TermPart::Fixed(Boxed::new(alloc, choice)?))
            }
        },
    }
}

/// Whether a part has variables.
fn is_varying(part: &TermPart) -> bool
    ensures { result ≡ spec.is_varying part.now }
{
    match part {
        TermPart::Varies(_) => true,
        TermPart::Fixed(_) => false,
    }
}

/// Whether one of the operands behind operators has variables.
fn one_varies(others: &Vec<(Place, Token, TermPart)>) -> bool
    ensures { result ≡ one_varying others.now.items }
{
    others.iter().any(|x| is_varying(&x.2))
}

/// What stands behind the first operand of a sum, as terms.
fn summands(
    alloc: Global,
    others: Vec<(Place, Token, TermPart)>,
) -> Result<Items<(Place, bool, Term)>, Memory>
    ensures { IfOk result (λ made. made ≡ summands others.items) }
{
    let mut made = Items::new(alloc);
    for (place, token, part) in others {
        made.push((place, is_minus(&token), term_of(part)))?;
    }
    Ok(made)
}

/// An operand behind an operator, if it is a constant.
fn fixed_operand(place: Place, token: Token, part: TermPart) -> Option<(Place, Token, Const)>
    ensures { result ≡ spec.fixed_operand (place, token, part) }
{
    match part {
        TermPart::Fixed(tree) => Some((place, token, tree.into_inner())),
        TermPart::Varies(_) => None,
    }
}

/// The constants among operands behind operators.
fn fixed_operands(
    alloc: Global,
    others: Vec<(Place, Token, TermPart)>,
) -> Result<Items<(Place, Token, Const)>, Memory>
    ensures { IfOk result (λ made. made ≡ fixed_operands others.items) }
{
    let mut made = Items::new(alloc);
    for (place, token, part) in others {
        match fixed_operand(place, token, part) {
            Some(operand) => made.push(operand)?,
            None => {}
        }
    }
    Ok(made)
}

/// A sum of parts.
pub(crate) fn sum_of(
    alloc: Global,
    first: TermPart,
    others: Vec<(Place, Token, TermPart)>,
) -> Result<TermPart, Memory>
    ensures { IfOk result (λ made. made ≡ spec.sum_part first others.items) }
{
    match first {
        TermPart::Varies(term) => {
            let others = summands(alloc, others)?;
            varying(alloc, Term::Sum(term, others))
        }
        TermPart::Fixed(tree) => {
            if one_varies(&others) {
                let term = Boxed::new(alloc, Term::Known(tree))?;
                let others = summands(alloc, others)?;
                return varying(alloc, Term::Sum(term, others));
            }
            let others = fixed_operands(alloc, others)?;
            Ok(TermPart::Fixed(Boxed::new(alloc, Const::Plus(tree, others))?))
        }
    }
}

/// Constants up to some place in a product: one is itself, and more are a product.
pub(crate) fn known_product(
    alloc: Global,
    first: Boxed<Const>,
    others: Items<(Place, Token, Const)>,
) -> Result<Boxed<Const>, Memory>
    ensures { IfOk result (λ made. made ≡ known_product first others) }
{
    if others.is_empty() {
        return Ok(first);
    }
    Ok(Boxed::new(alloc, Const::Times(first, others))?)
}

/// Factors and divisors behind a term.
pub(crate) fn factors(
    alloc: Global,
    scope: &Scope,
    around: &Around,
    others: &[(Place, Token, Expr)],
) -> Result<Items<(Place, bool, Const)>, Memory>
    ensures { IfOk result (λ made. made ≡ typed_factors scope.now (names_in scope.now around.now) others.now) }
{
    let mut made = Items::new(alloc);
    for (place, token, tree) in others {
        made.push((
            *place,
            is_slash(token),
            constant(alloc, scope, around, tree)?,
        ))?;
    }
    Ok(made)
}
