//! Which operators and relations may stand in a term or a constraint.
ghost use Rattle.std.specs.Prelude.{◌≡◌, ◌||◌, not};
ghost use Rattle.zim_fault.specs.declared.faults.Place.{Place};
ghost use Rattle.zim_fault.specs.declared.tokens.Token.{Token};
ghost use Rattle.zim_tree.specs.declared.expr.Expr.{Expr};
ghost use Rattle.zim_typed.specs.Terms.{may_constrain};
ghost use Rattle.zim_static.specs.Faults.{part_of, known_operands};
ghost use Rattle.zim_static.specs.Faults as spec;

use crate::scope::Scope;
use crate::varies::varies;
use zim_fault::{Place, Relation, Sign, Token, Word};
use zim_tree::Expr;

/// Whether a token is `+` or `-`.
fn adds(token: &Token) -> bool
    ensures { result ≡ spec.adds token.now }
{
    match token {
        Token::Sign(Sign::SPlus | Sign::SMinus) => true,
        _ => false,
    }
}

/// Whether a token is `*` or `/`.
fn multiplies(token: &Token) -> bool
    ensures { result ≡ spec.multiplies token.now }
{
    match token {
        Token::Sign(Sign::SStar | Sign::SSlash) => true,
        _ => false,
    }
}

/// Whether a token is `/`.
pub(crate) fn divides(token: &Token) -> bool
    ensures { result ≡ spec.is_slash token.now }
{
    match token {
        Token::Sign(Sign::SSlash) => true,
        _ => false,
    }
}

/// Whether a sum may be a term: all its operators are `+` and `-`.
pub(crate) fn is_by_signs(others: &[(Place, Token, Expr)]) -> bool
    ensures { result ≡ spec.is_by_signs others.now }
{
    others.iter().all(|x| adds(&x.1))
}

/// Whether a product may be a term: it is by `*` and `/` from its first operand with variables on. Of the operands before
/// it is known whether one has variables.
pub(crate) fn is_by_stars(scope: &Scope, before: bool, others: &[(Place, Token, Expr)]) -> bool
    ensures { result ≡ spec.is_by_stars before (known_operands scope.now others.now) }
{
    let mut varying = before;
    for (_place, token, tree) in others {
        varying = varies_by(scope, varying, tree);
        if !may_follow(varying, token) {
            return false;
        }
    }
    true
}

/// Whether variables stand in an operand, or one before it.
pub(crate) fn varies_by(scope: &Scope, before: bool, tree: &Expr) -> bool
    ensures { result ≡ (before || (part_of scope.now tree.now).varies) }
{
    before || varies(scope, tree)
}

/// Whether an operand that has variables, or has them before it, may stand behind an operator in a term.
fn may_follow(varying: bool, token: &Token) -> bool
    ensures { result ≡ (not varying || spec.multiplies token.now) }
{
    !varying || multiplies(token)
}

/// Whether a term may lie between two ends by these relations: both are `<=`, or both `>=`.
pub(crate) fn encloses(lower: Relation, upper: Relation) -> bool
    ensures { result ≡ spec.encloses lower upper }
{
    match (lower, upper) {
        (Relation::AtMost, Relation::AtMost) | (Relation::AtLeast, Relation::AtLeast) => true,
        _ => false,
    }
}

/// Whether two terms may be compared so in a constraint.
pub(crate) fn may_constrain(relation: Relation) -> bool
    ensures { result ≡ may_constrain relation }
{
    match relation {
        Relation::AtMost | Relation::EqualTo | Relation::AtLeast => true,
        _ => false,
    }
}

/// Whether a word is `prod`.
pub(crate) fn is_prod(word: Word) -> bool
    ensures { result ≡ spec.is_prod word }
{
    match word {
        Word::WProd => true,
        _ => false,
    }
}
