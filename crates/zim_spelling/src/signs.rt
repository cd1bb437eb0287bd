ghost use Rattle.std.specs.Prelude.{◌≡◌, [], ◌∷◌, if◌then◌else◌};
ghost use Rattle.zim_spelling.specs.Speller.{Spells};
ghost use Rattle.zim_tree.specs.Spelling as spec;

use crate::speller::Speller;
use zim_fault::{Place, Relation, Sign, Token, Word};

/// The sign that spells a relation.
fn sign_of_relation(relation: Relation) -> Sign
    ensures { result ≡ spec.relation_sign relation }
{
    match relation {
        Relation::LessThan => Sign::SLess,
        Relation::AtMost => Sign::SLessEqual,
        Relation::EqualTo => Sign::SEqual,
        Relation::NotEqualTo => Sign::SNotEqual,
        Relation::AtLeast => Sign::SGreaterEqual,
        Relation::GreaterThan => Sign::SGreater,
    }
}

/// Puts the sign of a relation at the end.
pub(crate) fn put_relation(relation: Relation, to: &mut Speller)
    ensures { Spells to.old to.new (spec.a_sign (spec.relation_sign relation)) }
{
    to.put_sign(sign_of_relation(relation));
}

/// Puts `+` or `-` at the end.
pub(crate) fn put_plus_or_minus(minus: bool, to: &mut Speller)
    ensures { Spells to.old to.new (spec.sign_of minus) }
{
    to.put_one_sign(minus, Sign::SMinus, Sign::SPlus);
}

/// Puts `do` or `:` at the end.
pub(crate) fn put_separator(with_do: bool, to: &mut Speller)
    ensures { Spells to.old to.new (spec.separator with_do) }
{
    if with_do {
        to.put_word(Word::WDo);
    } else {
        to.put_sign(Sign::SColon);
    }
}

/// Puts `to` or `..` at the end.
pub(crate) fn put_dots_or_to(with_to: bool, to: &mut Speller)
    ensures { Spells to.old to.new ((if with_to then Token.Word Word.WTo else Token.Sign Sign.SDots) ∷ []) }
{
    if with_to {
        to.put_word(Word::WTo);
    } else {
        to.put_sign(Sign::SDots);
    }
}

/// Puts a bar or `with` at the end.
pub(crate) fn put_bar_or_with(bar: bool, to: &mut Speller)
    ensures { Spells to.old to.new ((if bar then Token.Sign Sign.SBar else Token.Word Word.WWith) ∷ []) }
{
    if bar {
        to.put_sign(Sign::SBar);
    } else {
        to.put_word(Word::WWith);
    }
}

/// Puts the sign of an exponent at the end, if it has one.
pub(crate) fn put_exponent_sign(signed: &Option<(Place, bool)>, to: &mut Speller)
    ensures { Spells to.old to.new (spec.exponent_sign_spelled signed.now) }
{
    if let Some((_, minus)) = signed {
        put_plus_or_minus(*minus, to);
    }
}

/// Puts a `!` at the end for each place.
pub(crate) fn put_marks(places: &[Place], to: &mut Speller)
    ensures { Spells to.old to.new (spec.marks places.now) }
{
    for _place in places {
        to.put_sign(Sign::SExclamation);
    }
}
