ghost use Rattle.std.specs.Prelude.{map, option_map};
ghost use Rattle.zim_spelling.specs.Speller.{Spells, behind};
ghost use Rattle.zim_tree.specs.Spelling as spec;

use crate::signs::{
    put_bar_or_with, put_dots_or_to, put_exponent_sign, put_marks, put_plus_or_minus, put_relation,
    put_separator,
};
use crate::speller::Speller;
use sqlite_items::Boxed;
use zim_fault::{Place, Relation, Sign, Token, Word};
use zim_tree::{Angle, Body, Expr, Index};

/// Puts an expression's spelling at the end.
#[cycle(spell)]
pub(crate) fn spell_expr(tree: &Expr, to: &mut Speller)
    ensures { Spells to.old to.new (spec.spelling tree.now) }
{
    match tree {
        Expr::Number(_, digits) => to.put_number(digits),
        Expr::Text(_, text, double) => to.put_text(text, *double),
        Expr::Truth(_, truth) => to.put_one_word(*truth, Word::WTrue, Word::WFalse),
        Expr::Infinity(_) => to.put_word(Word::WInfinity),
        Expr::Name(_, name) => to.put_name(name),
        Expr::Item(_, name, index) => {
            to.put_name(name);
            to.put_sign(Sign::SLeftBracket);
            spell_exprs(index.as_slice(), to);
            to.put_sign(Sign::SRightBracket);
        }
        Expr::Call(_, name, given) => {
            to.put_name(name);
            to.put_sign(Sign::SLeftParen);
            spell_exprs(given.as_slice(), to);
            to.put_sign(Sign::SRightParen);
        }
        Expr::Func(_, word, given) => {
            to.put_word(*word);
            to.put_sign(Sign::SLeftParen);
            spell_exprs(given.as_slice(), to);
            to.put_sign(Sign::SRightParen);
        }
        Expr::Proj(_, set, positions) => {
            to.put_word(Word::WProj);
            to.put_sign(Sign::SLeftParen);
            spell_expr(set.get(), to);
            to.put_sign(Sign::SComma);
            spell_angle(positions, to);
            to.put_sign(Sign::SRightParen);
        }
        Expr::Paren(_, inner) => {
            to.put_sign(Sign::SLeftParen);
            spell_expr(inner.get(), to);
            to.put_sign(Sign::SRightParen);
        }
        Expr::Braces(_, body) => {
            to.put_sign(Sign::SLeftBrace);
            spell_body(body.get(), to);
            to.put_sign(Sign::SRightBrace);
        }
        Expr::If(_, vif, test, branch, otherwise) => {
            to.put_one_word(*vif, Word::WVif, Word::WIf);
            spell_expr(test.get(), to);
            to.put_word(Word::WThen);
            spell_expr(branch.get(), to);
            spell_behind(Word::WElse, otherwise, to);
            to.put_word(Word::WEnd);
        }
        Expr::Factorial(operand, places) => {
            spell_expr(operand.get(), to);
            put_marks(places.as_slice(), to);
        }
        Expr::Power(_, sign, base, signed, exponent) => {
            spell_expr(base.get(), to);
            to.put_sign(*sign);
            put_exponent_sign(signed, to);
            spell_expr(exponent.get(), to);
        }
        Expr::Signed(_, minus, operand) => {
            put_plus_or_minus(*minus, to);
            spell_expr(operand.get(), to);
        }
        Expr::Big(_, word, index, with_do, operand) => {
            to.put_word(*word);
            spell_index(index.get(), to);
            put_separator(*with_do, to);
            spell_expr(operand.get(), to);
        }
        Expr::Times(first, others) => {
            spell_expr(first.get(), to);
            spell_operations(others.as_slice(), to);
        }
        Expr::Plus(first, others) => {
            spell_expr(first.get(), to);
            spell_operations(others.as_slice(), to);
        }
        Expr::Compare(first, others) => {
            spell_expr(first.get(), to);
            spell_relations(others.as_slice(), to);
        }
        Expr::Member(_, tuple, set) => {
            spell_angle(tuple, to);
            to.put_word(Word::WIn);
            spell_expr(set.get(), to);
        }
        Expr::Not(_, operand) => {
            to.put_word(Word::WNot);
            spell_expr(operand.get(), to);
        }
        Expr::And(first, others) => {
            spell_expr(first.get(), to);
            spell_conjuncts(others.as_slice(), to);
        }
        Expr::Or(first, others) => {
            spell_expr(first.get(), to);
            spell_disjuncts(others.as_slice(), to);
        }
        Expr::Forall(_, index, with_do, body) => {
            to.put_word(Word::WForall);
            spell_index(index.get(), to);
            put_separator(*with_do, to);
            spell_expr(body.get(), to);
        }
    }
}

/// Puts a word and a part at the end, if there is one.
#[cycle(spell)]
fn spell_behind(keyword: Word, part: &Option<Boxed<Expr>>, to: &mut Speller)
    ensures { Spells to.old to.new (behind keyword (option_map spec.spelling part.now)) }
{
    if let Some(part) = part {
        to.put_word(keyword);
        spell_expr(part.get(), to);
    }
}

/// Puts the spellings at the end, with commas between them.
#[cycle(spell)]
pub(crate) fn spell_exprs(trees: &[Expr], to: &mut Speller)
    ensures { Spells to.old to.new (spec.with_commas (map spec.spelling trees.now)) }
{
    let Some((first, others)) = trees.split_first() else {
        return;
    };
    spell_expr(first, to);
    for tree in others {
        to.put_sign(Sign::SComma);
        spell_expr(tree, to);
    }
}

/// Puts each operator and the operand behind it at the end.
#[cycle(spell)]
fn spell_operations(others: &[(Place, Token, Expr)], to: &mut Speller)
    ensures { Spells to.old to.new (spec.operations_of others.now) }
{
    for (_place, token, tree) in others {
        to.put_copy(token);
        spell_expr(tree, to);
    }
}

/// Puts each relation and the operand behind it at the end.
#[cycle(spell)]
fn spell_relations(others: &[(Place, Relation, Expr)], to: &mut Speller)
    ensures { Spells to.old to.new (spec.relations_of others.now) }
{
    for (_place, relation, tree) in others {
        put_relation(*relation, to);
        spell_expr(tree, to);
    }
}

/// Puts `and` and an operand at the end, for each operand.
#[cycle(spell)]
fn spell_conjuncts(others: &[(Place, Expr)], to: &mut Speller)
    ensures { Spells to.old to.new (spec.conjuncts_of others.now) }
{
    for (_place, tree) in others {
        to.put_word(Word::WAnd);
        spell_expr(tree, to);
    }
}

/// Puts `or` or `xor` and an operand at the end, for each operand.
#[cycle(spell)]
fn spell_disjuncts(others: &[(Place, bool, Expr)], to: &mut Speller)
    ensures { Spells to.old to.new (spec.disjuncts_of others.now) }
{
    for (_place, xor, tree) in others {
        to.put_one_word(*xor, Word::WXor, Word::WOr);
        spell_expr(tree, to);
    }
}

/// Puts a tuple's spelling at the end.
#[cycle(spell)]
pub(crate) fn spell_angle(tuple: &Angle, to: &mut Speller)
    ensures { Spells to.old to.new (spec.angle_spelling tuple.now) }
{
    to.put_sign(Sign::SLess);
    spell_exprs(tuple.items.as_slice(), to);
    to.put_sign(Sign::SGreater);
}

/// Puts an index's spelling at the end.
#[cycle(spell)]
pub(crate) fn spell_index(index: &Index, to: &mut Speller)
    ensures { Spells to.old to.new (spec.index_spelling index.now) }
{
    spell_angle(&index.tuple, to);
    to.put_word(Word::WIn);
    spell_expr(index.set.get(), to);
    if let Some((bar, tree)) = &index.cond {
        put_bar_or_with(*bar, to);
        spell_expr(tree.get(), to);
    }
}

/// Puts the spelling of what stands in braces at the end.
#[cycle(spell)]
fn spell_body(body: &Body, to: &mut Speller)
    ensures { Spells to.old to.new (spec.body_spelling body.now) }
{
    match body {
        Body::Empty => {}
        Body::Members(members) => spell_exprs(members.as_slice(), to),
        Body::Tuples(tuples) => {
            if let Some((first, others)) = tuples.as_slice().split_first() {
                spell_angle(first, to);
                for tuple in others {
                    to.put_sign(Sign::SComma);
                    spell_angle(tuple, to);
                }
            }
        }
        Body::Those(index) => spell_index(index.get(), to),
        Body::Span(from, with_to, end, by) => {
            spell_expr(from.get(), to);
            put_dots_or_to(*with_to, to);
            spell_expr(end.get(), to);
            spell_behind(Word::WBy, by, to);
        }
    }
}
