//! What may stand at most once.

ghost use Rattle.std.specs.Prelude.{◌≡◌, ◌&&◌, nat_le, count_by};
ghost use Rattle.zim_fault.specs.declared.faults.Place.{Place};
ghost use Rattle.zim_fault.specs.declared.words.Word.{Word};
ghost use Rattle.zim_tree.specs.declared.expr.Expr.{Expr};
ghost use Rattle.zim_parse.specs.StatementParser as spec;
ghost use Rattle.zim_parse.specs.StatementSteps as steps;

use zim_fault::{Place, Word};
use zim_tree::{Expr, Limit};

/// Whether a word is the wanted one, of those that are options of `read`.
fn is_option(wanted: Word, word: Word) -> bool
    ensures { result ≡ steps.option_test wanted word }
{
    match wanted {
        Word::WSkip => matches!(word, Word::WSkip),
        Word::WUse => matches!(word, Word::WUse),
        Word::WComment => matches!(word, Word::WComment),
        _ => false,
    }
}

/// How many options have this word.
fn count_options(options: &[(Place, Word, Expr)], wanted: Word) -> usize
    ensures { result ≡ steps.count_options wanted options.now }
{
    let mut count: usize = 0;
    for (_place, word, _operand) in options {
        if is_option(wanted, *word) {
            count += 1;
        }
    }
    count
}

/// Whether none of three numbers is above 1.
fn at_most_one(first: usize, second: usize, third: usize) -> bool
    ensures { result ≡ (nat_le first 1 && nat_le second 1 && nat_le third 1) }
{
    first <= 1 && second <= 1 && third <= 1
}

/// Whether each option stands at most once.
pub fn each_once(options: &[(Place, Word, Expr)]) -> bool
    ensures { result ≡ spec.each_once options.now }
{
    let skips = count_options(options, Word::WSkip);
    let uses = count_options(options, Word::WUse);
    let comments = count_options(options, Word::WComment);
    at_most_one(skips, uses, comments)
}

/// Whether there is at most one bound from below and one from above.
fn one_of_each(limits: &[Limit]) -> bool
    ensures { result ≡ steps.one_of_each limits.now }
{
    let mut lower: usize = 0;
    let mut upper: usize = 0;
    for limit in limits {
        if limit.lower {
            lower += 1;
        } else {
            upper += 1;
        }
    }
    at_most_one(lower, upper, 0)
}

/// Whether the bounds are those that a variable of this kind may have: none where it is binary, and else
/// at most one from below and one from above.
pub fn limits_kept(kind: Option<Word>, limits: &[Limit]) -> bool
    ensures { result ≡ spec.limits_kept kind limits.now }
{
    match kind {
        Some(Word::WBinary) => limits.is_empty(),
        _ => one_of_each(limits),
    }
}
