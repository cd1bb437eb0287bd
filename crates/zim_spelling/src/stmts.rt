ghost use Rattle.std.specs.Prelude.{◌≡◌, ◌++◌, map, IfOk};
ghost use Rattle.std.specs.List.{flat_map};
ghost use Rattle.zim_spelling.specs.Speller.{Spells};
ghost use Rattle.zim_tree.specs.Spelling as spec;
ghost use Rattle.zim_tree.specs.StatementSpelling as stmt_spec;
ghost use Rattle.zim_tree.specs.StatementSpelling.{spelled_of};

use crate::exprs::{spell_angle, spell_expr, spell_exprs, spell_index};
use crate::signs::put_separator;
use crate::speller::Speller;
use sqlite_items::Boxed;
use std::alloc::Global;
use zim_fault::{Bytes, Memory, Place, Sign, Token, Word};
use zim_tree::{
    Angle, Bracket, Doing, Expr, Limit, ParSide, Printed, Reading, SetSide, Shape, Stmt, Table,
};

/// The tokens that spell a statement, its `;` among them.
pub fn spelled(alloc: Global, stmt: &Stmt) -> Result<Vec<Token>, Memory>
    ensures { IfOk result (λ tokens. tokens.items ≡ spelled_of stmt.now) }
{
    let mut to = Speller::new(alloc);
    spell_shape(&stmt.name, stmt.shape.get(), &mut to);
    to.put_sign(Sign::SSemicolon);
    to.finish()
}

/// Puts a word and a name at the end.
fn put_declared(word: Word, name: &Bytes, to: &mut Speller)
    ensures { Spells to.old to.new (spec.a_word word ++ stmt_spec.a_name name.now) }
{
    to.put_word(word);
    to.put_name(name);
}

/// Puts the spelling of a statement of this name at the end, without its `;`.
fn spell_shape(name: &Bytes, shape: &Shape, to: &mut Speller)
    ensures { Spells to.old to.new (stmt_spec.shape_spelling name.now shape.now) }
{
    match shape {
        Shape::Set(brackets, side) => {
            put_declared(Word::WSet, name, to);
            spell_brackets(brackets, to);
            to.put_sign(Sign::SAssign);
            spell_set_side(side, to);
        }
        Shape::Param(brackets, side) => {
            put_declared(Word::WParam, name, to);
            spell_brackets(brackets, to);
            to.put_sign(Sign::SAssign);
            spell_par_side(side, to);
        }
        Shape::Var(brackets, kind, limits, priority, startval) => {
            put_declared(Word::WVar, name, to);
            spell_brackets(brackets, to);
            put_kind(kind, to);
            spell_limits(limits.as_slice(), to);
            spell_given(Word::WPriority, priority, to);
            spell_given(Word::WStartval, startval, to);
        }
        Shape::Goal(maximize, objective) => {
            to.put_one_word(*maximize, Word::WMaximize, Word::WMinimize);
            to.put_name(name);
            to.put_sign(Sign::SColon);
            spell_expr(objective.get(), to);
        }
        Shape::Subto(constraint) => {
            put_declared(Word::WSubto, name, to);
            to.put_sign(Sign::SColon);
            spell_expr(constraint.get(), to);
        }
        Shape::Define(word, parameters, body) => {
            put_declared(*word, name, to);
            to.put_sign(Sign::SLeftParen);
            spell_parameters(parameters.as_slice(), to);
            to.put_sign(Sign::SRightParen);
            to.put_sign(Sign::SAssign);
            spell_expr(body.get(), to);
        }
        Shape::Do(doing) => {
            to.put_word(Word::WDo);
            spell_doing(doing, to);
        }
    }
}

/// Puts the kind of a variable at the end, if it is written.
fn put_kind(kind: &Option<Word>, to: &mut Speller)
    ensures { Spells to.old to.new (stmt_spec.kind_spelling kind.now) }
{
    if let Some(kind) = kind {
        to.put_word(*kind);
    }
}

/// Puts the brackets of a declaration at the end, if it has any.
fn spell_brackets(brackets: &Option<Bracket>, to: &mut Speller)
    ensures { Spells to.old to.new (stmt_spec.brackets_spelling brackets.now) }
{
    if let Some(bracket) = brackets {
        spell_bracket(bracket, to);
    }
}

/// Puts the brackets of a declaration at the end.
fn spell_bracket(bracket: &Bracket, to: &mut Speller)
    ensures { Spells to.old to.new (stmt_spec.bracket_spelling bracket.now) }
{
    to.put_sign(Sign::SLeftBracket);
    match bracket {
        Bracket::Empty => {
            to.put_sign(Sign::SRightBracket);
        }
        Bracket::Loop(index) => {
            spell_index(index.get(), to);
            to.put_sign(Sign::SRightBracket);
        }
        Bracket::Over(set) => {
            spell_expr(set.get(), to);
            to.put_sign(Sign::SRightBracket);
        }
    }
}

/// Puts a word and its operand at the end, if there is one.
fn spell_given(word: Word, given: &Option<(Place, Boxed<Expr>)>, to: &mut Speller)
    ensures { Spells to.old to.new (stmt_spec.given_spelling word given.now) }
{
    if let Some((_, operand)) = given {
        to.put_word(word);
        spell_expr(operand.get(), to);
    }
}

/// Puts the right side of a set at the end.
fn spell_set_side(side: &SetSide, to: &mut Speller)
    ensures { Spells to.old to.new (stmt_spec.set_side_spelling side.now) }
{
    match side {
        SetSide::Value(value) => spell_expr(value.get(), to),
        SetSide::Read(reading) => {
            to.put_sign(Sign::SLeftBrace);
            spell_reading(reading, to);
            to.put_sign(Sign::SRightBrace);
        }
        SetSide::Entries(entries) => spell_entries(entries.as_slice(), to),
    }
}

/// Puts the right side of a parameter at the end.
fn spell_par_side(side: &ParSide, to: &mut Speller)
    ensures { Spells to.old to.new (stmt_spec.par_side_spelling side.now) }
{
    match side {
        ParSide::Value(value) => spell_expr(value.get(), to),
        ParSide::Read(reading, default) => {
            spell_reading(reading, to);
            spell_given(Word::WDefault, default, to);
        }
        ParSide::Entries(entries, default) => {
            spell_entries(entries.as_slice(), to);
            spell_given(Word::WDefault, default, to);
        }
        ParSide::Table(table, default) => {
            spell_table(table, to);
            spell_given(Word::WDefault, default, to);
        }
        ParSide::Default(_, default) => {
            to.put_word(Word::WDefault);
            spell_expr(default.get(), to);
        }
    }
}

/// Puts the spelling of an entry at the end.
fn spell_entry(entry: &(Angle, Expr), to: &mut Speller)
    ensures { Spells to.old to.new (stmt_spec.entry_spelling entry.now) }
{
    spell_angle(&entry.0, to);
    spell_expr(&entry.1, to);
}

/// Puts the spellings of entries at the end, with commas between them.
fn spell_entries(entries: &[(Angle, Expr)], to: &mut Speller)
    ensures { Spells to.old to.new (stmt_spec.entries_spelling entries.now) }
{
    let Some((first, others)) = entries.split_first() else {
        return;
    };
    spell_entry(first, to);
    for entry in others {
        to.put_sign(Sign::SComma);
        spell_entry(entry, to);
    }
}

/// Puts the spellings of expressions at the end, between bars.
fn spell_barred(items: &[Expr], to: &mut Speller)
    ensures { Spells to.old to.new (stmt_spec.barred items.now) }
{
    to.put_sign(Sign::SBar);
    spell_exprs(items, to);
    to.put_sign(Sign::SBar);
}

/// Puts a table at the end.
fn spell_table(table: &Table, to: &mut Speller)
    ensures { Spells to.old to.new (stmt_spec.table_spelling table.now) }
{
    spell_barred(table.head.as_slice(), to);
    let rows = table.rows.as_slice();
    for (items, values) in rows {
        spell_barred(items.as_slice(), to);
        spell_exprs(values.as_slice(), to);
        to.put_sign(Sign::SBar);
    }
}

/// Puts the spellings of bounds at the end.
fn spell_limits(limits: &[Limit], to: &mut Speller)
    ensures { Spells to.old to.new (flat_map stmt_spec.limit_spelling limits.now) }
{
    for limit in limits {
        to.put_one_sign(limit.lower, Sign::SGreaterEqual, Sign::SLessEqual);
        spell_expr(limit.side.get(), to);
    }
}

/// Puts the names of parameters at the end, with commas between them.
fn spell_parameters(parameters: &[(Place, Bytes)], to: &mut Speller)
    ensures { Spells to.old to.new (spec.with_commas (map stmt_spec.parameter_spelling parameters.now)) }
{
    let Some(((_, first), others)) = parameters.split_first() else {
        return;
    };
    to.put_name(first);
    for (_place, name) in others {
        to.put_sign(Sign::SComma);
        to.put_name(name);
    }
}

/// Puts a `read` with its options at the end.
fn spell_reading(reading: &Reading, to: &mut Speller)
    ensures { Spells to.old to.new (stmt_spec.reading_spelling reading.now) }
{
    to.put_word(Word::WRead);
    spell_expr(reading.file.get(), to);
    to.put_word(Word::WAs);
    spell_expr(reading.template.get(), to);
    spell_options(reading.options.as_slice(), to);
}

/// Puts the options of a `read` at the end.
fn spell_options(options: &[(Place, Word, Expr)], to: &mut Speller)
    ensures { Spells to.old to.new (flat_map stmt_spec.option_spelling options.now) }
{
    for (_place, word, operand) in options {
        to.put_word(*word);
        spell_expr(operand, to);
    }
}

/// Puts what a `do` does at the end.
fn spell_doing(doing: &Doing, to: &mut Speller)
    ensures { Spells to.old to.new (stmt_spec.doing_spelling doing.now) }
{
    match doing {
        Doing::Print(_, items) => {
            to.put_word(Word::WPrint);
            spell_all_printed(items.as_slice(), to);
        }
        Doing::Check(_, test) => {
            to.put_word(Word::WCheck);
            spell_expr(test.get(), to);
        }
        Doing::Forall(_, index, with_do, body) => {
            to.put_word(Word::WForall);
            spell_index(index.get(), to);
            put_separator(*with_do, to);
            spell_doing(body.get(), to);
        }
    }
}

/// Puts what a `print` prints at the end.
fn spell_printed(item: &Printed, to: &mut Speller)
    ensures { Spells to.old to.new (stmt_spec.printed_spelling item.now) }
{
    match item {
        Printed::Value(value) => spell_expr(value.get(), to),
        Printed::Tuple(tuple) => spell_angle(tuple, to),
    }
}

/// Puts the spellings of what a `print` prints at the end, with commas between them.
fn spell_all_printed(items: &[Printed], to: &mut Speller)
    ensures { Spells to.old to.new (spec.with_commas (map stmt_spec.printed_spelling items.now)) }
{
    let Some((first, others)) = items.split_first() else {
        return;
    };
    spell_printed(first, to);
    for item in others {
        to.put_sign(Sign::SComma);
        spell_printed(item, to);
    }
}
