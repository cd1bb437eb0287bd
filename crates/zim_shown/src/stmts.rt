//! Statements as text: what they are written as, without their commas and `;`, with each expression as a
//! tree; and faults.

use crate::exprs::{show, show_index, show_list, show_separator, show_tuple};
use crate::shown::Shown;
use sqlite_items::Boxed;
use zim_fault::{Bytes, Fault, Kind, Place, text_of_kind, word_text};
use zim_tree::{
    Angle, Bracket, Doing, Expr, Limit, ParSide, Printed, Reading, SetSide, Shape, Stmt, Table,
};

/// Puts a fault at the end: its kind, the refused word of an `Unsupported`, and its line behind `@`.
pub fn show_fault(fault: &Fault, to: &mut Shown) {
    to.put(text_of_kind(fault.kind));
    if let Kind::Unsupported(word) = fault.kind {
        to.put(b" ");
        to.put(word_text(word));
    }
    to.put_place(fault.place);
}

/// Puts a statement at the end.
pub fn show_stmt(stmt: &Stmt, to: &mut Shown) {
    to.put_at(word_of_shape(stmt.shape.get()), stmt.first);
    if !stmt.name.is_empty() {
        to.put(b" ");
        to.put(stmt.name.as_slice());
    }
    to.put_place(stmt.at);
    match stmt.shape.get() {
        Shape::Set(bracket, side) => {
            show_brackets(bracket, to);
            show_set_side(side, to);
        }
        Shape::Param(bracket, side) => {
            show_brackets(bracket, to);
            show_par_side(side, to);
        }
        Shape::Var(bracket, kind, limits, priority, startval) => {
            show_brackets(bracket, to);
            if let Some(kind) = kind {
                to.put(b" ");
                to.put(word_text(*kind));
            }
            show_limits(limits.as_slice(), to);
            show_option(b" priority", priority, to);
            show_option(b" startval", startval, to);
        }
        Shape::Goal(_, objective) => {
            to.put(b" : ");
            show(objective.get(), to);
        }
        Shape::Subto(constraint) => {
            to.put(b" : ");
            show(constraint.get(), to);
        }
        Shape::Define(_, parameters, inside) => {
            show_parameters(parameters.as_slice(), to);
            to.put(b" := ");
            show(inside.get(), to);
        }
        Shape::Do(doing) => show_doing(doing, to),
    }
}

/// The word that a statement begins with.
fn word_of_shape(shape: &Shape) -> &'static [u8] {
    match shape {
        Shape::Set(_, _) => b"set",
        Shape::Param(_, _) => b"param",
        Shape::Var(_, _, _, _, _) => b"var",
        Shape::Goal(false, _) => b"minimize",
        Shape::Goal(true, _) => b"maximize",
        Shape::Subto(_) => b"subto",
        Shape::Define(word, _, _) => word_text(*word),
        Shape::Do(_) => b"do",
    }
}

/// Puts the brackets behind a name at the end, if there are any.
fn show_brackets(bracket: &Option<Bracket>, to: &mut Shown) {
    match bracket {
        None => {}
        Some(Bracket::Empty) => to.put(b"[]"),
        Some(Bracket::Loop(index)) => {
            to.put(b"[");
            show_index(index.get(), to);
            to.put(b"]");
        }
        Some(Bracket::Over(set)) => {
            to.put(b"[");
            show(set.get(), to);
            to.put(b"]");
        }
    }
}

/// Puts the right side of a set at the end.
fn show_set_side(side: &SetSide, to: &mut Shown) {
    to.put(b" :=");
    match side {
        SetSide::Value(value) => {
            to.put(b" ");
            show(value.get(), to);
        }
        SetSide::Read(reading) => show_reading(reading, to),
        SetSide::Entries(entries) => show_entries(entries.as_slice(), to),
    }
}

/// Puts the right side of a parameter at the end.
fn show_par_side(side: &ParSide, to: &mut Shown) {
    to.put(b" :=");
    match side {
        ParSide::Value(value) => {
            to.put(b" ");
            show(value.get(), to);
        }
        ParSide::Read(reading, default) => {
            show_reading(reading, to);
            show_option(b" default", default, to);
        }
        ParSide::Entries(entries, default) => {
            show_entries(entries.as_slice(), to);
            show_option(b" default", default, to);
        }
        ParSide::Table(table, default) => {
            show_table(table, to);
            show_option(b" default", default, to);
        }
        ParSide::Default(place, value) => {
            to.put_at(b" default", *place);
            to.put(b" ");
            show(value.get(), to);
        }
    }
}

/// Puts a `read` at the end.
fn show_reading(reading: &Reading, to: &mut Shown) {
    to.put(b" read ");
    show(reading.file.get(), to);
    to.put_at(b" as", reading.place);
    to.put(b" ");
    show(reading.template.get(), to);
    for (place, word, operand) in reading.options.as_slice() {
        to.put(b" ");
        to.put_at(word_text(*word), *place);
        to.put(b" ");
        show(operand, to);
    }
}

/// Puts entries at the end.
fn show_entries(entries: &[(Angle, Expr)], to: &mut Shown) {
    for (tuple, given) in entries {
        to.put(b" ");
        show_tuple(tuple, to);
        to.put(b" ");
        show(given, to);
    }
}

/// Puts a table at the end: the head and a row to each two bars.
fn show_table(table: &Table, to: &mut Shown) {
    to.put(b" | ");
    show_list(table.head.as_slice(), to);
    to.put(b" |");
    for (items, values) in table.rows.as_slice() {
        to.put(b" ");
        show_list(items.as_slice(), to);
        to.put(b" | ");
        show_list(values.as_slice(), to);
        to.put(b" |");
    }
}

/// Puts bounds at the end.
fn show_limits(limits: &[Limit], to: &mut Shown) {
    for limit in limits {
        to.put_one(limit.lower, b" <=", b" >=");
        to.put_place(limit.place);
        to.put(b" ");
        show(limit.side.get(), to);
    }
}

/// Puts a word and its operand at the end, if they are there.
fn show_option(word: &[u8], option: &Option<(Place, Boxed<Expr>)>, to: &mut Shown) {
    match option {
        None => {}
        Some((place, operand)) => {
            to.put_at(word, *place);
            to.put(b" ");
            show(operand.get(), to);
        }
    }
}

/// Puts the parameters of a function at the end.
fn show_parameters(parameters: &[(Place, Bytes)], to: &mut Shown) {
    to.put(b"(");
    for (place, name) in parameters {
        to.put(b" ");
        to.put_at(name.as_slice(), *place);
    }
    to.put(b" )");
}

/// Puts what a `do` does at the end.
fn show_doing(doing: &Doing, to: &mut Shown) {
    match doing {
        Doing::Print(place, items) => {
            to.put_at(b" print", *place);
            show_printed(items.as_slice(), to);
        }
        Doing::Check(place, test) => {
            to.put_at(b" check", *place);
            to.put(b" ");
            show(test.get(), to);
        }
        Doing::Forall(place, index, with_do, inside) => {
            to.put_at(b" forall", *place);
            to.put(b" ");
            show_index(index.get(), to);
            to.put_one(*with_do, b" :", b" do");
            show_doing(inside.get(), to);
        }
    }
}

/// Puts what is printed at the end.
fn show_printed(items: &[Printed], to: &mut Shown) {
    for item in items {
        to.put(b" ");
        match item {
            Printed::Value(value) => show(value.get(), to),
            Printed::Tuple(tuple) => show_tuple(tuple, to),
        }
    }
}
