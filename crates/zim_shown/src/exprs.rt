//! Expressions as text: each node that has operators or words between its parts in round brackets, so that
//! `a + b * c` is shown as `(a + (b * c))`; parentheses of the text as `paren(a)`.

use crate::shown::Shown;
use zim_fault::{Place, Relation, Token, sign_text, word_text};
use zim_tree::{Angle, Body, Expr, Index};

/// The sign of a relation.
fn relation_text(relation: Relation) -> &'static [u8] {
    match relation {
        Relation::LessThan => b"<",
        Relation::AtMost => b"<=",
        Relation::EqualTo => b"==",
        Relation::NotEqualTo => b"!=",
        Relation::AtLeast => b">=",
        Relation::GreaterThan => b">",
    }
}

/// Puts an operator between blanks at the end.
fn show_operator(text: &[u8], place: Place, to: &mut Shown) {
    to.put(b" ");
    to.put_at(text, place);
    to.put(b" ");
}

/// Puts an operator that is a token between blanks at the end.
fn show_token(token: &Token, place: Place, to: &mut Shown) {
    match token {
        Token::Sign(sign) => show_operator(sign_text(*sign), place, to),
        Token::Word(word) => show_operator(word_text(*word), place, to),
        _ => to.put(b" ? "),
    }
}

/// Puts `do` or `:` between blanks at the end.
pub(crate) fn show_separator(with_do: bool, to: &mut Shown) {
    to.put_one(with_do, b" : ", b" do ");
}

/// Puts each mark of a factorial at the end.
fn show_marks(places: &[Place], to: &mut Shown) {
    for place in places {
        to.put_at(b" !", *place);
    }
}

/// Puts the sign of an exponent at the end, if it has one.
fn show_exponent_sign(signed: &Option<(Place, bool)>, to: &mut Shown) {
    match signed {
        None => {}
        Some((place, minus)) => {
            to.put_one(*minus, b"+", b"-");
            to.put_place(*place);
            to.put(b" ");
        }
    }
}

/// Whether a node is shown in round brackets.
fn is_bracketed(tree: &Expr) -> bool {
    matches!(
        tree,
        Expr::If(_, _, _, _, _)
            | Expr::Factorial(_, _)
            | Expr::Power(_, _, _, _, _)
            | Expr::Signed(_, _, _)
            | Expr::Big(_, _, _, _, _)
            | Expr::Times(_, _)
            | Expr::Plus(_, _)
            | Expr::Compare(_, _)
            | Expr::Member(_, _, _)
            | Expr::Not(_, _)
            | Expr::And(_, _)
            | Expr::Or(_, _)
            | Expr::Forall(_, _, _, _)
    )
}

/// Puts a bracket at the end, where the node is shown in round brackets.
fn put_bracket(tree: &Expr, bracket: &[u8], to: &mut Shown) {
    if is_bracketed(tree) {
        to.put(bracket);
    }
}

/// Puts an expression at the end.
#[cycle(show)]
pub(crate) fn show(tree: &Expr, to: &mut Shown) {
    put_bracket(tree, b"(", to);
    match tree {
        Expr::Number(place, digits) => to.put_at(digits.as_slice(), *place),
        Expr::Text(place, text, double) => {
            to.put_one(*double, b"'", b"\"");
            to.put(text.as_slice());
            to.put_one(*double, b"'", b"\"");
            to.put_place(*place);
        }
        Expr::Truth(place, truth) => {
            to.put_one(*truth, b"false", b"true");
            to.put_place(*place);
        }
        Expr::Infinity(place) => to.put_at(b"infinity", *place),
        Expr::Name(place, name) => to.put_at(name.as_slice(), *place),
        Expr::Item(place, name, index) => {
            to.put_at(name.as_slice(), *place);
            to.put(b"[");
            show_list(index.as_slice(), to);
            to.put(b"]");
        }
        Expr::Call(place, name, given) => {
            to.put_at(name.as_slice(), *place);
            to.put(b"(");
            show_list(given.as_slice(), to);
            to.put(b")");
        }
        Expr::Func(place, word, given) => {
            to.put_at(word_text(*word), *place);
            to.put(b"(");
            show_list(given.as_slice(), to);
            to.put(b")");
        }
        Expr::Proj(place, set, positions) => {
            to.put_at(b"proj", *place);
            to.put(b"(");
            show(set.get(), to);
            to.put(b" ");
            show_tuple(positions, to);
            to.put(b")");
        }
        Expr::Paren(place, inner) => {
            to.put_at(b"paren", *place);
            to.put(b"(");
            show(inner.get(), to);
            to.put(b")");
        }
        Expr::Braces(place, body) => {
            to.put(b"{");
            show_body(body.get(), to);
            to.put_at(b"}", *place);
        }
        Expr::If(place, vif, test, branch, otherwise) => {
            to.put_one(*vif, b"if", b"vif");
            to.put_place(*place);
            to.put(b" ");
            show(test.get(), to);
            to.put(b" then ");
            show(branch.get(), to);
            if let Some(otherwise) = otherwise {
                to.put(b" else ");
                show(otherwise.get(), to);
            }
        }
        Expr::Factorial(operand, marks) => {
            show(operand.get(), to);
            show_marks(marks.as_slice(), to);
        }
        Expr::Power(place, sign, base, signed, exponent) => {
            show(base.get(), to);
            show_operator(sign_text(*sign), *place, to);
            show_exponent_sign(signed, to);
            show(exponent.get(), to);
        }
        Expr::Signed(place, minus, operand) => {
            to.put_one(*minus, b"+", b"-");
            to.put_place(*place);
            to.put(b" ");
            show(operand.get(), to);
        }
        Expr::Big(place, word, index, with_do, operand) => {
            to.put_at(word_text(*word), *place);
            to.put(b" ");
            show_index(index.get(), to);
            show_separator(*with_do, to);
            show(operand.get(), to);
        }
        Expr::Times(first, others) => {
            show(first.get(), to);
            show_operations(others.as_slice(), to);
        }
        Expr::Plus(first, others) => {
            show(first.get(), to);
            show_operations(others.as_slice(), to);
        }
        Expr::Compare(first, others) => {
            show(first.get(), to);
            show_relations(others.as_slice(), to);
        }
        Expr::Member(place, tuple, set) => {
            show_tuple(tuple, to);
            show_operator(b"in", *place, to);
            show(set.get(), to);
        }
        Expr::Not(place, operand) => {
            to.put_at(b"not", *place);
            to.put(b" ");
            show(operand.get(), to);
        }
        Expr::And(first, others) => {
            show(first.get(), to);
            show_conjuncts(others.as_slice(), to);
        }
        Expr::Or(first, others) => {
            show(first.get(), to);
            show_disjuncts(others.as_slice(), to);
        }
        Expr::Forall(place, index, with_do, inside) => {
            to.put_at(b"forall", *place);
            to.put(b" ");
            show_index(index.get(), to);
            show_separator(*with_do, to);
            show(inside.get(), to);
        }
    }
    put_bracket(tree, b")", to);
}

/// Puts operators like `+` and `*` with their operands at the end.
#[cycle(show)]
fn show_operations(others: &[(Place, Token, Expr)], to: &mut Shown) {
    for (place, token, operand) in others {
        show_token(token, *place, to);
        show(operand, to);
    }
}

/// Puts relations with their operands at the end.
#[cycle(show)]
fn show_relations(others: &[(Place, Relation, Expr)], to: &mut Shown) {
    for (place, relation, operand) in others {
        show_operator(relation_text(*relation), *place, to);
        show(operand, to);
    }
}

/// Puts each `and` with its operand at the end.
#[cycle(show)]
fn show_conjuncts(others: &[(Place, Expr)], to: &mut Shown) {
    for (place, operand) in others {
        show_operator(b"and", *place, to);
        show(operand, to);
    }
}

/// Puts each `or` and `xor` with its operand at the end.
#[cycle(show)]
fn show_disjuncts(others: &[(Place, bool, Expr)], to: &mut Shown) {
    for (place, xor, operand) in others {
        to.put_one(*xor, b" or", b" xor");
        to.put_place(*place);
        to.put(b" ");
        show(operand, to);
    }
}

/// Puts expressions with blanks between them at the end.
#[cycle(show)]
pub(crate) fn show_list(trees: &[Expr], to: &mut Shown) {
    let Some((first, others)) = trees.split_first() else {
        return;
    };
    show(first, to);
    for tree in others {
        to.put(b" ");
        show(tree, to);
    }
}

/// Puts a tuple at the end.
#[cycle(show)]
pub(crate) fn show_tuple(tuple: &Angle, to: &mut Shown) {
    to.put(b"<");
    show_list(tuple.items.as_slice(), to);
    to.put_at(b">", tuple.place);
}

/// Puts tuples with blanks between them at the end.
#[cycle(show)]
fn show_tuples(tuples: &[Angle], to: &mut Shown) {
    let Some((first, others)) = tuples.split_first() else {
        return;
    };
    show_tuple(first, to);
    for tuple in others {
        to.put(b" ");
        show_tuple(tuple, to);
    }
}

/// Puts an index at the end.
#[cycle(show)]
pub(crate) fn show_index(index: &Index, to: &mut Shown) {
    show_tuple(&index.tuple, to);
    show_operator(b"in", index.place, to);
    show(index.set.get(), to);
    match &index.cond {
        None => {}
        Some((bar, test)) => {
            to.put_one(*bar, b" with ", b" | ");
            show(test.get(), to);
        }
    }
}

/// Puts what stands in braces at the end.
#[cycle(show)]
fn show_body(body: &Body, to: &mut Shown) {
    match body {
        Body::Empty => {}
        Body::Members(members) => show_list(members.as_slice(), to),
        Body::Tuples(tuples) => show_tuples(tuples.as_slice(), to),
        Body::Those(index) => show_index(index.get(), to),
        Body::Span(from, with_to, end, by) => {
            show(from.get(), to);
            to.put_one(*with_to, b" .. ", b" to ");
            show(end.get(), to);
            match by {
                None => {}
                Some(by) => {
                    to.put(b" by ");
                    show(by.get(), to);
                }
            }
        }
    }
}
