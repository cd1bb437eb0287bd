ghost use Rattle.std.specs.Prelude.{◌≡◌, map, option_map};
ghost use Rattle.zim_nesting.specs.Counts.{counts_of};
ghost use Rattle.zim_nesting.specs.Depth as spec;
ghost use Rattle.zim_nesting.specs.Depth.{Depth};

use crate::counts::Counts;
use sqlite_items::Boxed;
use zim_fault::{Place, Relation, Token};
use zim_tree::{Angle, Body, Expr, Index};

/// How deep an expression nests.
#[cycle(depth)]
pub(crate) fn depth_of_expr(tree: &Expr) -> Counts
    ensures { result ≡ counts_of (spec.depth tree.now) }
{
    match tree {
        Expr::Number(_, _)
        | Expr::Text(_, _, _)
        | Expr::Truth(_, _)
        | Expr::Infinity(_)
        | Expr::Name(_, _) => Counts::plain(),
        Expr::Item(_, _, given) | Expr::Call(_, _, given) => depth_of_exprs(
            given.as_slice(),
        ).inside(),
        Expr::Func(_, _, given) => depth_of_exprs(given.as_slice()).inside(),
        Expr::Proj(_, set, positions) => {
            depth_of_expr(set.get())
                .then(depth_of_angle(positions))
                .inside()
        }
        Expr::Paren(_, inner) => depth_of_expr(inner.get()).inside(),
        Expr::Braces(_, body) => depth_of_body(body.get()).inside(),
        Expr::If(_, _, test, branch, otherwise) => {
            let branches = depth_of_expr(branch.get()).then(depth_of_given(otherwise));
            depth_of_expr(test.get()).then(branches).inside()
        }
        Expr::Factorial(operand, _) => depth_of_expr(operand.get()),
        Expr::Power(_, _, base, _, exponent) => {
            depth_of_expr(base.get()).then(depth_of_expr(exponent.get()))
        }
        Expr::Signed(_, _, operand) => depth_of_expr(operand.get()),
        Expr::Big(_, _, index, _, operand) => {
            let rest = depth_of_index(index.get()).then(depth_of_expr(operand.get()));
            Counts::a_loop().then(rest)
        }
        Expr::Times(first, others) => {
            depth_of_operations(depth_of_expr(first.get()), others.as_slice())
        }
        Expr::Plus(first, others) => {
            depth_of_operations(depth_of_expr(first.get()), others.as_slice())
        }
        Expr::Compare(first, others) => {
            depth_of_relations(depth_of_expr(first.get()), others.as_slice())
        }
        Expr::Member(_, tuple, set) => depth_of_angle(tuple).then(depth_of_expr(set.get())),
        Expr::Not(_, operand) => depth_of_expr(operand.get()),
        Expr::And(first, others) => {
            depth_of_conjuncts(depth_of_expr(first.get()), others.as_slice())
        }
        Expr::Or(first, others) => {
            depth_of_disjuncts(depth_of_expr(first.get()), others.as_slice())
        }
        Expr::Forall(_, index, _, body) => {
            let rest = depth_of_index(index.get()).then(depth_of_expr(body.get()));
            Counts::a_loop().then(rest)
        }
    }
}

/// How deep a part nests, if there is one.
#[cycle(depth)]
fn depth_of_given(part: &Option<Boxed<Expr>>) -> Counts
    ensures { result ≡ counts_of (spec.nesting_if_given (option_map spec.depth part.now)) }
{
    match part {
        Some(tree) => depth_of_expr(tree.get()),
        None => Counts::plain(),
    }
}

/// How deep expressions nest that stand one behind the other.
#[cycle(depth)]
pub(crate) fn depth_of_exprs(trees: &[Expr]) -> Counts
    ensures { result ≡ counts_of (spec.all (map spec.depth trees.now)) }
{
    let mut counts = Counts::plain();
    for tree in trees {
        counts = counts.then(depth_of_expr(tree));
    }
    counts
}

/// How deep tuples nest that stand one behind the other.
#[cycle(depth)]
fn depth_of_angles(trees: &[Angle]) -> Counts
    ensures { result ≡ counts_of (spec.all (map spec.angle_depth trees.now)) }
{
    let mut counts = Counts::plain();
    for tree in trees {
        counts = counts.then(depth_of_angle(tree));
    }
    counts
}

/// How deep a piece nests with the operands behind operators.
#[cycle(depth)]
fn depth_of_operations(first: Counts, others: &[(Place, Token, Expr)]) -> Counts
    ensures { (d : Depth) → first ≡ counts_of d → result ≡ counts_of (spec.operations_depth d others.now) }
{
    let mut counts = first;
    for (_place, _token, tree) in others {
        counts = counts.then(depth_of_expr(tree));
    }
    counts
}

/// How deep a piece nests with the operands behind relations.
#[cycle(depth)]
fn depth_of_relations(first: Counts, others: &[(Place, Relation, Expr)]) -> Counts
    ensures { (d : Depth) → first ≡ counts_of d → result ≡ counts_of (spec.relations_depth d others.now) }
{
    let mut counts = first;
    for (_place, _relation, tree) in others {
        counts = counts.then(depth_of_expr(tree));
    }
    counts
}

/// How deep a piece nests with the operands behind `and`.
#[cycle(depth)]
fn depth_of_conjuncts(first: Counts, others: &[(Place, Expr)]) -> Counts
    ensures { (d : Depth) → first ≡ counts_of d → result ≡ counts_of (spec.conjuncts_depth d others.now) }
{
    let mut counts = first;
    for (_place, tree) in others {
        counts = counts.then(depth_of_expr(tree));
    }
    counts
}

/// How deep a piece nests with the operands behind `or` and `xor`.
#[cycle(depth)]
fn depth_of_disjuncts(first: Counts, others: &[(Place, bool, Expr)]) -> Counts
    ensures { (d : Depth) → first ≡ counts_of d → result ≡ counts_of (spec.disjuncts_depth d others.now) }
{
    let mut counts = first;
    for (_place, _xor, tree) in others {
        counts = counts.then(depth_of_expr(tree));
    }
    counts
}

/// How deep a tuple nests.
#[cycle(depth)]
pub(crate) fn depth_of_angle(tuple: &Angle) -> Counts
    ensures { result ≡ counts_of (spec.angle_depth tuple.now) }
{
    depth_of_exprs(tuple.items.as_slice())
}

/// How deep an index nests, with its condition.
#[cycle(depth)]
pub(crate) fn depth_of_index(index: &Index) -> Counts
    ensures { result ≡ counts_of (spec.index_depth index.now) }
{
    let rest = depth_of_expr(index.set.get()).then(depth_of_condition(&index.cond));
    depth_of_angle(&index.tuple).then(rest)
}

/// How deep the condition of an index nests, if there is one.
#[cycle(depth)]
fn depth_of_condition(condition: &Option<(bool, Boxed<Expr>)>) -> Counts
    ensures { result ≡ counts_of (spec.condition_depth condition.now) }
{
    match condition {
        Some((_, tree)) => depth_of_expr(tree.get()),
        None => Counts::plain(),
    }
}

/// How deep what stands in braces nests.
#[cycle(depth)]
fn depth_of_body(body: &Body) -> Counts
    ensures { result ≡ counts_of (spec.body_depth body.now) }
{
    match body {
        Body::Empty => Counts::plain(),
        Body::Members(members) => depth_of_exprs(members.as_slice()),
        Body::Tuples(tuples) => depth_of_angles(tuples.as_slice()),
        Body::Those(index) => depth_of_index(index.get()),
        Body::Span(from, _, end, by) => {
            let rest = depth_of_expr(end.get()).then(depth_of_given(by));
            depth_of_expr(from.get()).then(rest)
        }
    }
}
