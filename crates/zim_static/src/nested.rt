//! How deep a constant nests, and the functions that it calls.
ghost use Rattle.std.specs.Prelude.{◌≡◌, ◌-◌, ◌^◌, ℕ, max, min, map, option_map};
ghost use Rattle.zim_nesting.specs.Depth.{Depth, no_nesting, a_loop, nesting_in_brackets, ◌followed_by◌, followed, all, nesting_if_given};
ghost use Rattle.zim_typed.specs.Nesting.{const_depth, const_calls, greatest, greatest_given};
ghost use Rattle.zim_typed.specs.Nesting as nesting;
ghost use Rattle.zim_static.specs.Nested.{slot_depth, slot_calls, typed_body_depth, typed_body_calls, loop_depth, loop_calls, typed_angle_depth, typed_angle_calls};
ghost use Rattle.zim_static.specs.Nested as spec;

use crate::calls::function_nesting;
use crate::scope::Scope;
use sqlite_items::Boxed;
use zim_fault::{Place, Token};
use zim_typed::{Const, Loop, LoopSlot, TAngle, TBody};

/// What a piece of a constant adds to the nesting. A count that doesn't fit is the last value that does.
#[derive(Clone, Copy, Debug)]
pub(crate) struct Nested {
    /// How many loops begin in it.
    loops: u64,
    /// Its greatest nesting, where nothing is open and no loop began before it.
    deepest: u64,
    /// The greatest full nesting of the functions that it calls, 0 where it calls none.
    called: u64,
}

impl Nested {
    /// A piece that opens nothing and calls no function.
    fn plain() -> Self
        ensures { result ≡ spec.nested no_nesting 0 }
    {
        Self {
            loops: 0,
            deepest: 0,
            called: 0,
        }
    }

    /// The word that begins a loop.
    fn a_loop() -> Self
        ensures { result ≡ spec.nested a_loop 0 }
    {
        Self {
            loops: 1,
            deepest: 1,
            called: 0,
        }
    }

    /// The piece in brackets, or between `if` and `end`.
    fn inside(self) -> Self
        ensures { (d : Depth) → (k : ℕ) → self ≡ spec.nested d k → result ≡ spec.nested (nesting_in_brackets d) k }
    {
        Self {
            loops: self.loops,
            deepest: self.deepest.saturating_add(1),
            called: self.called,
        }
    }

    /// The piece and another behind it.
    fn joined(self, next: Self) -> Self
        ensures { (d e : Depth) → (j k : ℕ) → self ≡ spec.nested d j → next ≡ spec.nested e k → result ≡ spec.nested (d followed_by e) (max j k) }
    {
        let behind = self.loops.saturating_add(next.deepest);
        Self {
            loops: self.loops.saturating_add(next.loops),
            deepest: self.deepest.max(behind),
            called: self.called.max(next.called),
        }
    }

    /// The piece as a call of a function of this full nesting.
    fn calling(self, deep: u64) -> Self
        ensures { (d : Depth) → (k : ℕ) → self ≡ spec.nested d k → result ≡ spec.nested d (max deep k) }
    {
        Self {
            loops: self.loops,
            deepest: self.deepest,
            called: deep.max(self.called),
        }
    }
}

/// How deep a constant nests, and the functions that it calls.
#[cycle(nested)]
fn nested_const(scope: &Scope, tree: &Const) -> Nested
    ensures { result ≡ spec.nested (const_depth tree.now) (const_calls scope.now tree.now) }
{
    match tree {
        Const::Number(_, _)
        | Const::Text(_, _, _)
        | Const::Truth(_, _)
        | Const::Infinity(_)
        | Const::Name(_, _, _) => Nested::plain(),
        Const::Item(_, _, items, _) => nested_all(scope, items.as_slice()).inside(),
        Const::Call(_, name, arguments, _) => nested_all(scope, arguments.as_slice())
            .inside()
            .calling(function_nesting(scope, name)),
        Const::Func(_, _, arguments) => nested_all(scope, arguments.as_slice()).inside(),
        Const::Proj(_, set, positions) => nested_const(scope, set.get())
            .joined(nested_all(scope, positions.items.as_slice()))
            .inside(),
        Const::Paren(_, inner) => nested_const(scope, inner.get()).inside(),
        Const::Braces(_, body) => nested_body(scope, body.get()).inside(),
        Const::If(_, test, branch, otherwise) => {
            let rest = nested_const(scope, branch.get()).joined(nested_const(
                scope,
                otherwise.get(),
            ));
            nested_const(scope, test.get()).joined(rest).inside()
        }
        Const::Factorial(inner, _) => nested_const(scope, inner.get()),
        Const::Signed(_, _, inner) | Const::Not(_, inner) => nested_const(scope, inner.get()),
        Const::Power(_, _, base, _, exponent) => {
            nested_const(scope, base.get()).joined(nested_const(scope, exponent.get()))
        }
        Const::Big(_, _, index, _, inner) => {
            let rest = nested_loop(scope, index.get()).joined(nested_const(scope, inner.get()));
            Nested::a_loop().joined(rest)
        }
        Const::Times(first, others) => {
            nested_operands(scope, nested_const(scope, first.get()), others.as_slice())
        }
        Const::Plus(first, others) => {
            nested_operands(scope, nested_const(scope, first.get()), others.as_slice())
        }
        Const::Compare(_, _, left, right) => {
            nested_const(scope, left.get()).joined(nested_const(scope, right.get()))
        }
        Const::Member(_, tuple, set) => nested_all(scope, tuple.items.as_slice()).joined(
            nested_const(scope, set.get()),
        ),
        Const::And(first, others) => {
            nested_conjuncts(scope, nested_const(scope, first.get()), others.as_slice())
        }
        Const::Or(first, others) => {
            nested_disjuncts(scope, nested_const(scope, first.get()), others.as_slice())
        }
    }
}

/// The same of a part, if there is one.
#[cycle(nested)]
fn nested_given(scope: &Scope, part: &Option<Boxed<Const>>) -> Nested
    ensures { result ≡ spec.nested (nesting_if_given (option_map const_depth part.now)) (greatest_given (option_map (const_calls scope.now) part.now)) }
{
    match part {
        Some(tree) => nested_const(scope, tree.get()),
        None => Nested::plain(),
    }
}

/// The same of constants one behind the other.
#[cycle(nested)]
fn nested_all(scope: &Scope, trees: &[Const]) -> Nested
    ensures { result ≡ spec.nested (all (map const_depth trees.now)) (greatest (map (const_calls scope.now) trees.now)) }
{
    let mut whole = Nested::plain();
    for tree in trees {
        whole = whole.joined(nested_const(scope, tree));
    }
    whole
}

/// The same of a piece and operands behind it.
#[cycle(nested)]
fn nested_operands(scope: &Scope, first: Nested, others: &[(Place, Token, Const)]) -> Nested
    ensures { (d : Depth) → (k : ℕ) → first ≡ spec.nested d k → result ≡ spec.nested (followed d (map (λ x. const_depth x.2) others.now)) (max k (greatest (map (λ x. const_calls scope.now x.2) others.now))) }
{
    let mut whole = first;
    for (_place, _operator, tree) in others {
        whole = whole.joined(nested_const(scope, tree));
    }
    whole
}

/// The same of a piece and operands behind `and`.
#[cycle(nested)]
fn nested_conjuncts(scope: &Scope, first: Nested, others: &[(Place, Const)]) -> Nested
    ensures { (d : Depth) → (k : ℕ) → first ≡ spec.nested d k → result ≡ spec.nested (followed d (map (λ x. const_depth x.1) others.now)) (max k (greatest (map (λ x. const_calls scope.now x.1) others.now))) }
{
    let mut whole = first;
    for (_place, tree) in others {
        whole = whole.joined(nested_const(scope, tree));
    }
    whole
}

/// The same of a piece and operands behind `or` and `xor`.
#[cycle(nested)]
fn nested_disjuncts(scope: &Scope, first: Nested, others: &[(Place, bool, Const)]) -> Nested
    ensures { (d : Depth) → (k : ℕ) → first ≡ spec.nested d k → result ≡ spec.nested (followed d (map (λ x. const_depth x.2) others.now)) (max k (greatest (map (λ x. const_calls scope.now x.2) others.now))) }
{
    let mut whole = first;
    for (_place, _xor, tree) in others {
        whole = whole.joined(nested_const(scope, tree));
    }
    whole
}

/// The same of tuples one behind the other.
#[cycle(nested)]
fn nested_tuples(scope: &Scope, tuples: &[TAngle]) -> Nested
    ensures { result ≡ spec.nested (all (map typed_angle_depth tuples.now)) (greatest (map (typed_angle_calls scope.now) tuples.now)) }
{
    let mut whole = Nested::plain();
    for tuple in tuples {
        whole = whole.joined(nested_all(scope, tuple.items.as_slice()));
    }
    whole
}

/// The same of the components of an index's tuple.
#[cycle(nested)]
fn nested_slots(scope: &Scope, slots: &[LoopSlot]) -> Nested
    ensures { result ≡ spec.nested (all (map slot_depth slots.now)) (greatest (map (slot_calls scope.now) slots.now)) }
{
    let mut whole = Nested::plain();
    for slot in slots {
        let one = match slot {
            LoopSlot::Free(_) | LoopSlot::Again(_) => Nested::plain(),
            LoopSlot::Fixed(value) => nested_const(scope, value.get()),
        };
        whole = whole.joined(one);
    }
    whole
}

/// The same of an index with its condition.
#[cycle(nested)]
fn nested_loop(scope: &Scope, index: &Loop) -> Nested
    ensures { result ≡ spec.nested (loop_depth index.now) (loop_calls scope.now index.now) }
{
    let rest = nested_const(scope, index.set.get()).joined(nested_given(scope, &index.cond));
    nested_slots(scope, index.slots.as_slice()).joined(rest)
}

/// The same of what stands in braces, without the braces.
#[cycle(nested)]
fn nested_body(scope: &Scope, body: &TBody) -> Nested
    ensures { result ≡ spec.nested (typed_body_depth body.now) (typed_body_calls scope.now body.now) }
{
    match body {
        TBody::Empty => Nested::plain(),
        TBody::Members(members) => nested_all(scope, members.as_slice()),
        TBody::Tuples(tuples) => nested_tuples(scope, tuples.as_slice()),
        TBody::Those(index) => nested_loop(scope, index.get()),
        TBody::Span(from, _, end, by) => {
            let rest = nested_const(scope, end.get()).joined(nested_given(scope, by));
            nested_const(scope, from.get()).joined(rest)
        }
    }
}

/// The full nesting of a function with this body, or the last value that fits: its parameters stand in brackets before the
/// body, and the functions count that it calls.
pub(crate) fn definition_nesting(scope: &Scope, body: &Const) -> u64
    ensures { result ≡ min (2 ^ 64 - 1) (nesting.definition_nesting scope.now body.now) }
{
    let whole = Nested::plain().inside().joined(nested_const(scope, body));
    whole.deepest.saturating_add(whole.called)
}
