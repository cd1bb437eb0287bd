//! How deep tokens nest.

ghost use Rattle.std.specs.Prelude.{◌≡◌, ◌<◌};
ghost use Rattle.zim_scan.specs.Nesting as spec;

use zim_fault::{Place, Placed};
use zim_tree::{Class, class_of};

/// Whether a `(` comes next.
pub fn begins_paren(tokens: &[Placed]) -> bool
    ensures { result ≡ spec.begins_paren tokens.now }
{
    match tokens {
        [] => false,
        [first, ..] => matches!(class_of(&first.token), Class::LeftParen),
    }
}

/// How many brackets, `if` and `vif` are open behind a token of this class.
fn open_behind(class: Class, opened: usize) -> usize
    requires { opened < 201 }
    ensures { result ≡ spec.open_behind class opened }
{
    match class {
        Class::LeftParen | Class::LeftBracket | Class::LeftBrace | Class::IfOrVif => opened + 1,
        Class::RightParen | Class::RightBracket | Class::RightBrace | Class::End => {
            opened.saturating_sub(1)
        }
        _ => opened,
    }
}

/// How many loops began up to a token of this class, which these tokens follow.
fn loops_behind(class: Class, rest: &[Placed], loops: usize) -> usize
    requires { loops < 201 }
    ensures { result ≡ spec.loops_behind class rest.now loops }
{
    match class {
        Class::Forall | Class::Loop => loops + 1,
        Class::MinOrMax if !begins_paren(rest) => loops + 1,
        _ => loops,
    }
}

/// How deep a statement may nest.
const DEEPEST: usize = 200;

/// The first token behind which nesting passes 200.
///
/// Nesting is the number of open `(`, `[`, `{`, `if` and `vif`, a closing `)`, `]`, `}` or `end` taking one off but never
/// below 0, and of the loops that have begun: `forall`, `sum`, `prod`, `argmin`, `argmax`, and `min` and `max` where no `(`
/// follows. A loop counts to the end of the tokens.
#[tactic(auto, unfolding(crate::specs::Nesting::first_deep))]
pub fn first_deep(tokens: &[Placed]) -> Option<Place>
    ensures { result ≡ spec.first_deep 0 0 tokens.now }
{
    let mut opened = 0;
    let mut loops = 0;
    let mut rest = tokens;
    while let [first, behind @ ..] = rest {
        let class = class_of(&first.token);
        opened = open_behind(class, opened);
        loops = loops_behind(class, behind, loops);
        if opened + loops > DEEPEST {
            return Some(first.place);
        }
        rest = behind;
    }
    None
}
