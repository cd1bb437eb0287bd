//! Factorials.

ghost use Rattle.std.specs.Prelude.{length};
ghost use Rattle.zim_parse_expression.specs.Outcome.{IsParsed};
ghost use Rattle.zim_parse_expression.specs.Turns.{mark_turn, repeat};

use crate::failure::Failure;
use crate::terminals::Terminal;
use crate::tokens::Tokens;
use crate::turns::repeat;
use sqlite_items::Items;
use std::alloc::Global;
use zim_fault::Place;

/// The next `!`, for its place, if one comes next.
#[tactic(auto, unfolding(crate::specs::Turns::mark_turn))]
fn next_mark(tokens: &mut Tokens<'_>) -> Result<Option<Place>, Failure>
    ensures { IsParsed (mark_turn tokens.old) result tokens.new }
{
    let Some(place) = tokens.eat(Terminal::Exclamation) else {
        return Ok(None);
    };
    Ok(Some(place))
}

/// Every `!` that comes next.
pub fn marks(alloc: Global, tokens: &mut Tokens<'_>) -> Result<Items<Place>, Failure>
    ensures { IsParsed (repeat mark_turn (length tokens.old) tokens.old) result tokens.new }
{
    repeat(alloc, tokens, tokens.len(), |left| next_mark(left))
}
