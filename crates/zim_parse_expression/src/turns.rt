//! Lists, each of any items.

ghost use Rattle.std.specs.Prelude.{◌≡◌, [], ◌∷◌, ◌++◌, length, OnOk};
ghost use Rattle.zim_parse_expression.specs.Outcome.{IsParsed, IsParser, IsTurn};
ghost use Rattle.zim_parse_expression.specs.Parser as spec;
ghost use Rattle.zim_parse_expression.specs.Parser.{Parser};
ghost use Rattle.zim_parse_expression.specs.Turns.{Turn, repeat};

use crate::failure::Failure;
use crate::terminals::Terminal;
use crate::tokens::Tokens;
use sqlite_items::Items;
use std::alloc::{AllocError, Global};

/// Adds an item at the end. Most lists have one item, so the first takes room for itself alone.
pub(crate) fn add<A: Drop>(alloc: Global, items: &mut Items<A>, item: A) -> Result<(), AllocError>
    ensures { OnOk result (items.new ≡ items.old ++ item ∷ []) }
{
    if items.is_empty() {
        let mut first = Vec::with_capacity(alloc, 1)?;
        first.push(item)?;
        *items = Items::from_vec(first);
        return Ok(());
    }
    items.push(item)
}

/// The items that at most so many turns read, up to one that finds none.
pub fn repeat<A: Drop, T: Fn(&mut Tokens<'_>) -> Result<Option<A>, Failure>>(
    alloc: Global,
    tokens: &mut Tokens<'_>,
    turns: usize,
    turn: T,
) -> Result<Items<A>, Failure>
    requires { T.IsAlwaysCallable turn }
    ensures { (of : Turn A) → IsTurn of (T.post turn) → IsParsed (repeat of turns tokens.old) result tokens.new }
{
    let mut items = Items::new(alloc);
    for _turn in 0..turns {
        match turn(tokens)? {
            None => return Ok(items),
            Some(item) => add(alloc, &mut items, item)?,
        }
    }
    Ok(items)
}

/// The items with commas between them of which the first was read.
pub fn items_behind<A: Drop, I: Fn(&mut Tokens<'_>) -> Result<A, Failure>>(
    alloc: Global,
    tokens: &mut Tokens<'_>,
    first: A,
    item: I,
) -> Result<Items<A>, Failure>
    requires { I.IsAlwaysCallable item }
    ensures { (of : Parser A) → IsParser of (I.post item) → IsParsed (spec.items_behind of (length tokens.old) first tokens.old) result tokens.new }
{
    let mut items = Items::new(alloc);
    add(alloc, &mut items, first)?;
    for _turn in 0..tokens.len() {
        match tokens.eat(Terminal::Comma) {
            None => return Ok(items),
            Some(_comma) => {
                let next = item(tokens)?;
                add(alloc, &mut items, next)?;
            }
        }
    }
    Ok(items)
}

/// One or more items with commas between them.
#[tactic(auto, unfolding(crate::specs::Parser::items_of, crate::specs::Parser::and_then))]
pub fn items_of<A: Drop, I: Fn(&mut Tokens<'_>) -> Result<A, Failure>>(
    alloc: Global,
    tokens: &mut Tokens<'_>,
    item: I,
) -> Result<Items<A>, Failure>
    requires { I.IsAlwaysCallable item }
    ensures { (of : Parser A) → IsParser of (I.post item) → IsParsed (spec.items_of of tokens.old) result tokens.new }
{
    let first = item(tokens)?;
    items_behind(alloc, tokens, first, item)
}
