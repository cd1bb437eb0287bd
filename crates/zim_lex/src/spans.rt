ghost use Rattle.std.specs.Prelude.{◌≡◌};
ghost use Rattle.zim_answer.specs.Gives.{Gives};
ghost use Rattle.zim_lex.specs.Causes.{lex_cause};
ghost use Rattle.zim_lex.specs.Statements.{ends_statement, statements_of};

use crate::faults::LexFault;
use crate::lines::Span;
use std::alloc::Global;
use zim_fault::{Fault, Kind, Placed, Sign, Token};

fn is_end(placed: &Placed) -> bool
    ensures { result ≡ ends_statement placed.now }
{
    matches!(placed.token, Token::Sign(Sign::SSemicolon))
}

/// The statements of a list of tokens: each ends with its semicolon, and begins where the one before
/// it ends.
///
/// `OpenStatement` comes at the first token that no semicolon ends.
pub fn statements(alloc: Global, tokens: &[Placed]) -> Result<Vec<Span>, LexFault>
    ensures { Gives (λ spans. spans.items) lex_cause (statements_of tokens.now) result }
{
    let mut spans = Vec::new(alloc);
    let mut from = 0;
    for (at, placed) in tokens.iter().enumerate() {
        if is_end(placed) {
            let to = at + 1;
            spans.push(Span { from, to })?;
            from = to;
        }
    }
    if from < tokens.len() {
        return Err(LexFault::Fault(Fault {
            place: tokens[from].place,
            kind: Kind::OpenStatement,
        }));
    }
    Ok(spans)
}
