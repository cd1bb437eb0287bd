//! The statements of a model as trees.

ghost use Rattle.std.specs.Prelude.{length, All};
ghost use Rattle.zim_build.specs.Steps.{IsSpanWithin, ParsedAnswer, StatementsAnswer};

use crate::stop::ReadStop;
use sqlite_items::Items;
use std::alloc::Global;
use zim_fault::Placed;
use zim_lex::{LexFault, Line, Span, lex, statements};
use zim_parse::{ParseFault, parse_statement};
use zim_tree::Stmt;

/// The statement of each span of tokens, in order; or the fault of the first span whose tokens are none.
fn parsed_statements(
    alloc: Global,
    tokens: &[Placed],
    spans: &[Span],
) -> Result<Items<Stmt>, ParseFault>
    requires { All (IsSpanWithin (length tokens.now)) spans.now }
    ensures { ParsedAnswer tokens.now spans.now result }
{
    let mut parsed = Items::new(alloc);
    for span in spans {
        let statement = match parse_statement(alloc, &tokens[span.from..span.to]) {
            Ok(statement) => statement,
            Err(fault) => return Err(fault),
        };
        match parsed.push(statement) {
            Ok(()) => (),
            Err(_) => return Err(ParseFault::Memory),
        }
    }
    Ok(parsed)
}

/// The statements that these lines are, or the first fault of their pieces, of what no semicolon ends, or of a statement that
/// the grammar refuses. The tokens are let go, so that they aren't held beside the system.
pub fn statements_of_lines(alloc: Global, lines: &[Line]) -> Result<Items<Stmt>, ReadStop>
    ensures { StatementsAnswer lines.now result }
{
    let tokens = match lex(alloc, lines) {
        Ok(tokens) => tokens,
        Err(LexFault::Fault(fault)) => return Err(ReadStop::Refused(fault)),
        Err(LexFault::Memory) => return Err(ReadStop::Memory),
    };
    let spans = match statements(alloc, tokens.as_slice()) {
        Ok(spans) => spans,
        Err(LexFault::Fault(fault)) => return Err(ReadStop::Refused(fault)),
        Err(LexFault::Memory) => return Err(ReadStop::Memory),
    };
    match parsed_statements(alloc, tokens.as_slice(), spans.as_slice()) {
        Ok(parsed) => Ok(parsed),
        Err(ParseFault::Fault(fault)) => Err(ReadStop::Refused(fault)),
        Err(ParseFault::Memory) => Err(ReadStop::Memory),
    }
}
