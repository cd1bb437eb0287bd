ghost use Rattle.std.specs.Prelude.{◌<◌, length};
ghost use Rattle.zim_parse.specs.Answers.{Parses, WholeGives};

use crate::fault::ParseFault;
use crate::grammar::Grammar;
use std::alloc::Global;
use zim_fault::{Fault, Kind, Placed};
use zim_parse_expression::{Failure, Tokens};
use zim_scan::{first_deep, first_refused};
use zim_tree::Stmt;

/// The statement that all the tokens spell.
fn whole_statement(alloc: Global, tokens: &[Placed]) -> Result<Stmt, Failure>
    ensures { WholeGives tokens.now result }
{
    let mut rest = Tokens::new(tokens);
    let grammar = Grammar {
        alloc,
        depth: tokens.len(),
    };
    let stmt = grammar.statement(&mut rest)?;
    if rest.len() != 0 {
        return Err(Failure::Syntax);
    }
    Ok(stmt)
}

/// The one tight statement that the tokens spell, its `;` among them, with the places that they give its
/// parts. A statement is tight where the grammar derives it from some tokens.
///
/// The fault is `Unsupported` at the first refused word; else `Deep` at the first token at which nesting
/// passes 200; else, where no tight statement is spelled so, `Syntax` at the statement's first token. Nesting is
/// the number of open `(`, `[`, `{`, `if` and `vif`, a closing `)`, `]`, `}` or `end` taking one off but
/// never below 0, and of the loops that have begun: `forall`, `sum`, `prod`, `argmin`, `argmax`, and `min`
/// and `max` where no `(` follows. A loop counts to the end of the statement.
pub fn parse_statement(alloc: Global, tokens: &[Placed]) -> Result<Stmt, ParseFault>
    requires { 0 < length tokens.now }
    ensures { Parses tokens.now result }
{
    if let Some((place, word)) = first_refused(tokens) {
        let kind = Kind::Unsupported(word);
        return Err(ParseFault::Fault(Fault { place, kind }));
    }
    if let Some(place) = first_deep(tokens) {
        let kind = Kind::Deep;
        return Err(ParseFault::Fault(Fault { place, kind }));
    }
    match whole_statement(alloc, tokens) {
        Ok(stmt) => Ok(stmt),
        Err(Failure::Memory) => Err(ParseFault::Memory),
        Err(Failure::Syntax) => {
            let place = tokens[0].place;
            let kind = Kind::Syntax;
            Err(ParseFault::Fault(Fault { place, kind }))
        }
    }
}
