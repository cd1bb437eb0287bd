ghost use Rattle.std.specs.Prelude.{◌≡◌, None, Some, true, IfOk};
ghost use Rattle.zim_tree.specs.StatementMade.{MadeStatement};
ghost use Rattle.zim_typed.specs.Statements.{IsTyped};
ghost use Rattle.zim_typed.specs.SuitsStatement.{SuitsStatement};
ghost use Rattle.zim_static.specs.Declaring.{NestsWithinLimit};
ghost use Rattle.zim_static.specs.StatementFaults as faults;
ghost use Rattle.zim_typing.specs.Statements as typing;
ghost use Rattle.zim_typing.specs.StatementNumbers.{statement_numbers_kept};
ghost use Rattle.zim_sort.specs.Sorts.{IfFaulty, MakesTyped};

use crate::fault::SortFault;
use crate::statements::typed_statement;
use std::alloc::Global;
use zim_static::{Scope, static_fault};
use zim_tree::Stmt;
use zim_typed::TStmt;
use zim_typing::{made_trees_suit, typed_trees_belong};

/// The typed statement that is made of a statement, which has no static fault.
fn made(alloc: Global, scope: &Scope, stmt: &Stmt) -> Result<TStmt, SortFault>
    ensures { MakesTyped scope.now stmt.now result }
{
    match typed_statement(alloc, scope, stmt) {
        Ok(typed) => Ok(typed),
        Err(_) => Err(SortFault::Memory),
    }
}

/// The typed tree of a statement under the scope of the statements before it, or the statement's first static fault.
///
/// The typed tree belongs to the statement under the scope, suits the scope, and can be declared in it. It comes exactly
/// where the statement has no static fault, as long as memory is given. The fault is `Deep` at the statement's first token
/// where the statement nests more than 200 deep with the functions that it calls; else that of the first token which has
/// one, and at one token the one of the lower number. `Memory` where memory was asked for and refused.
///
/// The statement is made of its parts as each statement that the grammar reads, and its literal numbers are number tokens.
pub fn sort(alloc: Global, scope: &Scope, stmt: &Stmt) -> Result<TStmt, SortFault>
    requires parts { MadeStatement stmt.now }
    requires numbers { statement_numbers_kept stmt.now ≡ true }
    ensures no_fault { IfOk result (λ _. faults.static_fault scope.now stmt.now ≡ None) }
    ensures made { IfOk result (λ typed. typed ≡ typing.typed_statement scope.now stmt.now) }
    ensures belongs { IfOk result (λ typed. IsTyped scope.now stmt.now typed) }
    ensures suits { IfOk result (λ typed. SuitsStatement scope.now typed) }
    ensures nests { IfOk result (λ typed. NestsWithinLimit scope.now typed.shape) }
    ensures fault { IfFaulty result (λ fault. faults.static_fault scope.now stmt.now ≡ Some fault) }
{
    match static_fault(scope, stmt) {
        Some(fault) => Err(SortFault::Fault(fault)),
        None => {
            typed_trees_belong();
            made_trees_suit();
            made(alloc, scope, stmt)
        }
    }
}
