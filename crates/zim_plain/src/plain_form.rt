//! Models of plain form.

ghost use Rattle.std.specs.Prelude.{◌≡◌};
ghost use Rattle.zim_fault.specs.declared.kinds.Kind.TheVariants.{Syntax};
ghost use Rattle.zim_plain.specs.declared.stop.PlainStop.TheVariants as stopped;
ghost use Rattle.zim_plain.specs.Faults.{fault_at};
ghost use Rattle.zim_plain.specs.Build.{built};
ghost use Rattle.zim_plain.specs.Answers.{BuildsFrom, FinishedAnswer, PlainAnswer};

use crate::builder::Builder;
use crate::reader::statement;
use crate::stop::{PlainStop, Stop};
use std::alloc::Global;
use zim_columns::Columns;
use zim_fault::{Bytes, Fault, Kind, Place, Sequence};
use zim_rows::{FinishFault, Finished};
use zim_tree::Stmt;

/// A model of plain form.
#[derive(Drop)]
pub struct PlainProgram {
    /// Its system, with a column for each variable and a row for each `subto`.
    pub system: Finished,
    /// The declared columns, one for each variable.
    pub columns: Columns,
    /// The names of all statements, in order.
    pub statements: Sequence<Bytes>,
    /// The position, from 0, of the objective among the statements, if there is one.
    pub objective: Option<u32>,
}

/// The stop of a statement that isn't of plain form, told at its first token.
fn outside(first: Place) -> PlainStop
    ensures { result ≡ stopped.Fault (fault_at Syntax first) }
{
    PlainStop::Fault(Fault {
        place: first,
        kind: Kind::Syntax,
    })
}

/// What is built from statements, or their first fault.
fn build(alloc: Global, statements: &[Stmt]) -> Result<Builder, PlainStop>
    ensures { BuildsFrom built statements.now result }
{
    let mut builder = Builder::new(alloc);
    for tree in statements {
        match statement(alloc, tree) {
            Ok(statement) => builder.add(alloc, &statement)?,
            Err(Stop::Outside) => return Err(outside(tree.first)),
            Err(Stop::OutOfMemory) => return Err(PlainStop::Memory),
        }
    }
    Ok(builder)
}

/// The program of what was built, whose numbers are decimals; or the first row, or the objective, that is past when it is
/// multiplied by its factor.
fn finish(builder: Builder) -> Result<PlainProgram, PlainStop>
    ensures { FinishedAnswer (built builder) result }
{
    let Builder {
        variables: _,
        columns,
        others: _,
        statements,
        objective,
        system,
    } = builder;
    match system.finish() {
        Ok(system) => Ok(PlainProgram {
            system,
            columns,
            statements,
            objective,
        }),
        Err(FinishFault::Fault(fault)) => Err(PlainStop::Fault(fault)),
        Err(FinishFault::Memory) => Err(PlainStop::Memory),
    }
}

/// Reads statements as a model of plain form, and makes its program.
///
/// The fault is the first in this order: statement by statement, of one that isn't of plain form (`Syntax` at its first
/// token), of one that may not follow those before it (`Syntax` at its first word), of a number past 128 bits (at the
/// number, its slash, the operator or the relation), of a column or a row too many (at the name or the relation); and
/// last, of a row or the objective that is past when it is multiplied by its factor.
pub fn plain_model(alloc: Global, statements: &[Stmt]) -> Result<PlainProgram, PlainStop>
    ensures { PlainAnswer statements.now result }
{
    match build(alloc, statements) {
        Ok(builder) => finish(builder),
        Err(stop) => Err(stop),
    }
}
