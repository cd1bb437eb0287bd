//! The scope after a statement.
ghost use Rattle.std.specs.Prelude.{◌≡◌, OnOk, OnErr};
ghost use Rattle.zim_typed.specs.After.{after};
ghost use Rattle.zim_typed.specs.After as spec;
ghost use Rattle.zim_typed.specs.SuitsStatement.{SuitsStatement};
ghost use Rattle.zim_static.specs.Declaring.{NestsWithinLimit};

use crate::nested::definition_nesting;
use crate::scope::Scope;
use zim_fault::Memory;
use zim_typed::{Declared, TShape, TStmt};

impl Scope {
    /// Adds what a statement declares its name to be, at the end; a `do` adds nothing. The statement suits the scope, and a
    /// definition nests at most 200 deep together with the functions that it calls.
    ///
    /// A name with brackets is used with brackets from then on, and a function is kept with the number of its parameters and
    /// its full nesting. After `Memory` the scope is as before.
    pub fn declare(&mut self, stmt: &TStmt) -> Result<(), Memory>
        requires suits { SuitsStatement self.old stmt.now }
        requires within { NestsWithinLimit self.old stmt.now.shape }
        ensures ok { OnOk result (self.new ≡ after self.old stmt.now) }
        ensures err { OnErr result (self.new ≡ self.old) }
    {
        match declaration(self, stmt.shape.get()) {
            Some(what) => self.add(&stmt.name, what),
            None => Ok(()),
        }
    }
}

/// What a statement declares its name to be, under the scope of the statements before it. None exactly for a `do`.
fn declaration(scope: &Scope, shape: &TShape) -> Option<Declared>
    requires { NestsWithinLimit scope.now shape.now }
    ensures { result ≡ spec.declaration scope.now shape.now }
{
    match shape {
        TShape::Set(brackets, _) => Some(Declared::Set(brackets.is_some())),
        TShape::Param(brackets, _) => Some(Declared::Parameter(brackets.is_some())),
        TShape::Var(brackets, _, _, _, _) => Some(Declared::Variable(brackets.is_some())),
        TShape::Goal(_, _) => Some(Declared::Objective),
        TShape::Subto(_) => Some(Declared::Constraint),
        TShape::Define(_, parameters, body) => Some(Declared::Function(
            parameters.len(),
            definition_nesting(scope, body.get()),
        )),
        TShape::Do(_) => None,
    }
}
