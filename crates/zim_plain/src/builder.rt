//! The system of a model, built statement by statement.

ghost use Rattle.std.specs.Prelude.{◌≡◌, nat_eq, ◌||◌, [], length, OnOk};
ghost use Rattle.std.specs.Cmp.Lexicographic.{pointwise};
ghost use Rattle.std.specs.List.{list_any};
ghost use Rattle.zim_fault.specs.declared.kinds.Kind.TheVariants.{Syntax};
ghost use Rattle.zim_plain.specs.Statements.{Variable, Objective, Constraint};
ghost use Rattle.zim_plain.specs.Faults.{fault_at};
ghost use Rattle.zim_plain.specs.Reader.{heading_of, sum_said, statement_said};
ghost use Rattle.zim_plain.specs.Build.{built, Stands, Adds, IsSmall, stop_of_row};
ghost use Rattle.zim_plain.specs.declared.stop.PlainStop.TheVariants as stopped;

use crate::declaring::declare_variable;
use crate::forms::{list_form, row_form};
use crate::statement::{Head, Statement, Sum};
use crate::stop::PlainStop;
use crate::suits::suits_sum;
use indexmap::IndexSet;
use std::alloc::Global;
use zim_columns::Columns;
use zim_fault::{Bytes, Duplicate, Fault, Kind, Place, Sequence};
use zim_fraction::negated;
use zim_rows::{RowFault, RowFrom, Sense, System};

/// What was built from the statements so far. After an error it is of no further use.
#[derive(Drop)]
pub struct Builder {
    /// The names of the variables, in order.
    pub variables: IndexSet<Bytes>,
    /// Their columns, which have these names and no index.
    pub columns: Columns,
    /// The names of the objective and of the constraints.
    pub others: IndexSet<Bytes>,
    /// The names of all statements, in order.
    pub statements: Sequence<Bytes>,
    /// The position, from 0, of the objective among the statements, once there is one.
    pub objective: Option<u32>,
    /// A column for each variable, a row for each constraint, and the objective.
    pub system: System,
}

/// The stop of a statement that may not follow those before it, told at its first word.
fn unsuited(head: &Head<'_>) -> PlainStop
    ensures { result ≡ stopped.Fault (fault_at Syntax (heading_of head.now).word) }
{
    PlainStop::Fault(Fault {
        place: head.word,
        kind: Kind::Syntax,
    })
}

/// The stop of a row that was not added, told at a place.
fn unadded(place: Place, fault: RowFault) -> PlainStop
    ensures { result ≡ stop_of_row place fault }
{
    match fault {
        RowFault::TooManyRows => PlainStop::Fault(Fault {
            place,
            kind: Kind::TooManyRows,
        }),
        RowFault::TooManyColumns => PlainStop::Fault(Fault {
            place,
            kind: Kind::TooManyColumns,
        }),
        RowFault::Memory => PlainStop::Memory,
    }
}

impl Builder {
    /// What is built from no statement.
    pub fn new(alloc: Global) -> Builder
        ensures stands { Stands [] (built result) }
        ensures small { IsSmall (built result) }
    {
        Builder {
            variables: IndexSet::new(alloc),
            columns: Columns::new(alloc),
            others: IndexSet::new(alloc),
            statements: Sequence::new(alloc),
            objective: None,
            system: System::new(alloc),
        }
    }

    /// Whether a statement so far has this name.
    fn is_taken(&self, name: &Bytes) -> bool
        ensures { result ≡ (list_any (pointwise nat_eq name.now) self.now.variables.keys || list_any (pointwise nat_eq name.now) self.now.others.keys) }
    {
        self.variables.contains(name) || self.others.contains(name)
    }

    /// Adds `var name;`.
    fn add_variable(&mut self, alloc: Global, head: &Head<'_>) -> Result<(), PlainStop>
        requires { IsSmall (built self.old) }
        ensures adds { Adds (built self.old) (Variable (heading_of head.now)) (built self.new) result }
        ensures small { OnOk result (IsSmall (built self.new)) }
    {
        if self.is_taken(head.name) {
            return Err(unsuited(head));
        }
        let source = RowFrom {
            statement: self.statements.len() as u32,
            place: head.at,
        };
        match declare_variable(
            alloc,
            &mut self.columns,
            &mut self.system,
            source,
            head.name,
        ) {
            Ok(()) => (),
            Err(stop) => return Err(stop),
        }
        self.variables.insert(head.name.copy()?)?;
        self.statements.push(head.name.copy()?)?;
        Ok(())
    }

    /// Adds `minimize name: sum;`, or `maximize name: sum;`.
    fn add_objective(
        &mut self,
        alloc: Global,
        maximize: bool,
        head: &Head<'_>,
        sum: &Sum<'_>,
    ) -> Result<(), PlainStop>
        requires { IsSmall (built self.old) }
        ensures adds { Adds (built self.old) (Objective maximize (heading_of head.now) (sum_said sum.now)) (built self.new) result }
        ensures small { OnOk result (IsSmall (built self.new)) }
    {
        if self.objective.is_some() {
            return Err(unsuited(head));
        }
        if self.is_taken(head.name) {
            return Err(unsuited(head));
        }
        if !suits_sum(&self.variables, sum) {
            return Err(unsuited(head));
        }
        let form = match list_form(alloc, &self.variables, sum) {
            Ok(form) => form,
            Err(stop) => return Err(stop),
        };
        self.others.insert(head.name.copy()?)?;
        self.objective = Some(self.statements.len() as u32);
        self.statements.push(head.name.copy()?)?;
        self.system.set_objective(maximize, head.at, form);
        Ok(())
    }

    /// Adds `subto name: left sense right;`, whose relation stands at a place.
    fn add_constraint(
        &mut self,
        alloc: Global,
        head: &Head<'_>,
        left: &Sum<'_>,
        sense: Sense,
        at: Place,
        right: &Sum<'_>,
    ) -> Result<(), PlainStop>
        requires { IsSmall (built self.old) }
        ensures adds { Adds (built self.old) (Constraint (heading_of head.now) (sum_said left.now) sense at (sum_said right.now)) (built self.new) result }
        ensures small { OnOk result (IsSmall (built self.new)) }
    {
        if self.is_taken(head.name) {
            return Err(unsuited(head));
        }
        if !suits_sum(&self.variables, left) {
            return Err(unsuited(head));
        }
        if !suits_sum(&self.variables, right) {
            return Err(unsuited(head));
        }
        let form = match row_form(alloc, &self.variables, left, at, right) {
            Ok(form) => form,
            Err(stop) => return Err(stop),
        };
        let from = RowFrom {
            statement: self.statements.len() as u32,
            place: at,
        };
        match self
            .system
            .add_row(from, &form, sense, negated(form.constant_part()))
        {
            Ok(()) => (),
            Err(fault) => return Err(unadded(at, fault)),
        }
        self.others.insert(head.name.copy()?)?;
        self.statements.push(head.name.copy()?)?;
        Ok(())
    }

    /// Adds a statement. `Fault` comes exactly where it may not follow those before it, at its first word, or where one of
    /// its numbers is past or a column or a row too many.
    pub fn add(&mut self, alloc: Global, statement: &Statement<'_>) -> Result<(), PlainStop>
        requires { IsSmall (built self.old) }
        ensures adds { Adds (built self.old) (statement_said statement.now) (built self.new) result }
        ensures small { OnOk result (IsSmall (built self.new)) }
    {
        match statement {
            Statement::Variable(head) => self.add_variable(alloc, head),
            Statement::Objective(maximize, head, sum) => {
                self.add_objective(alloc, *maximize, head, sum)
            }
            Statement::Constraint(head, left, sense, at, right) => {
                self.add_constraint(alloc, head, left, *sense, *at, right)
            }
        }
    }
}
