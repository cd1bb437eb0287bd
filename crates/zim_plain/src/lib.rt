//! Plain form: models of `var`, `minimize`, `maximize` and `subto` statements whose lists are sums of numbers and of
//! variables with exact coefficients. [`plain_model`] reads them off the trees of statements, and makes the system that they
//! say.
//!
//! `specs/Statements.antt` gives the statements, `specs/Written.antt` how they are written, `specs/Trees.antt` their trees,
//! `specs/Meaning.antt` what a model says, `specs/Suits.antt` and `specs/Faults.antt` which models are refused and for what,
//! and `specs/Systems.antt` the system of a model.
#![tactic(auto)]

mod builder;
mod declaring;
mod forms;
mod laws;
mod numbers;
mod parts;
mod plain_form;
mod reader;
mod sides;
mod statement;
mod stop;
mod suits;

pub use laws::{
    a_fault_stands_in_the_statements, a_model_has_no_fault, a_model_has_one_program,
    a_statement_has_a_writing, a_statement_is_spelled_as_written, plain_form_is_read_as_written,
    statements_are_one_model, statements_have_an_answer, statements_have_one_fault,
};
pub use plain_form::{PlainProgram, plain_model};
pub use stop::PlainStop;
