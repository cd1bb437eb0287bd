//! What names are, and the first static fault of a statement, which is what is wrong with it whatever its values are.
//!
//! [`Scope`] keeps what each name is behind some statements and finds it by the name's hash; `declare` adds the name of a typed
//! statement, a function with how deep it nests (`specs/Nested`). [`static_fault`] gives the static fault of a statement under a
//! scope, in a few walks along its tree that take no memory: how deep it nests with the functions that it calls (`specs/Calls`),
//! and the first fault in the order of its tokens (`specs/StatementFaults`). The call that makes a statement's typed tree isn't
//! here yet.
#![tactic(auto)]

mod around;
mod calls;
mod declaring;
mod deep;
mod fault_in;
mod law;
mod marks;
mod nested;
mod operators;
mod role;
mod scope;
mod statements;
mod uses;
mod varies;

pub use around::{Around, bare_name, is_bare};
pub use fault_in::is_bound;
pub use law::definitions_nest_as_their_statements;
pub use role::Role;
pub use scope::Scope;
pub use statements::static_fault;
pub use varies::is_variable;
