//! What a model is, statement by statement, and what it says: definitions, and the law that the system of a model says it.
//!
//! `specs/Statements` says what a model's statements ask for and what they say where fractions are put for its declared
//! columns, `specs/Encoded` which columns, rows and objective they make, and `specs/Progress` what is known after each
//! statement, and at which fault a model stops.
#![tactic(auto)]

mod law;

pub use law::systems_say_their_statements;
