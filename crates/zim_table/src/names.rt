use zim_fault::{Bytes, Sequence};

/// The names of a model's statements.
#[derive(Debug, Drop)]
pub struct Names {
    /// The name of each statement in order.
    pub statements: Sequence<Bytes>,
    /// The position, from 0, of the objective among the statements, if there is one.
    pub objective: Option<u32>,
}
