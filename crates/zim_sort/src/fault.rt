use zim_fault::Fault;

/// Why a statement has no typed tree.
#[derive(Clone, Copy, Debug, PartialEq, Eq, Hash)]
pub enum SortFault {
    /// The first static fault: `Deep` at the first token, else that of the first token which is marked.
    Fault(Fault),
    /// Memory was asked for and refused.
    Memory,
}
