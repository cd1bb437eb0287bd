use zim_fault::Fault;

/// Why lines were not read as statements.
#[derive(Clone, Copy, Debug, PartialEq, Eq, Drop)]
pub enum ReadStop {
    /// Their first fault.
    Refused(Fault),
    /// Memory was refused.
    Memory,
}
