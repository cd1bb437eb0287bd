use zim_fault::Fault;

/// Why tokens give no statement.
#[derive(Clone, Copy, Debug, PartialEq, Eq, Hash)]
pub enum ParseFault {
    /// `Unsupported` at the first refused word, else `Deep` at the first token where the nesting passes
    /// 200, else `Syntax` at the first token.
    Fault(Fault),
    /// Memory was asked for and refused.
    Memory,
}
