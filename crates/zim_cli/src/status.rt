ghost use Rattle.std.specs.Prelude.{◌≡◌};
ghost use Rattle.zim_cli.specs.Status.{number_of_status};

/// How a run ended.
#[derive(Clone, Copy, Debug, PartialEq, Eq)]
pub enum Status {
    /// The files are written.
    Done,
    /// The words are no job.
    Usage,
    /// The model has a fault.
    Refused,
    /// A file could not be read or isn't there.
    ReadFault,
    /// A file could not be written.
    WriteFault,
    /// What the model prints could not be put.
    OutFault,
    /// Memory was refused.
    Memory,
}

/// The number with which the program ends.
pub fn exit_number(status: Status) -> u8
    ensures { result ≡ number_of_status status }
{
    match status {
        Status::Done => 0,
        Status::Usage => 1,
        Status::Refused => 2,
        Status::ReadFault => 3,
        Status::WriteFault => 4,
        Status::OutFault => 5,
        Status::Memory => 6,
    }
}
