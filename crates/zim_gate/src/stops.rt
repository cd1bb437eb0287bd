/// Why a file wasn't opened for reading.
#[derive(Clone, Copy, Debug, PartialEq, Eq, Hash)]
pub enum OpenStop {
    /// No such file is there.
    Missing,
    /// The outside failed.
    Failed,
    /// Memory was refused.
    Memory,
}

/// Why a file wasn't begun for writing.
#[derive(Clone, Copy, Debug, PartialEq, Eq, Hash)]
pub enum BeginStop {
    /// The outside failed.
    Failed,
    /// Memory was refused.
    Memory,
}

/// The outside failed at a read or a write.
#[derive(Clone, Copy, Debug, PartialEq, Eq, Hash)]
pub struct Failed;
