use zim_fault::Bytes;

/// What the command is asked to do.
#[derive(Debug, Drop)]
pub enum Job {
    /// Compile the file MODEL and write the files whose names begin with BASE.
    Compile { model: Bytes, base: Bytes },
}
