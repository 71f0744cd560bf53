//! How a command ends, and the exit codes.
ghost use Rattle.std.specs.Prelude.{◌≡◌};
ghost use Rattle.cap_top_commands.specs.Status.{code_of};

/// How a run of the program ended.
#[derive(Clone, Copy, Debug, PartialEq, Eq)]
pub enum Status {
    /// All functions and region types are proved, a derivation of them is written or accepted, the
    /// text is shown, or the run took all entries.
    Good,
    /// Some function or region type is not proved, a derivation is rejected, or the run came to a
    /// fault.
    Bad,
    /// A file has no text of a program, a schedule or a derivation, or is too long.
    Refused,
    /// The words are no command.
    Usage,
    /// A file could not be read.
    ReadFault,
    /// The output could not be written.
    WriteFault,
    /// There was no memory, and nothing was written.
    NoMemory,
    /// The run came to an entry that is not enabled.
    NotEnabled,
    /// The run came to an entry that makes a number past 128 bits.
    Wide,
}

impl Status {
    /// The exit code, from 0 to 8 in the order of the statuses.
    pub fn code(&self) -> u8
        ensures { result ≡ code_of self.now }
    {
        match self {
            Status::Good => 0,
            Status::Bad => 1,
            Status::Refused => 2,
            Status::Usage => 3,
            Status::ReadFault => 4,
            Status::WriteFault => 5,
            Status::NoMemory => 6,
            Status::NotEnabled => 7,
            Status::Wide => 8,
        }
    }
}
