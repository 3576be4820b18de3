ghost use Rattle.std.specs.Prelude.{◌≡◌};
ghost use Rattle.dcr_base.specs.Status.{code_of};

/// How a run of the program ended.
#[derive(Clone, Copy, Debug, PartialEq, Eq)]
pub enum Status {
    /// The run came to its end, and its answer was written.
    Done,
    /// The words of the command line were not a command.
    Usage,
    /// The input was read, and refused.
    Refused,
    /// The input failed.
    ReadFault,
    /// The output failed.
    WriteFault,
    /// Memory was wanted and could not be had.
    NoMemory,
    /// The disk failed.
    DiskFault,
    /// The report that was read is not that of a legal history.
    Invalid,
    /// The history is full.
    Full,
    /// The tape was read, and refused.
    TapeRefused,
    /// The door failed.
    DoorFault,
}

impl Status {
    /// The number that the process ends with.
    pub fn code(self) -> u8
        ensures { result ≡ code_of self }
    {
        match self {
            Status::Done => 0,
            Status::Usage => 2,
            Status::Refused => 3,
            Status::ReadFault => 4,
            Status::WriteFault => 5,
            Status::NoMemory => 6,
            Status::DiskFault => 7,
            Status::Invalid => 8,
            Status::Full => 9,
            Status::TapeRefused => 10,
            Status::DoorFault => 11,
        }
    }
}
