// How the program ends.
ghost use Rattle.std.specs.Prelude.{◌≡◌};

/// How a call ended. The program's exit status is the place in this order, from 0 on.
#[derive(Clone, Copy, Debug, PartialEq, Eq)]
pub enum Status {
    /// The input was read to its end, and each line has its answer.
    Ended,
    /// The words ask for nothing that the program does.
    Usage,
    /// The source failed.
    SourceFault,
    /// The sink failed.
    SinkFault,
    /// There was no memory for the work.
    NoMemory,
    /// A transcript is not legal.
    AuditBad,
    /// The input has more bytes than one input may have.
    InputLong,
    /// The listener failed.
    ListenFault,
}

impl Status {
    ghost use Rattle.session_core.specs.Statuses.{code_of};

    /// The exit status.
    pub fn code(self) -> u8
        ensures { result ≡ code_of self }
    {
        match self {
            Status::Ended => 0,
            Status::Usage => 1,
            Status::SourceFault => 2,
            Status::SinkFault => 3,
            Status::NoMemory => 4,
            Status::AuditBad => 5,
            Status::InputLong => 6,
            Status::ListenFault => 7,
        }
    }
}
