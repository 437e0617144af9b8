use std::alloc::AllocError;

/// What a reader of lines gives.
#[derive(Drop)]
pub enum Next {
    /// The next line, without its LF and a CR right before it.
    Line(Vec<u8>),
    /// The next line is longer than the limit, and is skipped.
    TooLong,
    /// The input is at its end, and each of its lines was given.
    End,
}

/// Why a reader of lines gave nothing. The call may be made again.
#[derive(Debug, Drop, thiserror::Error)]
pub enum LineFault {
    /// The source failed, and no whole line stands unread.
    #[error("the source failed")]
    ReadFault,
    /// The source has more bytes than the budget, and no whole line stands unread before its end.
    #[error("the input is too long")]
    InputLong,
    /// There is no memory for the line; what was taken is kept.
    #[error("out of memory")]
    NoMemory,
}

impl From<AllocError> for LineFault {
    ghost use Rattle.std.specs.Prelude.{◌≡◌};
    ghost use Rattle.line_io.specs.declared.next.LineFault.TheVariants.{NoMemory};

    ghost from_gives = { λ _ e. e ≡ NoMemory };

    fn from(_: AllocError) -> Self {
        LineFault::NoMemory
    }
}
