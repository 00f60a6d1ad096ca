ghost use Rattle.std.specs.Prelude.{◌≡◌};
ghost use Rattle.std.specs.Option.{option_map};
ghost use Rattle.hc_session.specs.Status.{code_of, message_of};

/// How a run of the program ended.
#[derive(Clone, Copy, Debug, PartialEq, Eq)]
pub enum Status {
    /// The input was read to its end, or to an `end`.
    Done,
    /// The words of the command line are not read.
    Words,
    /// The source failed.
    ReadFault,
    /// The sink failed.
    WriteFault,
    /// Memory was refused before anything was read.
    NoMemory,
    /// The input ended after a byte without LF.
    CutLine,
    /// A line reached 16,777,216 bytes without LF.
    LineTooLong,
    /// 1,073,741,824 bytes were taken.
    ScriptTooLong,
}

impl Status {
    /// The exit status of the process.
    pub fn code(self) -> u8
        ensures { result ≡ code_of self }
    {
        match self {
            Status::Done => 0,
            Status::Words => 2,
            Status::ReadFault => 3,
            Status::WriteFault => 4,
            Status::NoMemory => 5,
            Status::CutLine => 6,
            Status::LineTooLong => 7,
            Status::ScriptTooLong => 8,
        }
    }

    /// The line on standard error, without its LF; none where all went well.
    pub fn message(self) -> Option<&'static str>
        ensures { option_map (λ m. m.now) result ≡ message_of self }
    {
        match self {
            Status::Done => None,
            Status::Words => Some("hc: words"),
            Status::ReadFault => Some("hc: read"),
            Status::WriteFault => Some("hc: write"),
            Status::NoMemory => Some("hc: memory"),
            Status::CutLine => Some("hc: cut line"),
            Status::LineTooLong => Some("hc: long line"),
            Status::ScriptTooLong => Some("hc: long script"),
        }
    }
}
