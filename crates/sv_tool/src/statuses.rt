ghost use Rattle.std.specs.Prelude.{◌≡◌};
ghost use Rattle.sv_tool.specs.Statuses.{status_number};

/// How the program ends.
#[derive(Clone, Copy, Debug, PartialEq, Eq)]
pub enum Status {
    /// The text was written.
    Done,
    /// The document is refused; the refusal was written.
    Refused,
    /// The words are no command; `usage` was written.
    Usage,
    /// The source failed; nothing was written.
    SourceFailed,
    /// The sink failed; it took a front of the text.
    SinkFailed,
    /// There was no memory; nothing was written.
    NoMemory,
}

impl Status {
    /// The number that the program ends with.
    pub fn number(self) -> u8
        ensures { result ≡ status_number self }
    {
        match self {
            Status::Done => 0,
            Status::Refused => 1,
            Status::Usage => 2,
            Status::SourceFailed => 3,
            Status::SinkFailed => 4,
            Status::NoMemory => 5,
        }
    }
}
