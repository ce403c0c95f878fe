ghost use Rattle.std.specs.Prelude.{◌≡◌};
ghost use Rattle.rproc_chart.specs.Outputs.{status_number};

/// How the program ends. The numbers are those of rproc.
#[derive(Clone, Copy)]
pub(crate) enum Status {
    /// The chart is written.
    Done,
    /// A line is none of a transcript.
    Unsound,
    /// The source of the transcript failed.
    ReadFault,
    /// The sink failed.
    WriteFault,
    /// Memory ran out.
    NoMemory,
    /// The transcript is too long, or its chart too wide.
    Refused,
}

impl Status {
    /// The number with which the process ends.
    pub(crate) fn number(self) -> u8
        ensures { result ≡ status_number self }
    {
        match self {
            Status::Done => 0,
            Status::Unsound => 1,
            Status::ReadFault => 3,
            Status::WriteFault => 4,
            Status::NoMemory => 5,
            Status::Refused => 6,
        }
    }
}
