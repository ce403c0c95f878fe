/// How the program ends.
#[derive(Clone, Copy)]
pub enum Status {
    /// The whole output is written.
    Done,
    /// `check` found no such image, one too large, or one that doesn't load, or `audit` found a line
    /// that breaks a rule.
    Unsound,
    /// The words are none that the program takes.
    Usage,
    /// The source of the script or the transcript failed.
    ReadFault,
    /// The sink failed.
    WriteFault,
    /// Memory ran out.
    NoMemory,
    /// The text is no script, or longer than a transcript may be.
    Refused,
    /// The run was to take one step more than it may.
    StepLimit,
    /// The store of images failed.
    StoreFault,
}

impl Status {
    ghost use Rattle.std.specs.Prelude.{◌≡◌};
    ghost use Rattle.program_status.specs.Statuses.{status_number};

    /// The number with which the process ends.
    pub fn number(self) -> u8
        ensures { result ≡ status_number self }
    {
        match self {
            Status::Done => 0,
            Status::Unsound => 1,
            Status::Usage => 2,
            Status::ReadFault => 3,
            Status::WriteFault => 4,
            Status::NoMemory => 5,
            Status::Refused => 6,
            Status::StepLimit => 7,
            Status::StoreFault => 8,
        }
    }
}
