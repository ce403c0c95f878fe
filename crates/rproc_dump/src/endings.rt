ghost use Rattle.std.specs.Prelude.{◌≡◌};
ghost use Rattle.rproc_dump.specs.Dumps.{ending_number};

/// How the program ends.
#[derive(Clone, Copy)]
pub(crate) enum Ending {
    /// The image is written.
    Written,
    /// The words are none that the program takes.
    Usage,
    /// Standard output failed.
    WriteFault,
    /// Memory ran out before the script was run.
    NoMemory,
    /// The script has left no image under the name.
    NoImage,
    /// The run of the script ended with this status, another than 0.
    NotRun(u8),
}

impl Ending {
    /// The number with which the process ends: that of rproc, 9 where the script has left no image under
    /// the name, and 10 where its run ended with another status than 0.
    pub(crate) fn number(self) -> u8
        ensures { result ≡ ending_number self }
    {
        match self {
            Ending::Written => 0,
            Ending::Usage => 2,
            Ending::WriteFault => 4,
            Ending::NoMemory => 5,
            Ending::NoImage => 9,
            Ending::NotRun(_) => 10,
        }
    }

    /// The line that says why nothing was written, or not all.
    pub(crate) fn line(self) -> Option<&'static str> {
        match self {
            Ending::Written => None,
            Ending::Usage => Some("usage: rproc-dump [-q] NAME < SCRIPT > FILE"),
            Ending::WriteFault => Some("rproc-dump: write fault"),
            Ending::NoMemory => Some("rproc-dump: out of memory"),
            Ending::NoImage => Some("rproc-dump: the script has left no image of this name"),
            Ending::NotRun(1) => Some("rproc-dump: the run ended with the status 1"),
            Ending::NotRun(2) => Some("rproc-dump: the run ended with the status 2"),
            Ending::NotRun(3) => Some("rproc-dump: the script can't be read (status 3)"),
            Ending::NotRun(4) => Some("rproc-dump: the transcript can't be written (status 4)"),
            Ending::NotRun(5) => Some("rproc-dump: the run is out of memory (status 5)"),
            Ending::NotRun(6) => Some("rproc-dump: this is no script (status 6)"),
            Ending::NotRun(7) => Some("rproc-dump: the run came to the most steps (status 7)"),
            Ending::NotRun(_) => Some("rproc-dump: the store of images failed (status 8)"),
        }
    }
}
