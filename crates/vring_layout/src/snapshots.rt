use crate::words::RingWords;
use rp_base::{CallerNo, Era, NoMemory};
use std::error::Error;
use std::fmt;

/// The words of a link at one moment, while it was at rest.
#[derive(Debug, Drop)]
pub struct Snapshot {
    pub era: Era,
    pub to_host: RingWords,
    pub to_remote: RingWords,
}

/// Why no snapshot of a link was made.
#[derive(Clone, Copy, Debug, PartialEq, Eq)]
pub enum SnapshotFault {
    /// This caller is in a call.
    StillTurn(CallerNo),
    /// Memory ran out.
    NoMemory,
}

impl fmt::Display for SnapshotFault {
    ghost use Rattle.std.specs.Prelude.{Some};
    ghost use Rattle.vring_layout.specs.Faults.{fault_text};

    ghost output = { λ fault. Some (fault_text fault) };

    fn fmt<W: fmt::Write>(&self, f: &mut fmt::Formatter<W>) -> fmt::Result {
        match self {
            SnapshotFault::StillTurn(_) => f.write_str("fault 79"),
            SnapshotFault::NoMemory => f.write_str("out of memory"),
        }
    }
}

impl Error for SnapshotFault {}

impl From<NoMemory> for SnapshotFault {
    ghost use Rattle.std.specs.Prelude.{◌≡◌};
    ghost use Rattle.vring_layout.specs.declared.snapshots.SnapshotFault.TheVariants as fault;

    ghost from_gives = { λ _ e. e ≡ fault.NoMemory };

    fn from(_error: NoMemory) -> SnapshotFault {
        SnapshotFault::NoMemory
    }
}
