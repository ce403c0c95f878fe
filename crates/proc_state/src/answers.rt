ghost use Rattle.std.specs.Prelude.{◌≡◌};
ghost use Rattle.proc_state.specs.Faults.{fault_number};

use thiserror::Error;

/// Why a call on a life was refused. Each has a number, and its text is `fault` with the number.
#[derive(Clone, Copy, Debug, PartialEq, Eq, Error)]
#[error("fault {}", self.number())]
pub enum LifeFault {
    /// The core has no user that a crash could reach, or a shutdown meets a crashed one.
    NotPowered,
    /// Only a crashed core is recovered.
    NotCrashed,
    /// The core crashed while its recovery is off.
    RecoveryOff,
    /// The core has as many users as can be counted.
    UsersFull,
    /// Only an offline core is handed over.
    NotOffline,
    /// Only an attached core is detached.
    NotAttached,
    /// The core has had as many lives as can be counted.
    IncarnationsSpent,
}

impl LifeFault {
    /// The number of the fault: 50 to 53, 55, 56 or 82.
    pub fn number(self) -> u8
        ensures { result ≡ fault_number self }
    {
        match self {
            LifeFault::NotPowered => 50,
            LifeFault::NotCrashed => 51,
            LifeFault::RecoveryOff => 52,
            LifeFault::UsersFull => 53,
            LifeFault::NotOffline => 55,
            LifeFault::NotAttached => 56,
            LifeFault::IncarnationsSpent => 82,
        }
    }
}

/// What a boot did.
#[derive(Clone, Copy, Debug, PartialEq, Eq)]
pub enum Power {
    /// It started the core, with its first user.
    First,
    /// The core had users, and has this many now.
    Counted(u32),
}

/// What a shutdown or a detach left.
#[derive(Clone, Copy, Debug, PartialEq, Eq)]
pub enum Left {
    /// The core is up, for this many users.
    Users(u32),
    /// It was the last user's: the core is offline, or detached.
    Last,
}

/// Whether a crash was known before.
#[derive(Clone, Copy, Debug, PartialEq, Eq)]
pub enum Report {
    /// It is the first report: the core is crashed from now on.
    First,
    /// The core had crashed already.
    Already,
}
