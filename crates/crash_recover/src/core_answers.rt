ghost use Rattle.std.specs.Prelude.{◌≡◌};
ghost use Rattle.crash_recover.specs.CoreBoots.{power_of};
ghost use Rattle.crash_recover.specs.CoreCrashes.{report_in_short};
ghost use Rattle.crash_recover.specs.CoreLeaves.{leave_in_short};

use crate::core_faults::StartFault;
use proc_state::{Left, Life, Power, Report};
use rp_base::Inc;

/// How far a boot of a core comes without an image.
#[derive(Drop)]
pub enum Boot {
    /// It did this, or was refused.
    Done(Result<Start, StartFault>),
    /// The core is offline and needs an image, with which it comes to this life. Nothing has changed.
    NeedsImage(Life),
}

/// What a boot, a handover or a recovery of a core did.
#[derive(Clone, Copy)]
pub enum Start {
    /// The core runs, in this incarnation.
    Running(Inc),
    /// The core was detached and is attached, in this incarnation.
    Attached(Inc),
    /// The core had users, and has this many now.
    Users(u32),
    /// Another party has started the core, and it is detached.
    Detached,
}

impl Start {
    /// Whether a boot started the core, or counted a user.
    pub(crate) fn power(self) -> Power
        ensures { result ≡ power_of self }
    {
        match self {
            Start::Users(users) => Power::Counted(users),
            Start::Running(_) | Start::Attached(_) | Start::Detached => Power::First,
        }
    }
}

/// What became of a core that a user left.
#[derive(Clone, Copy)]
pub enum Leave {
    /// The core is up, for this many users.
    Users(u32),
    /// It was the last user. This is the incarnation of the link that was closed, if it was live.
    Last(Option<Inc>),
    /// The link is to be closed, which is a step, and none may be taken. Nothing has changed.
    Limit,
}

impl Leave {
    /// How many users are left, or none.
    pub(crate) fn in_short(self) -> Left
        ensures { result ≡ leave_in_short self }
    {
        match self {
            Leave::Users(users) => Left::Users(users),
            Leave::Last(_) | Leave::Limit => Left::Last,
        }
    }
}

/// What a crash report of a core was.
#[derive(Clone, Copy)]
pub enum Crash {
    /// The first one. This is the incarnation of the core's link that was closed, if it has one.
    First(Option<Inc>),
    /// The core had crashed already.
    Already,
    /// The link is to be closed, which is a step, and none may be taken. Nothing has changed.
    Limit,
}

impl Crash {
    /// Whether it was the first report.
    pub(crate) fn report(self) -> Report
        ensures { result ≡ report_in_short self }
    {
        match self {
            Crash::First(_) | Crash::Limit => Report::First,
            Crash::Already => Report::Already,
        }
    }
}
