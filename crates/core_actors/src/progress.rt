ghost use Rattle.std.specs.Prelude.{◌≡◌};
ghost use Rattle.core_actors.specs.ActorSteps.{is_rest};

use lane_model::CallEnd;
use remote_code::WorkerFault;
use rp_base::{CallerNo, CrashKind, Inc};

/// What a step of a core's actors was.
#[derive(Clone, Copy)]
pub enum DriveOutcome {
    /// None: both have nothing to do.
    Idle,
    /// A step of a call that goes on, or a record that asks for nothing else.
    Stepped,
    /// The last step of a call of this caller.
    Ended(CallerNo, CallEnd),
    /// A record that can't run, which crashed the core, and the incarnation of its link that this closed,
    /// if it closed one.
    Worker(WorkerFault, Option<Inc>),
    /// A record that reported a crash of the core, and what this closed.
    Crashed(CrashKind, Option<Inc>),
}

impl DriveOutcome {
    /// Whether neither actor had anything to do.
    pub fn is_rest(&self) -> bool
        ensures { result ≡ is_rest self.now }
    {
        matches!(self, DriveOutcome::Idle)
    }
}
