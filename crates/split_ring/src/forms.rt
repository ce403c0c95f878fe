//! A shared link as a form of [`Link`], of which one step is taken at a time. It gives no state: what is in its words is other callers'
//! doing too. What a step is the clauses of its methods say.
ghost use Rattle.std.specs.Prelude.{◌≡◌};
ghost use Rattle.split_ring.specs.CallPhases as phase;
ghost use Rattle.split_ring.specs.Callers.{IsAdvanced, MayAdvance, StepNotBelow, TakesStep};

use crate::callers::Caller;
use crate::calls::RingCall;
use crate::links::SharedLink;
use lane_model::{Ask, Desk, Link, Progress};

impl<'a, D: Desk> Link for &'a SharedLink<D> {
    ghost use Rattle.std.specs.Prelude.{None};
    ghost use Rattle.split_ring.specs.Calls.{asked_in};
    ghost use Rattle.split_ring.specs.Callers.{MayAdvance};
    ghost use Rattle.split_ring.specs.Forms.{tells_none};

    type Pass = Caller;

    type Call = RingCall<D>;

    type Desk = D;

    ghost state = { λ link. None };

    ghost number = { λ caller. caller.id.number };

    ghost follows = { λ call. 0 };

    ghost asked = { λ call. asked_in call.phase };

    ghost may = { λ link caller call. MayAdvance link.now caller call };

    ghost leads = { λ link caller call told is may. tells_none told is };

    fn begin(&self, ask: Ask) -> RingCall<D>
        ensures { result.phase ≡ phase.Asked ask }
    {
        self.begin_call(ask)
    }

    fn advance(&mut self, caller: &mut Caller, call: &mut RingCall<D>) -> Progress
        requires { MayAdvance self.old.now caller.old call.old }
        ensures caller { (caller.new.id ≡ caller.old.id) × IsAdvanced self.old.now caller.new call.new result }
        ensures step { TakesStep D.row.coded D.meaning self.old.now caller.old call.old result caller.new call.new }
        ensures seen { StepNotBelow D.row.coded D.meaning self.old.now caller.old call.old result caller.new }
    {
        self.advance_call(caller, call)
    }
}
