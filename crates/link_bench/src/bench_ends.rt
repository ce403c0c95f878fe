ghost use Rattle.rp_base.specs.declared.limits.TheConstants.{CALLERS_MOST};
ghost use Rattle.std.specs.Prelude.{◌≡◌, ◌<◌, false, None, IfNone, IfSome};
ghost use Rattle.lane_model.specs.Lanes.{holder};
ghost use Rattle.lane_model.specs.Links.{end_of};
ghost use Rattle.lane_model.specs.Recoveries.{link_reopen_refusal};
ghost use Rattle.link_bench.specs.Benches.{link_in};
ghost use Rattle.link_bench.specs.BenchEnds.{reopen_refusal_of, bench_to_reopen, crashed_bench, without_other, without_remote, without_remotes};

use crate::benches::Bench;
use lane_model::{ReclaimRefusal, ReopenFault};
use rp_base::{CALLERS_MOST, CallerNo, End};

impl Bench {
    /// Closes the incarnation that the link is in, and ends all callers of the remote end. Where one of
    /// them is caller 1, a new remote caller is made as soon as it is gone.
    pub fn crash(&mut self)
        ensures { self.new ≡ crashed_bench self.old }
    {
        let _ = self.close();
        self.end_remotes();
    }

    /// Ends all callers of the remote end of a closed link: first the one that has its receiver's turn.
    fn end_remotes(&mut self)
        requires { (link_in self.old).era.is_live ≡ false }
        ensures { self.new ≡ without_remotes self.old }
    {
        let first = self.link.receiver_holder(End::Remote);
        if let Some(holder) = first {
            self.end_remote(holder);
        }
        for caller in 0..CALLERS_MOST as CallerNo {
            self.end_other(first, caller);
        }
    }

    /// Ends a caller of the remote end that was not ended first.
    fn end_other(&mut self, first: Option<CallerNo>, caller: CallerNo)
        requires closed { (link_in self.old).era.is_live ≡ false }
        requires free { holder (link_in self.old).to_remote.receiver ≡ None }
        ensures { self.new ≡ without_other first self.old caller }
    {
        match first {
            Some(holder) if holder == caller => {}
            _ => self.end_remote(caller),
        }
    }

    /// Ends a caller where it is one of the remote end. Caller 1 is made anew at once. No other has the
    /// receiver's turn.
    fn end_remote(&mut self, caller: CallerNo)
        requires closed { (link_in self.old).era.is_live ≡ false }
        requires free { IfSome (holder (link_in self.old).to_remote.receiver) (λ other. other ≡ caller) }
        ensures left { self.new ≡ without_remote self.old caller }
        ensures low { IfSome (end_of (link_in self.old).callers caller) (λ _. caller < CALLERS_MOST) }
    {
        if !matches!(self.end_of(caller), Some(End::Remote)) {
            return;
        }
        self.end_caller(caller);
        if caller == 1 {
            self.caller(End::Remote);
        }
    }

    /// Reclaims caller 0 and makes a new host caller as soon as it is gone. Answers why the link is not
    /// reopened then, if something refuses it.
    pub fn renew_host(&mut self) -> Option<ReopenFault>
        ensures refused { result ≡ reopen_refusal_of self.old }
        ensures left { self.new ≡ bench_to_reopen self.old }
        ensures open { IfNone result (link_reopen_refusal (link_in self.new) ≡ None) }
    {
        match self.link.reclaim_refusal(0) {
            Some(ReclaimRefusal::StillOpen(era)) => return Some(ReopenFault::StillOpen(era)),
            Some(ReclaimRefusal::Busy(holder)) => return Some(ReopenFault::StillTurn(holder)),
            None => {}
        }
        self.end_caller(0);
        self.caller(End::Host);
        self.link.reopen_refusal()
    }
}
