ghost use Rattle.rp_base.specs.declared.limits.TheConstants.{CALLERS_MOST};
ghost use Rattle.std.specs.Prelude.{◌≡◌, ◌⊎◌, ◌<◌, IfOk, IfErr, None, Some, length};
ghost use Rattle.lane_model.specs.declared.recoveries.ReopenFault.TheVariants as reopen_fault;
ghost use Rattle.lane_model.specs.Recoveries.{link_close_refusal, link_reopen_refusal, link_reclaim_refusal};
ghost use Rattle.lane_model.specs.Links.{end_of};
ghost use Rattle.link_bench.specs.Benches.{link_in};
ghost use Rattle.link_bench.specs.BenchCrashes.{after_close, after_reclaim, after_reopen, reclaim_answer, reclaim_leaves};

use crate::benches::{Bench, BenchFault};
use lane_model::{Already, Books, ReclaimRefusal, ReopenFault};
use rp_base::{CallerNo, Era};
use std::alloc::Global;

/// How a reclaim of a caller in use ended.
#[derive(Clone, Copy)]
pub enum Reclaim {
    /// The caller is gone: its call is ended, what it held is back, and its number is free.
    Done,
    /// The link is live, so nothing is reclaimed.
    StillOpen(Era),
    /// This other caller has the receiver's turn, which is needed for what the caller holds.
    Busy(CallerNo),
}

impl Bench {
    /// The life that the link is in.
    pub fn era(&self) -> Era
        ensures { result ≡ (link_in self.now).era }
    {
        self.link.era()
    }

    /// Closes the incarnation that the link is in.
    ///
    /// Errors: [`Already`] exactly where it is closed. Nothing changes then.
    pub fn close(&mut self) -> Result<(), Already>
        ensures left { self.new ≡ after_close self.old }
        ensures done { IfOk result (λ _. link_close_refusal (link_in self.old).era (link_in self.old).era.inc ≡ None) }
        ensures refused { IfErr result (λ already. link_close_refusal (link_in self.old).era (link_in self.old).era.inc ≡ Some already.0) }
    {
        let inc = self.link.era().inc;
        self.link.close(inc)
    }

    /// Reclaims a caller, as [`Reclaim`] says. A call that it has only begun is gone too.
    ///
    /// Errors: [`BenchFault::NoCaller`] exactly where the caller isn't in use.
    pub fn reclaim(&mut self, caller: CallerNo) -> Result<Reclaim, BenchFault>
        ensures answer { result ≡ reclaim_answer (end_of (link_in self.old).callers caller) (link_reclaim_refusal (link_in self.old) caller) }
        ensures left { self.new ≡ reclaim_leaves self.old caller (link_reclaim_refusal (link_in self.old) caller) }
    {
        let Some(_) = self.end_of(caller) else {
            return Err(BenchFault::NoCaller);
        };
        match self.link.reclaim_refusal(caller) {
            Some(ReclaimRefusal::StillOpen(era)) => Ok(Reclaim::StillOpen(era)),
            Some(ReclaimRefusal::Busy(holder)) => Ok(Reclaim::Busy(holder)),
            None => {
                self.end_caller(caller);
                Ok(Reclaim::Done)
            }
        }
    }

    /// Ends a caller that nothing keeps from being reclaimed.
    pub fn end_caller(&mut self, caller: CallerNo)
        requires caller { caller < CALLERS_MOST }
        requires free { link_reclaim_refusal (link_in self.old) caller ≡ None }
        ensures { self.new ≡ after_reclaim self.old caller }
    {
        self.link.end_caller(caller);
        self.begun[usize::from(caller)] = None;
    }

    /// Begins the next incarnation, with empty lanes and ends without endpoints and channels. A call that
    /// was begun keeps the incarnation that it follows. Answers the books of the incarnation before: of
    /// each lane the messages accepted, who took each that was handed over, and how many those are.
    ///
    /// Errors: [`ReopenFault::StillOpen`], then `StillTurn`, `StillHeld` and `IncarnationsSpent`, or
    /// out of memory. Nothing changes then.
    pub fn reopen(&mut self, alloc: Global) -> Result<Books, ReopenFault>
        ensures refused { IfErr result (λ fault. (self.new ≡ self.old) × ((link_reopen_refusal (link_in self.old) ≡ Some fault)
            ⊎ ((fault ≡ reopen_fault.NoMemory) × (link_reopen_refusal (link_in self.old) ≡ None)))) }
        ensures open { IfOk result (λ _. link_reopen_refusal (link_in self.old) ≡ None) }
        ensures left { IfOk result (λ _. self.new ≡ after_reopen self.old) }
        ensures inc { IfOk result (λ books. books.inc ≡ (link_in self.old).era.inc) }
        ensures to_host { IfOk result (λ books. (books.to_host.entries ≡ (link_in self.old).to_host.lane.accepted)
            × (books.to_host_takers.items ≡ (link_in self.old).to_host.lane.takers)
            × (books.to_host_handed ≡ length (link_in self.old).to_host.lane.takers)) }
        ensures to_remote { IfOk result (λ books. (books.to_remote.entries ≡ (link_in self.old).to_remote.lane.accepted)
            × (books.to_remote_takers.items ≡ (link_in self.old).to_remote.lane.takers)
            × (books.to_remote_handed ≡ length (link_in self.old).to_remote.lane.takers)) }
    {
        self.link.reopen(alloc)
    }
}
