ghost use Rattle.rp_base.specs.declared.limits.TheConstants.{CALLERS_MOST};
ghost use Rattle.std.specs.Prelude.{◌≡◌, ◌≢◌, ◌<◌, true, None, IfErr, IfNone, IfOk, OnErr, OnOk};
ghost use Rattle.link_bench.specs.Benches.{HoldsReachTaken, advance_walk, is_in_call, link_in, step_fault};
ghost use Rattle.link_bench.specs.declared.benches.Reach.TheVariants as reached;

use crate::benches::{Bench, BenchFault, Reach};
use crate::step_counts::StepCount;
use crate::steps::later_step;
use rp_base::CallerNo;

impl Bench {
    /// Why this caller can do no step of a call, if it can't: it isn't in use, or it is in no call.
    pub fn step_fault(&self, caller: CallerNo) -> Option<BenchFault>
        ensures fault { result ≡ step_fault self.now caller }
        ensures within { IfNone result (caller < CALLERS_MOST) }
    {
        match self.end_of(caller) {
            None => Some(BenchFault::NoCaller),
            Some(_) if self.is_in_call(caller) => None,
            Some(_) => Some(BenchFault::NoCall),
        }
    }

    /// Does one step of the call that a caller is in, which is never [`Reach::Limit`]. A call that was
    /// begun does its first.
    ///
    /// Errors: as [`Bench::step_fault`] answers. The bench is as it was then.
    pub fn step(&mut self, caller: CallerNo) -> Result<Reach, BenchFault>
        ensures may { OnOk result (step_fault self.old caller ≡ None) }
        ensures left { OnOk result (self.new ≡ (advance_walk self.old 0 0 caller).bench) }
        ensures reach { IfOk result (λ reach. reach ≡ (advance_walk self.old 0 0 caller).reach) }
        ensures done { IfOk result (λ reach. reach ≢ reached.Limit) }
        ensures taken { IfOk result (HoldsReachTaken (link_in self.new) caller) }
        ensures refused { IfErr result (λ why. step_fault self.old caller ≡ Some why) }
        ensures unchanged { OnErr result (self.new ≡ self.old) }
    {
        match self.step_fault(caller) {
            Some(fault) => Err(fault),
            None => Ok(self.next_step(caller)),
        }
    }

    /// Does one step of the call that a caller is in.
    pub fn next_step(&mut self, caller: CallerNo) -> Reach
        requires caller { caller < CALLERS_MOST }
        requires may { step_fault self.old caller ≡ None }
        ensures left { self.new ≡ (advance_walk self.old 0 0 caller).bench }
        ensures reach { result ≡ (advance_walk self.old 0 0 caller).reach }
        ensures done { result ≢ reached.Limit }
        ensures taken { HoldsReachTaken (link_in self.new) caller result }
    {
        let mut reach = Reach::Limit;
        self.step_on(caller, &mut reach);
        reach
    }

    /// The same; `reach` says how far the call came.
    #[inline(always)]
    pub fn step_on(&mut self, caller: CallerNo, reach: &mut Reach)
        requires caller { caller < CALLERS_MOST }
        requires calling { is_in_call self.old caller ≡ true }
        ensures left { self.new ≡ (advance_walk self.old 0 0 caller).bench }
        ensures reach { reach.new ≡ (advance_walk self.old 0 0 caller).reach }
        ensures taken { HoldsReachTaken (link_in self.new) caller reach.new }
    {
        if self.begun[usize::from(caller)].is_some() {
            self.advance(caller, 0, &mut StepCount::new(), reach);
            return;
        }
        later_step(&mut self.link, caller, reach);
    }
}
