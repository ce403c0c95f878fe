ghost use Rattle.std.specs.Prelude.{◌≡◌, ◌<◌, nat_lt, true, None, Some, IfErr, IfNone, IfOk, IfSome, OnErr, OnOk, is_some};
ghost use Rattle.rp_base.specs.declared.limits.TheConstants.{CALLERS_MOST};
ghost use Rattle.link_bench.specs.Acts.{HoldsAnswerTaken, answer_of_reclaim};
ghost use Rattle.link_bench.specs.Benches.{HoldsReachTaken, link_in};
ghost use Rattle.link_bench.specs.BenchRings.{IsSnapshotFault};
ghost use Rattle.link_bench.specs.declared.acts.ActAnswer.TheVariants as answer;
ghost use Rattle.link_bench.specs.declared.acts.LinkAct.TheVariants as act;
ghost use Rattle.crash_recover.specs.CoreActs.{HasCoreActResult, core_act};
ghost use Rattle.crash_recover.specs.CoreCallers.{IsStepFault, caller_answer, core_begin_fault, core_channels, core_receiver, core_snapshot, core_step_fault, core_turn_holder, reach_of, with_core_call};
ghost use Rattle.crash_recover.specs.declared.core_acts.TheConstants.{OWN_CALLERS};

use crate::core_acts::OWN_CALLERS;
use crate::cores::Core;
use lane_model::Wish;
use link_bench::{ActAnswer, BenchFault, LinkAct, Reach, Reclaim, StepCount};
use name_service::Channel;
use rp_base::{CallerNo, End, NoMemory, ring_capacity};
use std::alloc::Global;
use vring_layout::{Snapshot, SnapshotFault};

/// Why a caller of a core's link does no step.
#[derive(Clone, Copy)]
pub enum StepFault {
    /// What the caller is in, or that it isn't in use.
    Bench(BenchFault),
    /// Memory ran out.
    NoMemory,
}

impl From<NoMemory> for StepFault {
    ghost use Rattle.std.specs.Prelude.{◌≡◌};
    ghost use Rattle.crash_recover.specs.declared.core_callers.StepFault.TheVariants as fault;

    ghost from_gives = { λ _ e. e ≡ fault.NoMemory };

    fn from(_error: NoMemory) -> StepFault {
        StepFault::NoMemory
    }
}

/// The calls of the core's link for callers other than the core's own, which are 0 and 1: the acts of
/// [`Core::act`], one by one. The core has a link: there is one exactly where [`Core::link`] gives it.
impl Core {
    /// A new caller at this end of the core's link, as [`Bench::caller`] gives one.
    pub fn caller(&mut self, end: End) -> Option<CallerNo>
        requires { is_some self.old.bench ≡ true }
        ensures acted { HasCoreActResult (core_act self.old 0 (act.Caller end)) self.new 0 (Some (caller_answer end result)) }
        ensures linked { is_some self.new.bench ≡ true }
    {
        let Some(bench) = &mut self.bench else {
            unreachable!()
        };
        bench.caller(end)
    }

    /// Begins a call on the core's link, as [`Bench::begin`] does.
    ///
    /// Errors: [`BenchFault::NoCaller`] for the core's own callers, else those of [`Bench::begin`].
    pub fn begin(&mut self, caller: CallerNo, wished: Wish) -> Result<(), BenchFault>
        requires { is_some self.old.bench ≡ true }
        ensures may { OnOk result (core_begin_fault self.old caller wished ≡ None) }
        ensures begun { OnOk result (self.new ≡ with_core_call self.old caller wished) }
        ensures refused { IfErr result (λ why. core_begin_fault self.old caller wished ≡ Some why) }
        ensures unchanged { OnErr result (self.new ≡ self.old) }
        ensures linked { is_some self.new.bench ≡ true }
    {
        if is_own(caller) {
            return Err(BenchFault::NoCaller);
        }
        let Some(bench) = &mut self.bench else {
            unreachable!()
        };
        bench.begin(caller, wished)
    }

    /// Does one step of the call that a caller of the core's link is in. Where it ends a call of the
    /// host, the drivers see the end: what one sends is the last of the host actor's calls, and an
    /// endpoint that was unbound is driven no more.
    ///
    /// Errors: [`BenchFault::NoCaller`] for the core's own callers, else those of [`Bench::step`],
    /// then [`StepFault::NoMemory`], where a driver may send. The core is as it was then.
    pub fn step(&mut self, alloc: Global, caller: CallerNo) -> Result<Reach, StepFault>
        requires { is_some self.old.bench ≡ true }
        ensures may { OnOk result (core_step_fault self.old caller ≡ None) }
        ensures left { OnOk result (self.new ≡ (core_act self.old 0 (act.Step caller 0)).core) }
        ensures reach { IfOk result (λ reach. (core_act self.old 0 (act.Step caller 0)).answer ≡ Some (answer.Reached caller reach)) }
        ensures taken { IfOk result (λ reach. IfSome self.new.bench (λ bench. HoldsReachTaken (link_in bench) caller reach)) }
        ensures refused { IfErr result (IsStepFault (core_step_fault self.old caller)) }
        ensures unchanged { OnErr result (self.new ≡ self.old) }
        ensures linked { is_some self.new.bench ≡ true }
    {
        if let Some(fault) = self.step_fault(caller) {
            return Err(StepFault::Bench(fault));
        }
        match self.act_step(alloc, caller)? {
            Some(reach) => Ok(reach),
            None => unreachable!(),
        }
    }

    /// Does the act of one step for a caller, and answers how far its call came, where the act answers that.
    ///
    /// Errors: only if memory runs out. The core is as it was then.
    fn act_step(&mut self, alloc: Global, caller: CallerNo) -> Result<Option<Reach>, NoMemory>
        requires { caller < CALLERS_MOST }
        ensures left { OnOk result (self.new ≡ (core_act self.old 0 (act.Step caller 0)).core) }
        ensures reach { IfOk result (λ found. found ≡ reach_of (core_act self.old 0 (act.Step caller 0)).answer) }
        ensures taken { OnOk result (IfSome (core_act self.old 0 (act.Step caller 0)).answer (λ told. IfSome self.new.bench (λ bench. HoldsAnswerTaken (link_in bench) told))) }
        ensures unchanged { OnErr result (self.new ≡ self.old) }
    {
        match self.act(
            alloc,
            &LinkAct::Step { caller, more: 0 },
            &mut StepCount::new(),
        )? {
            Some(ActAnswer::Reached(_, reach)) => Ok(Some(reach)),
            _ => Ok(None),
        }
    }

    /// Why a caller of the core's link does no step: it is one of the core's own, or what it is in.
    fn step_fault(&self, caller: CallerNo) -> Option<BenchFault>
        requires { is_some self.now.bench ≡ true }
        ensures fault { result ≡ core_step_fault self.now caller }
        ensures within { IfNone result (caller < CALLERS_MOST) }
    {
        if is_own(caller) {
            return Some(BenchFault::NoCaller);
        }
        match &self.bench {
            Some(bench) => bench.step_fault(caller),
            None => unreachable!(),
        }
    }

    /// Reclaims a caller of the core's link, as [`Bench::reclaim`] does.
    ///
    /// Errors: [`BenchFault::NoCaller`] exactly where the caller isn't in use, or is the core's own.
    pub fn reclaim(&mut self, caller: CallerNo) -> Result<Reclaim, BenchFault>
        requires { is_some self.old.bench ≡ true }
        ensures acted { HasCoreActResult (core_act self.old 0 (act.Reclaim caller)) self.new 0 (Some (answer_of_reclaim caller result)) }
        ensures linked { is_some self.new.bench ≡ true }
    {
        let Some(bench) = &mut self.bench else {
            unreachable!()
        };
        if is_own(caller) {
            return Err(BenchFault::NoCaller);
        }
        bench.reclaim(caller)
    }

    /// The era of the core's link and the words of both its lanes as they are, over the buffers that
    /// the image's device for RPMsg was given.
    ///
    /// Errors: those of [`Bench::snapshot`].
    pub fn snapshot(&mut self, alloc: Global) -> Result<Snapshot, SnapshotFault>
        requires { is_some self.old.bench ≡ true }
        ensures same { self.new ≡ self.old }
        ensures free { OnOk result (core_turn_holder self.old ≡ None) }
        ensures words { IfOk result (λ snapshot. core_snapshot self.old ≡ Some snapshot) }
        ensures refused { IfErr result (IsSnapshotFault (core_turn_holder self.old)) }
    {
        let Some(bench) = &mut self.bench else {
            unreachable!()
        };
        let Some(loaded) = &self.loaded else {
            return bench.snapshot(alloc);
        };
        match &loaded.rings {
            Some(rings) => bench.snapshot_at(alloc, rings.base, ring_capacity(rings.to_host.num)),
            None => bench.snapshot(alloc),
        }
    }

    /// The channels of the host end of the core's link, in the order of creation.
    ///
    /// Errors: those of [`Bench::channels`].
    pub fn channels(&mut self, alloc: Global) -> Result<Vec<Channel>, SnapshotFault>
        requires { is_some self.old.bench ≡ true }
        ensures same { self.new ≡ self.old }
        ensures free { OnOk result (core_receiver self.old ≡ None) }
        ensures channels { IfOk result (λ channels. core_channels self.old ≡ Some channels.items) }
        ensures refused { IfErr result (IsSnapshotFault (core_receiver self.old)) }
    {
        let Some(bench) = &mut self.bench else {
            unreachable!()
        };
        bench.channels(alloc)
    }
}

/// Whether a caller is one of a core's own.
fn is_own(caller: CallerNo) -> bool
    ensures { result ≡ nat_lt caller OWN_CALLERS }
{
    caller < OWN_CALLERS
}
