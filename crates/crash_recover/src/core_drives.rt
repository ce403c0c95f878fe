ghost use Rattle.std.specs.Prelude.{◌≡◌, false, true, is_some, OnErr, OnOk, IfOk, IfSome};
ghost use Rattle.channel_bus.specs.Sides.{EndState};
ghost use Rattle.lane_model.specs.Links.{LinkState};
ghost use Rattle.proc_state.specs.Lives.{is_up};
ghost use Rattle.core_actors.specs.declared.actors.Actor.TheVariants as actor;
ghost use Rattle.core_actors.specs.ActorSteps.{HoldsDrivenTaken, has_calls, is_rest};
ghost use Rattle.link_bench.specs.Benches.{link_in};
ghost use Rattle.crash_recover.specs.Drives.{core_with_report, drive_step, driven_with_report, is_idle, is_idle_actor, record_run, record_step, step_or_rest, with_turn_after};

use crate::cores::Core;
use core_actors::{Actor, DriveOutcome, HOST_CALLER, WORKER_CALLER};
use rp_base::NoMemory;
use std::alloc::Global;

impl Core {
    /// Whether neither actor of the core has anything to do: the host actor is in no call, has none to
    /// make, and no message waits for it; the worker is in no call, and has ended or waits for a
    /// message. Without a link there is only the worker, and without memory none.
    pub fn is_idle(&self) -> bool
        ensures { result ≡ is_idle self.now }
    {
        self.actors.is_host_idle(&self.bench)
            && (self.loaded.is_none() || self.actors.is_worker_idle(&self.bench))
    }

    /// One step of the actors of a core that is up. The one whose turn is next makes it, unless
    /// it has nothing to do; then the turn is the other's. A call under way goes on by one step; else
    /// the first call that is yet to be made does its first; else the host actor begins a take, and
    /// the worker runs one record. What the ends of the host's calls have its drivers send is the last
    /// of its calls.
    ///
    /// Errors: only if memory runs out. The core is as it was then.
    pub fn drive_step(&mut self, alloc: Global) -> Result<DriveOutcome, NoMemory>
        requires { is_up self.old.life.state ≡ true }
        ensures driven { IfOk result (λ driven. driven ≡ (drive_step self.old).driven) }
        ensures taken { IfOk result (λ driven. IfSome self.new.bench (λ bench. HoldsDrivenTaken (link_in bench) driven)) }
        ensures left { OnOk result (self.new ≡ (drive_step self.old).core) }
        ensures unchanged { OnErr result (self.new ≡ self.old) }
    {
        let mut driven = DriveOutcome::Idle;
        self.drive_on(alloc, &mut driven)?;
        Ok(driven)
    }

    /// The same step; `driven` says what it was.
    ///
    /// Errors: only if memory runs out. The core is as it was then.
    #[inline]
    pub fn drive_on(&mut self, _alloc: Global, driven: &mut DriveOutcome) -> Result<(), NoMemory>
        requires { is_up self.old.life.state ≡ true }
        ensures rests { OnOk result (is_rest driven.new ≡ is_idle self.old) }
        ensures driven { OnOk result (driven.new ≡ (drive_step self.old).driven) }
        ensures taken { OnOk result (IfSome self.new.bench (λ bench. HoldsDrivenTaken (link_in bench) driven.new)) }
        ensures left { OnOk result (self.new ≡ (drive_step self.old).core) }
        ensures unchanged { OnErr result (self.new ≡ self.old) }
    {
        match self.actors.next() {
            Actor::Host => {
                self.host_step(driven)?;
                if driven.is_rest() {
                    self.worker_step(driven)?;
                }
            }
            Actor::Worker => {
                self.worker_step(driven)?;
                if driven.is_rest() {
                    self.host_step(driven)?;
                }
            }
        }
        Ok(())
    }

    /// A step of the host actor, unless it has nothing to do. The next turn is the worker's then.
    #[inline(always)]
    fn host_step(&mut self, driven: &mut DriveOutcome) -> Result<(), NoMemory>
        requires { is_up self.old.life.state ≡ true }
        ensures rests { OnOk result (is_rest driven.new ≡ is_idle_actor self.old actor.Host) }
        ensures driven { OnOk result (driven.new ≡ (step_or_rest actor.Host self.old).driven) }
        ensures taken { OnOk result (IfSome self.new.bench (λ bench. HoldsDrivenTaken (link_in bench) driven.new)) }
        ensures left { OnOk result (self.new ≡ (step_or_rest actor.Host self.old).core) }
        ensures unchanged { OnErr result (self.new ≡ self.old) }
    {
        let Some(bench) = &mut self.bench else {
            *driven = DriveOutcome::Idle;
            return Ok(());
        };
        let goes_on = bench.is_caller_busy(HOST_CALLER);
        if !goes_on && self.actors.host_waits(bench) {
            *driven = DriveOutcome::Idle;
            return Ok(());
        }
        self.actors.host_step(bench, goes_on, driven)
    }

    /// A step of the worker, unless it has nothing to do. The next turn is the host actor's then.
    #[inline(always)]
    fn worker_step(&mut self, driven: &mut DriveOutcome) -> Result<(), NoMemory>
        requires { is_up self.old.life.state ≡ true }
        ensures rests { OnOk result (is_rest driven.new ≡ is_idle_actor self.old actor.Worker) }
        ensures driven { OnOk result (driven.new ≡ (step_or_rest actor.Worker self.old).driven) }
        ensures taken { OnOk result (IfSome self.new.bench (λ bench. HoldsDrivenTaken (link_in bench) driven.new)) }
        ensures left { OnOk result (self.new ≡ (step_or_rest actor.Worker self.old).core) }
        ensures unchanged { OnErr result (self.new ≡ self.old) }
    {
        if self.loaded.is_none() {
            *driven = DriveOutcome::Idle;
            return Ok(());
        }
        let Some(bench) = &mut self.bench else {
            if self.actors.is_halted() {
                *driven = DriveOutcome::Idle;
                return Ok(());
            }
            return self.record_step(driven);
        };
        let goes_on = bench.is_caller_busy(WORKER_CALLER);
        if !goes_on {
            if self.actors.worker_waits(bench) {
                *driven = DriveOutcome::Idle;
                return Ok(());
            }
            if !self.actors.has_worker_calls() {
                return self.record_step(driven);
            }
        }
        self.actors.worker_step(bench, goes_on, driven)
    }

    /// The worker of a core that is loaded, which makes no call, runs one record. A crash is reported.
    #[inline(always)]
    fn record_step(&mut self, driven: &mut DriveOutcome) -> Result<(), NoMemory>
        requires up { is_up self.old.life.state ≡ true }
        requires loaded { is_some self.old.loaded ≡ true }
        requires silent { has_calls self.old.bench self.old.actors ≡ false }
        ensures works { OnOk result (is_rest driven.new ≡ false) }
        ensures driven { OnOk result (driven.new ≡ (record_step (with_turn_after actor.Worker self.old)).driven) }
        ensures taken { OnOk result ((link : LinkState EndState) → HoldsDrivenTaken link driven.new) }
        ensures left { OnOk result (self.new ≡ (record_step (with_turn_after actor.Worker self.old)).core) }
        ensures unchanged { OnErr result (self.new ≡ self.old) }
    {
        self.run_record(driven)?;
        self.report_crash(driven);
        Ok(())
    }

    /// The worker of a core that is loaded, which makes no call, runs one record. A crash is not reported
    /// yet.
    #[inline(always)]
    fn run_record(&mut self, driven: &mut DriveOutcome) -> Result<(), NoMemory>
        requires loaded { is_some self.old.loaded ≡ true }
        requires silent { has_calls self.old.bench self.old.actors ≡ false }
        ensures works { OnOk result (is_rest driven.new ≡ false) }
        ensures life { self.new.life ≡ self.old.life }
        ensures driven { OnOk result (driven.new ≡ (record_run (with_turn_after actor.Worker self.old) self.old.loaded).driven) }
        ensures taken { OnOk result ((link : LinkState EndState) → HoldsDrivenTaken link driven.new) }
        ensures left { OnOk result (self.new ≡ (record_run (with_turn_after actor.Worker self.old) self.old.loaded).core) }
        ensures unchanged { OnErr result (self.new ≡ self.old) }
    {
        let _ = self.regions.as_slice();
        let linked = self.bench.is_some();
        let Some(loaded) = &mut self.loaded else {
            unreachable!();
        };
        self.actors.run_record(loaded, linked, driven)?;
        Ok(())
    }

    /// Reports the crash that a step of the worker was, if it was one, and says what that closed.
    fn report_crash(&mut self, driven: &mut DriveOutcome)
        requires up { is_up self.old.life.state ≡ true }
        ensures core { self.new ≡ core_with_report driven.old self.old }
        ensures driven { driven.new ≡ driven_with_report driven.old self.old }
        ensures works { is_rest driven.new ≡ is_rest driven.old }
        ensures taken { (link : LinkState EndState) → HoldsDrivenTaken link driven.old → HoldsDrivenTaken link driven.new }
    {
        match driven {
            DriveOutcome::Worker(_, closed) => *closed = self.crash_worker(),
            DriveOutcome::Crashed(_, closed) => *closed = self.crash_worker(),
            DriveOutcome::Idle | DriveOutcome::Stepped | DriveOutcome::Ended(_, _) => {}
        }
    }
}
