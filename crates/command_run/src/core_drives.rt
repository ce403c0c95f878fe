ghost use Rattle.std.specs.Prelude.{◌≡◌, ◌==◌, ◌≤◌, ◌+◌, ◌||◌, ◌⊎◌, ◌∷◌, ◌++◌, not, true, IfOk, IfErr, IfSome, OnOk};
ghost use Rattle.journal.specs.declared.events.Event.TheVariants as event;
ghost use Rattle.journal.specs.Lines.{transcript};
ghost use Rattle.run_log.specs.Logs.{Keeps, KeepsLess};
ghost use Rattle.command_run.specs.Outcomes.{CutsCore, DrivesHanding, DrivesOn, HandsCoreEffect, HasCoreEffect, KeepsWhole};
ghost use Rattle.command_run.specs.Fetches.{EndsCut, IfSinkFailed};
ghost use Rattle.rp_base.specs.declared.limits.TheConstants.{STEPS_MOST};
ghost use Rattle.command_run.specs.declared.core_drives.TheConstants.{STRETCH};
ghost use Rattle.core_actors.specs.ActorSteps.{HoldsDrivenTaken};
ghost use Rattle.link_bench.specs.Benches.{HoldsTaken, link_in};
ghost use Rattle.proc_state.specs.Lives.{is_up};
ghost use Rattle.crash_recover.specs.Drives.{drive_step, is_idle};
ghost use Rattle.remote_code.specs.Faults.{fault_number};
ghost use Rattle.rp_base.specs.declared.kinds.CrashKind.TheVariants as kind;
ghost use Rattle.command_run.specs.CoreLives.{crash_events};
ghost use Rattle.command_run.specs.CoreDrives.{IsDriven, actor_end_events, drive_effect, drive_end, drive_steps, driven_events, is_crashed, is_over, rest_event, step_events};

use crate::{NamedCore, OutputFault};
use crash_recover::{DriveOutcome, Reach};
use journal::Event;
use lane_model::CallEnd;
use link_commands::{Stop, event, tell_reach};
use remote_code::WorkerFault;
use rp_base::{CallerNo, CrashKind, Inc, LifeState, NoMemory, STEPS_MOST};
use rp_io::Sink;
use run_log::RunLog;

/// After how many steps of a drive it is looked whether what is kept is a whole piece.
pub const STRETCH: u64 = 1_024;

impl NamedCore {
    /// So many steps of the core's actors, fewer where it crashes or both have nothing to do before.
    #[tactic(auto, unfolding(crate::specs::CoreDrives::drive_effect))]
    pub(crate) fn drive(
        &mut self,
        count: u64,
        is_quiet: bool,
        log: &mut RunLog,
    ) -> Result<Option<Stop>, NoMemory>
        ensures name { self.new.name ≡ self.old.name }
        ensures effect { IfOk result (λ ending. HasCoreEffect (drive_effect self.old.name is_quiet self.old.core log.old.steps count) self.new.core log.old log.new ending) }
    {
        if !self.core.life().is_up() {
            return self.tell(&Event::NotRunning { name: self.name }, log);
        }
        self.drive_running(count, is_quiet, log)
    }

    /// The same of a core that is up, or has crashed in this drive.
    fn drive_running(
        &mut self,
        count: u64,
        is_quiet: bool,
        log: &mut RunLog,
    ) -> Result<Option<Stop>, NoMemory>
        requires { IsDriven self.old.core }
        ensures name { self.new.name ≡ self.old.name }
        ensures effect { IfOk result (λ ending. HasCoreEffect (drive_steps count self.old.name is_quiet self.old.core log.old.steps) self.new.core log.old log.new ending) }
    {
        let left = self.advance(count, count, is_quiet, log)?;
        self.end_drive(left, log)
    }

    /// A drive that hands on what is written as it goes.
    #[tactic(auto, unfolding(crate::specs::CoreDrives::drive_effect))]
    pub(crate) fn drive_handing<K: Sink>(
        &mut self,
        count: u64,
        is_quiet: bool,
        log: &mut RunLog,
        out: &mut K,
    ) -> Result<Option<Stop>, OutputFault>
        ensures name { self.new.name ≡ self.old.name }
        ensures effect { IfOk result (λ ending. HandsCoreEffect (drive_effect self.old.name is_quiet self.old.core log.old.steps count) self.new.core log.old log.new (K.written out.old) (K.written out.new) ending) }
        ensures same { OnOk result (K.faults out.new ≡ K.faults out.old) }
        ensures cut { IfErr result (λ why. EndsCut why (log.old.lines ++ transcript (drive_effect self.old.name is_quiet self.old.core log.old.steps count).events)
            (K.written out.old) (K.written out.new) (K.faults out.old) (K.faults out.new)) }
        ensures paused { IfErr result (λ why. IfSinkFailed why (CutsCore (λ done. drive_effect self.old.name is_quiet self.old.core log.old.steps done)
            count self.new.core log.old.lines (K.written out.old) (K.written out.new))) }
        ensures less { IfOk result (λ _. KeepsLess log.old → KeepsWhole (λ done. (drive_effect self.old.name is_quiet self.old.core log.old.steps done).events) count log.new.lines) }
    {
        if !self.core.life().is_up() {
            return Ok(self.drive(count, is_quiet, log)?);
        }
        let left = self.drive_pieces(count, is_quiet, log, out)?;
        Ok(self.drive_running(left, is_quiet, log)?)
    }

    /// The steps of a drive that come before its last ones. What they write is handed on as they go, and
    /// the answer is how many steps of the drive are left.
    fn drive_pieces<K: Sink>(
        &mut self,
        count: u64,
        is_quiet: bool,
        log: &mut RunLog,
        out: &mut K,
    ) -> Result<u64, OutputFault>
        requires { IsDriven self.old.core }
        ensures name { self.new.name ≡ self.old.name }
        ensures on { IfOk result (λ left. DrivesHanding self.old.name is_quiet count self.old.core log.old (K.written out.old) left self.new.core log.new (K.written out.new)) }
        ensures same { OnOk result (K.faults out.new ≡ K.faults out.old) }
        ensures cut { IfErr result (λ why. EndsCut why (log.old.lines ++ transcript (drive_steps count self.old.name is_quiet self.old.core log.old.steps).events)
            (K.written out.old) (K.written out.new) (K.faults out.old) (K.faults out.new)) }
        ensures paused { IfErr result (λ why. IfSinkFailed why (CutsCore (λ done. drive_steps done self.old.name is_quiet self.old.core log.old.steps)
            count self.new.core log.old.lines (K.written out.old) (K.written out.new))) }
        ensures near { IfOk result (λ left. (left ≤ STRETCH) ⊎ (is_over self.old.name self.new.core log.new.steps ≡ true)) }
        ensures less { IfOk result (λ _. KeepsLess log.old → KeepsLess log.new) }
    {
        let mut left = count;
        while left > STRETCH {
            let before = left;
            left = self.advance(before, STRETCH, is_quiet, log)?;
            log.hand_on(out)?;
            if before - left < STRETCH {
                return Ok(left);
            }
        }
        Ok(left)
    }

    /// The first `most` steps of a drive of `count` steps, and no more of them; fewer where it is over
    /// before. The answer is how many of its steps are left.
    #[inline(never)]
    fn advance(
        &mut self,
        count: u64,
        most: u64,
        is_quiet: bool,
        log: &mut RunLog,
    ) -> Result<u64, NoMemory>
        requires most { most ≤ count }
        requires up { IsDriven self.old.core }
        ensures name { self.new.name ≡ self.old.name }
        ensures on { IfOk result (λ left. DrivesOn self.old.name is_quiet count self.old.core log.old left self.new.core log.new) }
        ensures within { IfOk result (λ left. left ≤ count) }
        ensures most { IfOk result (λ left. count ≤ left + most) }
        ensures over { IfOk result (λ left. (left + most ≡ count) ⊎ (is_over self.old.name self.new.core log.new.steps ≡ true)) }
    {
        let mut driven = DriveOutcome::Idle;
        for done in 0..most {
            if self.is_over(log.steps()) {
                return Ok(count - done);
            }
            if !self.drive_on(is_quiet, &mut driven, log)? {
                return Ok(count - done);
            }
            log.count();
        }
        Ok(count - most)
    }

    /// Whether a drive ends here whatever the actors have to do: the core crashed, or the run has no
    /// step left.
    #[inline(always)]
    fn is_over(&self, steps: u64) -> bool
        ensures { result ≡ (is_crashed self.now.core.life.state || steps == STEPS_MOST) }
    {
        self.core.life().state() == LifeState::Crashed || steps == STEPS_MOST
    }

    /// The end of a drive that is over, or of which no step is left.
    fn end_drive(&mut self, left: u64, log: &mut RunLog) -> Result<Option<Stop>, NoMemory>
        ensures same { self.new ≡ self.old }
        ensures effect { IfOk result (λ ending. HasCoreEffect (drive_end left self.old.name self.old.core log.old.steps) self.new.core log.old log.new ending) }
    {
        match self.rest_event() {
            Some(event) => self.tell(&event, log),
            None if left == 0 => self.tell(&Event::Paused { name: self.name }, log),
            None => Ok(Some(Stop::StepLimit)),
        }
    }

    /// Why the actors of the core make no further step, if they don't.
    fn rest_event(&self) -> Option<Event>
        ensures { result ≡ rest_event self.now.name self.now.core }
    {
        if self.core.life().state() == LifeState::Crashed {
            return Some(Event::Stopped { name: self.name });
        }
        if self.core.is_idle() {
            Some(Event::Idle { name: self.name })
        } else {
            None
        }
    }

    /// One step of the actors of a core that is up, which `driven` says: writes what it was, and answers
    /// whether they had something to do.
    #[inline(always)]
    fn drive_on(
        &mut self,
        is_quiet: bool,
        driven: &mut DriveOutcome,
        log: &mut RunLog,
    ) -> Result<bool, NoMemory>
        requires { is_up self.old.core.life.state ≡ true }
        ensures name { self.new.name ≡ self.old.name }
        ensures steps { IfOk result (λ stepped. stepped ≡ not (is_idle self.old.core)) }
        ensures core { IfOk result (λ _. self.new.core ≡ (drive_step self.old.core).core) }
        ensures told { IfOk result (λ _. Keeps log.old log.new (step_events self.old.name is_quiet (drive_step self.old.core))) }
    {
        self.core.drive_on(log.alloc(), driven)?;
        self.tell_drive_step(driven, is_quiet, log)?;
        Ok(!driven.is_rest())
    }

    /// Writes what a step of the actors was.
    #[inline(always)]
    fn tell_drive_step(
        &self,
        driven: &DriveOutcome,
        is_quiet: bool,
        log: &mut RunLog,
    ) -> Result<(), NoMemory>
        requires { IfSome self.now.core.bench (λ bench. HoldsDrivenTaken (link_in bench) driven.now) }
        ensures { IfOk result (λ _. Keeps log.old log.new (driven_events self.now.name is_quiet self.now.core.bench driven.now)) }
    {
        match driven {
            DriveOutcome::Idle | DriveOutcome::Stepped => Ok(()),
            DriveOutcome::Ended(_, _) if is_quiet => Ok(()),
            DriveOutcome::Ended(caller, end) => self.tell_end(*caller, end, log),
            DriveOutcome::Worker(fault, closed) => self.tell_fault(*fault, *closed, log),
            DriveOutcome::Crashed(kind, closed) => self.tell_crash(*kind, *closed, log),
        }
    }

    /// Writes a record that can't run, which crashed the core.
    #[inline(never)]
    fn tell_fault(
        &self,
        fault: WorkerFault,
        closed: Option<Inc>,
        log: &mut RunLog,
    ) -> Result<(), NoMemory>
        ensures { IfOk result (λ _. Keeps log.old log.new (event.WorkerFault self.now.name (fault_number fault) ∷ crash_events self.now.name kind.Fatal closed)) }
    {
        let (name, fault) = (self.name, fault.number());
        log.tell(&event!(WorkerFault, name, [fault]))?;
        self.tell_crash(CrashKind::Fatal, closed, log)
    }

    /// Writes the end of a call of an actor.
    #[inline(never)]
    pub(crate) fn tell_end(
        &self,
        caller: CallerNo,
        end: &CallEnd,
        log: &mut RunLog,
    ) -> Result<(), NoMemory>
        requires { IfSome self.now.core.bench (λ bench. HoldsTaken (link_in bench) caller end.now) }
        ensures { IfOk result (λ _. Keeps log.old log.new (actor_end_events self.now.name caller end.now self.now.core.bench)) }
    {
        let Some(bench) = self.core.link() else {
            return Ok(());
        };
        tell_reach(self.name, bench, caller, Reach::Ended(*end), log)?;
        Ok(())
    }

    /// Writes a crash of the core, and which incarnation of its link this closed, if it closed one.
    #[inline(never)]
    fn tell_crash(
        &self,
        kind: CrashKind,
        closed: Option<Inc>,
        log: &mut RunLog,
    ) -> Result<(), NoMemory>
        ensures { IfOk result (λ _. Keeps log.old log.new (crash_events self.now.name kind closed)) }
    {
        let name = self.name;
        if let Some(inc) = closed {
            log.tell(&event!(Closed, name, [inc]))?;
        }
        log.tell(&Event::Crashed { name, kind })
    }
}
