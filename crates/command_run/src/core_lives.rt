ghost use Rattle.std.specs.Prelude.{◌≡◌, ◌<◌, ◌+◌, ◌++◌, ◌∷◌, [], ℕ, IfOk, OnOk, Ok, Err, Some};
ghost use Rattle.rp_base.specs.declared.limits.TheConstants.{STEPS_MOST};
ghost use Rattle.crash_recover.specs.declared.core_answers.Crash.TheVariants as crash;
ghost use Rattle.crash_recover.specs.declared.core_answers.Leave.TheVariants as leave;
ghost use Rattle.journal.specs.Lines.{line};
ghost use Rattle.journal.specs.declared.events.Event.TheVariants as event;
ghost use Rattle.command_run.specs.Outcomes.{HasCoreEffect};
ghost use Rattle.command_run.specs.CoreEffects.{core_tells_all};
ghost use Rattle.command_run.specs.CoreLives.{crash_effect, detach_effect, fault_at, leave_effect, life_fault_event, report_effect, shutdown_effect, start_events, start_fault_events, start_name};

use crate::NamedCore;
use crash_recover::{CALLER_OUT, Crash, Leave, LeaveFault, RINGS_CHANGED, Start, StartFault};
use journal::Event;
use link_commands::{StartAct, Stop, event, reopen_fault_event};
use proc_state::LifeFault;
use rp_base::{CrashKind, Inc, Name, NoMemory, STEPS_MOST};
use rp_io::NoImage;
use run_log::RunLog;

impl NamedCore {
    /// The name of the image with which the core is started: for a recovery that with which it was
    /// booted or handed over, of an offline core its own.
    pub(crate) fn start_name(&self, start: StartAct) -> Name
        ensures { result ≡ start_name start self.now }
    {
        match start {
            StartAct::Boot { image } | StartAct::Handover { image } => image,
            StartAct::Recover => match self.core.image() {
                Some(image) => *image,
                None => self.name,
            },
        }
    }

    /// Writes what a start of the core with the image of a name was, or why it was refused.
    pub(crate) fn tell_start(
        &mut self,
        image: Name,
        started: Result<Start, StartFault>,
        log: &mut RunLog,
    ) -> Result<Option<Stop>, NoMemory>
        ensures same { self.new ≡ self.old }
        ensures effect { IfOk result (λ ending. HasCoreEffect (core_tells_all self.old.core log.old.steps (start_events self.old.name image started)) self.new.core log.old log.new ending) }
    {
        let name = self.name;
        let event = match started {
            Ok(Start::Running(inc)) => event!(Running, name, [inc]),
            Ok(Start::Attached(inc)) => event!(Attached, name, [inc]),
            Ok(Start::Users(users)) => event!(Users, name, [users]),
            Ok(Start::Detached) => Event::Detached { name },
            Err(fault) => start_fault_event(name, image, fault)?,
        };
        self.tell(&event, log)
    }

    /// Takes a user away from the core, and shuts it down with the last.
    #[tactic(auto, unfolding(crate::specs::CoreLives::shutdown_effect))]
    pub(crate) fn shutdown(&mut self, log: &mut RunLog) -> Result<Option<Stop>, NoMemory>
        ensures name { self.new.name ≡ self.old.name }
        ensures effect { IfOk result (λ ending. HasCoreEffect (shutdown_effect self.old.name self.old.core log.old.steps) self.new.core log.old log.new ending) }
    {
        let left = self.core.shutdown_within(log.steps() != STEPS_MOST);
        self.tell_leave(left, &Event::Offline { name: self.name }, log)
    }

    /// Takes a user away from an attached core, and detaches it with the last.
    #[tactic(auto, unfolding(crate::specs::CoreLives::detach_effect))]
    pub(crate) fn detach(&mut self, log: &mut RunLog) -> Result<Option<Stop>, NoMemory>
        ensures name { self.new.name ≡ self.old.name }
        ensures effect { IfOk result (λ ending. HasCoreEffect (detach_effect self.old.name self.old.core log.old.steps) self.new.core log.old log.new ending) }
    {
        let left = self.core.detach_within(log.steps() != STEPS_MOST);
        self.tell_leave(left, &Event::Detached { name: self.name }, log)
    }

    /// Writes what the leave of a user was, with this event where it was the last, or why it was
    /// refused. The close of a link is a step.
    fn tell_leave(
        &mut self,
        left: Result<Leave, LeaveFault>,
        last: &Event,
        log: &mut RunLog,
    ) -> Result<Option<Stop>, NoMemory>
        requires step { (inc : ℕ) → left ≡ Ok (leave.Last (Some inc)) → log.old.steps < STEPS_MOST }
        ensures same { self.new ≡ self.old }
        ensures effect { IfOk result (λ ending. HasCoreEffect (leave_effect self.old.name last.now log.old.steps (record { core = self.old.core; answer = left })) self.new.core log.old log.new ending) }
    {
        let name = self.name;
        match left {
            Ok(Leave::Users(users)) => self.tell(&event!(Users, name, [users]), log),
            Ok(Leave::Last(None)) => self.tell(last, log),
            Ok(Leave::Last(Some(inc))) => {
                self.tell_close(inc, log)?;
                self.tell(last, log)
            }
            Ok(Leave::Limit) => Ok(Some(Stop::StepLimit)),
            Err(LeaveFault::Life(fault)) => self.tell(&life_fault_event(name, fault), log),
            Err(LeaveFault::CallerOut(caller)) => {
                let fault = fault_at(name, CALLER_OUT, Some(u16::from(caller)));
                self.tell(&fault, log)
            }
        }
    }

    /// Reports a crash of the core.
    #[tactic(auto, unfolding(crate::specs::CoreLives::crash_effect))]
    pub(crate) fn crash(
        &mut self,
        kind: CrashKind,
        log: &mut RunLog,
    ) -> Result<Option<Stop>, NoMemory>
        ensures name { self.new.name ≡ self.old.name }
        ensures effect { IfOk result (λ ending. HasCoreEffect (crash_effect self.old.name self.old.core log.old.steps kind) self.new.core log.old log.new ending) }
    {
        let report = self.core.report_within(kind, log.steps() != STEPS_MOST);
        self.tell_report(report, kind, log)
    }

    /// Writes what a crash report was, or why it was refused. The close of a link is a step.
    fn tell_report(
        &mut self,
        report: Result<Crash, LifeFault>,
        kind: CrashKind,
        log: &mut RunLog,
    ) -> Result<Option<Stop>, NoMemory>
        requires step { (inc : ℕ) → report ≡ Ok (crash.First (Some inc)) → log.old.steps < STEPS_MOST }
        ensures same { self.new ≡ self.old }
        ensures effect { IfOk result (λ ending. HasCoreEffect (report_effect self.old.name kind log.old.steps (record { core = self.old.core; answer = report })) self.new.core log.old log.new ending) }
    {
        let name = self.name;
        match report {
            Ok(Crash::First(None)) => self.tell(&Event::Crashed { name, kind }, log),
            Ok(Crash::First(Some(inc))) => {
                self.tell_close(inc, log)?;
                self.tell(&Event::Crashed { name, kind }, log)
            }
            Ok(Crash::Already) => self.tell(&Event::AlreadyCrashed { name }, log),
            Ok(Crash::Limit) => Ok(Some(Stop::StepLimit)),
            Err(fault) => self.tell(&life_fault_event(name, fault), log),
        }
    }

    /// Counts the step that closed an incarnation of the core's link, and writes it.
    fn tell_close(&self, inc: Inc, log: &mut RunLog) -> Result<(), NoMemory>
        requires { log.old.steps < STEPS_MOST }
        ensures { OnOk result (log.new ≡ record { lines = log.old.lines ++ line (event.Closed self.now.name inc); steps = log.old.steps + 1 }) }
    {
        let name = self.name;
        log.count();
        log.tell(&event!(Closed, name, [inc]))
    }
}

/// Why a core is not started with the image of a name.
fn start_fault_event(name: Name, image: Name, fault: StartFault) -> Result<Event, NoMemory>
    ensures { IfOk result (λ event. event ∷ [] ≡ start_fault_events name image fault) }
{
    match fault {
        StartFault::NoImage(NoImage::Missing) => Ok(Event::Missing { name, image }),
        StartFault::NoImage(NoImage::TooLarge(_)) => Ok(Event::TooLarge { name, image }),
        StartFault::Load(fault) => Ok(fault_at(name, fault.number().unwrap_or(0), fault.index())),
        StartFault::Life(fault) => Ok(life_fault_event(name, fault)),
        StartFault::RingsChanged => Ok(fault_at(name, RINGS_CHANGED, None)),
        StartFault::Reopen(fault) => reopen_fault_event(name, fault),
    }
}

/// Why the life of a core refuses something.
fn life_fault_event(name: Name, fault: LifeFault) -> Event
    ensures { result ≡ life_fault_event name fault }
{
    match fault {
        LifeFault::IncarnationsSpent => Event::IncarnationsSpent { name },
        _ => fault_at(name, fault.number(), None),
    }
}

/// A fault by its number, and the number of what it is about, if it is about something.
pub(crate) fn fault_at(name: Name, fault: u8, index: Option<u16>) -> Event
    ensures { result ≡ fault_at name fault index }
{
    match index {
        Some(index) => event!(FaultAt, name, [fault, index]),
        None => event!(Fault, name, [fault]),
    }
}
