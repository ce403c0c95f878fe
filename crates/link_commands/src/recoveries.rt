ghost use Rattle.std.specs.Prelude.{◌≡◌, ◌∷◌, [], IfOk};
ghost use Rattle.link_commands.specs.Logs.{HasEffect};
ghost use Rattle.link_commands.specs.Recoveries.{close_effect, reopen_effect, reopen_events};

use crate::event_fields::event;
use crate::{NamedBench, Stop};
use journal::Event;
use lane_model::{Already, ReopenFault};
use rp_base::{Era, Name, NoMemory};
use run_log::RunLog;

impl NamedBench {
    /// Closes the link, in one step.
    #[tactic(auto, unfolding(crate::specs::Recoveries::close_effect))]
    pub(crate) fn close(&mut self, log: &mut RunLog) -> Result<Option<Stop>, NoMemory>
        ensures name { self.new.name ≡ self.old.name }
        ensures effect { IfOk result (λ ending. HasEffect (close_effect self.old.name self.old.bench log.old.steps) self.new.bench log.old log.new ending) }
    {
        if !log.count() {
            return Ok(Some(Stop::StepLimit));
        }
        let name = self.name;
        let inc = self.bench.era().inc;
        match self.bench.close() {
            Ok(()) => self.tell(&event!(Closed, name, [inc]), log),
            Err(Already(era)) => self.tell(&Event::Already { name, era }, log),
        }
    }

    /// Opens a closed link again, in its next incarnation.
    #[tactic(auto, unfolding(crate::specs::Recoveries::reopen_effect))]
    pub(crate) fn reopen(&mut self, log: &mut RunLog) -> Result<Option<Stop>, NoMemory>
        ensures name { self.new.name ≡ self.old.name }
        ensures effect { IfOk result (λ ending. HasEffect (reopen_effect self.old.name self.old.bench log.old.steps) self.new.bench log.old log.new ending) }
    {
        let name = self.name;
        let event = match self.bench.reopen(log.alloc()) {
            Ok(books) => Event::Open {
                name,
                inc: u64::from(books.inc) + 1,
            },
            Err(fault) => reopen_fault_event(name, fault)?,
        };
        self.tell(&event, log)
    }
}

/// Why a link is not opened again. Want of memory isn't the link's refusal, and is answered as it is.
pub fn reopen_fault_event(name: Name, fault: ReopenFault) -> Result<Event, NoMemory>
    ensures { IfOk result (λ event. event ∷ [] ≡ reopen_events name fault) }
{
    match fault {
        ReopenFault::StillOpen(Era { inc, .. }) => Ok(event!(StillOpen, name, [inc])),
        ReopenFault::StillTurn(caller) => Ok(event!(StillTurn, name, [caller])),
        ReopenFault::StillHeld(caller, number) => Ok(event!(StillHeld, name, [caller], number)),
        ReopenFault::IncarnationsSpent => Ok(Event::IncarnationsSpent { name }),
        ReopenFault::NoMemory => Err(NoMemory),
    }
}
