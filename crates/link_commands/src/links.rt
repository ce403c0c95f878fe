ghost use Rattle.std.specs.Prelude.{◌≡◌, ◌++◌, IfOk, OnOk};
ghost use Rattle.journal.specs.Lines.{transcript};
ghost use Rattle.journal.specs.declared.events.Event.TheVariants as event;
ghost use Rattle.link_bench.specs.Acts.{IsFitAct, bare_act};
ghost use Rattle.link_commands.specs.declared.acts.LinkView.TheVariants as view;
ghost use Rattle.link_commands.specs.Acts.{IsFitNamed, IsFitView, bare_named_act};
ghost use Rattle.link_commands.specs.Effects.{act_effect, tells};
ghost use Rattle.link_commands.specs.LinkCommands.{link_effect, view_events};
ghost use Rattle.link_commands.specs.Logs.{HasEffect};

use crate::act_events::tell_answer;
use crate::channel_lists::tell_channels;
use crate::rings::tell_ring;
use crate::{LinkView, ManagerAct, NamedAct, Stop};
use journal::Event;
use link_bench::{Bench, LinkAct, Nobody};
use rp_base::{Name, NoMemory};
use run_log::RunLog;
use std::marker::Model;

/// A link of a script, with its name.
#[derive(Drop)]
pub struct NamedBench {
    pub name: Name,
    pub bench: Bench,
}

impl Model for NamedBench {
    ghost use Rattle.link_commands.specs.NamedLinks.{NamedLink};

    ghost Value = { NamedLink };

    ghost view = { λ n. record { name = n.name; bench = n.bench } };
}

impl NamedBench {
    /// Does what is asked under the name of this link: writes what came of it, and answers why the run
    /// stops in its midst, if it does.
    ///
    /// Errors: only if memory runs out. The link may have changed then, or not.
    #[tactic(auto, unfolding(crate::specs::LinkCommands::link_effect))]
    pub fn run(&mut self, act: &NamedAct<&[u8]>, log: &mut RunLog) -> Result<Option<Stop>, NoMemory>
        requires fit { IsFitNamed (bare_named_act (λ bytes. bytes.now) act.now) }
        ensures name { self.new.name ≡ self.old.name }
        ensures effect { IfOk result (λ ending. HasEffect (link_effect self.old log.old.steps (bare_named_act (λ bytes. bytes.now) act.now)) self.new.bench log.old log.new ending) }
    {
        match act {
            NamedAct::Make(_) => self.tell(&Event::Exists { name: self.name }, log),
            NamedAct::Link(act) => self.act(act, log),
            NamedAct::Manage(ManagerAct::Close) => self.close(log),
            NamedAct::Manage(ManagerAct::Reopen) => self.reopen(log),
            NamedAct::Show(view) => {
                tell_view(self.name, &mut self.bench, *view, log)?;
                Ok(None)
            }
            NamedAct::Core(_) => self.tell(&Event::Unknown { name: self.name }, log),
        }
    }

    /// Does an act on the link for its callers.
    fn act(&mut self, act: &LinkAct<&[u8]>, log: &mut RunLog) -> Result<Option<Stop>, NoMemory>
        requires fit { IsFitAct (bare_act (λ bytes. bytes.now) act.now) }
        ensures name { self.new.name ≡ self.old.name }
        ensures effect { IfOk result (λ ending. HasEffect (act_effect self.old.name self.old.bench log.old.steps (bare_act (λ bytes. bytes.now) act.now)) self.new.bench log.old log.new ending) }
    {
        match self.bench.act(0, &mut Nobody, act, &mut log.steps) {
            Ok(answer) => tell_answer(self.name, &self.bench, answer, log),
            Err(error) => Err(error),
        }
    }

    /// Writes one event, and leaves the link as it is.
    pub(crate) fn tell(&mut self, event: &Event, log: &mut RunLog) -> Result<Option<Stop>, NoMemory>
        ensures same { self.new ≡ self.old }
        ensures effect { IfOk result (λ ending. HasEffect (tells self.old.bench log.old.steps event.now) self.new.bench log.old log.new ending) }
    {
        log.tell(event)?;
        Ok(None)
    }
}

/// Writes what a link shows.
#[tactic(auto, unfolding(crate::specs::LinkCommands::view_events))]
fn tell_view(
    name: Name,
    bench: &mut Bench,
    view: LinkView,
    log: &mut RunLog,
) -> Result<(), NoMemory>
    requires { IsFitView view }
    ensures same { bench.new ≡ bench.old }
    ensures told { OnOk result (log.new ≡ record log.old { lines = log.old.lines ++ transcript (view_events name bench.old view) }) }
{
    match view {
        LinkView::Books => tell_books(name, bench, log),
        LinkView::Ring { lane } => tell_ring(name, bench, lane, log),
        LinkView::Channels => tell_channels(name, bench.channels(log.alloc()), log),
    }
}

/// Writes the counts of both lanes of the link of this name.
///
/// Errors: only if memory runs out.
#[tactic(auto, unfolding(crate::specs::LinkCommands::view_events))]
pub fn tell_books(name: Name, bench: &Bench, log: &mut RunLog) -> Result<(), NoMemory>
    ensures { OnOk result (log.new ≡ record log.old { lines = log.old.lines ++ transcript (view_events name bench.now view.Books) }) }
{
    log.tell(&lane_event(name, 0, bench.counts(0)))?;
    log.tell(&lane_event(name, 1, bench.counts(1)))
}

/// The counts of a lane: messages accepted and handed over, buffers given back.
fn lane_event(name: Name, lane: u64, counts: (u64, u64, u64)) -> Event
    ensures { result ≡ event.LaneAcceptedHandedReturned name lane counts.0 counts.1 counts.2 }
{
    Event::LaneAcceptedHandedReturned {
        name,
        lane,
        accepted: counts.0,
        handed: counts.1,
        returned: counts.2,
    }
}
