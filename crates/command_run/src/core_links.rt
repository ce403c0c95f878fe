ghost use Rattle.std.specs.Prelude.{◌≡◌, ◌≤◌, IfOk};
ghost use Rattle.link_bench.specs.Acts.{IsFitAct, bare_act};
ghost use Rattle.link_commands.specs.Acts.{IsFitView};
ghost use Rattle.link_commands.specs.declared.acts.LinkView.TheVariants as view;
ghost use Rattle.command_run.specs.Outcomes.{HasCoreEffect};
ghost use Rattle.crash_recover.specs.CoreCallers.{core_turn_holder};
ghost use Rattle.command_run.specs.CoreEffects.{core_tells_all};
ghost use Rattle.command_run.specs.CoreLinks.{core_link_effect, core_ring_events, found_view_events, link_view_events};

use crate::NamedCore;
use crash_recover::{Core, LinkAct};
use journal::Event;
use link_commands::{LinkView, Stop, event, tell_answer, tell_books, tell_bytes, tell_channels};
use rp_base::{CallerNo, NoMemory};
use run_log::RunLog;

impl NamedCore {
    /// Does an act on the core's link for callers that are not the core's own.
    #[tactic(auto, unfolding(crate::specs::CoreLinks::core_link_effect))]
    pub(crate) fn act(
        &mut self,
        act: &LinkAct<&[u8]>,
        log: &mut RunLog,
    ) -> Result<Option<Stop>, NoMemory>
        requires fit { IsFitAct (bare_act (λ bytes. bytes.now) act.now) }
        ensures name { self.new.name ≡ self.old.name }
        ensures effect { IfOk result (λ ending. HasCoreEffect (core_link_effect self.old.name self.old.core log.old.steps (bare_act (λ bytes. bytes.now) act.now) self.old.core.bench) self.new.core log.old log.new ending) }
    {
        match self.core.act(log.alloc(), act, &mut log.steps) {
            Ok(Some(answer)) => {
                let Some(bench) = self.core.link() else {
                    unreachable!()
                };
                tell_answer(self.name, bench, answer, log)
            }
            Ok(None) => self.tell(&Event::NoLink { name: self.name }, log),
            Err(error) => Err(error),
        }
    }

    /// Writes what the core's link shows.
    pub(crate) fn show(
        &mut self,
        view: LinkView,
        log: &mut RunLog,
    ) -> Result<Option<Stop>, NoMemory>
        requires { IsFitView view }
        ensures same { self.new ≡ self.old }
        ensures effect { IfOk result (λ ending. HasCoreEffect (core_tells_all self.old.core log.old.steps (link_view_events self.old.name self.old.core view)) self.new.core log.old log.new ending) }
    {
        match view {
            LinkView::Ring { lane } => self.tell_ring(lane, log),
            LinkView::Books => self.tell_books(log),
            LinkView::Channels => self.tell_channels(log),
        }
    }

    /// Writes the counts of both lanes of the core's link.
    fn tell_books(&mut self, log: &mut RunLog) -> Result<Option<Stop>, NoMemory>
        ensures same { self.new ≡ self.old }
        ensures effect { IfOk result (λ ending. HasCoreEffect (core_tells_all self.old.core log.old.steps (found_view_events self.old.name view.Books self.old.core.bench)) self.new.core log.old log.new ending) }
    {
        let name = self.name;
        let Some(bench) = self.core.link() else {
            return self.tell(&Event::NoLink { name }, log);
        };
        tell_books(name, bench, log)?;
        Ok(None)
    }

    /// Writes the channels that the host end of the core's link knows.
    fn tell_channels(&mut self, log: &mut RunLog) -> Result<Option<Stop>, NoMemory>
        ensures same { self.new ≡ self.old }
        ensures effect { IfOk result (λ ending. HasCoreEffect (core_tells_all self.old.core log.old.steps (found_view_events self.old.name view.Channels self.old.core.bench)) self.new.core log.old log.new ending) }
    {
        let name = self.name;
        if self.core.link().is_none() {
            return self.tell(&Event::NoLink { name }, log);
        }
        tell_channels(name, self.core.channels(log.alloc()), log)?;
        Ok(None)
    }

    /// Writes the bytes of a lane's ring of the core's link, unless one of its turns is out.
    #[tactic(auto, unfolding(crate::specs::CoreLinks::core_ring_events))]
    fn tell_ring(&mut self, lane: u64, log: &mut RunLog) -> Result<Option<Stop>, NoMemory>
        requires { lane ≤ 1 }
        ensures same { self.new ≡ self.old }
        ensures effect { IfOk result (λ ending. HasCoreEffect (core_tells_all self.old.core log.old.steps (core_ring_events self.old.name self.old.core lane)) self.new.core log.old log.new ending) }
    {
        let name = self.name;
        if let Some(caller) = turn_holder(&self.core) {
            return self.tell(&event!(StillTurn, name, [caller]), log);
        }
        let Some(bytes) = self.core.ring_bytes(log.alloc(), lane)? else {
            return self.tell(&Event::NoLink { name }, log);
        };
        tell_bytes(name, lane, &bytes, log)?;
        Ok(None)
    }
}

/// Who has the first turn of a core's link that is out.
fn turn_holder(core: &Core) -> Option<CallerNo>
    ensures { result ≡ core_turn_holder core.now }
{
    core.link()?.turn_holder()
}
