ghost use Rattle.std.specs.Prelude.{IfOk, IfSome, OnErr};
ghost use Rattle.link_bench.specs.Acts.{HoldsAnswerTaken, IsFitAct, bare_act};
ghost use Rattle.link_bench.specs.Benches.{link_in};
ghost use Rattle.crash_recover.specs.CoreActs.{HasCoreActResult, IsCutOnCore, core_act};

use crate::cores::Core;
use link_bench::{ActAnswer, LinkAct, StepCount};
use rp_base::{CallerNo, NoMemory};
use std::alloc::Global;

/// How many callers of its link are a core's own: 0, that of its drivers, and 1, that of its worker.
pub const OWN_CALLERS: CallerNo = 2;

impl Core {
    /// Does an act on the core's link, as on any link, but its own callers are not there. Its drivers
    /// see how the calls of host callers end: what one sends is the last of the host actor's calls.
    /// There is no answer exactly where the core has no link.
    ///
    /// Errors: only if memory runs out, which comes before a call, steps or a turn whose end the drivers
    /// may see. The core is as it was then, or, of a pump, as so many of its turns leave it.
    pub fn act(
        &mut self,
        _alloc: Global,
        act: &LinkAct<&[u8]>,
        steps: &mut StepCount,
    ) -> Result<Option<ActAnswer>, NoMemory>
        requires fit { IsFitAct (bare_act (λ bytes. bytes.now) act.now) }
        ensures acted { IfOk result (HasCoreActResult (core_act self.old steps.old (bare_act (λ bytes. bytes.now) act.now)) self.new steps.new) }
        ensures taken { IfOk result (λ found. IfSome found (λ answer. IfSome self.new.bench (λ bench. HoldsAnswerTaken (link_in bench) answer))) }
        ensures cut { OnErr result (IsCutOnCore self.old steps.old (bare_act (λ bytes. bytes.now) act.now) self.new) }
    {
        let Some(bench) = &mut self.bench else {
            return Ok(None);
        };
        bench.show_sound();
        let answer = bench.act(OWN_CALLERS, &mut self.actors, act, steps)?;
        Ok(Some(answer))
    }
}
