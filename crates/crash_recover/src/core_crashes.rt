ghost use Rattle.std.specs.Prelude.{◌≡◌, ℕ, false, true, Ok, Some};
ghost use Rattle.std.specs.Result.{result_map_both};
ghost use Rattle.proc_state.specs.Lives.{is_offline, is_up};
ghost use Rattle.crash_recover.specs.CoreCrashes.{after_report, crashed_core, first_report, link_incarnation, report_in_short, report_of};
ghost use Rattle.crash_recover.specs.declared.core_answers.Crash.TheVariants as crash;

use crate::core_answers::Crash;
use crate::cores::Core;
use proc_state::{Life, LifeFault, Report};
use rp_base::{CrashKind, Inc};

impl Core {
    /// Reports a crash of the core, of a kind that the report names. The first report closes the
    /// incarnation of its link and ends all remote callers; as soon as caller 1 is gone, a new remote
    /// caller is made. Its users and its memory stay.
    ///
    /// Errors: [`LifeFault::NotPowered`] exactly where the core is offline or detached. The core is as it
    /// was then.
    pub fn report(&mut self, kind: CrashKind) -> Result<Report, LifeFault>
        ensures answer { result ≡ result_map_both report_in_short (λ why. why) (report_of true self.old).answer }
        ensures left { self.new ≡ after_report self.old }
    {
        Ok(self.report_within(kind, true)?.report())
    }

    /// [`Core::report`], where a step may be taken or not: the close of a link is one. Where it may not,
    /// the answer is [`Crash::Limit`], and the core is as it was.
    ///
    /// Errors: [`LifeFault::NotPowered`] exactly where the core is offline or detached, before the step is
    /// asked for. The core is as it was then.
    #[tactic(auto, unfolding(crate::specs::CoreCrashes::report_of))]
    pub fn report_within(&mut self, _kind: CrashKind, may_step: bool) -> Result<Crash, LifeFault>
        ensures answer { result ≡ (report_of may_step self.old).answer }
        ensures left { self.new ≡ (report_of may_step self.old).core }
        ensures step { (inc : ℕ) → result ≡ Ok (crash.First (Some inc)) → may_step ≡ true }
    {
        let mut life = self.life.copy();
        match life.crash()? {
            Report::Already => Ok(Crash::Already),
            Report::First => Ok(self.crash_first(life, may_step)),
        }
    }

    /// Reports the first crash of a core, which leaves it in this life.
    fn crash_first(&mut self, life: Life, may_step: bool) -> Crash
        requires loaded { is_offline life.state ≡ is_offline self.old.life.state }
        requires users { life.users ≡ self.old.life.users }
        requires same { life.incarnation ≡ self.old.life.incarnation }
        requires stopped { is_up life.state ≡ false }
        ensures answer { Ok result ≡ (first_report may_step life self.old self.old.bench).answer }
        ensures left { self.new ≡ (first_report may_step life self.old self.old.bench).core }
        ensures step { (inc : ℕ) → result ≡ crash.First (Some inc) → may_step ≡ true }
    {
        if self.bench.is_some() && !may_step {
            return Crash::Limit;
        }
        Crash::First(self.close(life))
    }

    /// Reports the crash of the worker of a core that is up, which is the first: a step of the worker
    /// may always close the link. Answers which incarnation of the link is closed, where there is one.
    pub(crate) fn crash_worker(&mut self) -> Option<Inc>
        requires up { is_up self.old.life.state ≡ true }
        ensures closed { result ≡ link_incarnation self.old.bench }
        ensures answer { (report_of true self.old).answer ≡ Ok (crash.First result) }
        ensures left { self.new ≡ after_report self.old }
    {
        let mut life = self.life.copy();
        life.crash_first();
        self.close(life)
    }

    /// Leaves a core in this life, in which it is crashed, with its link closed, where it has one, and
    /// its remote callers gone. Answers which incarnation of the link that was.
    fn close(&mut self, life: Life) -> Option<Inc>
        requires loaded { is_offline life.state ≡ is_offline self.old.life.state }
        requires users { life.users ≡ self.old.life.users }
        requires same { life.incarnation ≡ self.old.life.incarnation }
        requires stopped { is_up life.state ≡ false }
        ensures closed { result ≡ link_incarnation self.old.bench }
        ensures left { self.new ≡ crashed_core life self.old }
    {
        let Some(bench) = &mut self.bench else {
            self.life = life;
            return None;
        };
        let inc = bench.era().inc;
        bench.crash();
        self.life = life;
        Some(inc)
    }
}
