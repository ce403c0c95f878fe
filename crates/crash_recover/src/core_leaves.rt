ghost use Rattle.std.specs.Prelude.{◌≡◌, ℕ, true, false, Ok, Some, option_and_then};
ghost use Rattle.link_bench.specs.BenchHolds.{caller_out};
ghost use Rattle.rp_base.specs.declared.kinds.LifeState.TheVariants as state;
ghost use Rattle.proc_state.specs.Lives.{is_offline};
ghost use Rattle.crash_recover.specs.CoreBoots.{in_short};
ghost use Rattle.crash_recover.specs.CoreLeaves.{core_fault_of_leave, detach_of, detached_core, last_leave, leave_in_short, live_inc, shutdown_of, unloaded_core};
ghost use Rattle.crash_recover.specs.declared.core_answers.Leave.TheVariants as leave;

use crate::core_answers::Leave;
use crate::core_faults::{CoreFault, LeaveFault};
use crate::cores::Core;
use proc_state::{Left, Life};
use rp_base::{CallerNo, Inc};

impl Core {
    /// Counts one user fewer. With the last one the core goes offline: image, memory and link go.
    ///
    /// Errors: [`CoreFault::Life`] where the core is neither running nor attached, then
    /// [`CoreFault::CallerOut`] with the least host caller other than 0 that is in a call or holds a
    /// buffer, where the last user leaves. The core is as it was then.
    pub fn shutdown(&mut self) -> Result<Left, CoreFault>
        ensures answer { result ≡ (in_short leave_in_short core_fault_of_leave (shutdown_of true self.old)).answer }
        ensures left { self.new ≡ (shutdown_of true self.old).core }
    {
        Ok(self.shutdown_within(true)?.in_short())
    }

    /// [`Core::shutdown`], where a step may be taken or not: the close of a live link is one. Where it
    /// may not, the answer is [`Leave::Limit`], and the core is as it was.
    ///
    /// Errors, before the step is asked for: [`LeaveFault::Life`] where the core is neither running nor
    /// attached, then [`LeaveFault::CallerOut`] with the least host caller other than 0 that is in a call
    /// or holds a buffer, where the last user leaves. The core is as it was then.
    #[tactic(auto, unfolding(crate::specs::CoreLeaves::shutdown_of))]
    pub fn shutdown_within(&mut self, may_step: bool) -> Result<Leave, LeaveFault>
        ensures answer { result ≡ (shutdown_of may_step self.old).answer }
        ensures left { self.new ≡ (shutdown_of may_step self.old).core }
        ensures step { (inc : ℕ) → result ≡ Ok (leave.Last (Some inc)) → may_step ≡ true }
    {
        let mut life = self.life.copy();
        match life.shutdown()? {
            Left::Users(users) => {
                self.life = life;
                Ok(Leave::Users(users))
            }
            Left::Last => self.shut_last(life, may_step),
        }
    }

    /// Takes the last user away from a core that goes offline.
    fn shut_last(&mut self, life: Life, may_step: bool) -> Result<Leave, LeaveFault>
        requires state { life.state ≡ state.Offline }
        ensures answer { result ≡ (last_leave may_step self.old (unloaded_core life self.old)).answer }
        ensures left { self.new ≡ (last_leave may_step self.old (unloaded_core life self.old)).core }
        ensures step { (inc : ℕ) → result ≡ Ok (leave.Last (Some inc)) → may_step ≡ true }
    {
        if let Some(caller) = self.caller_out() {
            return Err(LeaveFault::CallerOut(caller));
        }
        let live = self.live_inc();
        if live.is_some() && !may_step {
            return Ok(Leave::Limit);
        }
        self.unload(life);
        Ok(Leave::Last(live))
    }

    /// Leaves the core in this life, with nothing loaded.
    fn unload(&mut self, life: Life)
        requires { life.state ≡ state.Offline }
        ensures { self.new ≡ unloaded_core life self.old }
    {
        self.life = life;
        self.image = None;
        self.loaded = None;
        self.bench = None;
    }

    /// Counts one user of an attached core fewer. With the last one the core is left to the other
    /// party: it is detached and keeps its memory, and its link is gone.
    ///
    /// Errors: [`CoreFault::Life`] where the core isn't attached, then [`CoreFault::CallerOut`] as
    /// [`Core::shutdown`] answers it. The core is as it was then.
    pub fn detach(&mut self) -> Result<Left, CoreFault>
        ensures answer { result ≡ (in_short leave_in_short core_fault_of_leave (detach_of true self.old)).answer }
        ensures left { self.new ≡ (detach_of true self.old).core }
    {
        Ok(self.detach_within(true)?.in_short())
    }

    /// [`Core::detach`], where a step may be taken or not: the close of a live link is one. Where it may
    /// not, the answer is [`Leave::Limit`], and the core is as it was.
    ///
    /// Errors, before the step is asked for: [`LeaveFault::Life`] where the core isn't attached, then
    /// [`LeaveFault::CallerOut`] as [`Core::shutdown_within`] answers it. The core is as it was then.
    #[tactic(auto, unfolding(crate::specs::CoreLeaves::detach_of))]
    pub fn detach_within(&mut self, may_step: bool) -> Result<Leave, LeaveFault>
        ensures answer { result ≡ (detach_of may_step self.old).answer }
        ensures left { self.new ≡ (detach_of may_step self.old).core }
        ensures step { (inc : ℕ) → result ≡ Ok (leave.Last (Some inc)) → may_step ≡ true }
    {
        let mut life = self.life.copy();
        match life.detach()? {
            Left::Users(users) => {
                self.life = life;
                Ok(Leave::Users(users))
            }
            Left::Last => self.detach_last(life, may_step),
        }
    }

    /// Takes the last user away from an attached core.
    fn detach_last(&mut self, life: Life, may_step: bool) -> Result<Leave, LeaveFault>
        requires state { life.state ≡ state.Detached }
        requires loaded { is_offline self.old.life.state ≡ false }
        ensures answer { result ≡ (last_leave may_step self.old (detached_core life self.old)).answer }
        ensures left { self.new ≡ (last_leave may_step self.old (detached_core life self.old)).core }
        ensures step { (inc : ℕ) → result ≡ Ok (leave.Last (Some inc)) → may_step ≡ true }
    {
        if let Some(caller) = self.caller_out() {
            return Err(LeaveFault::CallerOut(caller));
        }
        let live = self.live_inc();
        if live.is_some() && !may_step {
            return Ok(Leave::Limit);
        }
        self.life = life;
        self.bench = None;
        Ok(Leave::Last(live))
    }

    /// The least host caller other than 0 that is in a call or holds a buffer.
    fn caller_out(&self) -> Option<CallerNo>
        ensures { result ≡ option_and_then caller_out self.now.bench }
    {
        self.bench.as_ref()?.caller_out()
    }

    /// The incarnation of the core's link, where it is live.
    fn live_inc(&self) -> Option<Inc>
        ensures { result ≡ live_inc self.now.bench }
    {
        let era = self.bench.as_ref()?.era();
        if era.is_live { Some(era.inc) } else { None }
    }
}
