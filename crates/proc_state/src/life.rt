ghost use Rattle.std.specs.Prelude.{◌≡◌, ◌≤◌, ◌+◌, ◌==◌, ℕ, true, false, Ok, OnOk, if◌then◌else◌};
ghost use Rattle.rp_base.specs.declared.kinds.LifeState.TheVariants as state;
ghost use Rattle.proc_state.specs.Lives.{AreIn, IsReachable, first_start, is_offline, is_up, life_after_boot, life_after_crash, life_after_detach, life_after_handover, life_after_recovery, life_after_shutdown, most, new_life, recovery_fault, with_user, without_user};
ghost use Rattle.proc_state.specs.declared.answers.Left.TheVariants as left;
ghost use Rattle.proc_state.specs.declared.answers.Power.TheVariants as power;
ghost use Rattle.proc_state.specs.declared.answers.Report.TheVariants as report;

use crate::answers::{Left, LifeFault, Power, Report};
use rp_base::{Inc, LifeState};
use std::marker::Model;

/// The life of a remote core. A core is booted by its first user and runs until its last user
/// shuts it down. One that another party has started is attached to by its first user, until the last
/// shuts it down or detaches it. Where a core crashes it keeps its users, until it is recovered.
#[derive(Drop)]
pub struct Life {
    state: LifeState,
    users: u32,
    incarnation: Inc,
    recovery: bool,
}

impl Model for Life {
    ghost use Rattle.proc_state.specs.Lives.{CoreLife, IsReachable};

    ghost Value = { CoreLife };

    ghost view = { λ a. record { state = a.state; users = a.users; incarnation = a.incarnation; recovery = a.recovery } };

    ghost invariant = { λ a. IsReachable (record { state = a.state; users = a.users; incarnation = a.incarnation; recovery = a.recovery }) };
}

impl Life {
    /// The life of a core that was never booted: offline, without users, in incarnation 0, with
    /// its recovery on.
    pub fn new() -> Life
        ensures { result ≡ new_life }
    {
        Life {
            state: LifeState::Offline,
            users: 0,
            incarnation: 0,
            recovery: true,
        }
    }

    /// The same life once more, to try what a call makes of it.
    pub fn copy(&self) -> Life
        ensures { result ≡ self.now }
    {
        Life {
            state: self.state,
            users: self.users,
            incarnation: self.incarnation,
            recovery: self.recovery,
        }
    }

    /// The state of the core.
    pub fn state(&self) -> LifeState
        ensures state { result ≡ self.now.state }
        ensures reachable { IsReachable self.now }
    {
        self.state
    }

    /// How many users the core has.
    pub fn users(&self) -> u32
        ensures { result ≡ self.now.users }
    {
        self.users
    }

    /// The number of the life that the core is in, from 1. An offline core keeps the number of
    /// its last life, and one that was never booted has 0.
    pub fn incarnation(&self) -> Inc
        ensures { result ≡ self.now.incarnation }
    {
        self.incarnation
    }

    /// Whether a crashed core may be recovered.
    pub fn recovery(&self) -> bool
        ensures { result ≡ self.now.recovery }
    {
        self.recovery
    }

    /// Sets whether a crashed core may be recovered (`recovery` of the Linux remoteproc
    /// documentation).
    pub fn set_recovery(&mut self, on: bool)
        ensures { self.new ≡ record self.old { recovery = on } }
    {
        self.recovery = on;
    }

    /// Whether the core is up: it runs, or is attached.
    pub fn is_up(&self) -> bool
        ensures { result ≡ is_up self.now.state }
    {
        matches!(self.state, LifeState::Running | LifeState::Attached)
    }

    /// Takes an offline core over from another party that has started it. The core is detached: it
    /// has no users yet.
    ///
    /// Errors: `NotOffline` exactly where the core isn't offline, which leaves the life as it was.
    pub fn handover(&mut self) -> Result<(), LifeFault>
        ensures left { self.new ≡ (life_after_handover self.old).life }
        ensures answer { result ≡ (life_after_handover self.old).answer }
        ensures detached { OnOk result ((self.new.state ≡ state.Detached) × (self.new.users ≡ self.old.users)) }
    {
        if self.state != LifeState::Offline {
            return Err(LifeFault::NotOffline);
        }
        self.state = LifeState::Detached;
        Ok(())
    }

    /// Counts one more user. The first one starts a core that is offline (`rproc_boot`), and attaches
    /// to one that is detached (`rproc_attach`).
    ///
    /// Errors: `UsersFull` at 2^32 - 1 users, and without users `IncarnationsSpent` at incarnation
    /// 2^32 - 1. Both leave the life as it was.
    pub fn boot(&mut self) -> Result<Power, LifeFault>
        ensures left { self.new ≡ (life_after_boot self.old).life }
        ensures answer { result ≡ (life_after_boot self.old).answer }
        ensures first { result ≡ Ok power.First → (is_offline self.new.state ≡ false) × (1 ≤ self.new.users) × (1 ≤ self.new.incarnation) }
        ensures counted { (users : ℕ) → result ≡ Ok (power.Counted users) → (self.new.state ≡ self.old.state) × (1 ≤ self.new.users) }
    {
        match self.state {
            LifeState::Offline => self.start(LifeState::Running),
            LifeState::Detached => self.start(LifeState::Attached),
            LifeState::Running | LifeState::Attached | LifeState::Crashed => self.count_up(),
        }
    }

    /// Starts a core without users in this state, for its first one.
    fn start(&mut self, state: LifeState) -> Result<Power, LifeFault>
        requires up { is_up state ≡ true }
        ensures left { self.new ≡ (first_start state 1 power.First self.old).life }
        ensures answer { result ≡ (first_start state 1 power.First self.old).answer }
        ensures first { result ≡ Ok power.First → (self.new.state ≡ state) × (1 ≤ self.new.users) × (1 ≤ self.new.incarnation) }
    {
        self.incarnation = next_incarnation(self.incarnation)?;
        self.state = state;
        self.users = 1;
        Ok(Power::First)
    }

    /// Counts one more user of a core that has some.
    fn count_up(&mut self) -> Result<Power, LifeFault>
        requires { 1 ≤ self.old.users }
        ensures left { self.new ≡ (with_user self.old).life }
        ensures answer { result ≡ (with_user self.old).answer }
    {
        self.users = self.users.checked_add(1).ok_or(LifeFault::UsersFull)?;
        Ok(Power::Counted(self.users))
    }

    /// Counts one user fewer, and puts the core offline at none (`rproc_shutdown`).
    ///
    /// Errors: `NotPowered` exactly where the core is neither running nor attached, which leaves the
    /// life as it was.
    pub fn shutdown(&mut self) -> Result<Left, LifeFault>
        ensures left { self.new ≡ (life_after_shutdown self.old).life }
        ensures answer { result ≡ (life_after_shutdown self.old).answer }
        ensures last { result ≡ Ok left.Last → self.new.state ≡ state.Offline }
        ensures more { (users : ℕ) → result ≡ Ok (left.Users users) → (self.new.state ≡ self.old.state) × (1 ≤ self.new.users) }
    {
        if !self.is_up() {
            return Err(LifeFault::NotPowered);
        }
        Ok(self.count_down(LifeState::Offline))
    }

    /// Counts one user of an attached core fewer, and leaves it to the other party at none
    /// (`rproc_detach`).
    ///
    /// Errors: `NotAttached` exactly where the core isn't attached, which leaves the life as it was.
    pub fn detach(&mut self) -> Result<Left, LifeFault>
        ensures left { self.new ≡ (life_after_detach self.old).life }
        ensures answer { result ≡ (life_after_detach self.old).answer }
        ensures last { result ≡ Ok left.Last → self.new.state ≡ state.Detached }
        ensures more { (users : ℕ) → result ≡ Ok (left.Users users) → (self.new.state ≡ self.old.state) × (1 ≤ self.new.users) }
        ensures attached { OnOk result (self.old.state ≡ state.Attached) }
    {
        if self.state != LifeState::Attached {
            return Err(LifeFault::NotAttached);
        }
        Ok(self.count_down(LifeState::Detached))
    }

    /// Counts one user fewer of a core that is up, which is in this state at none.
    fn count_down(&mut self, at_none: LifeState) -> Left
        requires up { is_up self.old.state ≡ true }
        requires at_none { (users : ℕ) → AreIn at_none 0 users }
        ensures left { self.new ≡ (without_user at_none self.old).life }
        ensures answer { Ok result ≡ (without_user at_none self.old).answer }
        ensures more { (users : ℕ) → result ≡ left.Users users → (self.new.state ≡ self.old.state) × (1 ≤ self.new.users) }
    {
        self.users -= 1;
        if self.users == 0 {
            self.state = at_none;
            return Left::Last;
        }
        Left::Users(self.users)
    }

    /// Reports a crash of the core (`rproc_report_crash`). Its users stay.
    ///
    /// Errors: `NotPowered` exactly where the core is offline or detached, which leaves the life as it
    /// was.
    pub fn crash(&mut self) -> Result<Report, LifeFault>
        ensures left { self.new ≡ (life_after_crash self.old).life }
        ensures answer { result ≡ (life_after_crash self.old).answer }
        ensures loaded { is_offline self.new.state ≡ is_offline self.old.state }
        ensures users { self.new.users ≡ self.old.users }
    {
        match self.state {
            LifeState::Offline | LifeState::Detached => Err(LifeFault::NotPowered),
            LifeState::Running | LifeState::Attached => {
                self.crash_first();
                Ok(Report::First)
            }
            LifeState::Crashed => Ok(Report::Already),
        }
    }

    /// Reports the first crash of a core that is up. Its users stay.
    pub fn crash_first(&mut self)
        requires up { is_up self.old.state ≡ true }
        ensures left { self.new ≡ record self.old { state = state.Crashed } }
        ensures crashed { self.new ≡ (life_after_crash self.old).life }
        ensures first { (life_after_crash self.old).answer ≡ Ok report.First }
    {
        self.state = LifeState::Crashed;
    }

    /// Why the core is not recovered, whatever incarnation is left: `NotCrashed` where it isn't crashed,
    /// then `RecoveryOff` where its recovery is off.
    pub fn recovery_fault(&self) -> Option<LifeFault>
        ensures { result ≡ recovery_fault self.now }
    {
        if self.state != LifeState::Crashed {
            return Some(LifeFault::NotCrashed);
        }
        if !self.recovery {
            return Some(LifeFault::RecoveryOff);
        }
        None
    }

    /// Starts a crashed core again, in its next incarnation (`rproc_trigger_recovery`). Its users
    /// stay.
    ///
    /// Errors: as [`Life::recovery_fault`] answers, then `IncarnationsSpent` at incarnation 2^32 - 1.
    /// Each leaves the life as it was.
    pub fn recover(&mut self) -> Result<(), LifeFault>
        ensures left { self.new ≡ (life_after_recovery self.old).life }
        ensures answer { result ≡ (life_after_recovery self.old).answer }
        ensures running { OnOk result (self.new.state ≡ state.Running) }
        ensures users { self.new.users ≡ self.old.users }
    {
        match self.recovery_fault() {
            Some(fault) => Err(fault),
            None => self.start_again(),
        }
    }

    /// Starts a core that may be recovered again, in its next incarnation. Its users stay.
    ///
    /// Errors: `IncarnationsSpent` exactly at incarnation 2^32 - 1, which leaves the life as it was.
    pub fn start_again(&mut self) -> Result<(), LifeFault>
        requires may { recovery_fault self.old ≡ None }
        ensures left { self.new ≡ (life_after_recovery self.old).life }
        ensures answer { result ≡ (life_after_recovery self.old).answer }
        ensures running { OnOk result (self.new.state ≡ state.Running) }
        ensures users { self.new.users ≡ self.old.users }
    {
        self.incarnation = next_incarnation(self.incarnation)?;
        self.state = LifeState::Running;
        Ok(())
    }
}

/// The number of the life after this one. There is none after 2^32 - 1.
fn next_incarnation(now: Inc) -> Result<Inc, LifeFault>
    ensures { result ≡ (if now == most then Err LifeFault.IncarnationsSpent else Ok (now + 1)) }
{
    now.checked_add(1).ok_or(LifeFault::IncarnationsSpent)
}
