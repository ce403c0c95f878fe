ghost use Rattle.rp_base.specs.declared.limits.TheConstants.{CALLERS_MOST};
ghost use Rattle.std.specs.Prelude.{◌≡◌, ◌<◌, length, false, None, Some, IfOk, OnErr, OnOk};
ghost use Rattle.channel_bus.specs.Sides.{EndState};
ghost use Rattle.lane_model.specs.Conditions.{MayStep};
ghost use Rattle.lane_model.specs.Links.{LinkState};
ghost use Rattle.lane_model.specs.Soundness.{SoundLink};
ghost use Rattle.remote_core.specs.Works.{memory_after, work_of};
ghost use Rattle.core_actors.specs.Actors.{actors_view};
ghost use Rattle.core_actors.specs.declared.actors.Actor.TheVariants as actor;
ghost use Rattle.link_bench.specs.Benches.{HoldsReachTaken, advance_walk, begin_fault, is_in_call, link_in, start_walk, step_fault};
ghost use Rattle.link_bench.specs.Watchers.{watcher_after};
ghost use Rattle.core_actors.specs.ActorEnds.{actors_after_end};
ghost use Rattle.core_actors.specs.ActorSteps.{HoldsDrivenTaken, actors_after_record, drive_of_reach, drive_of_work, first_or_take, host_after_step, host_at_step, is_rest, link_step, with_next_after, worker_after_step};
ghost use Rattle.core_actors.specs.PendingCalls.{AreOwnUsed, AreReady};

use crate::actors::{Actor, Actors, HOST_CALLER, WORKER_CALLER, make_room};
use crate::progress::DriveOutcome;
use fw_load::Loaded;
use lane_model::Wish;
use link_bench::{Bench, Reach, StepCount};
use remote_core::Task;
use rp_base::{CallerNo, NoMemory};
use std::collections::VecDeque;

/// A step of an actor: a call under way does one step, else the first of these calls, or a take
/// where there is none, begins and does its first. `reach` says how far it came. The link was sound,
/// and the step one that could be done on it.
#[inline(always)]
fn link_step(
    bench: &mut Bench,
    caller: CallerNo,
    goes_on: bool,
    calls: &VecDeque<Wish>,
    reach: &mut Reach,
)
    requires caller { caller < CALLERS_MOST }
    requires calling { goes_on ≡ is_in_call bench.old caller }
    requires begins { goes_on ≡ false → begin_fault bench.old caller (first_or_take calls.now.items) ≡ None }
    ensures bench { bench.new ≡ (link_step bench.old caller (first_or_take calls.now.items)).bench }
    ensures reach { reach.new ≡ (link_step bench.old caller (first_or_take calls.now.items)).reach }
    ensures taken { HoldsReachTaken (link_in bench.new) caller reach.new }
    ensures sound { SoundLink (link_in bench.old) }
    ensures may { goes_on ≡ false → MayStep (link_in bench.old) caller (Some (first_or_take calls.now.items)) }
{
    bench.show_sound();
    if goes_on {
        bench.step_on(caller, reach);
        return;
    }
    match calls.front() {
        Some(first) => begin_step(bench, caller, first, reach),
        None => begin_step(bench, caller, &Wish::Take, reach),
    }
}

/// Begins a call that a caller may begin, and does its first step.
#[inline(never)]
fn begin_step(bench: &mut Bench, caller: CallerNo, wished: &Wish, reach: &mut Reach)
    requires begins { begin_fault bench.old caller wished.now ≡ None }
    ensures bench { bench.new ≡ (start_walk bench.old 0 caller wished.now).bench }
    ensures reach { reach.new ≡ (start_walk bench.old 0 caller wished.now).reach }
    ensures taken { HoldsReachTaken (link_in bench.new) caller reach.new }
    ensures may { MayStep (link_in bench.old) caller (Some wished.now) }
{
    bench.start(caller, wished, &mut StepCount::new(), reach);
}

/// What a step of this caller's call was that came so far.
fn tell_reach(caller: CallerNo, reach: &Reach, driven: &mut DriveOutcome)
    ensures { driven.new ≡ drive_of_reach caller reach.now }
{
    *driven = match reach {
        Reach::Ended(end) => DriveOutcome::Ended(caller, *end),
        _ => DriveOutcome::Stepped,
    };
}

impl Actors {
    /// A step of the host actor on a core's link, whose callers 0 and 1 are the actors' own and on which
    /// both are ready for their next steps, before and after it. The next turn is the worker's. `driven`
    /// says what the step was.
    ///
    /// Errors: only if memory runs out. The link and the actors are as they were then.
    #[inline(always)]
    pub fn host_step(
        &mut self,
        bench: &mut Bench,
        goes_on: bool,
        driven: &mut DriveOutcome,
    ) -> Result<(), NoMemory>
        requires calling { goes_on ≡ is_in_call bench.old 0 }
        requires own { AreOwnUsed (link_in bench.old).callers }
        requires ready { AreReady (actors_view self.old) bench.old }
        ensures bench { OnOk result (bench.new ≡ (link_step bench.old 0 (first_or_take (actors_view self.old).host_calls)).bench) }
        ensures actors { OnOk result (let walk = link_step bench.old 0 (first_or_take (actors_view self.old).host_calls) in
            actors_view self.new ≡ host_after_step (host_at_step bench.old (with_next_after actor.Host (actors_view self.old))) walk.bench walk.reach) }
        ensures driven { OnOk result (driven.new ≡ drive_of_reach 0 (link_step bench.old 0 (first_or_take (actors_view self.old).host_calls)).reach) }
        ensures taken { OnOk result (HoldsDrivenTaken (link_in bench.new) driven.new) }
        ensures works { OnOk result (is_rest driven.new ≡ false) }
        ensures ready { OnOk result (AreReady (actors_view self.new) bench.new) }
        ensures same { OnErr result (bench.new ≡ bench.old) }
        ensures unchanged { OnErr result (actors_view self.new ≡ actors_view self.old) }
    {
        make_room(&mut self.host_calls, 2)?;
        self.next = Actor::Worker;
        self.begin_host(goes_on);
        let mut reach = Reach::At(0);
        link_step(bench, HOST_CALLER, goes_on, &self.host_calls, &mut reach);
        self.reach_host(bench, &reach);
        tell_reach(HOST_CALLER, &reach, driven);
        Ok(())
    }

    /// A step of a call of the worker on a core's link, over the same callers, on which both actors are
    /// ready too, before and after it. The next turn is the host actor's. `driven` says what the step was.
    ///
    /// Errors: only if memory runs out. The link and the actors are as they were then.
    #[inline(always)]
    pub fn worker_step(
        &mut self,
        bench: &mut Bench,
        goes_on: bool,
        driven: &mut DriveOutcome,
    ) -> Result<(), NoMemory>
        requires calling { goes_on ≡ is_in_call bench.old 1 }
        requires own { AreOwnUsed (link_in bench.old).callers }
        requires ready { AreReady (actors_view self.old) bench.old }
        ensures bench { OnOk result (bench.new ≡ (link_step bench.old 1 (first_or_take (actors_view self.old).worker_calls)).bench) }
        ensures actors { OnOk result (let walk = link_step bench.old 1 (first_or_take (actors_view self.old).worker_calls) in
            actors_view self.new ≡ worker_after_step (with_next_after actor.Worker (actors_view self.old)) walk.bench walk.reach) }
        ensures driven { OnOk result (driven.new ≡ drive_of_reach 1 (link_step bench.old 1 (first_or_take (actors_view self.old).worker_calls)).reach) }
        ensures taken { OnOk result (HoldsDrivenTaken (link_in bench.new) driven.new) }
        ensures works { OnOk result (is_rest driven.new ≡ false) }
        ensures ready { OnOk result (AreReady (actors_view self.new) bench.new) }
        ensures same { OnErr result (bench.new ≡ bench.old) }
        ensures unchanged { OnErr result (actors_view self.new ≡ actors_view self.old) }
    {
        make_room(&mut self.worker_calls, 1)?;
        self.next = Actor::Host;
        let mut reach = Reach::At(0);
        link_step(
            bench,
            WORKER_CALLER,
            goes_on,
            &self.worker_calls,
            &mut reach,
        );
        self.reach_worker(bench, &reach);
        tell_reach(WORKER_CALLER, &reach, driven);
        Ok(())
    }

    /// The worker runs one record of an image that is loaded. The next turn is the host actor's.
    /// `driven` says what the step was.
    ///
    /// Errors: only if memory runs out. Memory and actors are as they were then.
    #[inline(never)]
    pub fn run_record(
        &mut self,
        load: &mut Loaded,
        linked: bool,
        driven: &mut DriveOutcome,
    ) -> Result<(), NoMemory>
        requires { length load.old.memory ≡ load.old.map.memory_len }
        ensures loaded { OnOk result (load.new ≡ record load.old { memory = memory_after load.old.memory load.old.map linked (actors_view self.old).worker }) }
        ensures memory { length load.new.memory ≡ length load.old.memory }
        ensures actors { OnOk result (actors_view self.new ≡ actors_after_record (with_next_after actor.Worker (actors_view self.old)) load.old.memory load.old.map linked) }
        ensures driven { OnOk result (driven.new ≡ drive_of_work (work_of load.old.memory load.old.map linked (actors_view self.old).worker)) }
        ensures taken { OnOk result ((link : LinkState EndState) → HoldsDrivenTaken link driven.new) }
        ensures works { OnOk result (is_rest driven.new ≡ false) }
        ensures same { OnErr result (load.new ≡ load.old) }
        ensures unchanged { OnErr result (actors_view self.new ≡ actors_view self.old) }
    {
        make_room(&mut self.worker_calls, 1)?;
        self.next = Actor::Host;
        let mut wish = Wish::Take;
        match self
            .worker
            .work(&mut load.memory, &load.map, linked, &mut wish)
        {
            Task::Nothing | Task::Halted => *driven = DriveOutcome::Stepped,
            Task::Asked => {
                self.worker_calls.push_back_reserved(wish);
                *driven = DriveOutcome::Stepped;
            }
            Task::Crash(kind) => *driven = DriveOutcome::Crashed(kind, None),
            Task::Fault(fault) => *driven = DriveOutcome::Worker(fault, None),
        }
        Ok(())
    }
}
