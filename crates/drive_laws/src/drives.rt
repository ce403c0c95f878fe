//! Laws of the actors of a core. Each is the contract of an empty function, and speaks of definitions alone.

ghost use Rattle.std.specs.Prelude.{◌≡◌, ◌⊎◌, ◌<◌, ◌≤◌, ℕ, ◌+◌, Bool, true, false, List, [], ◌∷◌, Ok, Err, Some, None, is_some};
ghost use Rattle.addr_translate.specs.Maps.{Mapping};
ghost use Rattle.lane_model.specs.declared.calls.CallEnd.{CallEnd};
ghost use Rattle.lane_model.specs.declared.calls.Wish.{Wish};
ghost use Rattle.lane_model.specs.declared.calls.Wish.TheVariants as wish;
ghost use Rattle.remote_code.specs.declared.faults.WorkerFault.{WorkerFault};
ghost use Rattle.remote_code.specs.declared.records.Record.{Record};
ghost use Rattle.remote_core.specs.Records.{next_record, record_at};
ghost use Rattle.remote_core.specs.Workers.{WorkerState};
ghost use Rattle.remote_core.specs.Works.{after_work};
ghost use Rattle.link_bench.specs.Benches.{BenchState, advance_walk, is_in_call, start_walk};
ghost use Rattle.core_actors.specs.declared.actors.Actor.{Actor};
ghost use Rattle.core_actors.specs.declared.actors.Actor.TheVariants as actor;
ghost use Rattle.core_actors.specs.declared.progress.DriveOutcome.TheVariants as driven;
ghost use Rattle.core_actors.specs.Actors.{ActorsState, other_actor};
ghost use Rattle.crash_recover.specs.Cores.{CoreState, LoadState};
ghost use Rattle.core_actors.specs.ActorEnds.{actors_after_end};
ghost use Rattle.core_actors.specs.ActorSteps.{has_calls};
ghost use Rattle.crash_recover.specs.Drives.{drive_step, is_idle, is_idle_actor, placed_map};
ghost use Rattle.drive_laws.specs.Places.{StaysAt, GoesOn};
ghost use Rattle.drive_laws.specs.Queues.{IsQueued, IsServed};
ghost use Rattle.drive_laws.specs.Steps.{step_by, rests, after_steps, drive_length, after_drive};

/// The actors take turns: a step is that of the actor whose turn it is, or that of the other where this one has nothing to do, and after it
/// the turn is that of the one who did not make it. Where both have nothing to do there is no step.
pub fn turns()
    ensures own { (core : CoreState) → is_idle_actor core core.actors.next ≡ false → drive_step core ≡ step_by core.actors.next core }
    ensures passed { (core : CoreState) → let other = other_actor core.actors.next in
        is_idle_actor core core.actors.next ≡ true → is_idle_actor core other ≡ false → drive_step core ≡ step_by other core }
    ensures rest { (core : CoreState) → is_idle_actor core actor.Host ≡ true → is_idle_actor core actor.Worker ≡ true
        → drive_step core ≡ record { core = core; driven = driven.Idle } }
    ensures behind { (core : CoreState) (one : Actor) → (step_by one core).core.actors.next ≡ other_actor one }
{}

/// No actor waits while it has something to do and the other rests: it makes the step then. As long as it has something to do, one of any two
/// steps in a row is its own.
pub fn no_wait()
    ensures alone { (core : CoreState) (one : Actor) → is_idle_actor core one ≡ false → is_idle_actor core (other_actor one) ≡ true
        → drive_step core ≡ step_by one core }
    ensures two { (core : CoreState) (one : Actor) → is_idle_actor core one ≡ false → let next = (drive_step core).core in
        is_idle_actor next one ≡ false → (drive_step core ≡ step_by one core) ⊎ (drive_step next ≡ step_by one next) }
{}

/// A step is one of an actor that does something, unless both have nothing to do.
pub fn idle()
    ensures { (core : CoreState) → (drive_step core).driven ≡ driven.Idle → is_idle core ≡ true }
{}

/// What an actor does on the link: a call under way goes on by one step; else the first of the calls that it is yet to make begins, with its
/// first step; and else the host actor begins a take.
pub fn calls()
    ensures host_on { (core : CoreState) (bench : BenchState) → core.bench ≡ Some bench → is_in_call bench 0 ≡ true
        → (step_by actor.Host core).core.bench ≡ Some (advance_walk bench 0 0 0).bench }
    ensures host_first { (core : CoreState) (bench : BenchState) (first : Wish) (later : List Wish) → core.bench ≡ Some bench → is_in_call bench 0 ≡ false
        → core.actors.host_calls ≡ first ∷ later
        → (step_by actor.Host core).core.bench ≡ Some (start_walk bench 0 0 first).bench }
    ensures host_take { (core : CoreState) (bench : BenchState) → core.bench ≡ Some bench → is_in_call bench 0 ≡ false
        → core.actors.host_calls ≡ []
        → (step_by actor.Host core).core.bench ≡ Some (start_walk bench 0 0 wish.Take).bench }
    ensures worker_on { (core : CoreState) (bench : BenchState) → core.bench ≡ Some bench → is_in_call bench 1 ≡ true
        → (step_by actor.Worker core).core.bench ≡ Some (advance_walk bench 0 0 1).bench }
    ensures worker_first { (core : CoreState) (bench : BenchState) (first : Wish) (later : List Wish) → core.bench ≡ Some bench → is_in_call bench 1 ≡ false
        → core.actors.worker_calls ≡ first ∷ later
        → (step_by actor.Worker core).core.bench ≡ Some (start_walk bench 0 1 first).bench }
{}

/// What an actor is yet to do is done in order: a call goes from the start of its list, and new ones come after the others. But the worker
/// gives back what it took before it makes the others. No step of one actor touches the list of the other, and what a driver sends for another
/// caller's message comes after all that the host actor is yet to do.
pub fn pending()
    ensures host { (core : CoreState) → IsQueued 1 core.actors.host_calls (step_by actor.Host core).core.actors.host_calls }
    ensures worker { (core : CoreState) → IsServed core.actors.worker_calls (step_by actor.Worker core).core.actors.worker_calls }
    ensures others { (core : CoreState) → ((step_by actor.Host core).core.actors.worker_calls ≡ core.actors.worker_calls)
        × ((step_by actor.Worker core).core.actors.host_calls ≡ core.actors.host_calls) }
    ensures heard { (bench : BenchState) (caller : ℕ) (end : CallEnd) (actors : ActorsState) → let after = actors_after_end bench caller end actors in
        IsQueued 0 actors.host_calls after.host_calls × (after.worker_calls ≡ actors.worker_calls) }
    ensures steps { (core : CoreState) (count : ℕ) → IsQueued count core.actors.host_calls (after_steps count core).actors.host_calls }
{}

/// The records of a worker are run in order: the one that is run is the one at its place, and a place moves only as the record says that was
/// run. A record that can't run, a step of a call, and each step of the host actor leave the worker where it is, and a worker that has
/// ended stays where it is.
pub fn records()
    ensures at { (memory : List ℕ) (map : Mapping) (linked : Bool) (worker : WorkerState) (op : Record) → next_record memory map linked worker ≡ Ok op
        → record_at memory map worker.entry worker.place ≡ Ok op }
    ensures run { (core : CoreState) (load : LoadState) → core.loaded ≡ Some load → has_calls core.bench core.actors ≡ false
        → (step_by actor.Worker core).core.actors.worker ≡ after_work load.memory (placed_map core.regions load) (is_some core.bench) core.actors.worker }
    ensures on { (memory : List ℕ) (map : Mapping) (linked : Bool) (worker : WorkerState) (op : Record) → worker.is_halted ≡ false
        → next_record memory map linked worker ≡ Ok op → GoesOn op worker (after_work memory map linked worker) }
    ensures fault { (memory : List ℕ) (map : Mapping) (linked : Bool) (worker : WorkerState) (fault : WorkerFault) → next_record memory map linked worker ≡ Err fault
        → after_work memory map linked worker ≡ worker }
    ensures ended { (memory : List ℕ) (map : Mapping) (linked : Bool) (worker : WorkerState) → worker.is_halted ≡ true
        → after_work memory map linked worker ≡ worker }
    ensures call { (core : CoreState) → has_calls core.bench core.actors ≡ true → StaysAt core.actors.worker (step_by actor.Worker core).core.actors.worker }
    ensures host { (core : CoreState) → (step_by actor.Host core).core.actors.worker ≡ core.actors.worker }
{}

/// A drive of so many steps is as many steps of the actors, or fewer exactly where the core has crashed or both actors have nothing to do. A
/// drive of n + m steps is one of n and then one of m, where the first n were all made.
pub fn drive()
    ensures most { (count : ℕ) (core : CoreState) → drive_length count core ≤ count }
    ensures fewer { (count : ℕ) (core : CoreState) → drive_length count core < count → rests (after_drive count core) ≡ true }
    ensures made { (count done : ℕ) (core : CoreState) → done < drive_length count core → rests (after_steps done core) ≡ false }
    ensures parts { (count more : ℕ) (core : CoreState) → drive_length count core ≡ count
        → (drive_length (count + more) core ≡ count + drive_length more (after_drive count core))
        × (after_drive (count + more) core ≡ after_drive more (after_drive count core)) }
{}
