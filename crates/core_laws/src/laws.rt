//! Laws of the links of benches and of cores. Each is the contract of an empty function, and speaks of definitions alone.

ghost use Rattle.std.specs.Prelude.{◌≡◌, ◌≢◌, ◌↔◌, ◌<◌, ◌+◌, ℕ, Bool, false, true, List, IfSome, None, Some, Ok};
ghost use Rattle.std.specs.Result.{IfErr};
ghost use Rattle.rp_io.specs.Images.{ImageAnswer};
ghost use Rattle.rp_base.specs.declared.limits.TheConstants.{CALLERS_MOST};
ghost use Rattle.rp_base.specs.declared.kinds.End.{End};
ghost use Rattle.lane_model.specs.declared.calls.LinkConfig.{LinkConfig};
ghost use Rattle.lane_model.specs.declared.calls.Wish.{Wish};
ghost use Rattle.lane_model.specs.Desks.{IsFreshDesk};
ghost use Rattle.lane_model.specs.Lanes.{holder};
ghost use Rattle.lane_model.specs.Links.{LinkState, end_of, free_number};
ghost use Rattle.lane_model.specs.Recoveries.{link_reopen_refusal, link_reclaim_refusal};
ghost use Rattle.lane_model.specs.Soundness.{SoundLink};
ghost use Rattle.channel_bus.specs.Sides.{EndState, side_meaning};
ghost use Rattle.link_bench.specs.declared.benches.BegunCall.{BegunCall};
ghost use Rattle.core_actors.specs.Actors.{ActorsState};
ghost use Rattle.link_bench.specs.Benches.{BenchState, IsSendable, advance_walk, begin_fault, call_walk, is_in_call, link_in, new_bench_of, start_walk, with_begun_call, with_new_caller};
ghost use Rattle.link_bench.specs.BenchCrashes.{after_close, after_reclaim, after_reopen, reclaim_leaves};
ghost use Rattle.link_bench.specs.declared.acts.LinkAct.{LinkAct};
ghost use Rattle.link_bench.specs.Acts.{IsFitAct, link_act};
ghost use Rattle.link_bench.specs.Watchers.{nobody_sees};
ghost use Rattle.crash_recover.specs.CoreBoots.{as_unit, boot_of, core_bench, core_fault_of_start, handover_of, in_short, power_of};
ghost use Rattle.link_bench.specs.BenchEnds.{bench_to_reopen, crashed_bench, reopen_refusal_of};
ghost use Rattle.crash_recover.specs.CoreCrashes.{report_of};
ghost use Rattle.crash_recover.specs.CoreLeaves.{detach_of, shutdown_of};
ghost use Rattle.crash_recover.specs.CoreRecoveries.{core_to_reopen, recovery_of, reopened_core, with_next_life};
ghost use Rattle.crash_recover.specs.Cores.{CoreState, new_core, IsKeptCore, IsReadyCore};
ghost use Rattle.crash_recover.specs.CoreActs.{core_act};
ghost use Rattle.core_actors.specs.ActorSteps.{first_or_take};
ghost use Rattle.crash_recover.specs.Drives.{drive_step};
ghost use Rattle.core_laws.specs.BenchMoves.{ComesBy, IsReached, IsReachedBench, IsReachedCore, WasBoundOnTheWay, history_of};
ghost use Rattle.core_actors.specs.PendingCalls.{AreOwnUsed, HasNoneBegun, IsReadyBench};
ghost use Rattle.crash_recover.specs.KeptCores.{IsKeptBench, IsUnmanaged};
ghost use Rattle.core_laws.specs.CrashCallers.{crash_reaches, end_after_crash};
ghost use Rattle.core_laws.specs.DriveParts.{MayDrive};
ghost use Rattle.proc_state.specs.Lives.{CoreLife, most, recovery_fault};
ghost use Rattle.rp_base.specs.declared.kinds.LifeState.TheVariants as state;
ghost use Rattle.core_laws.specs.FoundImages.{FindsLoadable};
ghost use Rattle.core_laws.specs.NamedFaults.{IsNamed};
ghost use Rattle.core_laws.specs.Beginnings.{BeginsEmpty, BeginsLife, ReopensNext, begins_life};
ghost use Rattle.crash_recover.specs.declared.core_answers.Start.{Start};
ghost use Rattle.rp_base.specs.declared.kinds.End.TheVariants as side;
ghost use Rattle.host_driver.specs.Drivers.{Declared};
ghost use Rattle.memory_pool.specs.declared.regions.Region.{Region};
ghost use Rattle.fw_load.specs.declared.rings.RingPair.{RingPair};
ghost use Rattle.lane_model.specs.Desks.{IsBound};
ghost use Rattle.lane_laws.specs.Handings.{IsPrefix, due, got, handed_front, messages_of, with_numbers};
ghost use Rattle.lane_laws.specs.Moves.{handings_to, lane_to};
ghost use Rattle.rp_base.specs.declared.kinds.BoundEndpoint.{BoundEndpoint};

/// No move is a way from a link to itself, and moves go on where others have led.
pub fn moves_on()
    ensures none { (link : LinkState EndState) → ComesBy side_meaning link link }
    ensures more { (before middle after : LinkState EndState) → ComesBy side_meaning before middle → ComesBy side_meaning middle after
        → ComesBy side_meaning before after }
{}

/// The link of a bench comes by moves from the start of its incarnation: so it is at first, and so it stays over all that a bench does. A
/// reopening is a new start.
pub fn bench_is_reached()
    ensures new { (config : LinkConfig) (host remote : EndState) → IsFreshDesk side_meaning host → IsFreshDesk side_meaning remote
        → IsReachedBench (new_bench_of config host remote) }
    ensures caller { (bench : BenchState) (end : End) → IsReachedBench bench
        → IsReachedBench (with_new_caller bench end (free_number (link_in bench).callers)) }
    ensures begun { (bench : BenchState) (caller : ℕ) (call : BegunCall) → IsReachedBench bench → begin_fault bench caller call.wish ≡ None
        → IsSendable call.wish → IsReachedBench (with_begun_call bench caller (Some call)) }
    ensures advance { (bench : BenchState) (more steps caller : ℕ) → IsReachedBench bench → is_in_call bench caller ≡ true
        → IsReachedBench (advance_walk bench more steps caller).bench }
    ensures call { (bench : BenchState) (steps caller : ℕ) (wanted : Wish) → IsReachedBench bench → begin_fault bench caller wanted ≡ None
        → IsSendable wanted → IsReachedBench (call_walk bench steps caller wanted).bench }
    ensures start { (bench : BenchState) (steps caller : ℕ) (wanted : Wish) → IsReachedBench bench → begin_fault bench caller wanted ≡ None
        → IsSendable wanted → IsReachedBench (start_walk bench steps caller wanted).bench }
    ensures act { (own : ℕ) (bench : BenchState) (steps : ℕ) (act : LinkAct (List ℕ)) → IsFitAct act → IsReachedBench bench
        → IsReachedBench (link_act nobody_sees own bench (tt {0}) steps act).bench }
    ensures close { (bench : BenchState) → IsReachedBench bench → IsReachedBench (after_close bench) }
    ensures reclaim { (bench : BenchState) (caller : ℕ) → IsReachedBench bench
        → IsReachedBench (reclaim_leaves bench caller (link_reclaim_refusal (link_in bench) caller)) }
    ensures end_caller { (bench : BenchState) (caller : ℕ) → IsReachedBench bench → (link_in bench).era.is_live ≡ false
        → IsReachedBench (after_reclaim bench caller) }
    ensures reopen { (bench : BenchState) → IsReachedBench bench → link_reopen_refusal (link_in bench) ≡ None → IsReachedBench (after_reopen bench) }
{}

/// The link of a core comes so too, from its boot to its last shutdown or detach, over crashes and recoveries, over each step of its actors, whose
/// messages all fit buffers, and over acts for other callers.
pub fn core_is_reached()
    ensures new { (regions : List Region) (kinds : List Declared) (book : ℕ) → IsReachedCore (new_core regions kinds book) }
    ensures link { (names : List (List ℕ)) (book first : ℕ) (rings : RingPair) → IsReachedBench (core_bench names book first rings) }
    ensures crash { (bench : BenchState) → IsReachedBench bench → IsReachedBench (crashed_bench bench) }
    ensures ready { (bench : BenchState) → IsReachedBench bench → IsReachedBench (bench_to_reopen bench) }
    ensures boot { (core : CoreState) (name : List ℕ) (found : ImageAnswer) → IsReachedCore core → IsReachedCore (boot_of core name found).core }
    ensures handover { (core : CoreState) (name : List ℕ) (found : ImageAnswer) → IsReachedCore core → IsReachedCore (handover_of core name found).core }
    ensures shutdown { (may_step : Bool) (core : CoreState) → IsReachedCore core → IsReachedCore (shutdown_of may_step core).core }
    ensures detach { (may_step : Bool) (core : CoreState) → IsReachedCore core → IsReachedCore (detach_of may_step core).core }
    ensures report { (may_step : Bool) (core : CoreState) → IsReachedCore core → IsReachedCore (report_of may_step core).core }
    ensures readied { (core : CoreState) → IsReachedCore core → IsReachedCore (core_to_reopen core) }
    ensures reopened { (core : CoreState) → IsReachedCore core → IfSome core.bench (λ bench. reopen_refusal_of bench ≡ None) → IsReachedCore (reopened_core core) }
    ensures recovery { (core : CoreState) (found : ImageAnswer) → IsReachedCore core → IsReachedCore (recovery_of core found).core }
    ensures drive { (core : CoreState) → MayDrive core → IsReachedCore core → IsReachedCore (drive_step core).core }
    ensures act { (core : CoreState) (steps : ℕ) (act : LinkAct (List ℕ)) → IsFitAct act → IsReachedCore core → IsReachedCore (core_act core steps act).core }
{}

/// A link that comes so is sound.
pub fn reached_sound()
    ensures { (link : LinkState EndState) → IsReached link → SoundLink link }
{}

/// What a link has handed over to an end in its incarnation is, in order, the first messages of the book of that lane: each number once, with
/// its sender and its bytes, and as many as were handed over.
pub fn handed_once()
    ensures { (link : LinkState EndState) (reached : IsReached link) (end : End)
        → messages_of (handings_to (history_of link reached) end) ≡ with_numbers 0 (handed_front (lane_to link end).lane) }
{}

/// What an endpoint that was once bound got from a sender in the incarnation is a prefix of what is due to it. While it is bound, that is
/// all that is due to it of the messages that were handed over.
pub fn handed_due()
    ensures front { (link : LinkState EndState) (reached : IsReached link) (end : End) (bound : BoundEndpoint) (sender : ℕ)
        → WasBoundOnTheWay link reached end bound
        → let lane = lane_to link end in
        IsPrefix (got bound.endpoint sender (handings_to (history_of link reached) end)) (due side_meaning lane.desk bound sender lane.lane.accepted) }
    ensures while_bound { (link : LinkState EndState) (reached : IsReached link) (end : End) (bound : BoundEndpoint) (sender : ℕ)
        → let lane = lane_to link end in
        IsBound side_meaning lane.desk bound
        → got bound.endpoint sender (handings_to (history_of link reached) end) ≡ due side_meaning lane.desk bound sender (handed_front lane.lane) }
{}

/// A boot makes an offline core with an incarnation left run exactly where an image was found that loads over the core's regions, and a handover
/// makes an offline core detached exactly there. A boot of a detached core attaches to it exactly where an incarnation is left.
pub fn starts_just_where()
    ensures boot { (core : CoreState) (name : List ℕ) (found : ImageAnswer) → core.life.state ≡ state.Offline → core.life.incarnation ≢ most
        → ((boot_of core name found).core.life.state ≡ state.Running) ↔ FindsLoadable core found }
    ensures handover { (core : CoreState) (name : List ℕ) (found : ImageAnswer) → core.life.state ≡ state.Offline
        → ((handover_of core name found).core.life.state ≡ state.Detached) ↔ FindsLoadable core found }
    ensures attach { (core : CoreState) (name : List ℕ) (found : ImageAnswer) → core.life.state ≡ state.Detached
        → ((boot_of core name found).core.life.state ≡ state.Attached) ↔ (core.life.incarnation ≢ most) }
{}

/// A link that is reopened is live and empty on both lanes in its next incarnation: what is handed over in an incarnation was accepted in it.
pub fn reopens_next()
    ensures { (bench : BenchState) → BeginsEmpty ((link_in bench).era.inc + 1) (after_reopen bench) }
{}

/// Where a life of a core begins, by a boot, an attach or a recovery, the life is in its next incarnation, and so is the link, live and empty on both
/// lanes: what is handed over in a life was accepted in it. A recovery leaves a link exactly where there was one, in the incarnation after that one's.
pub fn lives_begin_empty()
    ensures boot { (core : CoreState) (name : List ℕ) (found : ImageAnswer) (did : Start) → begins_life did ≡ true → (boot_of core name found).answer ≡ Ok did
        → BeginsLife (core.life.incarnation + 1) (boot_of core name found).core }
    ensures recovery { (core : CoreState) (found : ImageAnswer) (did : Start) → IsKeptCore core → begins_life did ≡ true → (recovery_of core found).answer ≡ Ok did
        → BeginsLife (core.life.incarnation + 1) (recovery_of core found).core }
    ensures reopening { (core : CoreState) (found : ImageAnswer) (did : Start) → begins_life did ≡ true → (recovery_of core found).answer ≡ Ok did
        → ReopensNext core.bench (recovery_of core found).core.bench }
{}

/// The link of a core always has the core's own callers in use, 0 at the host and 1 at the remote, no turn of it is ever the manager's, and it is in
/// the incarnation of the core's life, live exactly while the core is up. A link that is reopened is so for the next incarnation of the life.
pub fn core_is_kept()
    ensures new { (regions : List Region) (kinds : List Declared) (book : ℕ) → IsKeptCore (new_core regions kinds book) }
    ensures boot { (core : CoreState) (name : List ℕ) (found : ImageAnswer) → IsKeptCore core → IsKeptCore (boot_of core name found).core }
    ensures handover { (core : CoreState) (name : List ℕ) (found : ImageAnswer) → IsKeptCore core → IsKeptCore (handover_of core name found).core }
    ensures shutdown { (may_step : Bool) (core : CoreState) → IsKeptCore core → IsKeptCore (shutdown_of may_step core).core }
    ensures detach { (may_step : Bool) (core : CoreState) → IsKeptCore core → IsKeptCore (detach_of may_step core).core }
    ensures report { (may_step : Bool) (core : CoreState) → IsKeptCore core → IsKeptCore (report_of may_step core).core }
    ensures readied { (core : CoreState) → IsKeptCore core → IsKeptCore (core_to_reopen core) }
    ensures reopened { (core : CoreState) → IsKeptCore core → IsKeptCore (with_next_life (reopened_core core)) }
    ensures recovery { (core : CoreState) (found : ImageAnswer) → IsKeptCore core → IsKeptCore (recovery_of core found).core }
    ensures drive { (core : CoreState) → IsKeptCore core → IsKeptCore (drive_step core).core }
    ensures act { (core : CoreState) (steps : ℕ) (act : LinkAct (List ℕ)) → IsKeptCore core → IsKeptCore (core_act core steps act).core }
{}

/// What callers do on the link of a core keeps that, in whatever life the core is: the making of a caller, each call and step, and a reclaim of
/// any caller but the core's own.
pub fn link_is_kept()
    ensures caller { (life : CoreLife) (bench : BenchState) (end : End) → IsKeptBench life bench
        → IsKeptBench life (with_new_caller bench end (free_number (link_in bench).callers)) }
    ensures begun { (life : CoreLife) (bench : BenchState) (caller : ℕ) (call : BegunCall) → IsKeptBench life bench
        → IsKeptBench life (with_begun_call bench caller (Some call)) }
    ensures advance { (life : CoreLife) (bench : BenchState) (more steps caller : ℕ) → IsKeptBench life bench
        → IsKeptBench life (advance_walk bench more steps caller).bench }
    ensures call { (life : CoreLife) (bench : BenchState) (steps caller : ℕ) (wanted : Wish) → IsKeptBench life bench
        → IsKeptBench life (call_walk bench steps caller wanted).bench }
    ensures start { (life : CoreLife) (bench : BenchState) (steps caller : ℕ) (wanted : Wish) → IsKeptBench life bench
        → IsKeptBench life (start_walk bench steps caller wanted).bench }
    ensures reclaim { (life : CoreLife) (bench : BenchState) (caller : ℕ) → 1 < caller → IsKeptBench life bench
        → IsKeptBench life (reclaim_leaves bench caller (link_reclaim_refusal (link_in bench) caller)) }
{}

/// Nothing refuses a reclaim that a crash report makes: not that of who has the receiver's turn of the remote end, who is a remote caller, nor
/// that of any remote caller that is ended after it. Behind them all host callers are where they were, and of the remote callers 1 alone is in use.
pub fn crash_reclaims()
    ensures first { (bench : BenchState) (caller : ℕ) → IsReached (link_in bench) → IsUnmanaged (link_in bench)
        → holder (link_in (after_close bench)).to_remote.receiver ≡ Some caller
        → (end_of (link_in (after_close bench)).callers caller ≡ Some side.Remote) × (link_reclaim_refusal (link_in (after_close bench)) caller ≡ None) }
    ensures others { (bench : BenchState) (caller : ℕ) → IsReached (link_in bench) → IsUnmanaged (link_in bench)
        → end_of (link_in (crash_reaches bench caller)).callers caller ≡ Some side.Remote → link_reclaim_refusal (link_in (crash_reaches bench caller)) caller ≡ None }
    ensures all { (bench : BenchState) → crashed_bench bench ≡ crash_reaches bench CALLERS_MOST }
    ensures callers { (bench : BenchState) (caller : ℕ) → AreOwnUsed (link_in bench).callers → caller < CALLERS_MOST
        → end_of (link_in (crashed_bench bench)).callers caller ≡ end_after_crash caller (end_of (link_in bench).callers caller) }
{}

/// While a core is up, the next call of each of its actors may always begin, where the actor is in none: what a call gives back is held.
pub fn actors_begin()
    ensures host { (actors : ActorsState) (bench : BenchState) → AreOwnUsed (link_in bench).callers → IsReadyBench actors bench → is_in_call bench 0 ≡ false
        → begin_fault bench 0 (first_or_take actors.host_calls) ≡ None }
    ensures worker { (actors : ActorsState) (bench : BenchState) → AreOwnUsed (link_in bench).callers → IsReadyBench actors bench → is_in_call bench 1 ≡ false
        → begin_fault bench 1 (first_or_take actors.worker_calls) ≡ None }
{}

/// A core comes to no other state: its actors hold, while it is up, what their calls give back, each number once, and have begun no call without a
/// step of it. So it is of a new core, and so it stays over all that the core goes through, and over acts for other callers.
pub fn core_ready()
    ensures new { (regions : List Region) (kinds : List Declared) (book : ℕ) → IsReadyCore (new_core regions kinds book) }
    ensures boot { (core : CoreState) (name : List ℕ) (found : ImageAnswer) → IsReadyCore core → IsReadyCore (boot_of core name found).core }
    ensures handover { (core : CoreState) (name : List ℕ) (found : ImageAnswer) → IsReadyCore core → IsReadyCore (handover_of core name found).core }
    ensures shutdown { (may_step : Bool) (core : CoreState) → IsReadyCore core → IsReadyCore (shutdown_of may_step core).core }
    ensures detach { (may_step : Bool) (core : CoreState) → IsReadyCore core → IsReadyCore (detach_of may_step core).core }
    ensures report { (may_step : Bool) (core : CoreState) → IsReadyCore core → IsReadyCore (report_of may_step core).core }
    ensures readied { (core : CoreState) → recovery_fault core.life ≡ None → IsReadyCore core → IsReadyCore (core_to_reopen core) }
    ensures recovery { (core : CoreState) (found : ImageAnswer) → IsReadyCore core → IsReadyCore (recovery_of core found).core }
    ensures drive { (core : CoreState) → MayDrive core → IsReachedCore core → IsReadyCore (drive_step core).core }
    ensures act { (core : CoreState) (steps : ℕ) (act : LinkAct (List ℕ)) → IsFitAct act → IsReachedCore core → IsReadyCore core
        → IsReadyCore (core_act core steps act).core }
{}

/// So it stays over what other callers than the core's own do on its link.
pub fn link_ready()
    ensures caller { (actors : ActorsState) (bench : BenchState) (end : End) → HasNoneBegun bench → IsReadyBench actors bench
        → let after = with_new_caller bench end (free_number (link_in bench).callers) in HasNoneBegun after × IsReadyBench actors after }
    ensures begun { (actors : ActorsState) (bench : BenchState) (caller : ℕ) (call : BegunCall) → 1 < caller → HasNoneBegun bench → IsReadyBench actors bench
        → let after = with_begun_call bench caller (Some call) in HasNoneBegun after × IsReadyBench actors after }
    ensures advance { (actors : ActorsState) (bench : BenchState) (more steps caller : ℕ) → 1 < caller → HasNoneBegun bench → IsReadyBench actors bench
        → IsReachedBench bench → is_in_call bench caller ≡ true
        → let after = (advance_walk bench more steps caller).bench in HasNoneBegun after × IsReadyBench actors after }
    ensures call { (actors : ActorsState) (bench : BenchState) (steps caller : ℕ) (wanted : Wish) → 1 < caller → HasNoneBegun bench → IsReadyBench actors bench
        → begin_fault bench caller wanted ≡ None → IsSendable wanted
        → let after = (call_walk bench steps caller wanted).bench in HasNoneBegun after × IsReadyBench actors after }
    ensures start { (actors : ActorsState) (bench : BenchState) (steps caller : ℕ) (wanted : Wish) → 1 < caller → HasNoneBegun bench → IsReadyBench actors bench
        → begin_fault bench caller wanted ≡ None → IsSendable wanted
        → let after = (start_walk bench steps caller wanted).bench in HasNoneBegun after × IsReadyBench actors after }
    ensures reclaim { (actors : ActorsState) (bench : BenchState) (caller : ℕ) → 1 < caller → HasNoneBegun bench → IsReadyBench actors bench
        → let after = reclaim_leaves bench caller (link_reclaim_refusal (link_in bench) caller) in HasNoneBegun after × IsReadyBench actors after }
{}

/// Where memory doesn't run out a boot, a handover and a recovery are refused for another reason, which has no such fault inside: that memory
/// ran out is always the whole answer.
pub fn named_starts()
    ensures boot { (core : CoreState) (name : List ℕ) (found : ImageAnswer) → IfErr (in_short power_of core_fault_of_start (boot_of core name found)).answer IsNamed }
    ensures handover { (core : CoreState) (name : List ℕ) (found : ImageAnswer) → IfErr (in_short as_unit core_fault_of_start (handover_of core name found)).answer IsNamed }
    ensures recovery { (core : CoreState) (found : ImageAnswer) → IfErr (in_short as_unit core_fault_of_start (recovery_of core found)).answer IsNamed }
{}
