//! Laws of what is done on links. Each is the contract of an empty function, and speaks of definitions alone.

ghost use Rattle.std.specs.Prelude.{◌≡◌, ℕ, false, List, Option, Some};
ghost use Rattle.rp_base.specs.declared.kinds.End.{End};
ghost use Rattle.lane_model.specs.declared.calls.LinkConfig.{LinkConfig};
ghost use Rattle.lane_model.specs.declared.calls.Wish.{Wish};
ghost use Rattle.lane_model.specs.Links.{opened_link, with_caller};
ghost use Rattle.lane_model.specs.Recoveries.{link_after_close, link_after_reclaim, link_after_reopen};
ghost use Rattle.channel_bus.specs.Sides.{EndState, side_meaning};
ghost use Rattle.link_bench.specs.declared.acts.LinkAct.{LinkAct};
ghost use Rattle.link_bench.specs.Acts.{IsFitAct, link_act};
ghost use Rattle.link_bench.specs.BenchCrashes.{after_close, after_reclaim, after_reopen};
ghost use Rattle.link_bench.specs.BenchEnds.{bench_to_reopen, crashed_bench};
ghost use Rattle.link_bench.specs.Benches.{BenchState, LinkRings, call_steps, later_steps, link_in, lists_of, new_bench_of, on_lists, on_rings, walk_lists, with_new_caller};
ghost use Rattle.link_bench.specs.Watchers.{nobody_sees};
ghost use Rattle.lane_laws.specs.Moves.{Close};
ghost use Rattle.core_actors.specs.Actors.{ActorsState};
ghost use Rattle.crash_recover.specs.declared.core_acts.TheConstants.{OWN_CALLERS};
ghost use Rattle.crash_recover.specs.Cores.{CoreState};
ghost use Rattle.core_actors.specs.ActorEnds.{actors_after_end};
ghost use Rattle.crash_recover.specs.Drives.{drive_step};
ghost use Rattle.core_laws.specs.BenchMoves.{ComesBy, IsReachedBench, IsReachedCore};
ghost use Rattle.core_laws.specs.ClosedLinks.{StaysClosed};
ghost use Rattle.core_laws.specs.DriveParts.{MayDrive};
ghost use Rattle.act_laws.specs.CoreDeeds.{crash_deeds, drive_deeds, ready_deeds};
ghost use Rattle.act_laws.specs.Deeds.{act_deeds, one_move};
ghost use Rattle.act_laws.specs.DoneDeeds.{AreDone};

/// The moves of an act on a reached link may be made one after the other, and leave what the act leaves, of the lists and of the rings; and
/// the takes that the act tells are those that its moves tell. So it is of an act on a script's link and on a core's, and of a close.
pub fn acts_do()
    ensures link { (bench : BenchState) (steps : ℕ) (asked : LinkAct (List ℕ)) → IsFitAct asked → IsReachedBench bench
        → AreDone bench (act_deeds nobody_sees 0 bench tt steps asked) (link_act nobody_sees 0 bench tt steps asked).bench }
    ensures core { (bench : BenchState) (actors : ActorsState) (steps : ℕ) (asked : LinkAct (List ℕ)) → IsFitAct asked → IsReachedBench bench
        → AreDone bench (act_deeds actors_after_end OWN_CALLERS bench actors steps asked) (link_act actors_after_end OWN_CALLERS bench actors steps asked).bench }
    ensures close { (bench : BenchState) → AreDone bench (one_move (Close (link_in bench).era.inc)) (after_close bench) }
{}

/// So what an act for callers does to a link, as a command of a script asks it, are moves of the link, one after the other, and in a closed incarnation
/// no act hands anything over, and none opens it again.
pub fn acts_are_moves()
    ensures moves { (own : ℕ) (bench : BenchState) (steps : ℕ) (asked : LinkAct (List ℕ)) → IsFitAct asked → IsReachedBench bench
        → ComesBy side_meaning (link_in bench) (link_in (link_act nobody_sees own bench (tt {0}) steps asked).bench) }
    ensures of_core { (own : ℕ) (bench : BenchState) (actors : ActorsState) (steps : ℕ) (asked : LinkAct (List ℕ)) → IsFitAct asked → IsReachedBench bench
        → ComesBy side_meaning (link_in bench) (link_in (link_act actors_after_end own bench actors steps asked).bench) }
    ensures closed { (own : ℕ) (bench : BenchState) (steps : ℕ) (asked : LinkAct (List ℕ)) → IsFitAct asked → IsReachedBench bench → (link_in bench).era.is_live ≡ false
        → StaysClosed (link_in bench) (link_in (link_act nobody_sees own bench (tt {0}) steps asked).bench) }
    ensures closed_of_core { (own : ℕ) (bench : BenchState) (actors : ActorsState) (steps : ℕ) (asked : LinkAct (List ℕ)) → IsFitAct asked → IsReachedBench bench
        → (link_in bench).era.is_live ≡ false → StaysClosed (link_in bench) (link_in (link_act actors_after_end own bench actors steps asked).bench) }
{}

/// The same of the link of a core: of one step of its actors where they may make it, of the crash of its remote end, and of the new host caller that a recovery makes.
pub fn cores_do()
    ensures drive { (core : CoreState) (bench left : BenchState) → MayDrive core → IsReachedCore core → core.bench ≡ Some bench
        → (drive_step core).core.bench ≡ Some left → AreDone bench (drive_deeds core) left }
    ensures crash { (bench : BenchState) → AreDone bench (crash_deeds bench) (crashed_bench bench) }
    ensures ready { (bench : BenchState) → AreDone bench (ready_deeds bench) (bench_to_reopen bench) }
{}

/// What happens to a link over rings happens to its lists and counts as on the machine that has these alone, and so do the steps and the ends
/// of calls: a new link, a new caller, steps of a call, a close, a reclaim and a reopening.
pub fn lists_alone()
    ensures new { (config : LinkConfig) (host remote : EndState) → link_in (new_bench_of config host remote) ≡ opened_link config host remote }
    ensures caller { (bench : BenchState) (end : End) (number : Option ℕ)
        → link_in (with_new_caller bench end number) ≡ record (link_in bench) { callers = with_caller (link_in bench).callers end number } }
    ensures call { (more steps : ℕ) (rings : LinkRings) (caller follows : ℕ) (wanted : Wish)
        → walk_lists on_rings (call_steps on_rings more steps rings caller follows wanted) ≡ call_steps on_lists more steps (lists_of rings) caller follows wanted }
    ensures later { (more last steps : ℕ) (rings : LinkRings) (caller : ℕ)
        → walk_lists on_rings (later_steps on_rings more last steps rings caller) ≡ later_steps on_lists more last steps (lists_of rings) caller }
    ensures close { (bench : BenchState) → link_in (after_close bench) ≡ link_after_close (link_in bench) (link_in bench).era.inc }
    ensures reclaim { (bench : BenchState) (caller : ℕ) → link_in (after_reclaim bench caller) ≡ link_after_reclaim on_lists (link_in bench) caller }
    ensures reopen { (bench : BenchState) → link_in (after_reopen bench) ≡ link_after_reopen on_lists (link_in bench) }
{}
