//! Laws of what runs do on their links and tell of takes. Each is the contract of an empty function, and speaks of definitions alone.

ghost use Rattle.std.specs.Prelude.{◌≡◌, ◌++◌, ℕ, Bool, true, false, List, Option, Some, None, option_map, IfSome, IsSomeAnd, slice_get, All, [], ◌∷◌};
ghost use Rattle.rp_io.specs.Images.{ImageAnswer};
ghost use Rattle.rp_base.specs.declared.kinds.End.{End};
ghost use Rattle.rp_base.specs.declared.kinds.Verdict.{Verdict};
ghost use Rattle.lane_model.specs.declared.calls.CallEnd.TheVariants as call_end;
ghost use Rattle.lane_model.specs.Links.{LinkState, end_of};
ghost use Rattle.lane_laws.specs.Handings.{Handing};
ghost use Rattle.channel_bus.specs.Sides.{EndState};
ghost use Rattle.lane_laws.specs.SoundRingLinks.{HasSoundRings};
ghost use Rattle.script_lang.specs.declared.commands.Command.{Command};
ghost use Rattle.script_lang.specs.Runnable.{AreRunnable, IsRunnable};
ghost use Rattle.link_bench.specs.declared.acts.ActAnswer.TheVariants as answer;
ghost use Rattle.link_bench.specs.declared.acts.LinkAct.{LinkAct};
ghost use Rattle.link_bench.specs.declared.benches.Reach.{Reach};
ghost use Rattle.link_bench.specs.declared.benches.Reach.TheVariants as reach;
ghost use Rattle.link_bench.specs.declared.turns.TurnEnd.{TurnEnd};
ghost use Rattle.link_bench.specs.Acts.{IsFitAct, link_act};
ghost use Rattle.link_bench.specs.Watchers.{nobody_sees};
ghost use Rattle.core_actors.specs.declared.progress.DriveOutcome.TheVariants as driven;
ghost use Rattle.core_laws.specs.BenchMoves.{IsReachedBench, IsReachedCore};
ghost use Rattle.core_laws.specs.DriveParts.{MayDrive};
ghost use Rattle.journal.specs.declared.events.Event.{Event};
ghost use Rattle.link_commands.specs.CallEvents.{end_event, took_event};
ghost use Rattle.crash_recover.specs.Cores.{CoreState};
ghost use Rattle.crash_recover.specs.CoreActs.{act_on_core};
ghost use Rattle.crash_recover.specs.Drives.{drive_step};
ghost use Rattle.act_laws.specs.CoreDeeds.{drive_deeds, driven_takes};
ghost use Rattle.act_laws.specs.Deeds.{act_deeds, reach_takes};
ghost use Rattle.link_bench.specs.Benches.{BenchState, link_in};
ghost use Rattle.command_run.specs.NamedCores.{NamedCoreState};
ghost use Rattle.link_commands.specs.NamedLinks.{NamedLink};
ghost use Rattle.command_run.specs.CoreDrives.{step_events};
ghost use Rattle.command_run.specs.Runs.{RunState, core_place, effect_of, place_of, run_of};
ghost use Rattle.command_run.specs.Stores.{StoreAnswers};
ghost use Rattle.link_commands.specs.declared.acts.CoreAct.TheVariants as core;
ghost use Rattle.link_commands.specs.declared.acts.Line.TheVariants as line;
ghost use Rattle.link_commands.specs.declared.acts.NamedAct.{NamedAct};
ghost use Rattle.link_commands.specs.declared.acts.NamedAct.TheVariants as under;
ghost use Rattle.link_commands.specs.Acts.{line_of};
ghost use Rattle.act_laws.specs.Accounts.{Account, IsAccount};
ghost use Rattle.way_laws.specs.CommandTakes.{AreTakesOfRun, IsTakeInRun, core_takes, line_may_take};
ghost use Rattle.way_laws.specs.CoreAccounts.{core_account_of, core_act_deeds, core_act_at, drive_account, drive_takes};
ghost use Rattle.way_laws.specs.RunAccounts.{account_of, link_act_at, named_takes};
ghost use Rattle.way_laws.specs.TakersLines.{drive_lines, lines_of};
ghost use Rattle.way_laws.specs.WordedTakes.{AreLinesAmong, AreLinesOfTakes, ComesFromOpening, IsWordedTake, TellNoTakes, is_of_calls, is_take_line};

/// After each list of commands, and so after each prefix of a script, a link of the run comes by the run's own moves since it was made or last
/// reopened; and what the run told of takes on it since then, at an end of it, is what those moves handed over there, in order and each once,
/// with number, sender, bytes and verdict: all but what a taker in its last step is yet to tell, or one that was reclaimed. Once the link is
/// closed nothing more is handed over, and one take at most is told at each end, of a message that was handed over before.
pub fn links_are_told()
    ensures { (end : End) (told : StoreAnswers) (commands : List Command) (place : ℕ) (on : NamedLink) → AreRunnable commands
        → slice_get (run_of told commands).last.objects.links place ≡ Some on → IsSomeAnd (account_of end place told commands) (IsAccount end (link_in on.bench)) }
{}

/// The same of the link of each core of a run, from its boot or last recovery on: the run's own moves are those of the core's actors, of its crash and of
/// the acts that the script asks for.
pub fn cores_are_told()
    ensures { (end : End) (told : StoreAnswers) (commands : List Command) (place : ℕ) (on : NamedCoreState) → AreRunnable commands
        → slice_get (run_of told commands).last.objects.cores place ≡ Some on
        → IfSome on.core.bench (λ (bench : BenchState). IsSomeAnd (core_account_of end place told commands) (IsAccount end (link_in bench))) }
{}

/// After each list of commands the rings of each link of the run, and those of the link of each core, are sound, so that each buffer has one owner.
pub fn links_own()
    ensures rings { (told : StoreAnswers) (commands : List Command) (place : ℕ) (on : NamedLink) → AreRunnable commands
        → slice_get (run_of told commands).last.objects.links place ≡ Some on → HasSoundRings on.bench.rings }
    ensures core_rings { (told : StoreAnswers) (commands : List Command) (place : ℕ) (on : NamedCoreState) → AreRunnable commands
        → slice_get (run_of told commands).last.objects.cores place ≡ Some on → IfSome on.core.bench (λ (bench : BenchState). HasSoundRings bench.rings) }
{}

/// Where an act answers how far a call came, as each call and step of a script does that nothing refuses, on a link of the script or of a core, what
/// it tells of takes is by how that call ended, and where it answers neither that nor how turns ended, it tells of no take. A step of a core's actors tells of the call that it ended, and of no other. And the line of a take has
/// the number, the bytes and the verdict of the handing that is told. On a link that comes by a way from an opening, as each link of a run does, no
/// such line is without a handing: where the call took a message, one handing is told at its caller's end, and the line is that of it.
pub fn takes_are_worded()
    ensures reached { (own : ℕ) (bench : BenchState) (steps : ℕ) (asked : LinkAct (List ℕ)) (caller : ℕ) (came : Reach)
        → (link_act nobody_sees own bench tt steps asked).answer ≡ answer.Reached caller came
        → (end : End) → (act_deeds nobody_sees own bench tt steps asked).takes end ≡ reach_takes (link_in (link_act nobody_sees own bench tt steps asked).bench) caller came end }
    ensures of_core { (core : CoreState) (bench : BenchState) (steps : ℕ) (asked : LinkAct (List ℕ)) (caller : ℕ) (came : Reach)
        → (act_on_core core bench steps asked).answer ≡ answer.Reached caller came
        → (end : End) → (core_act_deeds core (Some bench) steps asked).takes end ≡ reach_takes (link_in (act_on_core core bench steps asked).bench) caller came end }
    ensures none { (own : ℕ) (bench : BenchState) (steps : ℕ) (asked : LinkAct (List ℕ)) → is_of_calls (link_act nobody_sees own bench tt steps asked).answer ≡ false
        → (end : End) → (act_deeds nobody_sees own bench tt steps asked).takes end ≡ [] }
    ensures none_of_core { (core : CoreState) (bench : BenchState) (steps : ℕ) (asked : LinkAct (List ℕ)) → is_of_calls (act_on_core core bench steps asked).answer ≡ false
        → (end : End) → (core_act_deeds core (Some bench) steps asked).takes end ≡ [] }
    ensures driven { (core : CoreState) (end : End) → (drive_deeds core).takes end ≡ driven_takes (drive_step core).driven (drive_step core).core.bench end }
    ensures line { (name : List ℕ) (link : LinkState EndState) (caller number : ℕ) (judged : Verdict) (handing : Handing) (end : End) → end_of link.callers caller ≡ Some end
        → reach_takes link caller (reach.Ended (call_end.Took number judged)) end ≡ handing ∷ []
        → end_event name link caller (call_end.Took number judged) ≡ took_event name caller handing.sent.number handing.sent.message handing.verdict }
    ensures one { (own : ℕ) (bench : BenchState) (steps : ℕ) (asked : LinkAct (List ℕ)) (caller number : ℕ) (judged : Verdict)
        → IsFitAct asked → IsReachedBench bench → ComesFromOpening (link_in bench)
        → (link_act nobody_sees own bench tt steps asked).answer ≡ answer.Reached caller (reach.Ended (call_end.Took number judged))
        → IsWordedTake (act_deeds nobody_sees own bench tt steps asked).takes (link_in (link_act nobody_sees own bench tt steps asked).bench) caller number judged }
    ensures one_of_core { (core : CoreState) (bench : BenchState) (steps : ℕ) (asked : LinkAct (List ℕ)) (caller number : ℕ) (judged : Verdict)
        → IsFitAct asked → IsReachedBench bench → ComesFromOpening (link_in bench)
        → (act_on_core core bench steps asked).answer ≡ answer.Reached caller (reach.Ended (call_end.Took number judged))
        → IsWordedTake (core_act_deeds core (Some bench) steps asked).takes (link_in (act_on_core core bench steps asked).bench) caller number judged }
    ensures one_driven { (core : CoreState) (caller number : ℕ) (judged : Verdict)
        → MayDrive core → IsReachedCore core → IfSome core.bench (λ (bench : BenchState). ComesFromOpening (link_in bench))
        → (drive_step core).driven ≡ driven.Ended caller (call_end.Took number judged)
        → IsSomeAnd (drive_step core).core.bench (λ (left : BenchState). IsWordedTake (drive_deeds core).takes (link_in left) caller number judged) }
    ensures links_come { (told : StoreAnswers) (commands : List Command) (place : ℕ) (on : NamedLink) → AreRunnable commands
        → slice_get (run_of told commands).last.objects.links place ≡ Some on → ComesFromOpening (link_in on.bench) }
    ensures cores_come { (told : StoreAnswers) (commands : List Command) (place : ℕ) (on : NamedCoreState) → AreRunnable commands
        → slice_get (run_of told commands).last.objects.cores place ≡ Some on → IfSome on.core.bench (λ (bench : BenchState). ComesFromOpening (link_in bench)) }
{}

/// So each line of a take is the line of a handing that is told. Whatever a command of a run does under the name of a link of the script, it tells no
/// such line without the one handing that its act tells at an end, and neither does an act on the link of a core. Of a drive each such line is that of a
/// handing that a step of the core's actors tells, and these are what the drive adds to the account of the core's link. No other command tells such a
/// line: neither one that is no act on a link and no drive, nor one under a name that no link and no core has. So each line of a take that any command
/// of a run tells is that of a handing which the command tells at an end of a link of the run, or of the link of a core. And so each line of
/// a take in a whole run is that of a handing which the command that is next after others tells so.
pub fn lines_have_takes()
    ensures link { (told : StoreAnswers) (commands : List Command) (answer : ImageAnswer) (asked : Command) (place : ℕ) (wanted : NamedAct (List ℕ)) (on : NamedLink)
        → AreRunnable commands → IsRunnable asked
        → let run = (run_of told commands).last in
        slice_get run.objects.links place ≡ Some on → link_act_at run place (line_of asked) ≡ Some wanted
        → AreLinesOfTakes (named_takes on.bench run.steps wanted) on.name (effect_of answer run asked).events }
    ensures of_core { (told : StoreAnswers) (commands : List Command) (answer : ImageAnswer) (asked : Command) (place : ℕ) (act : LinkAct (List ℕ)) (on : NamedCoreState)
        → AreRunnable commands → IsRunnable asked
        → let run = (run_of told commands).last in
        slice_get run.objects.cores place ≡ Some on → core_act_at run place (line_of asked) ≡ Some (under.Link act)
        → AreLinesOfTakes (core_act_deeds on.core on.core.bench run.steps act).takes on.name (effect_of answer run asked).events }
    ensures drive { (told : StoreAnswers) (commands : List Command) (answer : ImageAnswer) (asked : Command) (place count : ℕ) (on : NamedCoreState)
        → AreRunnable commands → IsRunnable asked
        → let run = (run_of told commands).last in
        slice_get run.objects.cores place ≡ Some on → core_act_at run place (line_of asked) ≡ Some (under.Core (core.Drive count))
        → AreLinesAmong (drive_takes count on.core run.steps) on.name (effect_of answer run asked).events }
    ensures driven { (name : List ℕ) (is_quiet : Bool) (core : CoreState) → MayDrive core → IsReachedCore core
        → IfSome core.bench (λ (bench : BenchState). ComesFromOpening (link_in bench))
        → AreLinesOfTakes (drive_deeds core).takes name (step_events name is_quiet (drive_step core)) }
    ensures drive_adds { (end : End) (count : ℕ) (core : CoreState) (steps : ℕ) (account : Option Account)
        → option_map (λ (now : Account). now.told) (drive_account end count core steps account)
        ≡ option_map (λ (now : Account). now.told ++ drive_takes count core steps end) account }
    ensures named_core { (told : StoreAnswers) (commands : List Command) (answer : ImageAnswer) (asked : Command) (place : ℕ) (wanted : NamedAct (List ℕ)) (on : NamedCoreState)
        → AreRunnable commands → IsRunnable asked
        → let run = (run_of told commands).last in
        slice_get run.objects.cores place ≡ Some on → core_act_at run place (line_of asked) ≡ Some wanted
        → AreLinesAmong (core_takes on run.steps wanted) on.name (effect_of answer run asked).events }
    ensures others { (answer : ImageAnswer) (run : RunState) (asked : Command) → line_may_take (line_of asked) ≡ false → TellNoTakes (effect_of answer run asked).events }
    ensures nameless { (answer : ImageAnswer) (run : RunState) (asked : Command) (name : List ℕ) (wanted : NamedAct (List ℕ)) → line_of asked ≡ line.On name wanted
        → place_of run.objects.links name ≡ None → core_place run.objects.cores name ≡ None → TellNoTakes (effect_of answer run asked).events }
    ensures every { (told : StoreAnswers) (commands : List Command) (answer : ImageAnswer) (asked : Command) → AreRunnable commands → IsRunnable asked
        → let run = (run_of told commands).last in AreTakesOfRun run (line_of asked) (effect_of answer run asked).events }
    ensures whole { (told : StoreAnswers) (commands : List Command) → AreRunnable commands
        → All (λ (event : Event). is_take_line event ≡ true → IsTakeInRun told commands event) (run_of told commands).events }
{}

/// And takes have their lines. Where an act on a link answers that a call ended as a take, the command tells the line of that call and nothing else;
/// where it answers how turns ended, as a pump does, it tells no line of a take. A drive of a core tells for each of the core's actors the lines of all that the actor is told, one by one, in the order in which they were handed over, and no
/// line of another caller's take; in a quiet run it tells none of them.
pub fn takes_have_lines()
    ensures act { (found : ImageAnswer) (run : RunState) (asked : Command) (place : ℕ) (act : LinkAct (List ℕ)) (on : NamedLink) (caller number : ℕ) (judged : Verdict)
        → let acted = link_act nobody_sees 0 on.bench tt run.steps act in
        slice_get run.objects.links place ≡ Some on → link_act_at run place (line_of asked) ≡ Some (under.Link act)
        → acted.answer ≡ answer.Reached caller (reach.Ended (call_end.Took number judged))
        → (effect_of found run asked).events ≡ end_event on.name (link_in acted.bench) caller (call_end.Took number judged) ∷ [] }
    ensures of_core { (found : ImageAnswer) (run : RunState) (asked : Command) (place : ℕ) (act : LinkAct (List ℕ)) (on : NamedCoreState) (bench : BenchState) (caller number : ℕ) (judged : Verdict)
        → let acted = act_on_core on.core bench run.steps act in
        slice_get run.objects.cores place ≡ Some on → on.core.bench ≡ Some bench → core_act_at run place (line_of asked) ≡ Some (under.Link act)
        → acted.answer ≡ answer.Reached caller (reach.Ended (call_end.Took number judged))
        → (effect_of found run asked).events ≡ end_event on.name (link_in acted.bench) caller (call_end.Took number judged) ∷ [] }
    ensures pump { (found : ImageAnswer) (run : RunState) (asked : Command) (place : ℕ) (act : LinkAct (List ℕ)) (on : NamedLink) (done : ℕ) (came : TurnEnd)
        → slice_get run.objects.links place ≡ Some on → link_act_at run place (line_of asked) ≡ Some (under.Link act)
        → (link_act nobody_sees 0 on.bench tt run.steps act).answer ≡ answer.Pumped done came → TellNoTakes (effect_of found run asked).events }
    ensures pump_of_core { (found : ImageAnswer) (run : RunState) (asked : Command) (place : ℕ) (act : LinkAct (List ℕ)) (on : NamedCoreState) (bench : BenchState) (done : ℕ) (came : TurnEnd)
        → slice_get run.objects.cores place ≡ Some on → on.core.bench ≡ Some bench → core_act_at run place (line_of asked) ≡ Some (under.Link act)
        → (act_on_core on.core bench run.steps act).answer ≡ answer.Pumped done came → TellNoTakes (effect_of found run asked).events }
    ensures drive { (told : StoreAnswers) (commands : List Command) (found : ImageAnswer) (asked : Command) (place count caller : ℕ) (on : NamedCoreState) → AreRunnable commands
        → let run = (run_of told commands).last in
        slice_get run.objects.cores place ≡ Some on → core_act_at run place (line_of asked) ≡ Some (under.Core (core.Drive count))
        → lines_of caller (effect_of found run asked).events ≡ drive_lines run.objects.is_quiet on.name caller (core_takes on run.steps (under.Core (core.Drive count))) }
{}
