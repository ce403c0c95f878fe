//! Laws of runs: over a store of images, and of the links that they leave. Each is the contract of an empty function, and speaks of definitions alone.

ghost use Rattle.std.specs.Prelude.{◌≡◌, ◌≢◌, ◌↔◌, ◌+◌, ℕ, List, Option, Some, Ok, false, true, Contains, IfSome, IsSomeAnd, slice_get};
ghost use Rattle.rp_io.specs.Images.{ImageAnswer};
ghost use Rattle.rp_base.specs.declared.kinds.LifeState.TheVariants as state;
ghost use Rattle.proc_state.specs.Lives.{most};
ghost use Rattle.core_laws.specs.FoundImages.{FindsLoadable};
ghost use Rattle.script_lang.specs.declared.commands.Command.{Command};
ghost use Rattle.script_lang.specs.declared.commands.Command.TheVariants as command;
ghost use Rattle.rp_base.specs.declared.kinds.CrashKind.{CrashKind};
ghost use Rattle.crash_recover.specs.CoreBoots.{boot_of, handover_of};
ghost use Rattle.crash_recover.specs.CoreCrashes.{report_of};
ghost use Rattle.crash_recover.specs.CoreLeaves.{detach_of, shutdown_of};
ghost use Rattle.crash_recover.specs.CoreRecoveries.{recovery_of};
ghost use Rattle.command_run.specs.CoreLives.{booted_image, found_image, may_step};
ghost use Rattle.core_laws.specs.BenchMoves.{IsReachedBench};
ghost use Rattle.core_laws.specs.BenchMoves.{IsReachedCore};
ghost use Rattle.run_laws.specs.CrashedCores.{RecoversOther, StaysCrashed};
ghost use Rattle.run_laws.specs.ClosedLinks.{LeavesClosed, ReopensOther};
ghost use Rattle.run_laws.specs.Starts.{IsCoreAt, core_at, state_at};
ghost use Rattle.script_lang.specs.Runnable.{AreRunnable, IsRunnable};
ghost use Rattle.lane_model.specs.Soundness.{SoundLink};
ghost use Rattle.link_bench.specs.Benches.{BenchState, link_in};
ghost use Rattle.run_laws.specs.Kept.{AreKept, AreReady, HaveSoundRegions};
ghost use Rattle.run_laws.specs.Reopenings.{IsLeftByReopen, IsLinkAt};
ghost use Rattle.core_laws.specs.Beginnings.{BeginsLife, ReopensNext, begins_life};
ghost use Rattle.crash_recover.specs.declared.core_answers.Start.{Start};
ghost use Rattle.crash_recover.specs.Cores.{CoreState};
ghost use Rattle.command_run.specs.NamedCores.{NamedCoreState};
ghost use Rattle.link_commands.specs.NamedLinks.{NamedLink};
ghost use Rattle.run_laws.specs.Reached.{AreReached, HandsInOrder};
ghost use Rattle.command_run.specs.Stores.{IsHeld, StoreAnswers, store_of};
ghost use Rattle.command_run.specs.Runs.{RunState, effect_of, run_of};

/// Over a store that tells its images and doesn't fail, a run is a function of the images and the commands.
pub fn images_and_commands()
    ensures { (images : List (List ℕ × List ℕ)) (told : StoreAnswers) (commands : List Command) → IsHeld (Some images) told
        → run_of told commands ≡ run_of (store_of images) commands }
{}

/// No run ends with a fault of the store but where the store fails.
pub fn faults_alone()
    ensures { (images : Option (List (List ℕ × List ℕ))) (told : StoreAnswers) (commands : List Command) → IsHeld images told
        → (run_of told commands).failed ≡ false }
{}

/// After each list of commands, and so after each prefix of a script, each link comes by moves from the start of its incarnation, and so
/// does the link of each core, whatever the store tells.
pub fn links_are_reached()
    ensures command { (answer : ImageAnswer) (run : RunState) (command : Command) → IsRunnable command → AreReached run.objects → AreKept run.objects
        → AreReady run.objects → AreReached (effect_of answer run command).run.objects }
    ensures run { (told : StoreAnswers) (commands : List Command) → AreRunnable commands → AreReached (run_of told commands).last.objects }
{}

/// So each link of a run, and the link of each core, is sound after each prefix of a script.
pub fn links_sound()
    ensures links { (told : StoreAnswers) (commands : List Command) (named : NamedLink) → AreRunnable commands
        → Contains (run_of told commands).last.objects.links named → SoundLink (link_in named.bench) }
    ensures cores { (told : StoreAnswers) (commands : List Command) (named : NamedCoreState) → AreRunnable commands
        → Contains (run_of told commands).last.objects.cores named → IfSome named.core.bench (λ (bench : BenchState). SoundLink (link_in bench)) }
{}

/// Each link of a run, and the link of each core, hands over each message at most once and in order, and what each endpoint got from a
/// sender is a prefix of what is due to it.
pub fn links_in_order()
    ensures links { (told : StoreAnswers) (commands : List Command) (named : NamedLink) → AreRunnable commands
        → Contains (run_of told commands).last.objects.links named → HandsInOrder (link_in named.bench) }
    ensures cores { (told : StoreAnswers) (commands : List Command) (named : NamedCoreState) → AreRunnable commands
        → Contains (run_of told commands).last.objects.cores named → IfSome named.core.bench (λ (bench : BenchState). HandsInOrder (link_in bench)) }
{}

/// A command that is about the life of a core of a run leaves of it what the core's call leaves, over the image of the script or else of the
/// store: so what holds of these calls holds in runs.
pub fn calls_of_cores()
    ensures boot { (answer : ImageAnswer) (run : RunState) (name : List ℕ) (place : ℕ) (on : NamedCoreState) → IsCoreAt run name place on → (image : List ℕ)
        → core_at (effect_of answer run (command.Boot name image)).run place ≡ Some (boot_of on.core image (found_image run.objects.images answer image)).core }
    ensures handover { (answer : ImageAnswer) (run : RunState) (name : List ℕ) (place : ℕ) (on : NamedCoreState) → IsCoreAt run name place on → (image : List ℕ)
        → core_at (effect_of answer run (command.Handover name image)).run place ≡ Some (handover_of on.core image (found_image run.objects.images answer image)).core }
    ensures recovery { (answer : ImageAnswer) (run : RunState) (name : List ℕ) (place : ℕ) (on : NamedCoreState) → IsCoreAt run name place on
        → core_at (effect_of answer run (command.Recover name)).run place ≡ Some (recovery_of on.core (found_image run.objects.images answer (booted_image on.name on.core))).core }
    ensures shutdown { (answer : ImageAnswer) (run : RunState) (name : List ℕ) (place : ℕ) (on : NamedCoreState) → IsCoreAt run name place on
        → core_at (effect_of answer run (command.Shutdown name)).run place ≡ Some (shutdown_of (may_step run.steps) on.core).core }
    ensures detach { (answer : ImageAnswer) (run : RunState) (name : List ℕ) (place : ℕ) (on : NamedCoreState) → IsCoreAt run name place on
        → core_at (effect_of answer run (command.Detach name)).run place ≡ Some (detach_of (may_step run.steps) on.core).core }
    ensures crash { (answer : ImageAnswer) (run : RunState) (name : List ℕ) (place : ℕ) (on : NamedCoreState) → IsCoreAt run name place on → (kind : CrashKind)
        → core_at (effect_of answer run (command.Crash name kind)).run place ≡ Some (report_of (may_step run.steps) on.core).core }
{}

/// Of the core of a name in a run: a boot makes it run, where it is offline and has an incarnation left, exactly where an image was found, of the script
/// or else of the store, that loads over its regions; a handover makes an offline core detached exactly there; and a boot attaches to a detached
/// core exactly where an incarnation is left.
pub fn starts_just_where()
    ensures boot { (answer : ImageAnswer) (run : RunState) (name image : List ℕ) (place : ℕ) (on : NamedCoreState) → IsCoreAt run name place on
        → on.core.life.state ≡ state.Offline → on.core.life.incarnation ≢ most
        → (state_at (effect_of answer run (command.Boot name image)).run place ≡ Some state.Running) ↔ FindsLoadable on.core (found_image run.objects.images answer image) }
    ensures handover { (answer : ImageAnswer) (run : RunState) (name image : List ℕ) (place : ℕ) (on : NamedCoreState) → IsCoreAt run name place on
        → on.core.life.state ≡ state.Offline
        → (state_at (effect_of answer run (command.Handover name image)).run place ≡ Some state.Detached) ↔ FindsLoadable on.core (found_image run.objects.images answer image) }
    ensures attach { (answer : ImageAnswer) (run : RunState) (name image : List ℕ) (place : ℕ) (on : NamedCoreState) → IsCoreAt run name place on
        → on.core.life.state ≡ state.Detached
        → (state_at (effect_of answer run (command.Boot name image)).run place ≡ Some state.Attached) ↔ (on.core.life.incarnation ≢ most) }
{}

/// A `reopen` of the link of a name in a run leaves at its place a link of that name: where nothing refuses it, one that is live and empty on both lanes
/// in its next incarnation, and else the link as it was.
pub fn links_reopen_next()
    ensures { (answer : ImageAnswer) (run : RunState) (name : List ℕ) (place : ℕ) (on : NamedLink) → IsLinkAt run name place on
        → IsSomeAnd (slice_get (effect_of answer run (command.Reopen name)).run.objects.links place) (IsLeftByReopen name on.bench) }
{}

/// Where a boot, which may be an attach, or a recovery of the core of a name in a run begins a life, it leaves at its place a core in the next
/// incarnation of its life, whose link, if it has one, is in that incarnation too, live and empty on both lanes. A recovery leaves a link exactly where
/// there was one, in the incarnation after that one's.
pub fn lives_begin_next()
    ensures boot { (answer : ImageAnswer) (run : RunState) (name : List ℕ) (place : ℕ) (on : NamedCoreState) → IsCoreAt run name place on → (image : List ℕ) (did : Start)
        → begins_life did ≡ true → (boot_of on.core image (found_image run.objects.images answer image)).answer ≡ Ok did
        → IsSomeAnd (core_at (effect_of answer run (command.Boot name image)).run place) (BeginsLife (on.core.life.incarnation + 1)) }
    ensures recovery { (answer : ImageAnswer) (run : RunState) (name : List ℕ) (place : ℕ) (on : NamedCoreState) → IsCoreAt run name place on → AreKept run.objects → (did : Start)
        → begins_life did ≡ true → (recovery_of on.core (found_image run.objects.images answer (booted_image on.name on.core))).answer ≡ Ok did
        → IsSomeAnd (core_at (effect_of answer run (command.Recover name)).run place) (BeginsLife (on.core.life.incarnation + 1)) }
    ensures reopening { (answer : ImageAnswer) (run : RunState) (name : List ℕ) (place : ℕ) (on : NamedCoreState) → IsCoreAt run name place on → (did : Start)
        → begins_life did ≡ true → (recovery_of on.core (found_image run.objects.images answer (booted_image on.name on.core))).answer ≡ Ok did
        → IsSomeAnd (core_at (effect_of answer run (command.Recover name)).run place) (λ (left : CoreState). ReopensNext on.core.bench left.bench) }
{}

/// From a close of a link on, no command of a script but a reopening of that link hands anything over on it or opens it: the link at a place of a run
/// that is closed stays closed at that place after the command, with nothing more handed over on either lane.
pub fn closed_hands_none()
    ensures { (answer : ImageAnswer) (run : RunState) (asked : Command) (place : ℕ) (on : NamedLink) → IsRunnable asked
        → slice_get run.objects.links place ≡ Some on → IsReachedBench on.bench → (link_in on.bench).era.is_live ≡ false → ReopensOther run place asked
        → LeavesClosed on.bench (effect_of answer run asked).run place }
{}

/// And from a crash of a core on, no command of a script but a recovery of that core hands anything over on its link or opens it: the core at a place of
/// a run stays crashed after the command, and its link closed, as it is while a core isn't up, with nothing more handed over on either lane.
pub fn crashed_hands_none()
    ensures { (answer : ImageAnswer) (run : RunState) (asked : Command) (place : ℕ) (on : NamedCoreState) → IsRunnable asked
        → slice_get run.objects.cores place ≡ Some on → IsReachedCore on.core → on.core.life.state ≡ state.Crashed
        → IfSome on.core.bench (λ (bench : BenchState). (link_in bench).era.is_live ≡ false) → RecoversOther run place asked
        → IsSomeAnd (core_at (effect_of answer run asked).run place) (StaysCrashed on.core) }
{}

/// After each list of commands the link of each core has the core's own callers in use, 0 at the host and 1 at the remote, no turn of it is the
/// manager's, and it is in the incarnation of the core's life, live exactly while the core is up.
pub fn cores_are_kept()
    ensures command { (answer : ImageAnswer) (run : RunState) (command : Command) → AreKept run.objects → AreKept (effect_of answer run command).run.objects }
    ensures run { (told : StoreAnswers) (commands : List Command) → AreKept (run_of told commands).last.objects }
{}

/// After each list of commands the regions of each core are sound: at most 16, of at most 16 MiB together, each within the addresses, and no two meet.
/// So what is known of loads over sound regions holds of the cores of runs.
pub fn regions_sound()
    ensures command { (answer : ImageAnswer) (run : RunState) (command : Command) → HaveSoundRegions run.objects → HaveSoundRegions (effect_of answer run command).run.objects }
    ensures run { (told : StoreAnswers) (commands : List Command) → HaveSoundRegions (run_of told commands).last.objects }
{}

/// The actors of each core hold, while the core is up, what their calls give back, so that the next call of each may always begin, and have begun
/// no call without a step of it.
pub fn cores_ready()
    ensures command { (answer : ImageAnswer) (run : RunState) (command : Command) → IsRunnable command → AreReached run.objects → AreKept run.objects
        → AreReady run.objects → AreReady (effect_of answer run command).run.objects }
    ensures run { (told : StoreAnswers) (commands : List Command) → AreRunnable commands → AreReady (run_of told commands).last.objects }
{}
