// The law of demos: the run of a demo goes to its end, since the actors of each of its cores come to rest within so many steps.
#![tactic(auto)]

ghost use Rattle.std.specs.Prelude.{◌≡◌, ◌≤◌, ℕ, [], None};
ghost use Rattle.image_maker.specs.Demo.{demo_commands};
ghost use Rattle.command_run.specs.Stores.{store_of};
ghost use Rattle.script_run.specs.Demos.{counts_from, counted_output, demo_output};
ghost use Rattle.command_run.specs.Runs.{new_run, run_of};

/// The run of a demo of up to 500 sessions goes to its end, and never meets the limit of steps: the demo writes how much was accepted.
pub fn demo_ends()
    ensures run { (sessions : ℕ) → sessions ≤ 500 → (run_of (store_of []) (demo_commands sessions)).ending ≡ None }
    ensures output { (sessions : ℕ) → sessions ≤ 500
        → demo_output sessions ≡ counted_output sessions (counts_from new_run (demo_commands sessions)) None }
{}
