//! What a `drive` of a script is, by the laws of drives. Each is the contract of an empty function, and speaks of definitions alone.

ghost use Rattle.std.specs.Prelude.{◌≡◌, ◌<◌, ◌≤◌, ℕ, ◌+◌, ◌-◌, Bool, false, List, None};
ghost use Rattle.rp_base.specs.declared.limits.TheConstants.{STEPS_MOST};
ghost use Rattle.crash_recover.specs.Cores.{CoreState};
ghost use Rattle.command_run.specs.CoreDrives.{drive_end, drive_steps, effect_behind};
ghost use Rattle.run_laws.specs.Drives.{EndsWith, drive_length_within, last_event, steps_events};
ghost use Rattle.drive_laws.specs.Steps.{after_drive, after_steps, rests, drive_length};

/// A `drive` of a script is so many steps of the actors, and what it says at last: it leaves the core that these steps leave, each counts one and
/// tells what it tells, and after them the drive tells why it ended, or stops the run. It makes fewer than all its steps only where the core rests
/// or the run has no step left. Where the run has as many left, it makes the steps of a drive, and doesn't stop the run; and the last that it tells
/// is why it ended: the core has crashed, both actors have nothing to do, or else all its steps were made.
pub fn script_drive()
    ensures steps_and_end { (name : List ℕ) (is_quiet : Bool) (core : CoreState) (count steps : ℕ) → let made = drive_length_within count core steps in
        drive_steps count name is_quiet core steps
        ≡ effect_behind (steps_events made name is_quiet core) (drive_end (count - made) name (after_steps made core) (steps + made)) }
    ensures fewer { (core : CoreState) (count steps : ℕ) → let made = drive_length_within count core steps in
        made < count → rests (after_steps made core) ≡ false → steps + made ≡ STEPS_MOST }
    ensures enough { (core : CoreState) (count steps : ℕ) → steps + count ≤ STEPS_MOST → drive_length_within count core steps ≡ drive_length count core }
    ensures core { (name : List ℕ) (is_quiet : Bool) (core : CoreState) (count steps : ℕ) → steps + count ≤ STEPS_MOST
        → (drive_steps count name is_quiet core steps).core ≡ after_drive count core }
    ensures steps { (name : List ℕ) (is_quiet : Bool) (core : CoreState) (count steps : ℕ) → steps + count ≤ STEPS_MOST
        → (drive_steps count name is_quiet core steps).steps ≡ steps + drive_length count core }
    ensures goes_on { (name : List ℕ) (is_quiet : Bool) (core : CoreState) (count steps : ℕ) → steps + count ≤ STEPS_MOST
        → (drive_steps count name is_quiet core steps).ending ≡ None }
    ensures told { (name : List ℕ) (is_quiet : Bool) (core : CoreState) (count steps : ℕ) → steps + count ≤ STEPS_MOST
        → EndsWith (drive_steps count name is_quiet core steps).events (last_event name (after_drive count core)) }
{}
