// A remote core with its life, its memory, its link, its drivers and the actors on it; the bench of a link is had from here too.
#![tactic(auto)]

mod core_acts;
mod core_answers;
mod core_boots;
mod core_callers;
mod core_crashes;
mod core_drives;
mod core_faults;
mod core_leaves;
mod core_parts;
mod core_recoveries;
mod core_rings;
mod cores;

pub use core_actors::{Actor, Actors, DriveOutcome};
pub use core_answers::{Boot, Crash, Leave, Start};
pub use core_callers::StepFault;
pub use core_faults::{AddFault, CALLER_OUT, CoreFault, LeaveFault, RINGS_CHANGED, StartFault};
pub use cores::Core;
pub use link_bench::{
    ActAnswer, BegunCall, Bench, BenchFault, CallWish, How, LinkAct, Nobody, Reach, Reclaim,
    StepCount, TurnEnd, Watcher,
};
