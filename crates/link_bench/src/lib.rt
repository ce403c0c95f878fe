// A link with its callers and the calls that they are in: its calls whole and by steps, its close, reclaims and reopening.
#![tactic(auto)]

mod acts;
mod bench_crashes;
mod bench_ends;
mod bench_holds;
mod bench_rings;
mod bench_shares;
mod bench_steps;
mod benches;
mod step_counts;
mod steps;
mod turns;
mod watchers;
mod whole_steps;

pub use acts::{ActAnswer, CallWish, How, LinkAct};
pub use bench_crashes::Reclaim;
pub use bench_rings::lane_base;
pub use benches::{BegunCall, Bench, BenchFault, Reach};
pub use step_counts::StepCount;
pub use turns::TurnEnd;
pub use watchers::{Nobody, Watcher};
