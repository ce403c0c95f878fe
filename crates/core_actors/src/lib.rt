// The actors of a core: the drivers of its host and the worker of its remote, the calls that they make on its link, and what they make of the ends of calls.
#![tactic(auto)]

mod actor_ends;
mod actor_steps;
mod actors;
mod idle_actors;
mod progress;

pub use actors::{Actor, Actors, HOST_CALLER, WORKER_CALLER};
pub use progress::DriveOutcome;
