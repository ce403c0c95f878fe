// The worker of a remote core, which runs the records of its code one at a time.
#![tactic(auto)]

mod named;
mod records;
mod workers;
mod works;

pub use workers::{Task, Work, Worker};
