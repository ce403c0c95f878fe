// What a run keeps beside its links and cores: the lines that wait to be handed to the sink, and the count of the steps that were done.
#![tactic(auto)]

mod logs;

pub use logs::{PIECE, RunLog};
