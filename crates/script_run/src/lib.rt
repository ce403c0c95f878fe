// The top call of rproc: it runs a script over links and writes the transcript, or reports whether an image loads.
#![tactic(auto)]

mod audits;
mod demos;
mod endings;
mod program;
mod reports;
mod runs;
mod storms;
mod words;
mod yards;

pub use program::{run_program, run_script};
pub use program_status::Status;
pub use storms::run_storm;
pub use words::Request;
pub use yards::Yard;
