// The checker of transcripts: which lines break a rule of what a run writes.
#![tactic(auto)]

mod answers;
mod audits;
mod books;
mod endings;
pub mod laws;
mod limits;
mod marks;
mod readings;
mod records;
mod sides;

pub use answers::Audit;
pub use audits::audit;
pub use limits::TRANSCRIPT_MOST;
