// The commands of a script as acts, what those on a link do to it, and the lines that they write.
#![tactic(auto)]

mod act_events;
mod acts;
mod call_events;
mod channel_lists;
mod event_fields;
mod links;
mod recoveries;
mod rings;
mod stops;

pub use act_events::{tell_answer, tell_reach};
pub use acts::{
    CoreAct, CoreView, Line, LinkView, Making, ManagerAct, NamedAct, StartAct, line_of,
};
pub use channel_lists::tell_channels;
pub use links::{NamedBench, tell_books};
pub use recoveries::reopen_fault_event;
pub use rings::tell_bytes;
pub use stops::Stop;
