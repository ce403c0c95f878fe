// The transcript: the events of a run and the notices of the program, and the one line of text that each of them is.
#![tactic(auto)]

mod events;
mod fields;
pub mod laws;
mod lines;
mod notices;
mod readers;
mod table;
mod tables;

pub use events::Event;
pub use lines::{line, push_notice};
pub use notices::Notice;
pub use readers::{LineFault, read_line};
pub use tables::TableLine;
