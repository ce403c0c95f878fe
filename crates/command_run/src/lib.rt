// What each command of a script does to the links, the cores and the images of a run, and the events that it writes.
#![tactic(auto)]

mod core_drives;
mod core_links;
mod core_lives;
mod core_views;
mod cores;
mod dumps;
mod faults;
mod fetches;
mod objects;
mod starts;

pub use cores::NamedCore;
pub use faults::{CommandFault, OutputFault};
pub use fetches::run_command;
pub use objects::{Objects, ScriptImage};
