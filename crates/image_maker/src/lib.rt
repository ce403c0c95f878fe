// Firmware images as recipes say: ELF32 headers, segments, and a resource table with its section; and the script of a demo.
#![tactic(auto)]

mod codes;
mod demo;
pub mod laws;
mod layout;
mod sizes;
mod tables;

pub use demo::{SESSIONS_MOST, demo_script};
pub use layout::build;
