// What is wrong with an image on a board: each fault that keeps it from being loaded, in order.
#![tactic(auto)]

mod faults;
mod gaps;
mod held;
mod placing;
mod reading;

pub use faults::load_faults;
