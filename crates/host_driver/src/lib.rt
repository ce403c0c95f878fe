// The drivers of a core's host end: which endpoints they drive, and what each kind of driver sends.
#![tactic(auto)]

mod driven;
mod drivers;
pub mod laws;

pub use driven::DrivenEndpoint;
pub use drivers::{DRIVERS_MOST, DriverFault, Drivers};
