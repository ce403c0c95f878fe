// The endpoints that are bound on one end of a link: addresses, each with the number of its binding.
#![tactic(auto)]

mod endpoints;
pub mod laws;

pub use endpoints::{ANY_ADDRESS, Endpoints, FIRST_DYNAMIC};
