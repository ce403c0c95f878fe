// The channels that a remote core has announced, in order of creation.
#![tactic(auto)]

mod channels;
pub mod laws;

pub use channels::{Channel, Channels};
