// The header of RPMsg messages, and the messages of the name service, as bytes and back.
#![tactic(auto)]

mod faults;
mod headers;
pub mod laws;
mod services;

pub use faults::HeaderFault;
pub use headers::{Header, fields, head, read, write};
pub use services::{NsMessage, ns_read, ns_write};
