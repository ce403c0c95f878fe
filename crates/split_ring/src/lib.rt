// A link that threads share: its words and slots as one table, the callers and the manager, and their calls over the steps of link_words.
#![tactic(auto)]

mod binds;
mod callers;
mod calls;
mod carried;
mod carried_reclaims;
mod closes;
mod ends;
mod forms;
mod gathers;
mod gives;
mod held_places;
pub mod laws;
mod layouts;
mod links;
mod managed;
mod reclaims;
mod reopens;
mod sends;
mod slots;
mod snapshots;
mod stages;
mod steps;
mod takes;
mod threads;
mod turns;
mod waits;
mod whole_receives;
mod whole_sends;

pub use binds::DeskFault;
pub use callers::{Caller, CallerId, Manager};
pub use calls::RingCall;
pub use gives::GiveBusy;
pub use held_places::HeldPlace;
pub use lane_model::{Books, ReopenFault};
pub use links::SharedLink;
pub use reclaims::{Parts, ReclaimFault};
pub use sends::SendFault;
pub use takes::{Handing, TakeFault, Taken};
pub use vring_layout::{Snapshot, SnapshotFault};
pub use waits::Pauses;
