// A link whose lanes are kept as the rings of a split virtqueue, with indexes, ring entries and numbered buffers.
#![tactic(auto)]

mod ring_lanes;
mod ring_links;
mod states;

pub use ring_lanes::RingLane;
pub use ring_links::{RingLink, ring_link};
pub use states::{Hand, RingSizes, RingState, Rings};
