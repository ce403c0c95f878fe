// The plain types that every crate of rproc shares: messages, names, endpoints, eras, and little-endian fields.
#![tactic(auto)]

mod fields;
mod kinds;
mod limits;
mod memory;
mod messages;
mod names;
mod payloads;

pub use fields::{put_u16, put_u32, u16_at, u32_at, u64_at};
pub use kinds::{
    BindFault, BoundEndpoint, CrashKind, DriverKind, End, Endpoint, Era, LifeState, NsKind,
    RegionKind, Switch, Verdict,
};
pub use limits::{
    BOOK_MOST, CALLERS_MOST, CAPACITY_MOST, CHANNELS_MOST, ENDPOINTS_MOST, IMAGE_MOST,
    MESSAGE_MOST, NAME_MOST, OBJECTS_MOST, PAYLOAD_MOST, RING_MOST, SCRIPT_LINES_MOST, SCRIPT_MOST,
    STANDARD_MEMORY, STEPS_MOST, is_ring_size, ring_capacity,
};
pub use memory::NoMemory;
pub use messages::{Buffer, Message};
pub use names::Name;
pub use payloads::Data;

/// An address in the memory of a remote core, as that core uses it (`da` of `remoteproc.h`).
pub type Da = u32;

/// An address in the physical memory of the host (`pa` of `remoteproc.h`).
pub type Pa = u32;

/// The number of one life of a link or a core, from 1.
pub type Inc = u32;

/// A user of a link, from 0 to 63. The manager of a link has the number 64.
pub type CallerNo = u8;
