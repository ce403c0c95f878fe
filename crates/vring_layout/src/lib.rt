// The split virtqueues of VIRTIO 1.2 as they lie in memory: their sizes, and their bytes.
#![tactic(auto)]

mod layout;
mod sizes;
mod snapshots;
mod words;

pub use layout::ring_bytes;
pub use sizes::vring_size;
pub use snapshots::{Snapshot, SnapshotFault};
pub use words::{AvailableWords, RingWords, UsedWord, UsedWords};
