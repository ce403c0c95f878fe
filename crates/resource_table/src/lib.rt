// Reads the resource table of a firmware image, and writes the places of its carveouts and rings into a copy.
#![tactic(auto)]

mod entries;
mod faults;
mod fixes;
mod header;
mod kinds;
mod reader;
mod spans;
mod testing;
mod virtio;

pub use entries::{Entry, Ring, Vdev};
pub use faults::TableFault;
pub use fixes::Fix;
pub use reader::Table;
pub use virtio::{DeviceFeatures, DeviceStatus};

/// The most entries of a table.
pub const ENTRIES_MOST: u32 = 256;
