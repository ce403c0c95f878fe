// Loads a firmware image into the memory of a core: its segments and its patched resource table.
#![tactic(auto)]

mod faults;
mod fixes;
mod loading;
mod mapped;
mod patched;
mod rings;
mod tables;
mod traces;

pub use faults::LoadFault;
pub use loading::{Loaded, load, load_image};
pub use mapped::bytes_at;
pub use patched::PatchedTable;
pub use rings::RingPair;
pub use traces::TraceAt;
