// Where device addresses are: the map of a core's mapped blocks, and the bytes of its memory.
#![tactic(auto)]

pub mod laws;
mod mapped;
mod maps;
mod memory;

pub use mapped::Place;
pub use maps::Map;
pub use memory::CoreMemory;
