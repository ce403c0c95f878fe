// The regions of a core's memory, and the places of what a resource table asks for among them.
#![tactic(auto)]

mod blocks;
mod faults;
mod gaps;
pub mod laws;
mod placement;
mod placing;
mod ranges;
mod regions;
mod wanted;

pub use blocks::{Block, Use};
pub use faults::{PlaceFault, RegionFault};
pub use placement::{Placed, place};
pub use regions::{Region, Regions};
pub use rp_base::RegionKind;

/// The most regions of a core.
pub const REGIONS_MOST: usize = 16;

/// The most bytes of all regions of a core: 16 MiB.
pub const MEMORY_MOST: u64 = 16_777_216;
