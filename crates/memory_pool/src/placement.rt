ghost use Rattle.std.specs.Prelude.{◌≡◌, ◌≢◌, [], Ok, Err, IfOk, IfErr, All};
ghost use Rattle.resource_table.specs.Entries.{entries_of};
ghost use Rattle.memory_pool.specs.Placements.{placed_from, placement};
ghost use Rattle.memory_pool.specs.Soundness.{SoundPlacement, SoundRegions};
ghost use Rattle.memory_pool.specs.OrderedBlocks.{IsSoundWanted};
ghost use Rattle.memory_pool.specs.declared.faults.PlaceFault.TheVariants as fault;

use crate::blocks::Block;
use crate::faults::PlaceFault;
use crate::placing::Placing;
use crate::regions::{Region, Regions};
use crate::wanted::{Wanted, in_order, wanted_of};
use resource_table::Table;
use std::alloc::Global;

/// Where all that a resource table asks for is placed.
#[derive(Drop)]
pub struct Placed {
    /// The blocks and windows, in the order in which they are placed: first those with a given device
    /// address, then the others, both in the order of the table.
    pub blocks: Vec<Block>,
}

/// Places all that a resource table asks for. What has a device address of its own is there; then
/// each other block is placed at the least aligned device address of the first pool that has room.
/// A ring takes [`vring_layout::vring_size`] bytes, and the buffers of the device for RPMsg 512 bytes
/// for each that its lanes have.
///
/// Errors: the first refusal that is met on that way, or out of memory.
pub fn place(alloc: Global, regions: &Regions, table: &Table<'_>) -> Result<Placed, PlaceFault>
    ensures placed { IfOk result (λ placed. placement regions.now (entries_of table.now) ≡ Ok placed.blocks.items) }
    ensures refused { IfErr result (λ refused. refused ≢ fault.NoMemory → placement regions.now (entries_of table.now) ≡ Err refused) }
    ensures sound { IfOk result (λ placed. SoundPlacement regions.now placed.blocks.items) }
{
    let wanted = in_order(alloc, &wanted_of(alloc, table)?)?;
    let blocks = place_all(alloc, regions.as_slice(), &wanted)?;
    Ok(Placed { blocks })
}

/// Places what is wanted, one after the other.
fn place_all(alloc: Global, regions: &[Region], wanted: &[Wanted]) -> Result<Vec<Block>, PlaceFault>
    requires regions { SoundRegions regions.now }
    requires wanted { All IsSoundWanted wanted.now }
    ensures placed { IfOk result (λ blocks. placed_from regions.now [] wanted.now ≡ Ok blocks.items) }
    ensures refused { IfErr result (λ refused. refused ≢ fault.NoMemory → placed_from regions.now [] wanted.now ≡ Err refused) }
{
    let mut placing = Placing::new(alloc, wanted.len())?;
    for one in wanted {
        let block = placing.next_block(regions, one)?;
        placing.keep(block)?;
    }
    Ok(placing.blocks)
}
