ghost use Rattle.std.specs.Prelude.{◌≡◌, ◌≤◌, [], ◌∷◌, ◌++◌, true, false, IfOk, OnOk, IfSome};
ghost use Rattle.std.specs.Option.{option_copied};
ghost use Rattle.std.specs.List.{list_any};
ghost use Rattle.std.specs.List.Sorted.{IsPermutation};
ghost use Rattle.memory_pool.specs.Ranges.{lies_in, meets_block, meets_region};
ghost use Rattle.memory_pool.specs.Places.{given_in, least_free, memory_of, next_block, place_in, pool_of, window_at, windows_of};
ghost use Rattle.memory_pool.specs.Soundness.{IsRange, SoundRegions};
ghost use Rattle.memory_pool.specs.OrderedBlocks.{IsMemoryOf, IsNewBlock, IsOrdered, IsSoundWanted};

use crate::blocks::{Block, Use};
use crate::faults::PlaceFault;
use crate::gaps::least_place;
use crate::ranges::{range_end, ranges_meet};
use crate::regions::{ADDRESSES_END, Region};
use crate::wanted::Wanted;
use rp_base::{Da, NoMemory, Pa};
use std::alloc::Global;

/// A placement that is under way.
#[derive(Drop)]
pub(crate) struct Placing {
    /// What is placed, in order.
    pub(crate) blocks: Vec<Block>,
    /// The blocks of memory among these, in the order of their device addresses.
    memory: Vec<Block>,
}

impl Placing {
    /// Nothing is placed, and there is room for this many blocks.
    pub(crate) fn new(alloc: Global, room: usize) -> Result<Placing, NoMemory>
        ensures empty { IfOk result (λ placing. placing.blocks.items ≡ []) }
        ensures ordered { IfOk result (λ placing. IsMemoryOf placing.blocks.items placing.memory.items) }
    {
        let blocks = Vec::with_capacity(alloc, room)?;
        let memory = Vec::with_capacity(alloc, room)?;
        Ok(Placing { blocks, memory })
    }

    /// Keeps a block after the others.
    pub(crate) fn keep(&mut self, block: Block) -> Result<(), NoMemory>
        requires new { IsNewBlock self.old.blocks.items block }
        requires ordered { IsMemoryOf self.old.blocks.items self.old.memory.items }
        ensures blocks { OnOk result (self.new.blocks.items ≡ self.old.blocks.items ++ block ∷ []) }
        ensures ordered { OnOk result (IsMemoryOf self.new.blocks.items self.new.memory.items) }
    {
        self.blocks.push(block)?;
        if !block.is_window() {
            insert_by_address(&mut self.memory, block)?;
        }
        Ok(())
    }

    /// The block that is placed for what is wanted next, or why none is.
    pub(crate) fn next_block(
        &self,
        regions: &[Region],
        wanted: &Wanted,
    ) -> Result<Block, PlaceFault>
        requires regions { SoundRegions regions.now }
        requires wanted { IsSoundWanted wanted.now }
        requires ordered { IsMemoryOf self.now.blocks.items self.now.memory.items }
        ensures block { result ≡ next_block regions.now self.now.blocks.items wanted.now }
        ensures new { IfOk result (λ block. IsNewBlock self.now.blocks.items block) }
    {
        match *wanted {
            Wanted::Given(what, da, len) => self.given_block(regions, what, da, len),
            Wanted::Any(what, len, align) => match self.free_block(regions, what, len, align) {
                Some(block) => Ok(block),
                None => Err(PlaceFault::NoRoom(what.entry())),
            },
            Wanted::Window(index, da, pa, len) => self.window(regions, index, da, pa, len),
        }
    }

    /// A block at a given address.
    fn given_block(
        &self,
        regions: &[Region],
        what: Use,
        da: Da,
        len: u32,
    ) -> Result<Block, PlaceFault>
        requires regions { SoundRegions regions.now }
        requires some { 1 ≤ len }
        requires ordered { IsMemoryOf self.now.blocks.items self.now.memory.items }
        ensures { result ≡ given_in (pool_of regions.now da len) self.now.blocks.items what da len }
    {
        let Some(pool) = pool_of(regions, da, len) else {
            return Err(PlaceFault::FixedOutside(what.entry()));
        };
        if meets_memory(&self.memory, da, len) {
            return Err(PlaceFault::FixedOverlap(what.entry()));
        }
        Ok(pool.block_at(what, da, len))
    }

    /// A block at the least free place of the first pool that has one.
    fn free_block(&self, regions: &[Region], what: Use, len: u32, align: u32) -> Option<Block>
        requires regions { SoundRegions regions.now }
        requires some { 1 ≤ len }
        requires aligned { 1 ≤ align }
        requires ordered { IsMemoryOf self.now.blocks.items self.now.memory.items }
        ensures { result ≡ least_free regions.now self.now.blocks.items what len align }
    {
        for region in regions {
            if let Some(da) = self.place_in(region, len, align) {
                return Some(region.block_at(what, da, len));
            }
        }
        None
    }

    /// The least free place for so many bytes in a region, where it is a pool.
    fn place_in(&self, region: &Region, len: u32, align: u32) -> Option<Da>
        requires range { IsRange region.now.da region.now.pa region.now.len }
        requires some { 1 ≤ len }
        requires aligned { 1 ≤ align }
        requires ordered { IsMemoryOf self.now.blocks.items self.now.memory.items }
        ensures place { result ≡ place_in region.now (memory_of self.now.blocks.items) len align }
        ensures inside { IfSome result (λ da. lies_in da len region.now ≡ true) }
    {
        if region.is_pool() {
            least_place(region, &self.memory, len, align)
        } else {
            None
        }
    }

    /// A window at its address.
    fn window(
        &self,
        regions: &[Region],
        index: u16,
        da: Da,
        pa: Pa,
        len: u32,
    ) -> Result<Block, PlaceFault>
        ensures { result ≡ window_at regions.now self.now.blocks.items index da pa len }
    {
        if range_end(da, len) > ADDRESSES_END || range_end(pa, len) > ADDRESSES_END {
            return Err(PlaceFault::WindowPastEnd(index));
        }
        if meets_regions(regions, da, len) || meets_windows(&self.blocks, da, len) {
            return Err(PlaceFault::WindowOverlap(index));
        }
        Ok(Block {
            what: Use::Window(index),
            da,
            pa,
            len,
        })
    }
}

/// Whether a range of device addresses meets blocks, which are in the order of their addresses. It
/// takes time logarithmic in their number.
fn meets_memory(memory: &[Block], da: Da, len: u32) -> bool
    requires { IsOrdered memory.now }
    ensures { result ≡ list_any (meets_block da len) memory.now }
{
    let first = memory.partition_point(|block| range_end(block.da, block.len) <= u64::from(da));
    first < memory.len() && u64::from(memory[first].da) < range_end(da, len)
}

/// Whether a range of device addresses meets the windows among blocks.
fn meets_windows(blocks: &[Block], da: Da, len: u32) -> bool
    ensures { result ≡ list_any (meets_block da len) (windows_of blocks.now) }
{
    blocks.iter().any(|block| block.is_window() && ranges_meet(da, len, block.da, block.len))
}

/// Whether a range of device addresses meets regions.
fn meets_regions(regions: &[Region], da: Da, len: u32) -> bool
    ensures { result ≡ list_any (meets_region da len) regions.now }
{
    regions
        .iter()
        .any(|region| ranges_meet(da, len, region.da, region.len))
}

/// The pool that holds a range of device addresses.
fn pool_of(regions: &[Region], da: Da, len: u32) -> Option<&Region>
    requires { SoundRegions regions.now }
    ensures pool { option_copied result ≡ pool_of regions.now da len }
    ensures inside { IfSome result (λ pool. lies_in da len pool.now ≡ true) }
    ensures range { IfSome result (λ pool. IsRange pool.now.da pool.now.pa pool.now.len) }
{
    for region in regions {
        if region.is_pool() && region.holds(da, len) {
            return Some(region);
        }
    }
    None
}

/// Puts a block at its place among blocks in the order of their device addresses.
fn insert_by_address(memory: &mut Vec<Block>, block: Block) -> Result<(), NoMemory>
    requires some { 1 ≤ block.len }
    requires apart { list_any (meets_block block.da block.len) memory.old.items ≡ false }
    requires ordered { IsOrdered memory.old.items }
    ensures ordered { OnOk result (IsOrdered memory.new.items) }
    ensures more { OnOk result (IsPermutation (block ∷ memory.old.items) memory.new.items) }
{
    let place = memory.partition_point(|other| other.da <= block.da);
    memory.insert(place, block)?;
    Ok(())
}
