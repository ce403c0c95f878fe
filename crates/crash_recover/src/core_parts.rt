ghost use Rattle.std.specs.Prelude.{◌≡◌, ◌≤◌, IfOk, All, true, is_some, option_and_then, option_map, slice_get};
ghost use Rattle.core_dump.specs.Parts.{AreParts};
ghost use Rattle.crash_recover.specs.CoreParts.{AreBlocksOf, core_parts, core_ranges, memory_ranges, part_at};

use crate::cores::Core;
use core_dump::Part;
use memory_pool::{Block, Region};
use rp_base::{Da, NoMemory};
use std::alloc::Global;

impl Core {
    /// The block of memory of a number, from 0: its device address and its bytes. The regions that
    /// are always mapped come first, as they were declared, and then the placed blocks without
    /// windows. There is none exactly where the core isn't loaded or has no such block.
    pub fn part(&self, index: u16) -> Option<(Da, &[u8])>
        ensures { option_map (λ part. record { da = part.0; bytes = part.1.now }) result ≡ slice_get (core_parts self.now) index }
    {
        let Some((da, len)) = self.range_at(usize::from(index)) else {
            return None;
        };
        match self.memory(da, len) {
            Some(bytes) => Some((da, bytes)),
            None => None,
        }
    }

    /// All blocks of memory, in that order.
    ///
    /// Errors: only if memory runs out.
    pub fn parts(&self, alloc: Global) -> Result<Vec<Part<'_>>, NoMemory>
        ensures parts { IfOk result (λ parts. parts.items ≡ core_parts self.now) }
        ensures blocks { AreBlocksOf self.now (core_parts self.now) }
        ensures fit { is_some self.now.loaded ≡ true → AreParts (core_parts self.now) }
    {
        let ranges = self.ranges(alloc)?;
        let mut parts = Vec::with_capacity(alloc, ranges.len())?;
        for range in &ranges {
            let (da, len) = *range;
            if let Some(bytes) = self.memory(da, len) {
                parts.push(Part { da, bytes })?;
            }
        }
        Ok(parts)
    }

    /// Where the blocks of memory are, in order: the device address of each, and its length.
    fn ranges(&self, alloc: Global) -> Result<Vec<(Da, u32)>, NoMemory>
        ensures ranges { IfOk result (λ ranges. ranges.items ≡ core_ranges self.now) }
        ensures some { All (λ range. 1 ≤ range.1) (core_ranges self.now) }
        ensures blocks { AreBlocksOf self.now (core_parts self.now) }
        ensures fit { is_some self.now.loaded ≡ true → AreParts (core_parts self.now) }
    {
        let regions = self.regions.as_slice();
        match &self.loaded {
            Some(loaded) => memory_ranges(alloc, regions, &loaded.placed.blocks),
            None => Ok(Vec::new(alloc)),
        }
    }

    /// Where the block of memory of a number is.
    fn range_at(&self, index: usize) -> Option<(Da, u32)>
        ensures range { result ≡ slice_get (core_ranges self.now) index }
        ensures some { All (λ range. 1 ≤ range.1) (core_ranges self.now) }
        ensures part { slice_get (core_parts self.now) index ≡ option_and_then (part_at self.now) (slice_get (core_ranges self.now) index) }
    {
        let regions = self.regions.as_slice();
        match &self.loaded {
            Some(loaded) => nth_range(regions, &loaded.placed.blocks, index),
            None => None,
        }
    }
}

/// Where the blocks of memory are, in the order of [`Core::part`].
fn memory_ranges(
    alloc: Global,
    regions: &[Region],
    placed: &[Block],
) -> Result<Vec<(Da, u32)>, NoMemory>
    ensures { IfOk result (λ ranges. ranges.items ≡ memory_ranges regions.now placed.now) }
{
    let always = regions
        .iter()
        .filter(|region| !region.is_pool())
        .map(|region| (region.da, region.len));
    let others = placed
        .iter()
        .filter(|block| !block.is_window())
        .map(|block| (block.da, block.len));
    Ok(always.chain(others).collect(alloc)?)
}

/// The one of a number among them.
fn nth_range(regions: &[Region], placed: &[Block], index: usize) -> Option<(Da, u32)>
    ensures { result ≡ slice_get (memory_ranges regions.now placed.now) index }
{
    let always = regions
        .iter()
        .filter(|region| !region.is_pool())
        .map(|region| (region.da, region.len));
    let others = placed
        .iter()
        .filter(|block| !block.is_window())
        .map(|block| (block.da, block.len));
    always.chain(others).nth(index)
}
