ghost use Rattle.std.specs.Prelude.{◌≡◌, IfOk};
ghost use Rattle.memory_pool.specs.Soundness.{SoundRegions};
ghost use Rattle.addr_translate.specs.Mapped.{mapped_blocks};

use crate::mapped::{Mapped, Place};
use memory_pool::{Block, Placed, Region, Regions};
use rp_base::{Da, NoMemory};
use std::alloc::Global;
use std::marker::Model;

/// What device addresses of a core are mapped. Contracts see the mapped blocks, and how many bytes
/// the core's memory has.
#[derive(Drop)]
pub struct Map {
    mapped: Vec<Mapped>,
    memory_len: u32,
}

impl Model for Map {
    ghost use Rattle.addr_translate.specs.Maps.{Mapping};
    ghost use Rattle.addr_translate.specs.OrderedMaps.{SoundMap};

    ghost Value = { Mapping };

    ghost view = { λ map. record { blocks = map.mapped.items; memory_len = map.memory_len } };

    ghost invariant = { λ map. SoundMap map.mapped.items map.memory_len };
}

impl Map {
    ghost use Rattle.std.specs.Prelude.{◌≡◌, ◌+◌, ◌≤◌, IfOk, IfSome};
    ghost use Rattle.memory_pool.specs.Soundness.{SoundPlacement};
    ghost use Rattle.addr_translate.specs.Maps.{IsMapOf, place_at, translate};

    /// The map of the regions that are always mapped, and of blocks and windows that [`place`] placed
    /// among the regions, or of none. What it says of a range is [`laws::any_order`].
    ///
    /// Errors: only if memory runs out.
    ///
    /// [`place`]: memory_pool::place
    /// [`laws::any_order`]: crate::laws::any_order
    pub fn of(alloc: Global, regions: &Regions, placed: &Placed) -> Result<Map, NoMemory>
        requires { SoundPlacement regions.now placed.now.blocks.items }
        ensures { IfOk result (λ map. IsMapOf regions.now placed.now.blocks.items map) }
    {
        let memory_len = regions.memory_len();
        let mut mapped = mapped_blocks(alloc, regions.as_slice(), &placed.blocks)?;
        mapped.sort_unstable_by_key(|block| block.da);
        Ok(Map { mapped, memory_len })
    }

    /// Where `len` device addresses from `da` on are, of which there is at least one. There is no such
    /// place exactly where no single mapped block holds them all. It takes time logarithmic in the
    /// number of blocks.
    pub fn translate(&self, da: Da, len: u32) -> Option<Place>
        requires { 1 ≤ len }
        ensures place { result ≡ translate self.now da len }
        ensures inside { IfSome result (λ place. IfSome place.at (λ at. at + len ≤ self.now.memory_len)) }
    {
        let behind = self.mapped.partition_point(|block| block.da <= da);
        if behind == 0 {
            return None;
        }
        let block = &self.mapped[behind - 1];
        if block.holds(da, len) {
            Some(block.place_of(da))
        } else {
            None
        }
    }

    /// Where `len` device addresses from `da` on, of which there is at least one, are in the core's
    /// memory. There is no such place exactly where no single block of memory holds them all.
    pub fn memory_at(&self, da: Da, len: u32) -> Option<u32>
        requires { 1 ≤ len }
        ensures place { result ≡ place_at self.now da len }
        ensures inside { IfSome result (λ at. at + len ≤ self.now.memory_len) }
    {
        let place = self.translate(da, len)?;
        place.at
    }
}

/// All that is mapped: the regions that always are, then placed blocks and windows.
fn mapped_blocks(
    alloc: Global,
    regions: &[Region],
    blocks: &[Block],
) -> Result<Vec<Mapped>, NoMemory>
    requires { SoundRegions regions.now }
    ensures { IfOk result (λ mapped. mapped.items ≡ mapped_blocks regions.now blocks.now) }
{
    let always = regions
        .iter()
        .filter(|region| !region.is_pool())
        .map(|region| Mapped::of_region(regions, region));
    let placed = blocks.iter().map(|block| Mapped::of_block(regions, block));
    Ok(always.chain(placed).collect(alloc)?)
}
