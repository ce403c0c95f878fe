ghost use Rattle.std.specs.Prelude.{◌≡◌, ◌≤◌, true};
ghost use Rattle.std.specs.Result.{result_err};
ghost use Rattle.memory_pool.specs.Ranges.{lies_in};
ghost use Rattle.memory_pool.specs.Regions.{has_wrong_range, is_pool, memory_len, region_fault, regions_meet};
ghost use Rattle.memory_pool.specs.Places.{block_in};
ghost use Rattle.memory_pool.specs.Soundness.{IsRange, SoundRegions};

use crate::blocks::{Block, Use};
use crate::faults::RegionFault;
use crate::ranges::{lies_within, range_end, ranges_meet};
use crate::{MEMORY_MOST, REGIONS_MOST};
use rp_base::{Da, NoMemory, Pa, RegionKind, STANDARD_MEMORY};
use std::alloc::Global;
use std::marker::Model;

/// The regions of a core that declares none.
const STANDARD_REGIONS: [Region; 2] = [
    Region {
        kind: RegionKind::Tcm,
        da: 0,
        pa: 0x2000_0000,
        len: STANDARD_MEMORY,
    },
    Region {
        kind: RegionKind::Pool,
        da: 0x1000_0000,
        pa: 0x3000_0000,
        len: 1_048_576,
    },
];

/// The address after the last one.
pub(crate) const ADDRESSES_END: u64 = 4_294_967_296;

/// A region of a core's memory.
#[derive(Clone, Copy)]
pub struct Region {
    /// What its memory serves for.
    pub kind: RegionKind,
    /// Its device address.
    pub da: Da,
    /// Its physical address.
    pub pa: Pa,
    /// How many bytes it has.
    pub len: u32,
}

impl Region {
    /// Whether blocks are placed in it.
    pub fn is_pool(&self) -> bool
        ensures { result ≡ is_pool self.now }
    {
        matches!(self.kind, RegionKind::Pool)
    }

    /// Whether a range of device addresses lies in it, which begins at `da` and has `len` bytes.
    pub fn holds(&self, da: Da, len: u32) -> bool
        ensures { result ≡ lies_in da len self.now }
    {
        lies_within(da, len, self.da, self.len)
    }

    /// Whether another region meets it, in device or in physical addresses.
    fn meets(&self, other: &Region) -> bool
        ensures { result ≡ regions_meet other.now self.now }
    {
        ranges_meet(other.da, other.len, self.da, self.len)
            || ranges_meet(other.pa, other.len, self.pa, self.len)
    }

    /// The block of `len` bytes at a device address in it.
    pub(crate) fn block_at(&self, what: Use, da: Da, len: u32) -> Block
        requires range { IsRange self.now.da self.now.pa self.now.len }
        requires some { 1 ≤ len }
        requires inside { lies_in da len self.now ≡ true }
        ensures { result ≡ block_in self.now what len da }
    {
        Block {
            what,
            da,
            pa: self.pa + (da - self.da),
            len,
        }
    }
}

/// The regions of a core, in the order in which they were declared. Contracts see their list.
#[derive(Drop)]
pub struct Regions {
    items: Vec<Region>,
}

impl Model for Regions {
    ghost use Rattle.std.specs.Prelude.{List};
    ghost use Rattle.memory_pool.specs.declared.regions.Region.{Region};
    ghost use Rattle.memory_pool.specs.Soundness.{SoundRegions};

    ghost Value = { List Region };

    ghost view = { λ regions. regions.items.items };

    ghost invariant = { λ regions. SoundRegions regions.items.items };
}

impl Regions {
    ghost use Rattle.std.specs.Prelude.{◌≡◌, ◌<◌, ◌≤◌, [], ◌∷◌, ◌++◌, Some, None, IfOk, OnOk, IfErr, OnErr, length, slice_get};
    ghost use Rattle.std.specs.Option.{option_or};
    ghost use Rattle.memory_pool.specs.Regions.{memory_len, region_fault, standard_regions};
    ghost use Rattle.memory_pool.specs.Soundness.{SoundRegions};
    ghost use Rattle.memory_pool.specs.declared.faults.RegionFault.TheVariants as fault;

    /// No regions.
    ///
    /// Errors: only if memory runs out.
    pub fn new(alloc: Global) -> Result<Regions, NoMemory>
        ensures { IfOk result (λ regions. regions ≡ []) }
    {
        let items = Vec::with_capacity(alloc, REGIONS_MOST)?;
        Ok(Regions { items })
    }

    /// The regions of a core that declares none: 65,536 bytes that are always mapped, at device
    /// address 0, and 1,048,576 bytes in which blocks are placed, at device address 0x10000000.
    ///
    /// Errors: only if memory runs out.
    pub fn standard(alloc: Global) -> Result<Regions, NoMemory>
        ensures { IfOk result (λ regions. regions ≡ standard_regions) }
    {
        let items = Vec::from_slice(alloc, &STANDARD_REGIONS)?;
        Ok(Regions { items })
    }

    /// How many regions there are, at most 16.
    pub fn len(&self) -> u16
        ensures regions { result ≡ length self.now }
        ensures most { result ≤ 16 }
    {
        self.items.len() as u16
    }

    /// The region of a number, from 0.
    pub fn get(&self, index: u16) -> Region
        requires { index < length self.now }
        ensures { slice_get self.now index ≡ Some result }
    {
        self.items[usize::from(index)]
    }

    /// The regions in the order in which they were declared.
    pub fn as_slice(&self) -> &[Region]
        ensures regions { result.now ≡ self.now }
        ensures sound { SoundRegions self.now }
    {
        &self.items
    }

    /// The bytes of all regions, at most 16 MiB.
    pub fn memory_len(&self) -> u32
        ensures bytes { result ≡ memory_len self.now }
        ensures most { result ≤ 16777216 }
    {
        memory_len(&self.items) as u32
    }

    /// Adds a region after the others, and answers its number.
    ///
    /// Errors, in this order: there are sixteen regions; the region is empty, ends past the addresses,
    /// or makes the memory of all larger than 16 MiB; its device or physical addresses meet those of a
    /// region; memory ran out. After each the regions are as they were.
    pub fn add(&mut self, _alloc: Global, region: Region) -> Result<u16, RegionFault>
        ensures number { IfOk result (λ index. index ≡ length self.old) }
        ensures added { OnOk result (self.new ≡ self.old ++ region ∷ []) }
        ensures fits { OnOk result (region_fault self.old region ≡ None) }
        ensures refused { IfErr result (λ refused. option_or (region_fault self.old region) (Some fault.NoMemory) ≡ Some refused) }
        ensures unchanged { OnErr result (self.new ≡ self.old) }
    {
        test_region(&self.items, &region)?;
        let index = self.items.len() as u16;
        match self.items.push(region) {
            Ok(()) => Ok(index),
            Err(_) => Err(RegionFault::NoMemory),
        }
    }
}

/// Tests a region that is to be added after sound ones.
fn test_region(regions: &[Region], region: &Region) -> Result<(), RegionFault>
    requires { SoundRegions regions.now }
    ensures { result_err result ≡ region_fault regions.now region.now }
{
    if regions.len() >= REGIONS_MOST {
        return Err(RegionFault::RegionsFull);
    }
    if has_wrong_range(regions, region) {
        return Err(RegionFault::RegionRange);
    }
    if regions.iter().any(|other| other.meets(region)) {
        return Err(RegionFault::RegionOverlap);
    }
    Ok(())
}

/// Whether a region is empty or ends past the addresses, or makes the memory of all too large.
fn has_wrong_range(regions: &[Region], region: &Region) -> bool
    requires { SoundRegions regions.now }
    ensures { result ≡ has_wrong_range regions.now region.now }
{
    region.len == 0
        || range_end(region.da, region.len) > ADDRESSES_END
        || range_end(region.pa, region.len) > ADDRESSES_END
        || memory_len(regions) + u64::from(region.len) > MEMORY_MOST
}

/// The bytes of all regions.
fn memory_len(regions: &[Region]) -> u64
    requires { SoundRegions regions.now }
    ensures { result ≡ memory_len regions.now }
{
    regions.iter().map(|region| u64::from(region.len)).sum()
}
