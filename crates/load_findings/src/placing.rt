ghost use Rattle.std.specs.Prelude.{◌≡◌, ◌≤◌, [], ◌∷◌, ◌++◌, true, false, Some, Ok, Err, IfOk, IfSome, OnOk};
ghost use Rattle.std.specs.Option.{option_copied};
ghost use Rattle.std.specs.List.{list_any};
ghost use Rattle.std.specs.List.Sorted.{IsPermutation};
ghost use Rattle.vring_layout.specs.Sizes.{ring_size};
ghost use Rattle.resource_table.specs.Entries.{entries_of};
ghost use Rattle.resource_table.specs.Tables.{IsSoundDevice, IsSoundEntry, IsSoundRing};
ghost use Rattle.memory_pool.specs.OrderedBlocks.{IsMemoryOf, IsNewBlock, IsOrdered};
ghost use Rattle.memory_pool.specs.Places.{any_at, block_in, entry_of, given_in, is_window_use, least_free, memory_of, next_block, place_in, pool_of, window_at, windows_of};
ghost use Rattle.memory_pool.specs.Ranges.{lies_in, meets_block, meets_region};
ghost use Rattle.memory_pool.specs.Soundness.{IsRange};
ghost use Rattle.memory_pool.specs.Wanted.{buffers_wanted, is_anywhere, memory_wanted, rings_wanted, wanted_by, wanted_from};
ghost use Rattle.fw_load.specs.Tables.{entries_in};
ghost use Rattle.board_file.specs.Boards.{AreAliases, AreRanges};
ghost use Rattle.load_findings.specs.Aliases.{device_through, entry_through, ring_through};
ghost use Rattle.load_findings.specs.Placings.{entries_through, no_outcome, outcome_of, tried, with_block};
ghost use Rattle.load_findings.specs.Walks.{of_kind, outcome_in};

use crate::gaps::{least_place, range_end, ranges_meet};
use crate::held::{address_through, read_through};
use board_file::Alias;
use memory_pool::{Block, PlaceFault, Region, Use};
use resource_table::{Entry, Ring, Table, Vdev};
use rp_base::{Da, MESSAGE_MOST, NoMemory, Pa, ring_capacity};
use std::alloc::Global;
use vring_layout::vring_size;

/// The device address that means any (`FW_RSC_ADDR_ANY` of `remoteproc.h`).
const ANY: Da = 0xffff_ffff;

/// The alignment of carveouts and of buffers that may be anywhere.
const PAGE: u32 = 4096;

/// The kind of a device for RPMsg (`VIRTIO_ID_RPMSG`).
const RPMSG: u32 = 7;

/// The address after the last one.
const ADDRESSES_END: u64 = 4_294_967_296;

/// What becomes of all that a table asks for.
#[derive(Drop)]
pub(crate) struct Placing {
    /// What is placed, in order.
    pub(crate) blocks: Vec<Block>,
    /// What is refused, in order.
    pub(crate) refused: Vec<PlaceFault>,
    /// The blocks of memory among those placed, in the order of their device addresses.
    memory: Vec<Block>,
}

/// Places all that a table asks for which can be placed.
pub(crate) fn place_all(
    alloc: Global,
    regions: &[Region],
    aliases: &[Alias],
    table: &Option<Table<'_>>,
) -> Result<Placing, NoMemory>
    requires regions { AreRanges regions.now }
    requires aliases { AreAliases aliases.now }
    ensures { IfOk result (λ placing. outcome_in placing ≡ outcome_of regions.now (entries_through aliases.now (entries_in table.now))) }
{
    match table {
        Some(table) => place_table(alloc, regions, aliases, table),
        None => Ok(Placing::new(alloc)),
    }
}

/// Places all that a table asks for: first what has an address, then what may be anywhere.
fn place_table(
    alloc: Global,
    regions: &[Region],
    aliases: &[Alias],
    table: &Table<'_>,
) -> Result<Placing, NoMemory>
    requires regions { AreRanges regions.now }
    requires aliases { AreAliases aliases.now }
    ensures { IfOk result (λ placing. outcome_in placing ≡ outcome_of regions.now (entries_through aliases.now (entries_of table.now))) }
{
    let mut placing = Placing::new(alloc);
    placing.take_table(regions, aliases, table, false)?;
    placing.take_table(regions, aliases, table, true)?;
    Ok(placing)
}

impl Placing {
    /// Nothing is tried.
    fn new(alloc: Global) -> Placing
        ensures empty { outcome_in result ≡ no_outcome }
        ensures ordered { IsMemoryOf result.blocks.items result.memory.items }
    {
        Placing {
            blocks: Vec::new(alloc),
            refused: Vec::new(alloc),
            memory: Vec::new(alloc),
        }
    }

    /// Tries all of a table that may be anywhere, or all that has an address.
    fn take_table(
        &mut self,
        regions: &[Region],
        aliases: &[Alias],
        table: &Table<'_>,
        anywhere: bool,
    ) -> Result<(), NoMemory>
        requires regions { AreRanges regions.now }
        requires aliases { AreAliases aliases.now }
        requires ordered { IsMemoryOf self.old.blocks.items self.old.memory.items }
        ensures outcome { OnOk result (outcome_in self.new ≡ tried (next_block regions.now) (outcome_in self.old)
            (of_kind is_anywhere anywhere (wanted_from 0 (entries_through aliases.now (entries_of table.now))))) }
        ensures ordered { OnOk result (IsMemoryOf self.new.blocks.items self.new.memory.items) }
    {
        for index in 0..table.len() {
            self.take_entry(regions, aliases, index, &table.entry(index), anywhere)?;
        }
        Ok(())
    }

    /// Tries what an entry asks for, where it may be anywhere or where it has an address.
    fn take_entry(
        &mut self,
        regions: &[Region],
        aliases: &[Alias],
        index: u16,
        entry: &Entry,
        anywhere: bool,
    ) -> Result<(), NoMemory>
        requires regions { AreRanges regions.now }
        requires aliases { AreAliases aliases.now }
        requires entry { IsSoundEntry entry.now }
        requires ordered { IsMemoryOf self.old.blocks.items self.old.memory.items }
        ensures outcome { OnOk result (outcome_in self.new ≡ tried (next_block regions.now) (outcome_in self.old)
            (of_kind is_anywhere anywhere (wanted_by index (entry_through aliases.now entry.now)))) }
        ensures ordered { OnOk result (IsMemoryOf self.new.blocks.items self.new.memory.items) }
    {
        match entry {
            Entry::Carveout(da, _, len, _) => {
                if *len > 0 {
                    let at = address_through(aliases, *da, *len);
                    self.take_memory(regions, Use::Carveout(index), at, *len, PAGE, anywhere)?;
                }
            }
            Entry::Devmem(da, pa, len, _) => {
                if *len > 0 && !anywhere {
                    let at = read_through(aliases, *da, *len);
                    self.take_window(regions, index, at, *pa, *len)?;
                }
            }
            Entry::Device(device) => self.take_device(regions, aliases, index, device, anywhere)?,
            Entry::Trace(_, _, _) | Entry::Skipped(_) => {}
        }
        Ok(())
    }

    /// Tries the rings of a device, and the buffers of one for RPMsg.
    fn take_device(
        &mut self,
        regions: &[Region],
        aliases: &[Alias],
        index: u16,
        device: &Vdev,
        anywhere: bool,
    ) -> Result<(), NoMemory>
        requires regions { AreRanges regions.now }
        requires aliases { AreAliases aliases.now }
        requires device { IsSoundDevice device.now }
        requires ordered { IsMemoryOf self.old.blocks.items self.old.memory.items }
        ensures outcome { OnOk result (outcome_in self.new ≡ tried (next_block regions.now) (outcome_in self.old)
            (of_kind is_anywhere anywhere (rings_wanted index (device_through aliases.now device.now) ++ buffers_wanted index (device_through aliases.now device.now)))) }
        ensures ordered { OnOk result (IsMemoryOf self.new.blocks.items self.new.memory.items) }
    {
        if device.count > 0 {
            self.take_ring(
                regions,
                aliases,
                Use::Ring(index, 0),
                &device.first,
                anywhere,
            )?;
        }
        if device.count > 1 {
            self.take_ring(
                regions,
                aliases,
                Use::Ring(index, 1),
                &device.second,
                anywhere,
            )?;
        }
        if device.id == RPMSG {
            let buffers = ring_capacity(device.first.num) + ring_capacity(device.second.num);
            let len = MESSAGE_MOST as u32 * u32::from(buffers);
            self.take_memory(regions, Use::Buffers(index), ANY, len, PAGE, anywhere)?;
        }
        Ok(())
    }

    /// Tries a ring.
    fn take_ring(
        &mut self,
        regions: &[Region],
        aliases: &[Alias],
        what: Use,
        ring: &Ring,
        anywhere: bool,
    ) -> Result<(), NoMemory>
        requires regions { AreRanges regions.now }
        requires aliases { AreAliases aliases.now }
        requires ring { IsSoundRing ring.now }
        requires memory { is_window_use what ≡ false }
        requires ordered { IsMemoryOf self.old.blocks.items self.old.memory.items }
        ensures outcome { OnOk result (outcome_in self.new ≡ tried (next_block regions.now) (outcome_in self.old)
            (of_kind is_anywhere anywhere (memory_wanted what (ring_through aliases.now ring.now).da (ring_size ring.now.num ring.now.align) ring.now.align ∷ []))) }
        ensures ordered { OnOk result (IsMemoryOf self.new.blocks.items self.new.memory.items) }
    {
        let len = vring_size(ring.num, ring.align);
        let at = address_through(aliases, ring.da, len);
        self.take_memory(regions, what, at, len, ring.align, anywhere)
    }

    /// Tries a block of memory, where it may be anywhere or where it has an address.
    fn take_memory(
        &mut self,
        regions: &[Region],
        what: Use,
        da: Da,
        len: u32,
        align: u32,
        anywhere: bool,
    ) -> Result<(), NoMemory>
        requires regions { AreRanges regions.now }
        requires some { 1 ≤ len }
        requires aligned { 1 ≤ align }
        requires memory { is_window_use what ≡ false }
        requires ordered { IsMemoryOf self.old.blocks.items self.old.memory.items }
        ensures outcome { OnOk result (outcome_in self.new ≡ tried (next_block regions.now) (outcome_in self.old)
            (of_kind is_anywhere anywhere (memory_wanted what da len align ∷ []))) }
        ensures ordered { OnOk result (IsMemoryOf self.new.blocks.items self.new.memory.items) }
    {
        if da == ANY {
            if anywhere {
                return self.take_anywhere(regions, what, len, align);
            }
        } else if !anywhere {
            return self.take_given(regions, what, da, len);
        }
        Ok(())
    }

    /// Tries a block of memory that may be anywhere.
    fn take_anywhere(
        &mut self,
        regions: &[Region],
        what: Use,
        len: u32,
        align: u32,
    ) -> Result<(), NoMemory>
        requires regions { AreRanges regions.now }
        requires some { 1 ≤ len }
        requires aligned { 1 ≤ align }
        requires ordered { IsMemoryOf self.old.blocks.items self.old.memory.items }
        ensures outcome { OnOk result (outcome_in self.new ≡ with_block (outcome_in self.old) (any_at (least_free regions.now self.old.blocks.items what len align) what)) }
        ensures ordered { OnOk result (IsMemoryOf self.new.blocks.items self.new.memory.items) }
    {
        match self.free_block(regions, what, len, align) {
            Some(block) => self.keep(block),
            None => self.refuse(PlaceFault::NoRoom(entry_of(what))),
        }
    }

    /// Tries a block of memory at an address.
    fn take_given(
        &mut self,
        regions: &[Region],
        what: Use,
        da: Da,
        len: u32,
    ) -> Result<(), NoMemory>
        requires regions { AreRanges regions.now }
        requires some { 1 ≤ len }
        requires memory { is_window_use what ≡ false }
        requires ordered { IsMemoryOf self.old.blocks.items self.old.memory.items }
        ensures outcome { OnOk result (outcome_in self.new ≡ with_block (outcome_in self.old) (given_in (pool_of regions.now da len) self.old.blocks.items what da len)) }
        ensures ordered { OnOk result (IsMemoryOf self.new.blocks.items self.new.memory.items) }
    {
        match self.given_block(regions, what, da, len) {
            Ok(block) => self.keep(block),
            Err(refused) => self.refuse(refused),
        }
    }

    /// Tries a window.
    fn take_window(
        &mut self,
        regions: &[Region],
        index: u16,
        da: Da,
        pa: Pa,
        len: u32,
    ) -> Result<(), NoMemory>
        requires some { 1 ≤ len }
        requires ordered { IsMemoryOf self.old.blocks.items self.old.memory.items }
        ensures outcome { OnOk result (outcome_in self.new ≡ with_block (outcome_in self.old) (window_at regions.now self.old.blocks.items index da pa len)) }
        ensures ordered { OnOk result (IsMemoryOf self.new.blocks.items self.new.memory.items) }
    {
        match self.window(regions, index, da, pa, len) {
            Ok(block) => self.keep(block),
            Err(refused) => self.refuse(refused),
        }
    }

    /// Keeps a refusal after the others.
    fn refuse(&mut self, refused: PlaceFault) -> Result<(), NoMemory>
        requires ordered { IsMemoryOf self.old.blocks.items self.old.memory.items }
        ensures outcome { OnOk result (outcome_in self.new ≡ with_block (outcome_in self.old) (Err refused)) }
        ensures ordered { OnOk result (IsMemoryOf self.new.blocks.items self.new.memory.items) }
    {
        self.refused.push(refused)?;
        Ok(())
    }

    /// Keeps a block after the others.
    fn keep(&mut self, block: Block) -> Result<(), NoMemory>
        requires new { IsNewBlock self.old.blocks.items block }
        requires ordered { IsMemoryOf self.old.blocks.items self.old.memory.items }
        ensures outcome { OnOk result (outcome_in self.new ≡ with_block (outcome_in self.old) (Ok block)) }
        ensures ordered { OnOk result (IsMemoryOf self.new.blocks.items self.new.memory.items) }
    {
        self.blocks.push(block)?;
        if !block.is_window() {
            insert_by_address(&mut self.memory, block)?;
        }
        Ok(())
    }

    /// A block at a given address.
    fn given_block(
        &self,
        regions: &[Region],
        what: Use,
        da: Da,
        len: u32,
    ) -> Result<Block, PlaceFault>
        requires regions { AreRanges regions.now }
        requires some { 1 ≤ len }
        requires ordered { IsMemoryOf self.now.blocks.items self.now.memory.items }
        requires memory { is_window_use what ≡ false }
        ensures block { result ≡ given_in (pool_of regions.now da len) self.now.blocks.items what da len }
        ensures new { IfOk result (λ block. IsNewBlock self.now.blocks.items block) }
    {
        let Some(pool) = pool_of(regions, da, len) else {
            return Err(PlaceFault::FixedOutside(entry_of(what)));
        };
        if meets_memory(&self.memory, da, len) {
            return Err(PlaceFault::FixedOverlap(entry_of(what)));
        }
        Ok(block_in(pool, what, da, len))
    }

    /// A block at the least free place of the first pool that has one.
    fn free_block(&self, regions: &[Region], what: Use, len: u32, align: u32) -> Option<Block>
        requires regions { AreRanges regions.now }
        requires some { 1 ≤ len }
        requires aligned { 1 ≤ align }
        requires ordered { IsMemoryOf self.now.blocks.items self.now.memory.items }
        ensures block { result ≡ least_free regions.now self.now.blocks.items what len align }
    {
        for region in regions {
            if let Some(da) = self.place_in(region, len, align) {
                return Some(block_in(region, what, da, len));
            }
        }
        None
    }

    /// The least free place for so many bytes in a region, where it is a pool.
    fn place_in(&self, region: &Region, len: u32, align: u32) -> Option<Da>
        requires range { IsRange region.now.da region.now.pa region.now.len }
        requires some { 1 ≤ len }
        requires aligned { 1 ≤ align }
        requires ordered { IsMemoryOf self.now.blocks.items self.now.memory.items }
        ensures place { result ≡ place_in region.now (memory_of self.now.blocks.items) len align }
        ensures inside { IfSome result (λ da. lies_in da len region.now ≡ true) }
    {
        if region.is_pool() {
            least_place(region, &self.memory, len, align)
        } else {
            None
        }
    }

    /// A window at its address.
    fn window(
        &self,
        regions: &[Region],
        index: u16,
        da: Da,
        pa: Pa,
        len: u32,
    ) -> Result<Block, PlaceFault>
        requires some { 1 ≤ len }
        ensures block { result ≡ window_at regions.now self.now.blocks.items index da pa len }
        ensures new { IfOk result (λ block. IsNewBlock self.now.blocks.items block) }
    {
        if range_end(da, len) > ADDRESSES_END || range_end(pa, len) > ADDRESSES_END {
            return Err(PlaceFault::WindowPastEnd(index));
        }
        if meets_regions(regions, da, len) || meets_windows(&self.blocks, da, len) {
            return Err(PlaceFault::WindowOverlap(index));
        }
        Ok(Block {
            what: Use::Window(index),
            da,
            pa,
            len,
        })
    }
}

/// The number of the entry that a block is for.
fn entry_of(what: Use) -> u16
    ensures { result ≡ entry_of what }
{
    match what {
        Use::Carveout(index) | Use::Window(index) | Use::Ring(index, _) | Use::Buffers(index) =>
            index,
    }
}

/// The block of `len` bytes at a device address in a region.
fn block_in(region: &Region, what: Use, da: Da, len: u32) -> Block
    requires range { IsRange region.now.da region.now.pa region.now.len }
    requires some { 1 ≤ len }
    requires inside { lies_in da len region.now ≡ true }
    ensures { result ≡ block_in region.now what len da }
{
    Block {
        what,
        da,
        pa: region.pa + (da - region.da),
        len,
    }
}

/// Whether a range of device addresses meets blocks, which are in the order of their addresses. It
/// takes time logarithmic in their number.
fn meets_memory(memory: &[Block], da: Da, len: u32) -> bool
    requires { IsOrdered memory.now }
    ensures { result ≡ list_any (meets_block da len) memory.now }
{
    let first = memory.partition_point(|block| range_end(block.da, block.len) <= u64::from(da));
    first < memory.len() && u64::from(memory[first].da) < range_end(da, len)
}

/// Whether a range of device addresses meets the windows among blocks.
fn meets_windows(blocks: &[Block], da: Da, len: u32) -> bool
    ensures { result ≡ list_any (meets_block da len) (windows_of blocks.now) }
{
    blocks.iter().any(|block| block.is_window() && ranges_meet(da, len, block.da, block.len))
}

/// Whether a range of device addresses meets regions.
fn meets_regions(regions: &[Region], da: Da, len: u32) -> bool
    ensures { result ≡ list_any (meets_region da len) regions.now }
{
    regions
        .iter()
        .any(|region| ranges_meet(da, len, region.da, region.len))
}

/// The pool that holds a range of device addresses.
fn pool_of(regions: &[Region], da: Da, len: u32) -> Option<&Region>
    requires { AreRanges regions.now }
    ensures pool { option_copied result ≡ pool_of regions.now da len }
    ensures inside { IfSome result (λ pool. lies_in da len pool.now ≡ true) }
    ensures range { IfSome result (λ pool. IsRange pool.now.da pool.now.pa pool.now.len) }
{
    for region in regions {
        if region.is_pool() && region.holds(da, len) {
            return Some(region);
        }
    }
    None
}

/// Puts a block at its place among blocks in the order of their device addresses.
fn insert_by_address(memory: &mut Vec<Block>, block: Block) -> Result<(), NoMemory>
    requires some { 1 ≤ block.len }
    requires apart { list_any (meets_block block.da block.len) memory.old.items ≡ false }
    requires ordered { IsOrdered memory.old.items }
    ensures ordered { OnOk result (IsOrdered memory.new.items) }
    ensures more { OnOk result (IsPermutation (block ∷ memory.old.items) memory.new.items) }
{
    let place = memory.partition_point(|other| other.da <= block.da);
    memory.insert(place, block)?;
    Ok(())
}
