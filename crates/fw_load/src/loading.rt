ghost use Rattle.std.specs.Prelude.{◌≡◌, ◌≢◌, None, Some, Ok, All, IfOk, IfErr, IfSome, OnOk};
ghost use Rattle.elf_image.specs.Images.{GoodImage};
ghost use Rattle.resource_table.specs.Entries.{entries_of};
ghost use Rattle.memory_pool.specs.Placements.{placement};
ghost use Rattle.memory_pool.specs.Soundness.{SoundPlacement};
ghost use Rattle.addr_translate.specs.Maps.{IsMapOf, place_at};
ghost use Rattle.fw_load.specs.Rings.{IsSoundPair, IsTraceIn, pair_from, traces_of};
ghost use Rattle.fw_load.specs.Tables.{entries_in, section_fault, table_of, table_section};
ghost use Rattle.fw_load.specs.Loading.{IsLoaded, Loads, load_fault};
ghost use Rattle.fw_load.specs.declared.faults.LoadFault.TheVariants as fault;

use crate::faults::LoadFault;
use crate::fixes::patched_table;
use crate::mapped::{copy_segments, copy_table, test_entry, test_segments};
use crate::patched::PatchedTable;
use crate::rings::{RingPair, ring_pair};
use crate::tables::{place_entries, read_table};
use crate::traces::{TraceAt, traces_of};
use addr_translate::{CoreMemory, Map};
use elf_image::{Image, Section};
use memory_pool::{Placed, Regions};
use resource_table::Table;
use rp_base::{Da, NoMemory};
use std::alloc::Global;

/// An image that is loaded.
#[derive(Drop)]
pub struct Loaded {
    /// The memory of the core: zeros, the segments of the image, and the patched table.
    pub memory: CoreMemory,
    /// What is mapped.
    pub map: Map,
    /// Where the resource table's entries are placed.
    pub placed: Placed,
    /// The patched table, with nothing in it where the image has none.
    pub table: PatchedTable,
    /// The address of the first record.
    pub entry: Da,
    /// The rings of the device for RPMsg, where the patched table has one.
    pub rings: Option<RingPair>,
    /// The traces of the table, in order.
    pub traces: Vec<TraceAt>,
}

/// Loads an image into the memory of a core that has regions.
///
/// Errors: the first of the tests that fails, in this order: the image; its resource table, whose
/// section is `.resource_table`; the placement of what the table asks for; that one block of memory
/// holds each segment whole, in order; that one holds the 16 bytes at the entry. Want of memory may
/// come at any of them.
pub fn load(alloc: Global, image: &[u8], regions: &Regions) -> Result<Loaded, LoadFault>
    ensures loads { OnOk result (Loads image.now regions.now) }
    ensures loaded { IfOk result (λ loaded. IsLoaded image.now regions.now loaded) }
    ensures refused { IfErr result (λ refused. refused ≢ fault.NoMemory → load_fault image.now regions.now ≡ Some refused) }
{
    let read = Image::read(image)?;
    load_image(alloc, image, &read, regions)
}

/// Loads an image that was read from these bytes.
///
/// Errors: as those of [`load`] after the test of the image.
pub fn load_image(
    alloc: Global,
    bytes: &[u8],
    image: &Image<'_>,
    regions: &Regions,
) -> Result<Loaded, LoadFault>
    requires same { image.now ≡ bytes.now }
    requires good { GoodImage bytes.now }
    ensures loads { OnOk result (Loads bytes.now regions.now) }
    ensures loaded { IfOk result (λ loaded. IsLoaded bytes.now regions.now loaded) }
    ensures refused { IfErr result (λ refused. refused ≢ fault.NoMemory → load_fault bytes.now regions.now ≡ Some refused) }
{
    let section = image.section(".resource_table");
    let table = read_table(bytes, section)?;
    let placed = place_entries(alloc, regions, &table)?;
    let map = Map::of(alloc, regions, &placed)?;
    test_segments(&map, image)?;
    test_entry(&map, image.entry())?;
    Ok(filled(alloc, image, regions, section, &table, placed, map)?)
}

/// Fills the memory of an image that passed all tests.
fn filled(
    alloc: Global,
    image: &Image<'_>,
    regions: &Regions,
    section: Option<Section>,
    table: &Option<Table<'_>>,
    placed: Placed,
    map: Map,
) -> Result<Loaded, NoMemory>
    requires section { section ≡ table_section image.now }
    requires table { table.now ≡ table_of image.now }
    requires good { section_fault image.now section ≡ None }
    requires placed { placement regions.now (entries_in table.now) ≡ Ok placed.blocks.items }
    requires sound { SoundPlacement regions.now placed.blocks.items }
    requires map { IsMapOf regions.now placed.blocks.items map }
    ensures { IfOk result (λ loaded. IsLoaded image.now regions.now loaded) }
{
    let patched = patched_table(alloc, table, &placed.blocks)?;
    let mut memory = CoreMemory::new(alloc, regions)?;
    copy_segments(&mut memory, &map, image);
    copy_table(&mut memory, &map, section, patched.bytes());
    let (rings, traces) = devices(alloc, &patched, &placed, &map)?;
    Ok(Loaded {
        memory,
        map,
        placed,
        table: patched,
        entry: image.entry(),
        rings,
        traces,
    })
}

/// The rings of the device for RPMsg, and the traces, of a patched table.
fn devices(
    alloc: Global,
    table: &PatchedTable,
    placed: &Placed,
    map: &Map,
) -> Result<(Option<RingPair>, Vec<TraceAt>), NoMemory>
    ensures rings { IfOk result (λ devices. devices.0 ≡ pair_from placed.now.blocks.items 0 (entries_of table.now)) }
    ensures sound { IfOk result (λ devices. IfSome devices.0 IsSoundPair) }
    ensures inside { IfOk result (λ devices. All (IsTraceIn map.now.memory_len) devices.1.items) }
    ensures traces { IfOk result (λ devices. devices.1.items ≡ traces_of (place_at map.now) (entries_of table.now)) }
{
    match table.table() {
        Some(table) => {
            let rings = ring_pair(&table, &placed.blocks);
            Ok((rings, traces_of(alloc, &table, map)?))
        }
        None => Ok((None, Vec::new(alloc))),
    }
}
