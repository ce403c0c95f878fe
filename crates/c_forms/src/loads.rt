ghost use Rattle.std.specs.Prelude.{◌≡◌, ◌≢◌, ◌≤◌, None, Some, IfOk, IfErr, OnOk, length};
ghost use Rattle.c_forms.specs.Loads.{IsLoadOf, load_told, loaded_form, refusal, refused_load, with_rings};
ghost use Rattle.c_forms.specs.Regions.{regions_of};
ghost use Rattle.c_forms.specs.Tables.{entries_read};

use crate::faults::{CFault, NO_FAULT};
use crate::regions::{CRegion, regions_of};
use crate::rings::{CRing, NO_RING};
use crate::{DONE, NO_MEMORY};
use fw_load::{Loaded, RingPair, load};
use memory_pool::Regions;
use resource_table::Table;
use std::alloc::Global;

/// What is given of an image over regions: why it doesn't load, and zeros; or what its load gives.
#[repr(C)]
#[derive(Clone, Copy)]
pub struct CLoad {
    /// Why it doesn't load; the number is 0 where it does.
    pub fault: CFault,
    /// The address of the first instruction.
    pub entry: u32,
    /// How many entries its resource table has, and none where it has no table.
    pub entries: u32,
    /// How many bytes the core's memory has, which are those of all regions.
    pub memory_len: u32,
    /// 1 where its table has a device for RPMsg.
    pub rings: u32,
    /// 1 where the firmware of this device announces its channels.
    pub service: u32,
    /// The device address of the buffers.
    pub buffers: u32,
    /// The ring of the messages to the host, as the patched table has it.
    pub to_host: CRing,
    /// The ring of the messages to the remote core, as the patched table has it.
    pub to_remote: CRing,
}

/// The load of an image over regions.
#[derive(Drop)]
pub(crate) struct LoadOver {
    pub(crate) regions: Regions,
    pub(crate) loaded: Loaded,
}

/// Loads an image over regions. The error is the first region that is refused, or the first fault of
/// the load.
pub(crate) fn load_over(alloc: Global, image: &[u8], given: &[CRegion]) -> Result<LoadOver, CFault>
    ensures loaded { IfOk result (λ found. IsLoadOf image.now (regions_of given.now) found) }
    ensures loads { OnOk result (refusal image.now (regions_of given.now) ≡ None) }
    ensures refused { IfErr result (λ why. why.number ≢ NO_MEMORY → refusal image.now (regions_of given.now) ≡ Some why) }
    ensures number { IfErr result (λ why. 1 ≤ why.number) }
{
    let regions = regions_of(alloc, given)?;
    match load(alloc, image, &regions) {
        Ok(loaded) => Ok(LoadOver { regions, loaded }),
        Err(why) => Err(CFault::of_load(why)),
    }
}

/// Says whether an image loads over regions, and what its load gives.
///
/// The status is 0 where it loads, and otherwise the number of what refuses it.
pub fn check_image(alloc: Global, image: &[u8], regions: &[CRegion], told: &mut CLoad) -> u32
    ensures status { result ≡ told.new.fault.number }
    ensures told { result ≢ NO_MEMORY → told.new ≡ load_told image.now (regions_of regions.now) }
    ensures refused { result ≢ DONE → told.new ≡ refused_load told.new.fault }
{
    *told = match load_over(alloc, image, regions) {
        Ok(found) => form_of(&found),
        Err(why) => refused(why),
    };
    told.fault.number
}

/// What is given of an image that doesn't load.
fn refused(fault: CFault) -> CLoad
    ensures { result ≡ refused_load fault }
{
    CLoad {
        fault,
        entry: 0,
        entries: 0,
        memory_len: 0,
        rings: 0,
        service: 0,
        buffers: 0,
        to_host: NO_RING,
        to_remote: NO_RING,
    }
}

/// What is given of an image that loads.
fn form_of(found: &LoadOver) -> CLoad
    ensures { result ≡ loaded_form found.now }
{
    let load = CLoad {
        entry: found.loaded.entry,
        entries: entry_count(found.loaded.table.bytes()),
        memory_len: found.regions.memory_len(),
        ..refused(NO_FAULT)
    };
    match &found.loaded.rings {
        Some(pair) => with_rings(load, pair),
        None => load,
    }
}

/// The same with rings.
fn with_rings(load: CLoad, pair: &RingPair) -> CLoad
    ensures { result ≡ with_rings load (Some pair.now) }
{
    CLoad {
        rings: 1,
        service: u32::from(pair.service),
        buffers: pair.base,
        to_host: CRing::of(&pair.to_host),
        to_remote: CRing::of(&pair.to_remote),
        ..load
    }
}

/// How many entries a table has. Bytes that are no table have none.
fn entry_count(table: &[u8]) -> u32
    ensures { result ≡ length (entries_read table.now) }
{
    match Table::read(table) {
        Ok(table) => u32::from(table.len()),
        Err(_) => 0,
    }
}
