ghost use Rattle.std.specs.Prelude.{◌≡◌, ◌≢◌, None, map};
ghost use Rattle.addr_translate.specs.Maps.{place_at};
ghost use Rattle.fw_load.specs.Rings.{trace_of};
ghost use Rattle.c_forms.specs.Arrays.{told_array, told_count, told_status};
ghost use Rattle.c_forms.specs.Loads.{entries_told, loaded_memory, memory_status, placed_form, refusal, trace_place};
ghost use Rattle.c_forms.specs.Regions.{regions_of};
ghost use Rattle.c_forms.specs.Tables.{entries_read};

use crate::entries::CEntry;
use crate::loads::load_over;
use crate::regions::CRegion;
use crate::{DONE, NO_MEMORY, WRONG_LENGTH};
use addr_translate::Map;
use resource_table::{Entry, Table};
use std::alloc::Global;

/// Loads an image over regions into a memory that has as many bytes as all regions, in their order.
///
/// The status is 0 where it loads. Otherwise it is the number of what refuses it, or [`WRONG_LENGTH`]
/// for a memory of another length, and the memory is as it was.
pub fn load_memory(alloc: Global, image: &[u8], regions: &[CRegion], memory: &mut [u8]) -> u32
    ensures status { result ≢ NO_MEMORY → result ≡ memory_status (refusal image.now (regions_of regions.now)) (regions_of regions.now) memory.old }
    ensures memory { result ≡ DONE → memory.new ≡ loaded_memory image.now (regions_of regions.now) }
    ensures kept { result ≢ DONE → memory.new ≡ memory.old }
{
    let found = match load_over(alloc, image, regions) {
        Ok(found) => found,
        Err(why) => return why.number,
    };
    let len = found.regions.memory_len();
    if memory.len() != len as usize {
        return WRONG_LENGTH;
    }
    memory.copy_from_slice(found.loaded.memory.bytes(0, len));
    DONE
}

/// Writes the entries of the resource table of an image over regions, as a load patches it, into an
/// array, in order, with the places of its traces, and counts those that were written.
///
/// The status is 0, the number of what refuses the image, which leaves the array as it was, or
/// [`WRONG_LENGTH`] where the array has no room for all: it is full then.
pub fn patched_entries(
    alloc: Global,
    image: &[u8],
    regions: &[CRegion],
    array: &mut [CEntry],
    count: &mut usize,
) -> u32
    ensures status { result ≢ NO_MEMORY → result ≡ told_status (refusal image.now (regions_of regions.now)) (entries_told image.now (regions_of regions.now)) array.old }
    ensures entries { result ≢ NO_MEMORY → array.new ≡ told_array (refusal image.now (regions_of regions.now)) (entries_told image.now (regions_of regions.now)) array.old }
    ensures count { result ≢ NO_MEMORY → count.new ≡ told_count (refusal image.now (regions_of regions.now)) (entries_told image.now (regions_of regions.now)) array.old }
    ensures kept { result ≡ NO_MEMORY → (array.new ≡ array.old) × (count.new ≡ 0) }
{
    match load_over(alloc, image, regions) {
        Ok(found) => put_entries(found.loaded.table.bytes(), &found.loaded.map, array, count),
        Err(why) => {
            *count = 0;
            why.number
        }
    }
}

/// Writes the entries of a table, whose traces are where a map says, over the start of an array.
fn put_entries(table: &[u8], places: &Map, array: &mut [CEntry], count: &mut usize) -> u32
    ensures status { result ≡ told_status None (map (placed_form (place_at places.now)) (entries_read table.now)) array.old }
    ensures entries { array.new ≡ told_array None (map (placed_form (place_at places.now)) (entries_read table.now)) array.old }
    ensures count { count.new ≡ told_count None (map (placed_form (place_at places.now)) (entries_read table.now)) array.old }
{
    *count = 0;
    let Ok(table) = Table::read(table) else {
        return DONE;
    };
    for index in 0..table.len() {
        let place = usize::from(index);
        if place == array.len() {
            *count = place;
            return WRONG_LENGTH;
        }
        let entry = table.entry(index);
        array[place] = CEntry::of(&entry, trace_place(places, &entry));
    }
    *count = usize::from(table.len());
    DONE
}

/// Where the bytes of an entry are in the core's memory, if it is a trace and a block of memory holds
/// them.
fn trace_place(places: &Map, entry: &Entry) -> Option<u32>
    ensures { result ≡ trace_place (trace_of (place_at places.now) entry.now) }
{
    match entry {
        Entry::Trace(da, len, _) if *len > 0 => places.memory_at(*da, *len),
        _ => None,
    }
}
