// The readers as a library for C: each function below is declared in `examples/c/rproc.h`, and calls the one of c_forms that its contract repeats.
#![tactic(auto)]

mod messages;
mod tables;

ghost use Rattle.std.specs.Prelude.{◌≡◌, ◌≢◌};
ghost use Rattle.c_forms.specs.Arrays.{told_array, told_count, told_status};
ghost use Rattle.c_forms.specs.Loads.{entries_told, image_refusal, load_told, loaded_memory, memory_status, refusal, refused_load, segments_told};
ghost use Rattle.c_forms.specs.Regions.{regions_of};

use c_forms::{CEntry, CLoad, CRegion, CSegment, DONE, NO_MEMORY};
use std::alloc::Global;

/// Says whether an image loads over regions, and what its load gives.
#[unsafe(no_mangle)]
pub extern "C" fn rproc_check(
    alloc: Global,
    image: &[u8],
    regions: &[CRegion],
    told: &mut CLoad,
) -> u32
    ensures status { result ≡ told.new.fault.number }
    ensures told { result ≢ NO_MEMORY → told.new ≡ load_told image.now (regions_of regions.now) }
    ensures refused { result ≢ DONE → told.new ≡ refused_load told.new.fault }
{
    c_forms::check_image(alloc, image, regions, told)
}

/// Writes the loaded segments of an image into an array.
#[unsafe(no_mangle)]
pub extern "C" fn rproc_segments(image: &[u8], array: &mut [CSegment], count: &mut usize) -> u32
    ensures status { result ≡ told_status (image_refusal image.now) (segments_told image.now) array.old }
    ensures segments { array.new ≡ told_array (image_refusal image.now) (segments_told image.now) array.old }
    ensures count { count.new ≡ told_count (image_refusal image.now) (segments_told image.now) array.old }
{
    c_forms::image_segments(image, array, count)
}

/// Loads an image over regions into a memory that has as many bytes as all regions.
#[unsafe(no_mangle)]
pub extern "C" fn rproc_load(
    alloc: Global,
    image: &[u8],
    regions: &[CRegion],
    memory: &mut [u8],
) -> u32
    ensures status { result ≢ NO_MEMORY → result ≡ memory_status (refusal image.now (regions_of regions.now)) (regions_of regions.now) memory.old }
    ensures memory { result ≡ DONE → memory.new ≡ loaded_memory image.now (regions_of regions.now) }
    ensures kept { result ≢ DONE → memory.new ≡ memory.old }
{
    c_forms::load_memory(alloc, image, regions, memory)
}

/// Writes the entries of the resource table of an image, as a load over regions patches it, into an
/// array.
#[unsafe(no_mangle)]
pub extern "C" fn rproc_entries(
    alloc: Global,
    image: &[u8],
    regions: &[CRegion],
    array: &mut [CEntry],
    count: &mut usize,
) -> u32
    ensures status { result ≢ NO_MEMORY → result ≡ told_status (refusal image.now (regions_of regions.now)) (entries_told image.now (regions_of regions.now)) array.old }
    ensures entries { result ≢ NO_MEMORY → array.new ≡ told_array (refusal image.now (regions_of regions.now)) (entries_told image.now (regions_of regions.now)) array.old }
    ensures count { result ≢ NO_MEMORY → count.new ≡ told_count (refusal image.now (regions_of regions.now)) (entries_told image.now (regions_of regions.now)) array.old }
    ensures kept { result ≡ NO_MEMORY → (array.new ≡ array.old) × (count.new ≡ 0) }
{
    c_forms::patched_entries(alloc, image, regions, array, count)
}
