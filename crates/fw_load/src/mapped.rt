ghost use Rattle.std.specs.Prelude.{◌≡◌, ◌+◌, ◌≤◌, ◌<◌, ◌^◌, All, IfSome, length, option_map};
ghost use Rattle.std.specs.Result.{result_err};
ghost use Rattle.elf_image.specs.Segments.{SegmentAt, segments_of};
ghost use Rattle.elf_image.specs.SegmentsRead.{segment_read};
ghost use Rattle.addr_translate.specs.Bytes.{with_bytes};
ghost use Rattle.addr_translate.specs.OrderedMaps.{SoundMap};
ghost use Rattle.fw_load.specs.Loading.{segments_unmapped, entry_unmapped};
ghost use Rattle.fw_load.specs.Memory.{bytes_at, segment_bytes, with_segments, with_table};
ghost use Rattle.addr_translate.specs.Maps.{place_at};

use crate::faults::LoadFault;
use addr_translate::{CoreMemory, Map};
use elf_image::{Image, Section, Segment};
use rp_base::Da;

/// How many bytes at the entry are to be in memory.
const ENTRY_LEN: u32 = 16;

/// The bytes of a range of device addresses that is not empty, in the memory that a map is for: there
/// are some exactly where one block of memory holds the range whole.
pub fn bytes_at<'a>(memory: &'a CoreMemory, map: &Map, da: Da, len: u32) -> Option<&'a [u8]>
    requires some { 1 ≤ len }
    requires length { length memory.now ≡ map.now.memory_len }
    ensures { option_map (λ bytes. bytes.now) result ≡ bytes_at (place_at map.now) da len memory.now }
{
    let at = map.memory_at(da, len)?;
    Some(memory.bytes(at, len))
}

/// Tests that a block of memory holds each segment whole, one after the other.
pub(crate) fn test_segments(map: &Map, image: &Image<'_>) -> Result<(), LoadFault>
    requires { All (λ (segment : SegmentAt). 1 ≤ segment.memory_len) (segments_of image.now) }
    ensures { result_err result ≡ segments_unmapped (place_at map.now) (segments_of image.now) }
{
    for segment in image.segments() {
        if map.memory_at(segment.da, segment.memory_len).is_none() {
            return Err(LoadFault::SegmentUnmapped(segment.index));
        }
    }
    Ok(())
}

/// Tests that a block of memory holds the first record at the entry.
pub(crate) fn test_entry(map: &Map, entry: Da) -> Result<(), LoadFault>
    ensures { result_err result ≡ entry_unmapped (place_at map.now) entry }
{
    if map.memory_at(entry, ENTRY_LEN).is_none() {
        return Err(LoadFault::EntryUnmapped);
    }
    Ok(())
}

/// Copies segments into memory, one after the other.
pub(crate) fn copy_segments(memory: &mut CoreMemory, map: &Map, image: &Image<'_>)
    requires length { length memory.old ≡ map.now.memory_len }
    requires small { length memory.old < 2 ^ 32 }
    requires some { All (λ (segment : SegmentAt). 1 ≤ segment.memory_len) (segments_of image.now) }
    ensures memory { memory.new ≡ with_segments (place_at map.now) (segments_of image.now) memory.old }
    ensures length { length memory.new ≡ length memory.old }
{
    for segment in image.segments() {
        if let Some(at) = map.memory_at(segment.da, segment.memory_len) {
            copy_segment(memory, at, &segment);
        }
    }
}

/// Copies a segment to a place: its bytes in the image, and zeros after them.
fn copy_segment(memory: &mut CoreMemory, at: u32, segment: &Segment<'_>)
    requires inside { at + segment.now.memory_len ≤ length memory.old }
    requires fits { length segment.now.file.now ≤ segment.now.memory_len }
    requires small { at + segment.now.memory_len < 2 ^ 32 }
    ensures memory { memory.new ≡ with_bytes at (segment_bytes (segment_read segment.now)) memory.old }
    ensures length { length memory.new ≡ length memory.old }
{
    memory.write(at, segment.file);
    let len = segment.file.len() as u32;
    memory.fill(at + len, segment.memory_len - len, 0);
}

/// Where the memory of a section is, if one block of memory holds it whole.
fn section_at(map: &Map, section: &Section) -> Option<u32>
    requires some { 1 ≤ section.now.size }
    requires sound { SoundMap map.now.blocks map.now.memory_len }
    ensures place { result ≡ place_at map.now section.now.address section.now.size }
    ensures inside { IfSome result (λ at. at + section.now.size ≤ map.now.memory_len) }
{
    let last = u64::from(Da::MAX);
    if section.address > last || section.size > last {
        return None;
    }
    map.memory_at(section.address as Da, section.size as u32)
}

/// Copies a table to where its section is to be, if one block of memory holds it whole there.
pub(crate) fn copy_table(memory: &mut CoreMemory, map: &Map, section: Option<Section>, table: &[u8])
    requires length { length memory.old ≡ map.now.memory_len }
    requires sound { SoundMap map.now.blocks map.now.memory_len }
    requires some { IfSome section (λ section. 1 ≤ section.size) }
    requires whole { IfSome section (λ section. length table.now ≡ section.size) }
    ensures memory { memory.new ≡ with_table (place_at map.now) section table.now memory.old }
    ensures length { length memory.new ≡ length memory.old }
{
    if let Some(section) = section {
        if let Some(at) = section_at(map, &section) {
            memory.write(at, table);
        }
    }
}
