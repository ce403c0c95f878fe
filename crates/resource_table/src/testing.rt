ghost use Rattle.std.specs.Prelude.{◌≡◌, ◌+◌, ◌*◌, ◌≤◌, length, OnOk};
ghost use Rattle.std.specs.Result.{result_err};
ghost use Rattle.resource_table.specs.Entries.{start_of, type_at, ring_count};
ghost use Rattle.resource_table.specs.Tables.{fixed_size, uses_reserved, is_ring_align, ring_fault, rings_fault, device_fault, form_fault, is_rpmsg, entry_fault, entries_fault};
ghost use Rattle.resource_table.specs.Walks.{IsEarlier, IsSoundHeader};

use crate::entries::{Ring, byte_at, read_ring, ring_start};
use crate::faults::TableFault;
use crate::header::{entry_count, entry_start, offsets_end};
use crate::kinds::ResourceType;
use crate::spans::{device_size, entry_span, meets_earlier};
use rp_base::{is_ring_size, u16_at, u32_at};

/// The kind of device that RPMsg is (`VIRTIO_ID_RPMSG`).
const RPMSG_ID: u32 = 7;

/// The most rings of a device, and the number of those of an RPMsg device.
const DEVICE_RINGS: u8 = 2;

/// What is known of the entries before the one that is tested.
#[derive(Clone, Copy)]
struct Earlier {
    /// Whether one of them is a device for RPMsg.
    has_rpmsg: bool,
    /// A place at which or before which the header, the offsets and these entries end.
    end: usize,
}

/// Tests the entries of a table, one after the other.
#[tactic(auto, using(crate::proofs::Ranges::first_more))]
pub(crate) fn test_entries(bytes: &[u8]) -> Result<(), TableFault>
    requires { IsSoundHeader bytes.now }
    ensures { result_err result ≡ entries_fault bytes.now }
{
    let mut earlier = Earlier {
        has_rpmsg: false,
        end: offsets_end(bytes),
    };
    for index in 0..entry_count(bytes) as u16 {
        test_entry(bytes, index, &mut earlier)?;
    }
    Ok(())
}

/// Tests the entry of a number: its own bytes, and whether it is beside the earlier ones.
fn test_entry(bytes: &[u8], index: u16, earlier: &mut Earlier) -> Result<(), TableFault>
    requires among { 16 + 4 * (index + 1) ≤ length bytes.now }
    requires earlier { IsEarlier bytes.now index earlier.old }
    ensures fault { result_err result ≡ entry_fault bytes.now index }
    ensures earlier { OnOk result (IsEarlier bytes.now (index + 1) earlier.new) }
{
    test_form(bytes, index)?;
    let rpmsg = is_rpmsg(bytes, index);
    if rpmsg && earlier.has_rpmsg {
        return Err(TableFault::SecondRpmsg(index));
    }
    let span = entry_span(bytes, index);
    if meets_earlier(bytes, span, index, earlier.end) {
        return Err(TableFault::Offsets);
    }
    earlier.has_rpmsg |= rpmsg;
    earlier.end = earlier.end.max(span.to);
    Ok(())
}

/// Tests an entry by its own bytes.
fn test_form(bytes: &[u8], index: u16) -> Result<(), TableFault>
    requires { 16 + 4 * (index + 1) ≤ length bytes.now }
    ensures { result_err result ≡ form_fault bytes.now index }
{
    let start = entry_start(bytes, index);
    if start + 4 > bytes.len() {
        return Err(TableFault::EntryShort(index));
    }
    let kind = ResourceType::at(bytes, start);
    if start + kind.fixed_size() > bytes.len() {
        return Err(TableFault::EntryShort(index));
    }
    if uses_reserved(bytes, start, kind) {
        return Err(TableFault::EntryReserved(index));
    }
    match kind {
        ResourceType::Vdev => test_device(bytes, index, start),
        _ => Ok(()),
    }
}

/// Whether a reserved field of an entry is not 0.
fn uses_reserved(bytes: &[u8], start: usize, kind: ResourceType) -> bool
    requires { start + fixed_size kind ≤ length bytes.now }
    ensures { result ≡ uses_reserved kind bytes.now start }
{
    match kind {
        ResourceType::Carveout | ResourceType::Devmem => u32_at(bytes, start + 20) != 0,
        ResourceType::Trace => u32_at(bytes, start + 12) != 0,
        ResourceType::Vdev => u16_at(bytes, start + 26) != 0,
        ResourceType::Other => false,
    }
}

/// Tests a device: the number of its rings, whether they and its configuration lie in the table, and
/// its rings.
fn test_device(bytes: &[u8], index: u16, start: usize) -> Result<(), TableFault>
    requires { start + 28 ≤ length bytes.now }
    ensures { result_err result ≡ device_fault bytes.now index start }
{
    let count = byte_at(bytes, start + 25);
    if count > DEVICE_RINGS || (u32_at(bytes, start + 4) == RPMSG_ID && count != DEVICE_RINGS) {
        return Err(TableFault::RingCount(index));
    }
    if start + device_size(bytes, start) > bytes.len() {
        return Err(TableFault::EntryShort(index));
    }
    test_rings(bytes, index, start, count)
}

/// Tests the rings of a device, one after the other.
#[tactic(auto, using(crate::proofs::Ranges::first_more))]
fn test_rings(bytes: &[u8], index: u16, start: usize, count: u8) -> Result<(), TableFault>
    requires count { count ≡ ring_count bytes.now start }
    requires rings { start + 28 + 20 * count ≤ length bytes.now }
    ensures { result_err result ≡ rings_fault bytes.now index start }
{
    for ring in 0..count {
        test_ring(index, &read_ring(bytes, ring_start(start, ring)))?;
    }
    Ok(())
}

/// Tests one ring of a device.
fn test_ring(index: u16, ring: &Ring) -> Result<(), TableFault>
    ensures { result_err result ≡ ring_fault index ring.now }
{
    if !is_ring_size(ring.num) {
        return Err(TableFault::RingSize(index));
    }
    if !is_ring_align(ring.align) {
        return Err(TableFault::RingAlign(index));
    }
    Ok(())
}

/// Whether a ring may be aligned so: to a power of two from 4 to 65,536.
fn is_ring_align(align: u32) -> bool
    ensures { result ≡ is_ring_align align }
{
    align.is_power_of_two() && (4..=65_536).contains(&align)
}

/// Whether the entry of a number is a device for RPMsg.
#[tactic(auto, using(crate::proofs::Parts::fixed_size_least))]
pub(crate) fn is_rpmsg(bytes: &[u8], index: u16) -> bool
    requires offset { 16 + 4 * (index + 1) ≤ length bytes.now }
    requires fixed { start_of bytes.now index + fixed_size (type_at bytes.now (start_of bytes.now index)) ≤ length bytes.now }
    ensures { result ≡ is_rpmsg bytes.now index }
{
    let start = entry_start(bytes, index);
    match ResourceType::at(bytes, start) {
        ResourceType::Vdev => u32_at(bytes, start + 4) == RPMSG_ID,
        _ => false,
    }
}
