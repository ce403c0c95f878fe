ghost use Rattle.std.specs.Prelude.{◌≡◌, ◌+◌, ◌<◌, ◌≤◌, true, IsTrue, All, length};
ghost use Rattle.std.specs.List.{flat_map, range_with_len};
ghost use Rattle.rp_base.specs.Fields.{with_number};
ghost use Rattle.resource_table.specs.Entries.{entries_of, entry_count};
ghost use Rattle.resource_table.specs.Tables.{GoodTable};
ghost use Rattle.resource_table.specs.PatchedEntries.{IsSmallFix};
ghost use Rattle.resource_table.specs.Patches.{is_fix_of, patched_of, after_writes, fix_writes, device_writes, rpmsg_writes, ring_writes, carveout_writes};

use crate::entries::ring_start;
use crate::header::{entry_count, entry_start};
use crate::testing::is_rpmsg;
use crate::virtio::{DeviceFeatures, DeviceStatus};
use bitflags::Flags;
use rp_base::{Da, Pa, put_u32, u32_at};

/// Where a carveout or a ring was placed, to be written into a table.
#[derive(Clone, Copy)]
pub struct Fix {
    /// The number of the entry, from 0.
    pub entry: u16,
    /// Whether it is for a ring of the entry, which is a device then. Otherwise the entry is a
    /// carveout.
    pub rings: bool,
    /// The number of the ring, where it is for one.
    pub ring: u8,
    /// The device address.
    pub da: Da,
    /// The physical address.
    pub pa: Pa,
    /// The ring's number among all rings of the table, where it is for one.
    pub notify: u32,
}

/// Writes fixes of a good table into a copy of it, and sets up its device for RPMsg.
#[tactic(auto, using(crate::proofs::Writes::written_after))]
pub(crate) fn patch(bytes: &[u8], patched: &mut [u8], fixes: &[Fix])
    requires good { GoodTable bytes.now }
    requires fixes { All (λ fix. IsTrue (is_fix_of (entries_of bytes.now) fix)) fixes.now }
    requires copy { patched.old ≡ bytes.now }
    ensures patched { patched.new ≡ patched_of bytes.now fixes.now }
    ensures small { All IsSmallFix fixes.now }
{
    write_fixes(bytes, patched, fixes);
    write_rpmsg(bytes, patched);
}

/// Writes fixes of a good table into a copy of it, one after the other.
fn write_fixes(bytes: &[u8], patched: &mut [u8], fixes: &[Fix])
    requires good { GoodTable bytes.now }
    requires fixes { All (λ fix. IsTrue (is_fix_of (entries_of bytes.now) fix)) fixes.now }
    requires same { length patched.old ≡ length bytes.now }
    ensures written { patched.new ≡ after_writes (flat_map (fix_writes bytes.now) fixes.now) patched.old }
    ensures small { All IsSmallFix fixes.now }
{
    for fix in fixes {
        write_fix(bytes, patched, *fix);
    }
}

/// Writes a fix of a good table into a copy of it.
fn write_fix(bytes: &[u8], patched: &mut [u8], fix: Fix)
    requires good { GoodTable bytes.now }
    requires fix { is_fix_of (entries_of bytes.now) fix ≡ true }
    requires same { length patched.old ≡ length bytes.now }
    ensures written { patched.new ≡ after_writes (fix_writes bytes.now fix) patched.old }
    ensures small { IsSmallFix fix }
{
    let start = entry_start(bytes, fix.entry);
    if fix.rings {
        write_ring(patched, ring_start(start, fix.ring), &fix);
    } else {
        write_carveout(patched, start, &fix);
    }
}

/// Writes a fix of the ring that begins at a place.
fn write_ring(patched: &mut [u8], start: usize, fix: &Fix)
    requires { start + 20 ≤ length patched.old }
    ensures { patched.new ≡ after_writes (ring_writes fix.now start) patched.old }
{
    put_u32(patched, start, fix.da);
    put_u32(patched, start + 12, fix.notify);
    put_u32(patched, start + 16, fix.pa);
}

/// Writes a fix of the carveout that begins at a place.
fn write_carveout(patched: &mut [u8], start: usize, fix: &Fix)
    requires { start + 56 ≤ length patched.old }
    ensures { patched.new ≡ after_writes (carveout_writes fix.now start) patched.old }
{
    put_u32(patched, start + 4, fix.da);
    put_u32(patched, start + 8, fix.pa);
}

/// Sets up the device for RPMsg of a good table in a copy of it, if it has one.
#[tactic(auto, using(crate::proofs::Writes::device_more))]
fn write_rpmsg(bytes: &[u8], patched: &mut [u8])
    requires good { GoodTable bytes.now }
    requires same { length patched.old ≡ length bytes.now }
    ensures { patched.new ≡ after_writes (flat_map (device_writes bytes.now) (range_with_len 0 (entry_count bytes.now))) patched.old }
{
    for index in 0..entry_count(bytes) as u16 {
        write_if_rpmsg(bytes, patched, index);
    }
}

/// Sets up the entry of a number of a good table in a copy of it, where it is a device for RPMsg.
fn write_if_rpmsg(bytes: &[u8], patched: &mut [u8], index: u16)
    requires good { GoodTable bytes.now }
    requires among { index < entry_count bytes.now }
    requires same { length patched.old ≡ length bytes.now }
    ensures { patched.new ≡ after_writes (device_writes bytes.now index) patched.old }
{
    if is_rpmsg(bytes, index) {
        let start = entry_start(bytes, index);
        let offered = DeviceFeatures(u32_at(bytes, start + 12));
        write_device(patched, start, offered);
    }
}

/// Sets up the device for RPMsg that begins at a place: the name service, where it is offered, and
/// the status of a device whose driver is ready.
fn write_device(patched: &mut [u8], start: usize, offered: DeviceFeatures)
    requires { start + 28 ≤ length patched.old }
    ensures { patched.new ≡ after_writes (rpmsg_writes offered.0 start) patched.old }
{
    let agreed = offered.intersection(DeviceFeatures::NAME_SERVICE);
    let ready = DeviceStatus::ACKNOWLEDGE
        .union(DeviceStatus::DRIVER)
        .union(DeviceStatus::DRIVER_OK);
    put_u32(patched, start + 16, agreed.bits());
    put_u8(patched, start + 24, ready.bits());
}

/// Writes a number into the byte at a place.
fn put_u8(bytes: &mut [u8], place: usize, value: u8)
    requires { place < length bytes.old }
    ensures { bytes.new ≡ with_number 1 place value bytes.old }
{
    bytes[place] = value;
}
