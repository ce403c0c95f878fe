ghost use Rattle.std.specs.Prelude.{◌≡◌, ◌+◌, ◌*◌, ◌≤◌, ◌<◌, ◌^◌, length};
ghost use Rattle.rp_base.specs.Fields.{number_at};
ghost use Rattle.rp_base.specs.Texts.{text_before_zero};
ghost use Rattle.resource_table.specs.Entries.{name_at, vring_start, vring_at, ring_count, ring_of, device_at, entry_at, type_at};
ghost use Rattle.resource_table.specs.Tables.{entry_size, fixed_size};
ghost use Rattle.rp_base.specs.declared.limits.TheConstants.{NAME_MOST};

use crate::kinds::ResourceType;
use rp_base::{Da, NAME_MOST, Name, Pa, u32_at};

/// The bytes of the fixed part of a device, after which its rings are.
pub(crate) const VDEV_SIZE: usize = 28;

/// The bytes of a ring of a device.
pub(crate) const VRING_SIZE: usize = 20;

/// How a ring that a device does not have reads.
const NO_RING: Ring = Ring {
    da: 0,
    align: 0,
    num: 0,
    notify: 0,
    pa: 0,
};

/// A ring of a device (`struct fw_rsc_vdev_vring` of `remoteproc.h`).
#[derive(Clone, Copy, Debug, PartialEq, Eq)]
pub struct Ring {
    /// Its device address, or 4,294,967,295 where it may be anywhere.
    pub da: Da,
    /// The alignment of its used part, in bytes.
    pub align: u32,
    /// How many entries it has.
    pub num: u32,
    /// Its number among all rings, which a notification names.
    pub notify: u32,
    /// Its physical address.
    pub pa: Pa,
}

/// A device with its rings (`struct fw_rsc_vdev` of `remoteproc.h`).
#[derive(Clone, Copy, Debug, PartialEq, Eq)]
pub struct Vdev {
    /// What kind of device it is, 7 for RPMsg.
    pub id: u32,
    /// The features that the firmware offers.
    pub features: u32,
    /// The features that the host agreed to.
    pub guest: u32,
    /// The status that the host gave it.
    pub status: u8,
    /// How many rings it has, at most two in a good table.
    pub count: u8,
    /// Its ring 0, or zeros where it has none.
    pub first: Ring,
    /// Its ring 1, or zeros where it has fewer than two.
    pub second: Ring,
}

/// An entry of a resource table.
#[derive(Clone, Copy, Debug, PartialEq, Eq)]
pub enum Entry {
    /// Memory that the firmware asks for: its device address, or 4,294,967,295 where it may be
    /// anywhere, its physical address, its bytes and its name.
    Carveout(Da, Pa, u32, Name),
    /// Memory of a peripheral that the firmware is to reach: its device address, physical address,
    /// bytes and name.
    Devmem(Da, Pa, u32, Name),
    /// Memory that the firmware writes a text into: its device address, its bytes and its name.
    Trace(Da, u32, Name),
    /// A device.
    Device(Vdev),
    /// An entry of another type, which is this, and of which nothing more is read.
    Skipped(u32),
}

/// The entry that begins at a place.
pub(crate) fn read_entry(bytes: &[u8], start: usize) -> Entry
    requires kind { start + 4 ≤ length bytes.now }
    requires whole { start + entry_size bytes.now start ≤ length bytes.now }
    ensures { result ≡ entry_at bytes.now start }
{
    match ResourceType::at(bytes, start) {
        ResourceType::Carveout => Entry::Carveout(
            u32_at(bytes, start + 4),
            u32_at(bytes, start + 8),
            u32_at(bytes, start + 12),
            read_name(bytes, start + 24),
        ),
        ResourceType::Devmem => Entry::Devmem(
            u32_at(bytes, start + 4),
            u32_at(bytes, start + 8),
            u32_at(bytes, start + 12),
            read_name(bytes, start + 24),
        ),
        ResourceType::Trace => Entry::Trace(
            u32_at(bytes, start + 4),
            u32_at(bytes, start + 8),
            read_name(bytes, start + 16),
        ),
        ResourceType::Vdev => Entry::Device(read_device(bytes, start)),
        ResourceType::Other => Entry::Skipped(u32_at(bytes, start)),
    }
}

/// The device that begins at a place.
#[tactic(auto, unfolding(crate::specs::Entries::device_at))]
fn read_device(bytes: &[u8], start: usize) -> Vdev
    requires { start + 28 + 20 * ring_count bytes.now start ≤ length bytes.now }
    ensures { result ≡ device_at bytes.now start }
{
    Vdev {
        id: u32_at(bytes, start + 4),
        features: u32_at(bytes, start + 12),
        guest: u32_at(bytes, start + 16),
        status: byte_at(bytes, start + 24),
        count: byte_at(bytes, start + 25),
        first: read_ring_of(bytes, start, 0),
        second: read_ring_of(bytes, start, 1),
    }
}

/// The ring of a number, or zeros where the device does not have it.
fn read_ring_of(bytes: &[u8], start: usize, ring: u8) -> Ring
    requires { start + 28 + 20 * ring_count bytes.now start ≤ length bytes.now }
    ensures { result ≡ ring_of bytes.now start ring }
{
    if ring < byte_at(bytes, start + 25) {
        read_ring(bytes, ring_start(start, ring))
    } else {
        NO_RING
    }
}

/// Where the ring of a number begins, in the device that begins at a place.
pub(crate) fn ring_start(start: usize, ring: u8) -> usize
    requires { start < 2 ^ 63 }
    ensures { result ≡ vring_start start ring }
{
    start + VDEV_SIZE + VRING_SIZE * usize::from(ring)
}

/// The ring that begins at a place.
#[tactic(auto, unfolding(crate::specs::Entries::vring_at))]
pub(crate) fn read_ring(bytes: &[u8], start: usize) -> Ring
    requires { start + 20 ≤ length bytes.now }
    ensures { result ≡ vring_at bytes.now start }
{
    Ring {
        da: u32_at(bytes, start),
        align: u32_at(bytes, start + 4),
        num: u32_at(bytes, start + 8),
        notify: u32_at(bytes, start + 12),
        pa: u32_at(bytes, start + 16),
    }
}

/// The name in a field without its last byte, which counts as zero.
fn name_in(field: &[u8]) -> Name
    requires { length field.now ≤ NAME_MOST }
    ensures { result ≡ text_before_zero field.now }
{
    let len = field.iter().take_while(|byte| **byte != 0).count();
    match Name::of(&field[..len]) {
        Some(name) => name,
        None => unreachable!(),
    }
}

/// The name in the field of 32 bytes at a place.
fn read_name(bytes: &[u8], place: usize) -> Name
    requires { place + 32 ≤ length bytes.now }
    ensures { result ≡ name_at place bytes.now }
{
    name_in(&bytes[place..place + NAME_MOST])
}

/// The number in the byte at a place.
pub(crate) fn byte_at(bytes: &[u8], place: usize) -> u8
    requires { place < length bytes.now }
    ensures { result ≡ number_at 1 place bytes.now }
{
    bytes[place]
}
