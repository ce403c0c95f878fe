ghost use Rattle.std.specs.Prelude.{◌≡◌, IfSome};
ghost use Rattle.resource_table.specs.Entries.{entries_of};
ghost use Rattle.fw_load.specs.Rings.{IsSoundPair, buffers_at, is_buffers, pair_from, pair_of};

use memory_pool::{Block, Use};
use resource_table::{DeviceFeatures, Entry, Ring, Table, Vdev};
use rp_base::Da;

/// The kind of a device for RPMsg (`VIRTIO_ID_RPMSG`).
const RPMSG: u32 = 7;

/// The rings of the device for RPMsg.
#[derive(Clone, Copy)]
pub struct RingPair {
    /// The ring of the lane to the host, as the patched table has it.
    pub to_host: Ring,
    /// The ring of the lane to the remote, as the patched table has it.
    pub to_remote: Ring,
    /// The device address of the buffers.
    pub base: Da,
    /// Whether the firmware announces its channels.
    pub service: bool,
}

/// The rings of the first device for RPMsg of a patched table.
pub(crate) fn ring_pair(table: &Table<'_>, blocks: &[Block]) -> Option<RingPair>
    ensures rings { result ≡ pair_from blocks.now 0 (entries_of table.now) }
    ensures sound { IfSome result IsSoundPair }
{
    for index in 0..table.len() {
        if let Entry::Device(device) = table.entry(index) {
            if device.id == RPMSG {
                return Some(pair_of(blocks, index, &device));
            }
        }
    }
    None
}

/// The rings of a device.
fn pair_of(blocks: &[Block], index: u16, device: &Vdev) -> RingPair
    ensures { result ≡ pair_of blocks.now index device.now }
{
    RingPair {
        to_host: device.first,
        to_remote: device.second,
        base: buffers_at(blocks, index),
        service: device.features & DeviceFeatures::NAME_SERVICE.0 == 1,
    }
}

/// The device address of the buffers of an entry, and 0 where there are none.
fn buffers_at(blocks: &[Block], index: u16) -> Da
    ensures { result ≡ buffers_at index blocks.now }
{
    for block in blocks {
        if is_buffers(index, block) {
            return block.da;
        }
    }
    0
}

/// Whether a block is for the buffers of an entry.
fn is_buffers(index: u16, block: &Block) -> bool
    ensures { result ≡ is_buffers index block.now.what }
{
    matches!(block.what, Use::Buffers(entry) if entry == index)
}
