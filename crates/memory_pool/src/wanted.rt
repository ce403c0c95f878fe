ghost use Rattle.std.specs.Prelude.{◌≡◌, ◌++◌, IfOk, OnOk, All};
ghost use Rattle.resource_table.specs.Entries.{entries_of};
ghost use Rattle.memory_pool.specs.Wanted.{buffers_wanted, in_order, is_anywhere, memory_wanted, ring_wanted, rings_wanted, wanted_by, wanted_from};
ghost use Rattle.memory_pool.specs.OrderedBlocks.{IsSoundWanted};
ghost use Rattle.resource_table.specs.Tables.{IsSoundEntry, IsSoundRing, IsSoundDevice};

use crate::blocks::Use;
use resource_table::{Entry, Ring, Table, Vdev};
use rp_base::{Da, MESSAGE_MOST, NoMemory, Pa, ring_capacity};
use std::alloc::Global;
use vring_layout::vring_size;

/// The device address that means any (`FW_RSC_ADDR_ANY` of `remoteproc.h`).
const ANY: Da = 0xffff_ffff;

/// The alignment of carveouts and of buffers that may be anywhere.
const PAGE: u32 = 4096;

/// The bytes of a buffer.
const BUFFER_SIZE: u32 = MESSAGE_MOST as u32;

/// The kind of a device for RPMsg (`VIRTIO_ID_RPMSG`).
const RPMSG: u32 = 7;

/// A block that an entry of a table asks for.
#[derive(Clone, Copy)]
pub(crate) enum Wanted {
    /// Memory at a device address: what it is for, the address, and its bytes.
    Given(Use, Da, u32),
    /// Memory anywhere: what it is for, its bytes, and its alignment.
    Any(Use, u32, u32),
    /// A window: the number of its entry, its device address, physical address and bytes.
    Window(u16, Da, Pa, u32),
}

impl Wanted {
    /// Memory at a device address, which may be any; then it is aligned.
    fn memory(what: Use, da: Da, len: u32, align: u32) -> Wanted
        ensures { result ≡ memory_wanted what da len align }
    {
        if da == ANY {
            Wanted::Any(what, len, align)
        } else {
            Wanted::Given(what, da, len)
        }
    }

    /// A ring of a device.
    fn ring(index: u16, number: u8, ring: &Ring) -> Wanted
        requires { IsSoundRing ring.now }
        ensures { result ≡ ring_wanted index number ring.now }
    {
        let len = vring_size(ring.num, ring.align);
        Wanted::memory(Use::Ring(index, number), ring.da, len, ring.align)
    }

    /// Whether it may be anywhere.
    pub(crate) fn is_anywhere(&self) -> bool
        ensures { result ≡ is_anywhere self.now }
    {
        matches!(self, Wanted::Any(_, _, _))
    }
}

/// All that the entries of a table ask for, in the order of the table.
pub(crate) fn wanted_of(alloc: Global, table: &Table<'_>) -> Result<Vec<Wanted>, NoMemory>
    ensures wanted { IfOk result (λ all. all.items ≡ wanted_from 0 (entries_of table.now)) }
    ensures sound { IfOk result (λ all. All IsSoundWanted all.items) }
{
    let mut all = Vec::new(alloc);
    for index in 0..table.len() {
        push_wanted(&mut all, index, &table.entry(index))?;
    }
    Ok(all)
}

/// What is wanted in the order in which it is placed: first what has an address.
pub(crate) fn in_order(alloc: Global, wanted: &[Wanted]) -> Result<Vec<Wanted>, NoMemory>
    ensures { IfOk result (λ ordered. ordered.items ≡ in_order wanted.now) }
{
    let given = wanted.iter().filter(|one| !one.is_anywhere());
    let anywhere = wanted.iter().filter(|one| one.is_anywhere());
    Ok(given.chain(anywhere).copied().collect(alloc)?)
}

/// Appends what the entry of a number asks for.
fn push_wanted(all: &mut Vec<Wanted>, index: u16, entry: &Entry) -> Result<(), NoMemory>
    requires { IsSoundEntry entry.now }
    ensures { OnOk result (all.new.items ≡ all.old.items ++ wanted_by index entry.now) }
{
    match entry {
        Entry::Carveout(da, _, len, _) => {
            if *len > 0 {
                all.push(Wanted::memory(Use::Carveout(index), *da, *len, PAGE))?;
            }
        }
        Entry::Devmem(da, pa, len, _) => {
            if *len > 0 {
                all.push(Wanted::Window(index, *da, *pa, *len))?;
            }
        }
        Entry::Device(device) => push_device(all, index, device)?,
        Entry::Trace(_, _, _) | Entry::Skipped(_) => {}
    }
    Ok(())
}

/// Appends the rings of a device, and after them the buffers of one for RPMsg.
fn push_device(all: &mut Vec<Wanted>, index: u16, device: &Vdev) -> Result<(), NoMemory>
    requires { IsSoundDevice device.now }
    ensures { OnOk result (all.new.items ≡ all.old.items ++ (rings_wanted index device.now ++ buffers_wanted index device.now)) }
{
    if device.count > 0 {
        all.push(Wanted::ring(index, 0, &device.first))?;
    }
    if device.count > 1 {
        all.push(Wanted::ring(index, 1, &device.second))?;
    }
    if device.id == RPMSG {
        let buffers = ring_capacity(device.first.num) + ring_capacity(device.second.num);
        let len = BUFFER_SIZE * u32::from(buffers);
        all.push(Wanted::Any(Use::Buffers(index), len, PAGE))?;
    }
    Ok(())
}
