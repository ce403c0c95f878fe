use rp_base::{Da, Name, Pa};

/// A line about an entry of a resource table, or about a vring of one: first the entry's place in
/// the table, from 0.
#[derive(Clone, Copy, Drop)]
pub enum TableLine {
    /// Memory for the core: device address, physical address, length, name.
    Carveout(u64, Da, Pa, u32, Name),
    /// A window to a device: device address, physical address, length, name.
    Devmem(u64, Da, Pa, u32, Name),
    /// A trace that a memory block holds: device address, length, name.
    Trace(u64, Da, u32, Name),
    /// A trace that no memory block holds, or that is empty: device address, length, name.
    TraceUnavailable(u64, Da, u32, Name),
    /// An entry that is skipped: its type.
    Skipped(u64, u64),
    /// A virtio device: its id, the features that the guest has taken, its status.
    Vdev(u64, u64, u64, u64),
    /// A ring of the virtio device that is this entry: the ring's place there, from 0, its device
    /// address, its alignment, its entries, the number of its notifications.
    Vring(u64, u64, Da, u64, u64, u64),
}
