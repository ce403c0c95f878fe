ghost use Rattle.std.specs.Prelude.{◌≡◌};
ghost use Rattle.c_forms.specs.Forms.{blank, device_form, entry_form};

use crate::NOTHING;
use crate::names::padded;
use crate::rings::{CRing, NO_RING};
use resource_table::{Entry, Vdev};

/// An entry of a resource table. A field that its kind does not have is 0.
#[repr(C)]
#[derive(Clone, Copy)]
pub struct CEntry {
    /// Its type (`enum fw_resource_type` of `remoteproc.h`): 0 a carveout, 1 memory of a peripheral, 2 a
    /// trace, 3 a device. Nothing more is given of an entry of another type.
    pub kind: u32,
    /// The device address, of a carveout, of memory of a peripheral and of a trace.
    pub da: u32,
    /// The physical address, of a carveout and of memory of a peripheral.
    pub pa: u32,
    /// Its bytes, of a carveout, of memory of a peripheral and of a trace.
    pub len: u32,
    /// Where the bytes of a trace are in the core's memory, and [`NOTHING`] where nothing holds them.
    pub at: u32,
    /// The name, of a carveout, of memory of a peripheral and of a trace, with zeros after it.
    pub name: [u8; 32],
    /// What kind of device it is, 7 for RPMsg.
    pub id: u32,
    /// The features that a device's firmware offers.
    pub features: u32,
    /// The features of a device that the host agreed to.
    pub guest: u32,
    /// The status that the host gave a device.
    pub status: u32,
    /// How many rings a device has.
    pub count: u32,
    /// Its ring 0.
    pub first: CRing,
    /// Its ring 1.
    pub second: CRing,
}

/// An entry of a type, of which nothing more is given.
fn blank(kind: u32) -> CEntry
    ensures { result ≡ blank kind }
{
    CEntry {
        kind,
        da: 0,
        pa: 0,
        len: 0,
        at: NOTHING,
        name: [0; 32],
        id: 0,
        features: 0,
        guest: 0,
        status: 0,
        count: 0,
        first: NO_RING,
        second: NO_RING,
    }
}

impl CEntry {
    /// The form of an entry, whose bytes, if it is a trace, are at a place in the core's memory.
    pub(crate) fn of(entry: &Entry, place: Option<u32>) -> CEntry
        ensures { result ≡ entry_form place entry.now }
    {
        match entry {
            Entry::Carveout(da, pa, len, name) => CEntry {
                da: *da,
                pa: *pa,
                len: *len,
                name: padded(name),
                ..blank(0)
            },
            Entry::Devmem(da, pa, len, name) => CEntry {
                da: *da,
                pa: *pa,
                len: *len,
                name: padded(name),
                ..blank(1)
            },
            Entry::Trace(da, len, name) => CEntry {
                da: *da,
                len: *len,
                at: place.unwrap_or(NOTHING),
                name: padded(name),
                ..blank(2)
            },
            Entry::Device(device) => CEntry::of_device(device),
            Entry::Skipped(kind) => blank(*kind),
        }
    }

    /// The form of a device.
    fn of_device(device: &Vdev) -> CEntry
        ensures { result ≡ device_form device.now }
    {
        CEntry {
            id: device.id,
            features: device.features,
            guest: device.guest,
            status: u32::from(device.status),
            count: u32::from(device.count),
            first: CRing::of(&device.first),
            second: CRing::of(&device.second),
            ..blank(3)
        }
    }
}
