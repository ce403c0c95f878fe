ghost use Rattle.std.specs.Prelude.{◌≡◌};
ghost use Rattle.c_forms.specs.Forms.{ring_form};

use resource_table::Ring;

/// A ring of a device (`struct fw_rsc_vdev_vring` of `remoteproc.h`).
#[repr(C)]
#[derive(Clone, Copy)]
pub struct CRing {
    /// Its device address, or 4,294,967,295 where it may be anywhere.
    pub da: u32,
    /// The alignment of its used part, in bytes.
    pub align: u32,
    /// How many entries it has.
    pub num: u32,
    /// Its number among all rings, which a notification names.
    pub notify: u32,
    /// Its physical address.
    pub pa: u32,
}

/// A ring that is not there.
pub(crate) const NO_RING: CRing = CRing {
    da: 0,
    align: 0,
    num: 0,
    notify: 0,
    pa: 0,
};

impl CRing {
    /// The form of a ring.
    pub(crate) fn of(ring: &Ring) -> CRing
        ensures { result ≡ ring_form ring.now }
    {
        CRing {
            da: ring.da,
            align: ring.align,
            num: ring.num,
            notify: ring.notify,
            pa: ring.pa,
        }
    }
}
