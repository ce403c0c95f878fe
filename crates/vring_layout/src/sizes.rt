ghost use Rattle.std.specs.Prelude.{◌≡◌, ℕ, ◌+◌, ◌≤◌, ◌<◌};
ghost use Rattle.rp_base.specs.declared.limits.TheConstants.{RING_MOST};
ghost use Rattle.rp_base.specs.Limits.{IsRingSize};
ghost use Rattle.vring_layout.specs.Sizes.{IsRingAlign, available_end, ring_size, used_start};

/// The bytes of a ring of `num` descriptors, whose used ring is at a multiple of `align`:
/// `vring_size` of Linux `virtio_ring.h`. `num` is a power of two up to 32,768, `align` is one
/// from 4 to 65,536.
pub fn vring_size(num: u32, align: u32) -> u32
    requires num { IsRingSize num }
    requires align { IsRingAlign align }
    ensures { result ≡ ring_size num align }
{
    used_ring_at(num, align) + 6 + 8 * num
}

/// Where the available ring ends, which is right after the descriptors.
pub(crate) fn available_ring_end(num: u32) -> u32
    requires { num ≤ RING_MOST }
    ensures { result ≡ available_end num }
{
    16 * num + 2 * (3 + num)
}

/// Where the used ring is, counted from the start of the ring.
pub(crate) fn used_ring_at(num: u32, align: u32) -> u32
    requires num { IsRingSize num }
    requires align { IsRingAlign align }
    ensures place { result ≡ used_start num align }
    ensures behind { available_end num ≤ result }
    ensures close { result < available_end num + align }
{
    let end = available_ring_end(num);
    end + (align - end % align) % align
}
