ghost use Rattle.std.specs.Prelude.{◌≡◌, ◌≤◌, ◌<◌, ◌+◌, ◌-◌, ◌^◌, IfSome};
ghost use Rattle.memory_pool.specs.Soundness.{SoundRegions};
ghost use Rattle.addr_translate.specs.Mapped.{mapped_block, mapped_region, memory_place};
ghost use Rattle.addr_translate.specs.Maps.{holds, place_in};

use memory_pool::{Block, Region, Use};
use rp_base::{Da, Pa};

/// A mapped block: a region that always is, a block that was placed, or a window.
#[derive(Clone, Copy)]
pub(crate) struct Mapped {
    /// Its device address.
    pub(crate) da: Da,
    /// Its physical address.
    pub(crate) pa: Pa,
    /// How many bytes it has.
    pub(crate) len: u32,
    /// Where its bytes are in the core's memory. A window has none.
    pub(crate) at: Option<u32>,
}

/// Where a range of device addresses is.
#[derive(Clone, Copy)]
pub struct Place {
    /// Its physical address.
    pub pa: Pa,
    /// Its place in the core's memory, and none in a window.
    pub at: Option<u32>,
}

impl Mapped {
    /// A region that is always mapped.
    pub(crate) fn of_region(regions: &[Region], region: &Region) -> Mapped
        requires { SoundRegions regions.now }
        ensures { result ≡ mapped_region regions.now region.now }
    {
        Mapped {
            da: region.da,
            pa: region.pa,
            len: region.len,
            at: memory_place(regions, region.da, region.len),
        }
    }

    /// A placed block, or a window.
    pub(crate) fn of_block(regions: &[Region], block: &Block) -> Mapped
        requires { SoundRegions regions.now }
        ensures { result ≡ mapped_block regions.now block.now }
    {
        let at = match block.what {
            Use::Window(_) => None,
            _ => memory_place(regions, block.da, block.len),
        };
        Mapped {
            da: block.da,
            pa: block.pa,
            len: block.len,
            at,
        }
    }

    /// Whether it holds a whole range of device addresses.
    pub(crate) fn holds(&self, da: Da, len: u32) -> bool
        ensures { result ≡ holds da len self.now }
    {
        self.da <= da && u64::from(da) + u64::from(len) <= u64::from(self.da) + u64::from(self.len)
    }

    /// Where a range is that it holds.
    pub(crate) fn place_of(&self, da: Da) -> Place
        requires from { self.now.da ≤ da }
        requires physical { self.now.pa + (da - self.now.da) < 2 ^ 32 }
        requires memory { IfSome self.now.at (λ at. at + (da - self.now.da) < 2 ^ 32) }
        ensures { result ≡ place_in da self.now }
    {
        let offset = da - self.da;
        Place {
            pa: self.pa + offset,
            at: self.at.map(|at| at + offset),
        }
    }
}

/// The place in the core's memory of a range of device addresses, where the regions are one after
/// the other.
fn memory_place(regions: &[Region], da: Da, len: u32) -> Option<u32>
    requires { SoundRegions regions.now }
    ensures { result ≡ memory_place 0 regions.now da len }
{
    let mut base = 0;
    for region in regions {
        if region.holds(da, len) {
            return Some(base + (da - region.da));
        }
        base += region.len;
    }
    None
}
