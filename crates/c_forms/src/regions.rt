ghost use Rattle.std.specs.Prelude.{◌≡◌, ◌≢◌, ◌≤◌, [], None, Some, IfOk, IfErr, OnOk};
ghost use Rattle.c_forms.specs.Regions.{region_of, region_refusal, regions_of};

use crate::NO_MEMORY;
use crate::faults::CFault;
use memory_pool::{Region, Regions};
use rp_base::RegionKind;
use std::alloc::Global;

/// A region of a core's memory.
#[repr(C)]
#[derive(Clone, Copy)]
pub struct CRegion {
    /// Its device address.
    pub da: u32,
    /// Its physical address.
    pub pa: u32,
    /// How many bytes it has.
    pub len: u32,
    /// 0 where it is always mapped. Otherwise blocks are placed in it, and only these are mapped.
    pub pool: u32,
}

/// A region as it is placed.
fn region_of(given: &CRegion) -> Region
    ensures { result ≡ region_of given.now }
{
    Region {
        kind: if given.pool == 0 {
            RegionKind::Tcm
        } else {
            RegionKind::Pool
        },
        da: given.da,
        pa: given.pa,
        len: given.len,
    }
}

/// The regions of a core, in this order. The error is about the first one that is refused after those
/// before it.
pub(crate) fn regions_of(alloc: Global, given: &[CRegion]) -> Result<Regions, CFault>
    ensures regions { IfOk result (λ regions. regions ≡ regions_of given.now) }
    ensures good { OnOk result (region_refusal [] (regions_of given.now) ≡ None) }
    ensures refused { IfErr result (λ why. why.number ≢ NO_MEMORY → region_refusal [] (regions_of given.now) ≡ Some why) }
    ensures number { IfErr result (λ why. 1 ≤ why.number) }
{
    let mut regions = Regions::new(alloc).map_err(|_| CFault::no_memory())?;
    for region in given {
        let index = regions.len();
        if let Err(why) = regions.add(alloc, region_of(region)) {
            return Err(CFault::of_region(index, why));
        }
    }
    Ok(regions)
}
