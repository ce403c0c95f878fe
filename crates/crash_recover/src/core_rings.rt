ghost use Rattle.std.specs.Prelude.{◌≡◌, ◌<◌, ◌^◌, IfOk, IfSome, MatchOption, None, Some, length};
ghost use Rattle.fw_load.specs.Rings.{HasBuffers, IsSoundPair};
ghost use Rattle.link_bench.specs.Benches.{link_in};
ghost use Rattle.link_bench.specs.BenchRings.{turn_holder};
ghost use Rattle.crash_recover.specs.CoreCallers.{core_turn_holder};
ghost use Rattle.crash_recover.specs.CoreRings.{core_ring, pair_bytes, ring_of_lane};

use crate::cores::Core;
use fw_load::RingPair;
use link_bench::{Bench, lane_base};
use resource_table::Ring;
use rp_base::{NoMemory, ring_capacity};
use std::alloc::Global;

impl Core {
    /// The bytes of a lane's ring of the core's link as it lies in memory, over the buffers that its
    /// image's device for RPMsg was given: lane 0 to the host, 1 to the remote. There are none exactly
    /// where the core has no link, or what it loaded no rings. No turn of its link is out. The core stays as
    /// it is.
    ///
    /// Errors: only if memory runs out.
    pub fn ring_bytes(&mut self, alloc: Global, lane: u64) -> Result<Option<Vec<u8>>, NoMemory>
        requires { core_turn_holder self.old ≡ None }
        ensures same { self.new ≡ self.old }
        ensures bytes { IfOk result (λ found. MatchOption found (core_ring self.old lane ≡ None) (λ bytes. core_ring self.old lane ≡ Some bytes.items)) }
        ensures short { IfOk result (λ found. IfSome found (λ bytes. length bytes.items < 2 ^ 32)) }
    {
        let Some(bench) = &mut self.bench else {
            return Ok(None);
        };
        let Some(loaded) = &self.loaded else {
            return Ok(None);
        };
        match &loaded.rings {
            Some(rings) => Ok(Some(pair_bytes(bench, alloc, lane, rings)?)),
            None => Ok(None),
        }
    }
}

/// The bytes of a lane's ring over the buffers of a device for RPMsg.
fn pair_bytes(
    bench: &mut Bench,
    alloc: Global,
    lane: u64,
    pair: &RingPair,
) -> Result<Vec<u8>, NoMemory>
    requires sound { IsSoundPair pair.now }
    requires buffers { HasBuffers pair.now }
    requires free { turn_holder (link_in bench.old) ≡ None }
    ensures same { bench.new ≡ bench.old }
    ensures bytes { IfOk result (λ bytes. bytes.items ≡ pair_bytes bench.old.rings lane pair.now) }
    ensures short { IfOk result (λ bytes. length bytes.items < 2 ^ 32) }
{
    let at = lane_base(pair.base, ring_capacity(pair.to_host.num), lane);
    bench.placed_bytes(alloc, lane, at, ring_of_lane(pair, lane).align)
}

/// The ring of a lane.
fn ring_of_lane(rings: &RingPair, lane: u64) -> &Ring
    ensures { result.now ≡ ring_of_lane rings.now lane }
{
    if lane == 0 {
        &rings.to_host
    } else {
        &rings.to_remote
    }
}
