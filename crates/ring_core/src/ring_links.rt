ghost use Rattle.std.specs.Prelude.{◌≡◌, IfOk};
ghost use Rattle.lane_model.specs.Conditions.{IsConfig};
ghost use Rattle.lane_model.specs.Desks.{IsFreshDesk};
ghost use Rattle.ring_core.specs.RingLinks.{opened_ring_link};

use crate::ring_lanes::RingLane;
use lane_model::{Desk, LaneLink, LinkConfig};
use rp_base::NoMemory;
use std::alloc::Global;

/// A link whose lanes are rings: the host is the driver, and the remote is the device. Contracts see
/// both lanes with their rings.
pub type RingLink<D> = LaneLink<RingLane<D>>;

/// A new link over rings, live in incarnation `config.first`, with its desks. It takes the room of both
/// books, of whom they are handed to, of the rings and the buffers and of what is held or aside, so no
/// later call but a reopening takes memory.
pub fn ring_link<D: Desk>(
    alloc: Global,
    config: LinkConfig,
    host: D,
    remote: D,
) -> Result<RingLink<D>, NoMemory>
    requires config { IsConfig config }
    requires host { IsFreshDesk D.meaning host }
    requires remote { IsFreshDesk D.meaning remote }
    ensures { IfOk result (λ link. link ≡ opened_ring_link config host remote) }
{
    let to_host = RingLane::make(alloc, config.num0, true, config.book, host)?;
    let to_remote = RingLane::make(alloc, config.num1, false, config.book, remote)?;
    Ok(LaneLink::of(config.first, to_host, to_remote))
}
