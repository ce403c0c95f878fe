//! A small link, for runs with few messages.
ghost use Rattle.std.specs.Prelude.{IfOk};
ghost use Rattle.lane_model.specs.Conditions.{IsConfig};
ghost use Rattle.split_ring.specs.Callers.{IsManagerOf};

use channel_bus::Side;
use lane_model::LinkConfig;
use rp_base::NoMemory;
use split_ring::{Manager, SharedLink};
use std::alloc::Global;

/// How a link for few messages is made, open in incarnation 1.
pub fn small_config() -> LinkConfig
    ensures { IsConfig result }
{
    LinkConfig {
        num0: 64,
        num1: 64,
        book: 4,
        first: 1,
        base: 0,
    }
}

/// A link for few messages with its manager.
pub fn small_link(alloc: Global) -> Result<(SharedLink<Side>, Manager), NoMemory>
    ensures { IfOk result (λ made. IsManagerOf made.0 made.1) }
{
    let host = Side::new(alloc, false, Vec::new(alloc))?;
    let remote = Side::new(alloc, false, Vec::new(alloc))?;
    SharedLink::make(alloc, small_config(), host, remote)
}
