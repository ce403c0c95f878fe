ghost use Rattle.std.specs.Prelude.{IfOk, ◌≡◌};
ghost use Rattle.lane_model.specs.Links.{opened_link};
ghost use Rattle.lane_model.specs.Conditions.{IsConfig};
ghost use Rattle.lane_model.specs.Desks.{IsFreshDesk};

use crate::calls::LinkConfig;
use crate::desks::Desk;
use crate::lane_links::LaneLink;
use crate::list_lanes::ListLane;
use rp_base::{NoMemory, ring_capacity};
use std::alloc::Global;

/// The form of a link that the other forms are measured by: two lanes of lists and counts, without
/// rings. Contracts see it as the state of a link.
pub type ListLink<D> = LaneLink<ListLane<D>>;

impl<D: Desk> LaneLink<ListLane<D>> {
    /// A new link, live in incarnation `config.first`, with its desks. It takes the room of both
    /// books, of whom they are handed to, and of what is held, so no later call but a reopening takes
    /// memory.
    pub fn make(
        alloc: Global,
        config: LinkConfig,
        host: D,
        remote: D,
    ) -> Result<LaneLink<ListLane<D>>, NoMemory>
        requires config { IsConfig config }
        requires host { IsFreshDesk D.meaning host }
        requires remote { IsFreshDesk D.meaning remote }
        ensures { IfOk result (λ link. link ≡ opened_link config host remote) }
    {
        let to_host = ListLane::make(alloc, ring_capacity(config.num0), config.book, host)?;
        let to_remote = ListLane::make(alloc, ring_capacity(config.num1), config.book, remote)?;
        Ok(LaneLink::of(config.first, to_host, to_remote))
    }
}
