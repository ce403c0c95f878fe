//! A link whose callers its manager carries.
ghost use Rattle.managed_link.specs.Known.{LinkRings, IsKnown, known_prop};

use crate::call_slots::CallSlot;
use crate::hands::Hand;
use crate::views::LaneView;
use channel_bus::Side;
use rp_base::Era;
use split_ring::{Manager, SharedLink};
use std::marker::Model;

/// A shared link whose callers its manager carries, so that the manager knows the link's state between any two steps. Contracts see it as that state: the lists and
/// counts of both lanes with the words of their rings.
#[derive(Drop)]
pub struct ManagedLink {
    pub(crate) shared: SharedLink<Side>,
    pub(crate) manager: Manager,
    pub(crate) era: Era,
    pub(crate) to_host: LaneView,
    pub(crate) to_remote: LaneView,
    pub(crate) calls: Vec<CallSlot>,
    pub(crate) host: Vec<Hand>,
    pub(crate) remote: Vec<Hand>,
    ghost known: { (m : LinkRings) × IsKnown manager m } by { known_prop manager },
}

impl Model for ManagedLink {
    ghost use Rattle.managed_link.specs.Known.{LinkRings};

    ghost Value = { LinkRings };

    ghost use Rattle.managed_link.specs.Managed.{IsManaged, ShowsViews};

    ghost view = { λ l. l.known.0 };

    ghost invariant = { λ l. IsManaged l.shared l.manager l.calls.items l.host l.remote l.known.0 × ShowsViews l.era l.to_host l.to_remote l.known.0 };
}
