//! What a bench is over: a link that threads may share, and its manager.
ghost use Rattle.split_ring.specs.declared.callers.Manager.{Manager};
ghost use Rattle.split_ring.specs.declared.links.SharedLink.{SharedLink};
ghost use Rattle.channel_bus.specs.Sides.{EndState};
ghost use Rattle.managed_link.specs.Managed.{Manages};

use crate::benches::Bench;
use channel_bus::Side;
use split_ring::{Manager, SharedLink};

impl Bench {
    /// The link of the bench and its manager, which carries every caller and knows that the link is in
    /// the state of the bench. No caller is in other hands.
    pub fn over(&self) -> (&SharedLink<Side>, &Manager)
        ensures { Manages result.0.now result.1.now self.now.rings }
    {
        self.link.over()
    }

    /// The link of the bench.
    pub fn shared(&self) -> &SharedLink<Side>
        ensures { (manager : Manager) × Manages result.now manager self.now.rings }
    {
        let (shared, _) = self.over();
        shared
    }

    /// The manager of the link of the bench.
    pub fn manager(&self) -> &Manager
        ensures { (shared : SharedLink EndState) × Manages shared result.now self.now.rings }
    {
        let (_, manager) = self.over();
        manager
    }

    /// The link of the bench and its manager by value, so that threads go on over the link. Calls that
    /// are begun and have done no step are gone.
    pub fn into_shared(self) -> (SharedLink<Side>, Manager)
        ensures { Manages result.0 result.1 self.rings }
    {
        let Bench { link, .. } = self;
        link.into_shared()
    }
}
