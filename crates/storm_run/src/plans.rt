//! What a storm is made of.
ghost use Rattle.std.specs.Prelude.{◌≡◌, ◌+◌, ◌*◌, max, IfOk, OnOk};
ghost use Rattle.lane_model.specs.Conditions.{IsConfig};
ghost use Rattle.split_ring.specs.Callers.{IsManagerOf};
ghost use Rattle.storm_run.specs.Managers.{AreNewCallers, HasMade, end_at};
ghost use Rattle.storm_run.specs.Storms.{IsPlan};

use channel_bus::Side;
use lane_model::LinkConfig;
use rp_base::{CallerNo, End, Inc, NoMemory};
use split_ring::{Caller, Manager, SharedLink};
use std::alloc::Global;

/// The most callers of an end of a storm.
pub const END_CALLERS_MOST: u8 = 31;

/// The most messages that a caller of a storm sends.
pub const COUNT_MOST: u32 = 8_192;

/// The incarnation of a storm.
pub(crate) const FIRST: Inc = 1;

/// A storm.
#[derive(Clone, Copy, Debug)]
pub struct Plan {
    /// How many callers the host's end has, from 1 to [`END_CALLERS_MOST`].
    pub hosts: u8,
    /// How many the remote's end has, likewise.
    pub remotes: u8,
    /// How many messages each caller sends, from 1 to [`COUNT_MOST`].
    pub count: u32,
    /// How many entries each ring has, a power of two from 1 to 32,768.
    pub num: u32,
}

impl Plan {
    /// What the link of a storm is made of. Its books have room for all that is sent.
    pub(crate) fn config(&self) -> LinkConfig
        requires { IsPlan self.now }
        ensures config { IsConfig result }
        ensures rings { (result.num0 ≡ self.now.num) × (result.num1 ≡ self.now.num) }
        ensures book { result.book ≡ max self.now.hosts self.now.remotes * self.now.count }
        ensures first { result.first ≡ FIRST }
    {
        LinkConfig {
            num0: self.num,
            num1: self.num,
            book: u32::from(self.hosts.max(self.remotes)) * self.count,
            first: FIRST,
            base: 0,
        }
    }

    /// The end of the caller of this number: first come those of the host.
    fn end_at(&self, number: CallerNo) -> End
        ensures { result ≡ end_at self.now number }
    {
        if number < self.hosts {
            End::Host
        } else {
            End::Remote
        }
    }

    /// The callers of a new link.
    ///
    /// Errors: only if memory runs out.
    pub(crate) fn callers(
        &self,
        alloc: Global,
        link: &SharedLink<Side>,
        manager: &mut Manager,
    ) -> Result<Vec<Caller>, NoMemory>
        requires plan { IsPlan self.now }
        requires manager { IsManagerOf link.now manager.old }
        requires new { HasMade self.now 0 manager.old }
        requires first { link.now.sizes.first ≡ FIRST }
        ensures callers { IfOk result (λ callers. AreNewCallers link.now self.now (self.now.hosts + self.now.remotes) callers.items) }
        ensures manager { IsManagerOf link.now manager.new }
        ensures made { OnOk result (HasMade self.now (self.now.hosts + self.now.remotes) manager.new) }
    {
        let mut callers = Vec::new(alloc);
        for number in 0..self.hosts + self.remotes {
            match link.caller(manager, self.end_at(number)) {
                Some(caller) => callers.push(caller)?,
                None => unreachable!(),
            }
        }
        Ok(callers)
    }
}
