ghost use Rattle.std.specs.Prelude.{◌≡◌, ◌⊎◌, length, Some, None, IfOk, IfErr};
ghost use Rattle.std.specs.Option.{option_map, option_or};
ghost use Rattle.lane_model.specs.declared.recoveries.ReopenFault.TheVariants as reopen_fault;
ghost use Rattle.lane_model.specs.Recoveries.{link_after_close, link_close_refusal, link_reclaim_refusal, handed_back, link_after_reclaim, link_reopen_refusal, link_after_reopen};

use crate::helds::Held;
use crate::lane_forms::LaneForm;
use crate::lane_links::LaneLink;
use crate::link_calls::LinkCall;
use crate::recoveries::{Already, Books, LaneRoom, ReclaimByFault, ReclaimRefusal, ReopenFault};
use rp_base::{CallerNo, End, Era, Inc};
use std::alloc::Global;

impl<L: LaneForm> LaneLink<L> {
    ghost use Rattle.lane_model.specs.Forms.{list_form};
    ghost use Rattle.lane_model.specs.Links.{link_of};

    /// Closes this incarnation. It is refused exactly where the era is another one, or closed.
    pub fn close(&mut self, inc: Inc) -> Result<(), Already>
        ensures whole { self.new ≡ link_after_close self.old inc }
        ensures left { link_of L.form self.new ≡ link_after_close (link_of L.form self.old) inc }
        ensures done { IfOk result (λ _. link_close_refusal self.old.era inc ≡ None) }
        ensures refused { IfErr result (λ already. link_close_refusal self.old.era inc ≡ Some already.0) }
    {
        if !(self.era.inc == inc && self.era.is_live) {
            return Err(Already(self.era));
        }
        self.era = Era {
            inc,
            is_live: false,
        };
        Ok(())
    }

    /// Why this caller is not reclaimed now, if something refuses it.
    pub fn reclaim_refusal(&self, caller: CallerNo) -> Option<ReclaimRefusal>
        ensures { result ≡ link_reclaim_refusal (link_of L.form self.now) caller }
    {
        if self.era.is_live {
            return Some(ReclaimRefusal::StillOpen(self.era));
        }
        let holder = match self.end_of(u64::from(caller)) {
            None => None,
            Some(End::Host) => self.to_host.needed_holder(caller),
            Some(End::Remote) => self.to_remote.needed_holder(caller),
        };
        match holder {
            None => None,
            Some(other) => Some(ReclaimRefusal::Busy(other)),
        }
    }

    /// Ends a caller whom nothing keeps from being reclaimed: its call is gone, its turn is free, what
    /// it held is back, and its number is free.
    pub fn end_caller(&mut self, caller: CallerNo)
        ensures whole { self.new ≡ link_after_reclaim L.form self.old caller }
        ensures left { link_of L.form self.new ≡ link_after_reclaim (list_form L.Desk.meaning) (link_of L.form self.old) caller }
    {
        match self.end_of(u64::from(caller)) {
            None => return,
            Some(End::Host) => {
                self.to_remote.end_send(caller);
                self.to_host.end_receive(caller);
            }
            Some(End::Remote) => {
                self.to_host.end_send(caller);
                self.to_remote.end_receive(caller);
            }
        }
        self.callers[caller as usize] = None;
    }

    /// Reclaims a caller in use, with the call that it has begun and the buffers that it holds, which
    /// are all that it has. Where that is refused they are handed back, and nothing changes.
    pub fn reclaim(
        &mut self,
        caller: CallerNo,
        call: Option<LinkCall>,
        held: Vec<Held>,
    ) -> Result<(), ReclaimByFault<LinkCall>>
        ensures done { IfOk result (λ _. (link_reclaim_refusal (link_of L.form self.old) caller ≡ None) × (self.new ≡ link_after_reclaim L.form self.old caller)) }
        ensures left { IfOk result (λ _. link_of L.form self.new ≡ link_after_reclaim (list_form L.Desk.meaning) (link_of L.form self.old) caller) }
        ensures refused { IfErr result (λ fault. (self.new ≡ self.old)
            × (option_map (λ why. handed_back call held why) (link_reclaim_refusal (link_of L.form self.old) caller) ≡ Some fault)) }
    {
        match self.reclaim_refusal(caller) {
            Some(ReclaimRefusal::StillOpen(era)) => {
                Err(ReclaimByFault::StillOpen(era, call, held))
            }
            Some(ReclaimRefusal::Busy(holder)) => Err(ReclaimByFault::Busy(holder, call, held)),
            None => {
                self.end_caller(caller);
                Ok(())
            }
        }
    }

    /// Why the link is not reopened now, if something refuses it.
    pub fn reopen_refusal(&self) -> Option<ReopenFault>
        ensures { result ≡ link_reopen_refusal (link_of L.form self.now) }
    {
        if self.era.is_live {
            return Some(ReopenFault::StillOpen(self.era));
        }
        if let Some(holder) = either(self.to_host.turn_out(), self.to_remote.turn_out()) {
            return Some(ReopenFault::StillTurn(holder));
        }
        if let Some(held) = either(self.to_host.least_held(), self.to_remote.least_held()) {
            return Some(ReopenFault::StillHeld(held.caller, held.number));
        }
        if self.era.inc == Inc::MAX {
            return Some(ReopenFault::IncarnationsSpent);
        }
        None
    }

    /// Begins the next incarnation, live, with empty lanes and fresh desks. Its room is taken before
    /// anything changes. Answers the books of the incarnation before.
    pub fn reopen(&mut self, alloc: Global) -> Result<Books, ReopenFault>
        ensures refused { IfErr result (λ fault. (self.new ≡ self.old) × ((link_reopen_refusal (link_of L.form self.old) ≡ Some fault)
            ⊎ ((fault ≡ reopen_fault.NoMemory) × (link_reopen_refusal (link_of L.form self.old) ≡ None)))) }
        ensures open { IfOk result (λ _. link_reopen_refusal (link_of L.form self.old) ≡ None) }
        ensures whole { IfOk result (λ _. self.new ≡ link_after_reopen L.form self.old) }
        ensures left { IfOk result (λ _. link_of L.form self.new ≡ link_after_reopen (list_form L.Desk.meaning) (link_of L.form self.old)) }
        ensures inc { IfOk result (λ books. books.inc ≡ self.old.era.inc) }
        ensures to_host { IfOk result (λ books. (books.to_host.entries ≡ (L.form.state self.old.to_host).lane.accepted)
            × (books.to_host_takers.items ≡ (L.form.state self.old.to_host).lane.takers)
            × (books.to_host_handed ≡ length (L.form.state self.old.to_host).lane.takers)) }
        ensures to_remote { IfOk result (λ books. (books.to_remote.entries ≡ (L.form.state self.old.to_remote).lane.accepted)
            × (books.to_remote_takers.items ≡ (L.form.state self.old.to_remote).lane.takers)
            × (books.to_remote_handed ≡ length (L.form.state self.old.to_remote).lane.takers)) }
    {
        if let Some(fault) = self.reopen_refusal() {
            return Err(fault);
        }
        let Ok(to_host_room) = LaneRoom::make(alloc, self.to_host.book()) else {
            return Err(ReopenFault::NoMemory);
        };
        let Ok(to_remote_room) = LaneRoom::make(alloc, self.to_remote.book()) else {
            return Err(ReopenFault::NoMemory);
        };
        let inc = self.era.inc;
        let to_host = self.to_host.reopen(to_host_room);
        let to_remote = self.to_remote.reopen(to_remote_room);
        self.era = Era {
            inc: inc + 1,
            is_live: true,
        };
        Ok(Books {
            inc,
            to_host: to_host.accepted,
            to_host_handed: to_host.takers.len() as u64,
            to_host_takers: to_host.takers,
            to_remote: to_remote.accepted,
            to_remote_handed: to_remote.takers.len() as u64,
            to_remote_takers: to_remote.takers,
        })
    }
}

/// The first of two that is there.
fn either<T: Drop>(first: Option<T>, second: Option<T>) -> Option<T>
    ensures { result ≡ option_or first second }
{
    match first {
        None => second,
        Some(found) => Some(found),
    }
}
