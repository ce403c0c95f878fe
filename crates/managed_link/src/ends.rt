//! The close of a managed link, the end of a caller, and the reopening.
ghost use Rattle.std.specs.Prelude.{◌≡◌, ◌⊎◌, IfOk, IfErr, None, Some, length};
ghost use Rattle.std.specs.Option.{option_or};
ghost use Rattle.lane_model.specs.declared.recoveries.ReopenFault.TheVariants as reopen_fault;
ghost use Rattle.lane_model.specs.Recoveries.{link_after_close, link_after_reclaim, link_after_reopen, link_close_refusal, link_reclaim_refusal, link_reopen_refusal};
ghost use Rattle.managed_link.specs.Known.{lists_of, on_rings};

use crate::hands::{drop_hands, has_held, least_held};
use crate::links::ManagedLink;
use crate::views::LaneView;
use lane_model::{Already, Books, ReclaimRefusal, ReopenFault};
use rp_base::{CallerNo, End, Era, Inc};
use std::alloc::Global;

impl ManagedLink {
    /// Closes this incarnation. It is refused exactly where the era is another one, or closed.
    pub fn close(&mut self, inc: Inc) -> Result<(), Already>
        ensures whole { self.new ≡ link_after_close self.old inc }
        ensures done { IfOk result (λ _. link_close_refusal self.old.era inc ≡ None) }
        ensures refused { IfErr result (λ already. link_close_refusal self.old.era inc ≡ Some already.0) }
    {
        match self.shared.close_by(&mut self.manager, inc) {
            Ok(()) => {
                self.era.is_live = false;
                Ok(())
            }
            Err(already) => Err(already),
        }
    }

    /// Why this caller is not reclaimed now, if something refuses it.
    pub fn reclaim_refusal(&self, caller: CallerNo) -> Option<ReclaimRefusal>
        ensures { result ≡ link_reclaim_refusal (lists_of self.now) caller }
    {
        if self.era.is_live {
            return Some(ReclaimRefusal::StillOpen(self.era));
        }
        let (receiver, is_holding) = match self.end_of(caller) {
            Some(End::Host) => (self.to_host.receiver, has_held(&self.host, caller)),
            Some(End::Remote) => (self.to_remote.receiver, has_held(&self.remote, caller)),
            None => return None,
        };
        match receiver {
            Some(holder) if is_holding && holder != caller => Some(ReclaimRefusal::Busy(holder)),
            _ => None,
        }
    }

    /// Ends a caller whom nothing keeps from being reclaimed: its call is gone, its turn is free, what it held is back, and its number is free.
    pub fn end_caller(&mut self, caller: CallerNo)
        requires { link_reclaim_refusal (lists_of self.old) caller ≡ None }
        ensures whole { self.new ≡ link_after_reclaim on_rings self.old caller }
    {
        let Some(side) = self.manager.end_of(caller) else {
            return;
        };
        let call = match self.calls[usize::from(caller)].take() {
            Some(carried) => Some(carried.call),
            None => None,
        };
        let is_holding = match side {
            End::Host => has_held(&self.host, caller),
            End::Remote => has_held(&self.remote, caller),
        };
        let ended = self
            .shared
            .retire_by(&mut self.manager, caller, &call, is_holding);
        if ended.is_err() {
            unreachable!()
        }
        match side {
            End::Host => {
                self.to_host.free_receiver(caller);
                self.to_remote.free_sender(caller);
                drop_hands(&mut self.host, caller);
            }
            End::Remote => {
                self.to_remote.free_receiver(caller);
                self.to_host.free_sender(caller);
                drop_hands(&mut self.remote, caller);
            }
        }
    }

    /// Why the link is not reopened now, if something refuses it.
    pub fn reopen_refusal(&self) -> Option<ReopenFault>
        ensures { result ≡ link_reopen_refusal (lists_of self.now) }
    {
        if self.era.is_live {
            return Some(ReopenFault::StillOpen(self.era));
        }
        if let Some(holder) = either(self.to_host.turn_out(), self.to_remote.turn_out()) {
            return Some(ReopenFault::StillTurn(holder));
        }
        if let Some((caller, number)) = either(least_held(&self.host), least_held(&self.remote)) {
            return Some(ReopenFault::StillHeld(caller, number));
        }
        if self.era.inc == Inc::MAX {
            return Some(ReopenFault::IncarnationsSpent);
        }
        None
    }

    /// Begins the next incarnation, live, with empty lanes and fresh desks. Its room is taken before anything changes. Answers the books of the incarnation before.
    pub fn reopen(&mut self, alloc: Global) -> Result<Books, ReopenFault>
        ensures refused { IfErr result (λ fault. (self.new ≡ self.old) × ((link_reopen_refusal (lists_of self.old) ≡ Some fault)
            ⊎ ((fault ≡ reopen_fault.NoMemory) × (link_reopen_refusal (lists_of self.old) ≡ None)))) }
        ensures open { IfOk result (λ _. link_reopen_refusal (lists_of self.old) ≡ None) }
        ensures whole { IfOk result (λ _. self.new ≡ link_after_reopen on_rings self.old) }
        ensures inc { IfOk result (λ books. books.inc ≡ self.old.era.inc) }
        ensures to_host { IfOk result (λ books. (books.to_host.entries ≡ (lists_of self.old).to_host.lane.accepted)
            × (books.to_host_takers.items ≡ (lists_of self.old).to_host.lane.takers)
            × (books.to_host_handed ≡ length (lists_of self.old).to_host.lane.takers)) }
        ensures to_remote { IfOk result (λ books. (books.to_remote.entries ≡ (lists_of self.old).to_remote.lane.accepted)
            × (books.to_remote_takers.items ≡ (lists_of self.old).to_remote.lane.takers)
            × (books.to_remote_handed ≡ length (lists_of self.old).to_remote.lane.takers)) }
    {
        if let Some(fault) = self.reopen_refusal() {
            return Err(fault);
        }
        let books = self.shared.reopen(alloc, &mut self.manager)?;
        self.era = Era {
            inc: books.inc + 1,
            is_live: true,
        };
        self.to_host = LaneView::new();
        self.to_remote = LaneView::new();
        Ok(books)
    }
}

/// The first of two that is there.
fn either<T: Drop>(first: Option<T>, second: Option<T>) -> Option<T>
    ensures { result ≡ option_or first second }
{
    match first {
        None => second,
        Some(found) => Some(found),
    }
}
