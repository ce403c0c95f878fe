//! The making of a managed link, and its callers.
ghost use Rattle.std.specs.Prelude.{◌≡◌, ◌<◌, ◌||◌, IfOk, IfSome};
ghost use Rattle.rp_base.specs.declared.limits.TheConstants.{CALLERS_MOST};
ghost use Rattle.lane_model.specs.Conditions.{IsConfig, is_calling, is_holding};
ghost use Rattle.lane_model.specs.Crashes.{has_held};
ghost use Rattle.lane_model.specs.Desks.{IsFreshDesk};
ghost use Rattle.lane_model.specs.Links.{end_of, free_number, with_caller};
ghost use Rattle.channel_bus.specs.Sides.{side_meaning};
ghost use Rattle.ring_core.specs.RingLinks.{opened_ring_link};
ghost use Rattle.managed_link.specs.Known.{lists_of};
ghost use Rattle.managed_link.specs.Managed.{no_calls};

use crate::call_slots::CallSlot;
use crate::hands::{has_held, holds};
use crate::links::ManagedLink;
use crate::views::LaneView;
use channel_bus::Side;
use lane_model::LinkConfig;
use rp_base::{CALLERS_MOST, CallerNo, End, Era, Inc, NoMemory, ring_capacity};
use split_ring::SharedLink;
use std::alloc::Global;

/// No call for each number of a caller.
fn no_calls(alloc: Global) -> Result<Vec<CallSlot>, NoMemory>
    ensures { IfOk result (λ calls. calls.items ≡ no_calls) }
{
    let mut calls = Vec::with_capacity(alloc, CALLERS_MOST)?;
    for _ in 0..CALLERS_MOST {
        calls.push(CallSlot::empty())?;
    }
    Ok(calls)
}

impl ManagedLink {
    /// A new link of these ends, live in its first incarnation, with no caller. It takes all its room at once, so of the later calls a reopening, a snapshot and a list of channels alone take memory.
    ///
    /// Errors: only if memory runs out.
    pub fn make(
        alloc: Global,
        config: LinkConfig,
        host: Side,
        remote: Side,
    ) -> Result<ManagedLink, NoMemory>
        requires config { IsConfig config }
        requires host { IsFreshDesk side_meaning host }
        requires remote { IsFreshDesk side_meaning remote }
        ensures { IfOk result (λ link. link ≡ opened_ring_link config host remote) }
    {
        let calls = no_calls(alloc)?;
        let to_host = Vec::with_capacity(alloc, usize::from(ring_capacity(config.num0)))?;
        let to_remote = Vec::with_capacity(alloc, usize::from(ring_capacity(config.num1)))?;
        let era = Era {
            inc: config.first,
            is_live: true,
        };
        let (shared, manager) = SharedLink::make(alloc, config, host, remote)?;
        Ok(ManagedLink {
            shared,
            manager,
            era,
            to_host: LaneView::new(),
            to_remote: LaneView::new(),
            calls,
            host: to_host,
            remote: to_remote,
        })
    }

    /// A new caller at this end, under the least number that is not in use. There is none exactly where all are.
    pub fn caller(&mut self, end: End) -> Option<CallerNo>
        ensures number { result ≡ free_number self.old.callers }
        ensures left { self.new ≡ record self.old { callers = with_caller self.old.callers end (free_number self.old.callers) } }
    {
        self.shared.enlist(&mut self.manager, end)
    }

    /// The end of the caller of this number, where it is in use.
    #[inline(always)]
    pub fn end_of(&self, caller: CallerNo) -> Option<End>
        ensures end { result ≡ end_of self.now.callers caller }
        ensures within { IfSome result (λ _. caller < CALLERS_MOST) }
    {
        self.manager.end_of(caller)
    }

    /// Whether the caller of this number is in use and has a call under way.
    #[inline(always)]
    pub fn is_calling(&self, caller: CallerNo) -> bool
        ensures { result ≡ is_calling (lists_of self.now) caller }
    {
        match self.calls.get(usize::from(caller)) {
            Some(found) => found.is_used(),
            None => false,
        }
    }

    /// Whether the caller of this number is in use and holds the buffer of the message `number`.
    pub fn is_holding(&self, caller: CallerNo, number: u64) -> bool
        ensures { result ≡ is_holding (lists_of self.now) caller number }
    {
        match self.end_of(caller) {
            Some(End::Host) => holds(&self.host, number, caller),
            Some(End::Remote) => holds(&self.remote, number, caller),
            None => false,
        }
    }

    /// Whether this caller holds some buffer of either lane.
    pub fn has_held(&self, caller: CallerNo) -> bool
        ensures { result ≡ (has_held (lists_of self.now).to_host.lane.held caller || has_held (lists_of self.now).to_remote.lane.held caller) }
    {
        has_held(&self.host, caller) || has_held(&self.remote, caller)
    }
}
