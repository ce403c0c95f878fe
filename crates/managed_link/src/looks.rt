//! What is seen of a managed link: its era and counts, who has its turns, what a caller has in hand, the channels of an end, and its words.
ghost use Rattle.std.specs.Prelude.{◌≡◌, ◌⊎◌, ◌≤◌, IfOk, IfErr, IfSome, OnOk, None, Some, length, true, false};
ghost use Rattle.std.specs.Option.{option_map};
ghost use Rattle.rp_base.specs.declared.limits.TheConstants.{BOOK_MOST, MESSAGE_MOST};
ghost use Rattle.lane_model.specs.Conditions.{is_calling, is_holding};
ghost use Rattle.lane_model.specs.Lanes.{holder};
ghost use Rattle.lane_model.specs.Links.{end_of};
ghost use Rattle.lane_model.specs.Soundness.{SoundLink};
ghost use Rattle.split_ring.specs.ManagerCalls.{snapshot_of};
ghost use Rattle.split_ring.specs.States.{turns_out};
ghost use Rattle.vring_layout.specs.declared.snapshots.SnapshotFault.TheVariants as snapshot_fault;
ghost use Rattle.managed_link.specs.Known.{lists_of};
ghost use Rattle.managed_link.specs.Managed.{IsWholeRing, Manages, counts_to, message_for, state_to};

use crate::hands::place_of;
use crate::links::ManagedLink;
use channel_bus::Side;
use name_service::Channel;
use rp_base::{CallerNo, End, Era};
use split_ring::{Manager, SharedLink};
use std::alloc::Global;
use vring_layout::{Snapshot, SnapshotFault};

impl ManagedLink {
    /// The life that the link is in.
    #[inline(always)]
    pub fn era(&self) -> Era
        ensures { result ≡ self.now.era }
    {
        self.era
    }

    /// A managed link is sound, whatever was done on it.
    #[inline(always)]
    pub fn show_sound(&self)
        ensures { SoundLink (lists_of self.now) }
    {
        let _era = self.era;
    }

    /// How many messages were accepted, handed over and given back on the lane to an end. No more are accepted than the largest book has room for.
    pub fn counts(&self, lane: End) -> (u64, u64, u64)
        ensures counts { result ≡ counts_to (lists_of self.now) lane }
        ensures few { result.0 ≤ BOOK_MOST }
    {
        let view = match lane {
            End::Host => &self.to_host,
            End::Remote => &self.to_remote,
        };
        (view.accepted, view.handed, view.returned)
    }

    /// Who has the sender's turn of the lane to an end.
    pub fn sender_holder(&self, lane: End) -> Option<CallerNo>
        ensures { result ≡ holder (state_to (lists_of self.now) lane).sender }
    {
        match lane {
            End::Host => self.to_host.sender,
            End::Remote => self.to_remote.sender,
        }
    }

    /// Who has the receiver's turn of the lane to an end: a caller of that end.
    pub fn receiver_holder(&self, lane: End) -> Option<CallerNo>
        ensures holder { result ≡ holder (state_to (lists_of self.now) lane).receiver }
        ensures user { IfSome result (λ caller. end_of self.now.callers caller ≡ Some lane) }
    {
        match lane {
            End::Host => self.to_host.receiver,
            End::Remote => self.to_remote.receiver,
        }
    }

    /// The message of this number, which a caller that is in no call holds.
    pub fn held_message(&self, caller: CallerNo, number: u64) -> &[u8]
        requires holding { is_holding (lists_of self.now) caller number ≡ true }
        requires rests { is_calling (lists_of self.now) caller ≡ false }
        ensures message { result.now ≡ message_for (lists_of self.now) (end_of self.now.callers caller) number }
        ensures short { length result.now ≤ MESSAGE_MOST }
    {
        let hands = match self.end_of(caller) {
            Some(End::Host) => &self.host,
            Some(End::Remote) => &self.remote,
            None => unreachable!(),
        };
        match hands[place_of(hands, number, caller)].held.place() {
            Some(held) => held.message().bytes(),
            None => unreachable!(),
        }
    }

    /// The channels of the host end, in the order of creation.
    ///
    /// Errors: [`SnapshotFault::StillTurn`] exactly where the receiver's turn of the lane to the host is out, or out of memory.
    pub fn channels(&mut self, alloc: Global) -> Result<Vec<Channel>, SnapshotFault>
        ensures same { self.new ≡ self.old }
        ensures free { OnOk result (holder (lists_of self.old).to_host.receiver ≡ None) }
        ensures channels { IfOk result (λ channels. channels.items ≡ (lists_of self.old).to_host.desk.channels) }
        ensures refused { IfErr result (λ why. (option_map snapshot_fault.StillTurn (holder (lists_of self.old).to_host.receiver) ≡ Some why)
            ⊎ ((why ≡ snapshot_fault.NoMemory) × (holder (lists_of self.old).to_host.receiver ≡ None))) }
    {
        let copied = self
            .shared
            .desk_by(&mut self.manager, End::Host, |side: &Side| {
                side.channels().to_vec(alloc)
            });
        match copied {
            Err(holder) => Err(SnapshotFault::StillTurn(holder)),
            Ok(Err(_)) => Err(SnapshotFault::NoMemory),
            Ok(Ok(channels)) => Ok(channels),
        }
    }

    /// The era and the words of both lanes as they are, with the buffers from address 0 on, those of the lane to the host first.
    ///
    /// Errors: [`SnapshotFault::StillTurn`] exactly where a turn is out, with the holder of the first: of the sender's and the receiver's of the lane to the host, then of the
    /// other; else only out of memory.
    pub fn snapshot(&mut self, alloc: Global) -> Result<Snapshot, SnapshotFault>
        ensures same { self.new ≡ self.old }
        ensures free { OnOk result (turns_out self.old ≡ None) }
        ensures words { IfOk result (λ snapshot. snapshot ≡ snapshot_of self.old) }
        ensures sized { IfOk result (λ snapshot. IsWholeRing snapshot.to_host × IsWholeRing snapshot.to_remote) }
        ensures refused { IfErr result (λ why. (option_map snapshot_fault.StillTurn (turns_out self.old) ≡ Some why) ⊎ ((why ≡ snapshot_fault.NoMemory) × (turns_out self.old ≡ None))) }
    {
        self.shared.snapshot(alloc, &mut self.manager)
    }

    /// The shared link with its manager, which carries every caller and knows that the link is in this state.
    pub fn over(&self) -> (&SharedLink<Side>, &Manager)
        ensures { Manages result.0.now result.1.now self.now }
    {
        (&self.shared, &self.manager)
    }

    /// The same by value: threads may go on over it.
    pub fn into_shared(self) -> (SharedLink<Side>, Manager)
        ensures { Manages result.0 result.1 self }
    {
        let ManagedLink {
            shared,
            manager,
            ..
        } = self;
        (shared, manager)
    }
}
