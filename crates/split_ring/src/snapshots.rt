//! The words of a link as they are, while the manager has its four turns.
ghost use Rattle.std.specs.Prelude.{◌≡◌, ◌<◌, ◌*◌, ◌%◌, ℕ, IfOk, IfErr, length, map, slice_index_or};
ghost use Rattle.rp_base.specs.declared.limits.TheConstants.{MESSAGE_MOST};
ghost use Rattle.rp_base.specs.declared.kinds.End.TheVariants as side;
ghost use Rattle.rp_base.specs.Limits.{IsRingSize, ring_capacity};
ghost use Rattle.lane_model.specs.declared.lane_links.LaneLink.{LaneLink};
ghost use Rattle.ring_core.specs.declared.states.RingState.{RingState};
ghost use Rattle.ring_core.specs.Rings.{entry_of};
ghost use Rattle.vring_layout.specs.declared.words.UsedWord.{UsedWord};
ghost use Rattle.link_words.specs.Layouts.{place_in};
ghost use Rattle.link_words.specs.Reopens.{MayGather};
ghost use Rattle.link_words.specs.Words.{entry_word, sizes_at};
ghost use Rattle.split_ring.specs.Seats.{IsSeatOf};
ghost use Rattle.split_ring.specs.Snapshots.{FindsIn, HasEntry, HasIndex, IsLaneFound, index_word, ring_if};

use crate::callers::Manager;
use crate::links::SharedLink;
use crate::turns::era_of;
use lane_model::Desk;
use link_words::{
    ERA_PLACE, LinkSeat, Ring, entry_place, forward_place, look_for_manager, return_place,
};
use rp_base::{Da, End, MESSAGE_MOST, NoMemory};
use std::alloc::Global;
use vring_layout::{AvailableWords, RingWords, Snapshot, SnapshotFault, UsedWord, UsedWords};

/// The return ring or the forward ring.
fn ring_if(returns: bool) -> Ring
    ensures { result ≡ ring_if returns }
{
    if returns { Ring::Return } else { Ring::Forward }
}

/// Where the index of the return ring or of the forward ring of a lane is.
fn index_place(lane: End, returns: bool) -> usize
    ensures { result ≡ place_in (index_word lane returns) }
{
    if returns {
        return_place(lane)
    } else {
        forward_place(lane)
    }
}

/// The entry of a word.
fn entry_in(word: u64) -> UsedWord
    ensures { (entry : UsedWord) → word ≡ entry_word entry → entry.id < 4294967296 → result ≡ entry }
{
    UsedWord {
        id: (word % 4_294_967_296) as u32,
        len: (word / 4_294_967_296) as u32,
    }
}

/// The buffers that the entries of a ring name, 16 bits each.
fn numbers_in(alloc: Global, ring: &[UsedWord]) -> Result<Vec<u16>, NoMemory>
    ensures { IfOk result (λ numbers. numbers.items ≡ map (λ entry. entry.id % 65536) ring.now) }
{
    let mut numbers = Vec::with_capacity(alloc, ring.len())?;
    for entry in ring {
        numbers.push((entry.id % 65536) as u16)?;
    }
    Ok(numbers)
}

impl<D: Desk> SharedLink<D> {
    ghost use Rattle.split_ring.specs.Callers.{IsManagerOf, IsStateOf};
    ghost use Rattle.split_ring.specs.Carried.{Keeps};
    ghost use Rattle.split_ring.specs.ManagerCalls.{ShowsState};
    ghost use Rattle.split_ring.specs.Snapshots.{IsFound, IsRefusedIn};
    ghost use Rattle.split_ring.specs.declared.callers.CallerId.{CallerId};
    ghost use Rattle.split_ring.specs.CallPhases.{Phase};

    /// The era and the words of both lanes as they are, while the manager has the four turns. The buffers of the link are
    /// from address 0 on, 512 bytes each, those of the lane to the host first.
    ///
    /// Errors: `StillTurn` exactly where a turn was another's, or a carried call's, with the holder of the first such turn: of the
    /// sender's and the receiver's of the lane to the host, then of the lane to the remote; else `NoMemory`. After each answer the
    /// manager has no turn itself, and the calls that it carries are where they were.
    pub fn snapshot(&self, alloc: Global, manager: &mut Manager) -> Result<Snapshot, SnapshotFault>
        requires { IsManagerOf self.now manager.old }
        ensures manager { IsManagerOf self.now manager.new × (manager.new.users ≡ manager.old.users) }
        ensures others { (who : CallerId) (p : Phase) → Keeps self.now manager.old manager.new who p }
        ensures view { manager.new.seat.me.0 ≡ record manager.old.seat.me.0 { copy = manager.new.seat.me.0.copy } }
        ensures words { IfOk result (IsFound D.row.coded D.meaning manager.old.seat.me.0) }
        ensures refused { IfErr result (IsRefusedIn manager.old.seat.me.0) }
        ensures state { (m : LaneLink (RingState D)) → IsStateOf D.row.coded manager.old m → IsStateOf D.row.coded manager.new m × ShowsState m result }
    {
        let seat = &mut manager.seat;
        let (host, remote) = match self.take_lanes(seat) {
            Ok(lanes) => lanes,
            Err(holder) => return Err(SnapshotFault::StillTurn(holder)),
        };
        let found = self.find_words(alloc, seat);
        self.put_lanes(seat, host, remote);
        match found {
            Ok(snapshot) => Ok(snapshot),
            Err(_) => Err(SnapshotFault::NoMemory),
        }
    }

    /// The era and the words of both lanes, by a load of each word.
    fn find_words(&self, alloc: Global, seat: &mut LinkSeat) -> Result<Snapshot, NoMemory>
        requires seat { IsSeatOf self.now.table.shared.table_id self.now.sizes seat.old.table_id seat.old.me }
        requires manager { MayGather seat.old.me }
        ensures same { (seat.new.table_id ≡ seat.old.table_id) × (seat.new.me ≡ seat.old.me) }
        ensures era { IfOk result (λ snapshot. FindsIn D.row.coded D.meaning seat.old.me (λ m. m.era ≡ snapshot.era)) }
        ensures to_host { IfOk result (λ snapshot. IsLaneFound D.row.coded D.meaning seat.old.me side.Host 0 snapshot.to_host) }
        ensures to_remote { IfOk result (λ snapshot. IsLaneFound D.row.coded D.meaning seat.old.me side.Remote (MESSAGE_MOST * self.now.sizes.to_host.capacity) snapshot.to_remote) }
    {
        let era = era_of(look_for_manager(&self.table.shared, seat, ERA_PLACE));
        let to_host = self.find_lane(alloc, seat, End::Host, 0)?;
        let behind = u32::from(self.sizes.to_host.capacity) * MESSAGE_MOST as u32;
        let to_remote = self.find_lane(alloc, seat, End::Remote, behind)?;
        Ok(Snapshot {
            era,
            to_host,
            to_remote,
        })
    }

    /// The words of a lane's rings over buffers that begin at a device address.
    fn find_lane(
        &self,
        alloc: Global,
        seat: &mut LinkSeat,
        lane: End,
        base: Da,
    ) -> Result<RingWords, NoMemory>
        requires seat { IsSeatOf self.now.table.shared.table_id self.now.sizes seat.old.table_id seat.old.me }
        requires manager { MayGather seat.old.me }
        ensures same { (seat.new.table_id ≡ seat.old.table_id) × (seat.new.me ≡ seat.old.me) }
        ensures found { IfOk result (IsLaneFound D.row.coded D.meaning seat.old.me lane base) }
    {
        let sizes = self.sizes_of(lane);
        let device_writes = sizes.own == 0;
        let avail_idx = self.find_index(seat, lane, device_writes);
        let used_idx = self.find_index(seat, lane, !device_writes);
        let available = self.find_ring(alloc, seat, lane, device_writes)?;
        let filled = self.find_ring(alloc, seat, lane, !device_writes)?;
        let avail = AvailableWords::of(numbers_in(alloc, &available)?);
        let used = UsedWords::of(filled);
        Ok(RingWords {
            num: sizes.entries,
            capacity: sizes.capacity,
            base,
            device_writes,
            avail_idx,
            used_idx,
            avail,
            used,
        })
    }

    /// The index of the return ring or of the forward ring of a lane.
    fn find_index(&self, seat: &mut LinkSeat, lane: End, returns: bool) -> u16
        requires seat { IsSeatOf self.now.table.shared.table_id self.now.sizes seat.old.table_id seat.old.me }
        requires manager { MayGather seat.old.me }
        ensures same { (seat.new.table_id ≡ seat.old.table_id) × (seat.new.me ≡ seat.old.me) }
        ensures found { FindsIn D.row.coded D.meaning seat.old.me (HasIndex lane returns result) }
        ensures sized { IsRingSize (sizes_at self.now.sizes lane).entries × ((sizes_at self.now.sizes lane).capacity ≡ ring_capacity (sizes_at self.now.sizes lane).entries) }
    {
        let word = look_for_manager(&self.table.shared, seat, index_place(lane, returns));
        (word % 65536) as u16
    }

    /// The entries of the return ring or of the forward ring of a lane.
    fn find_ring(
        &self,
        alloc: Global,
        seat: &mut LinkSeat,
        lane: End,
        returns: bool,
    ) -> Result<Vec<UsedWord>, NoMemory>
        requires seat { IsSeatOf self.now.table.shared.table_id self.now.sizes seat.old.table_id seat.old.me }
        requires manager { MayGather seat.old.me }
        ensures same { (seat.new.table_id ≡ seat.old.table_id) × (seat.new.me ≡ seat.old.me) }
        ensures long { IfOk result (λ entries. length entries.items ≡ (sizes_at self.now.sizes lane).entries) }
        ensures found { IfOk result (λ entries. (k : ℕ) → k < (sizes_at self.now.sizes lane).entries → FindsIn D.row.coded D.meaning seat.old.me (HasEntry lane returns k (slice_index_or entries.items k (entry_of 0)))) }
    {
        let count = self.sizes_of(lane).entries;
        let ring = ring_if(returns);
        let mut entries = Vec::with_capacity(alloc, count as usize)?;
        for place in 0..count {
            let at = entry_place(&self.sizes, lane, ring, u64::from(place));
            let word = look_for_manager(&self.table.shared, seat, at);
            entries.push(entry_in(word))?;
        }
        Ok(entries)
    }
}
