//! The reopening of a link: the next incarnation, with the books of the one before.
ghost use Rattle.std.specs.Prelude.{◌≡◌, ◌+◌, ◌<◌, ◌≤◌, ◌^◌, ℕ, List, ◌∷◌, [], length, slice_index, IfOk, IfErr, IfSome, IfNone, Some, None, true, false, vec_capacity};
ghost use Rattle.rp_base.specs.declared.kinds.End.TheVariants as side;
ghost use Rattle.rp_base.specs.declared.kinds.End.{End};
ghost use Rattle.rp_base.specs.declared.limits.TheConstants.{BOOK_MOST};
ghost use Rattle.lane_model.specs.declared.lane_links.LaneLink.{LaneLink};
ghost use Rattle.lane_model.specs.Recoveries.{link_after_reopen};
ghost use Rattle.ring_core.specs.declared.states.RingState.{RingState};
ghost use Rattle.ring_core.specs.RingSteps.{ring_form};
ghost use Rattle.link_words.specs.declared.rule.Call.TheVariants.{Reopens};
ghost use Rattle.link_words.specs.declared.rule.LaneSides.{LaneSides};
ghost use Rattle.link_words.specs.declared.rule.ReceiverSide.{ReceiverSide};
ghost use Rattle.link_words.specs.declared.rule.SenderSide.{SenderSide};
ghost use Rattle.link_words.specs.declared.rule.Slot.{Slot};
ghost use Rattle.link_words.specs.declared.rule.View.{View};
ghost use Rattle.link_words.specs.Fresh.{fresh_of, opened_sender, opened_receiver};
ghost use Rattle.link_words.specs.Histories.{LaneBooks};
ghost use Rattle.link_words.specs.Layouts.{layout};
ghost use Rattle.link_words.specs.Orderly.{IsOrderly};
ghost use Rattle.link_words.specs.Passes.{Manages};
ghost use Rattle.link_words.specs.PlacedDesks.{table_at};
ghost use Rattle.link_words.specs.PlacedLinks.{KnowsState};
ghost use Rattle.link_words.specs.Reopens.{AreBooksOf, AreInUse, books_by, both_sides};
ghost use Rattle.link_words.specs.Sides.{sides_at};
ghost use Rattle.split_ring.specs.Gathers.{IsCalling, IsHolderIn};
ghost use Rattle.split_ring.specs.Openings.{opened_words};
ghost use Rattle.split_ring.specs.Reopens.{HasNone, HasNoneItself, HasAll, HasAllBeside, TakesAll, PutsAll, StillHasNone, MeetsTurn, spent_by, refusal_from, AreTold, next_view, IsReopening};
ghost use Rattle.split_ring.specs.Seats.{IsSeatOf};
ghost use Rattle.split_ring.specs.Sends.{live_era};
ghost use Rattle.split_ring.specs.States.{AreSidesOf, all_left, all_taken, turns_out};

use crate::callers::Manager;
use crate::gathers::LaneStates;
use crate::layouts::new_words;
use crate::links::SharedLink;
use crate::turns::era_of;
use lane_model::{Book, Books, Desk, ReopenFault};
use link_words::{
    LinkSeat, ReceiverState, SenderState, begin_reopening, learn_era, open_era, reset_index,
    reset_place,
};
use rp_base::{CallerNo, End, Era, Inc, NoMemory};
use std::alloc::Global;

/// The room of a lane's next incarnation.
#[derive(Drop)]
pub(crate) struct NextLane {
    pub sender: SenderState,
    pub takers: Vec<CallerNo>,
}

/// What a reopening takes of memory before it changes anything: the words of a new link, and the room of both
/// lanes.
#[derive(Drop)]
pub(crate) struct ReopenRoom {
    pub words: Vec<u64>,
    pub host: NextLane,
    pub remote: NextLane,
}

/// What a lane accepted, and to whom each message was handed.
#[derive(Drop)]
pub(crate) struct ClosedLane {
    pub accepted: Book,
    pub takers: Vec<CallerNo>,
}

/// How many takers there are.
fn count(takers: &Vec<CallerNo>) -> u64
    ensures { result ≡ length takers.now.items }
{
    takers.len() as u64
}

/// Room for so many messages.
fn next_lane(alloc: Global, book: u32) -> Result<NextLane, NoMemory>
    requires { book ≤ BOOK_MOST }
    ensures { IfOk result (λ lane. (lane.sender ≡ opened_sender book) × (lane.takers.items ≡ []) × (book ≤ vec_capacity lane.takers)) }
{
    Ok(NextLane {
        sender: SenderState::make(alloc, book)?,
        takers: Vec::with_capacity(alloc, book as usize)?,
    })
}

/// Why the next incarnation isn't opened, by what both receivers' side states hold and this incarnation.
fn refusal_from(host: &ReceiverState, remote: &ReceiverState, inc: Inc) -> Option<ReopenFault>
    requires { inc < 4294967296 }
    ensures fault { result ≡ refusal_from host.now.hands remote.now.hands inc }
    ensures none { IfNone result ((host.now.hands ≡ []) × (remote.now.hands ≡ []) × (inc + 1 < 4294967296)) }
{
    match host.least_hand() {
        Some(hand) => Some(ReopenFault::StillHeld(hand.caller, hand.number)),
        None => match remote.least_hand() {
            Some(hand) => Some(ReopenFault::StillHeld(hand.caller, hand.number)),
            None => spent(inc),
        },
    }
}

/// That there is no next incarnation, where this is the last.
fn spent(inc: Inc) -> Option<ReopenFault>
    requires { inc < 4294967296 }
    ensures fault { result ≡ spent_by inc }
    ensures none { IfNone result (inc + 1 < 4294967296) }
{
    if inc == 4_294_967_295 {
        Some(ReopenFault::IncarnationsSpent)
    } else {
        None
    }
}

impl<D: Desk> SharedLink<D> {
    ghost use Rattle.split_ring.specs.Callers.{IsManagerOf, IsStateOf};
    ghost use Rattle.split_ring.specs.Carried.{Keeps};
    ghost use Rattle.split_ring.specs.ManagerCalls.{ReopensState};
    ghost use Rattle.split_ring.specs.declared.callers.CallerId.{CallerId};
    ghost use Rattle.split_ring.specs.CallPhases.{Phase};

    /// Opens the next incarnation, with both lanes empty and both desks reset. The answer is what each lane accepted
    /// and handed over in the one that was closed. Its memory is taken first.
    ///
    /// Errors: `NoMemory`, before anything is done; `StillOpen` exactly where the era is live; then `StillTurn` exactly where
    /// another, or a call that the manager carries, has one of the four turns; then `StillHeld` exactly where something is held,
    /// with the least number of the lane to the host, else of the other; then `IncarnationsSpent`. After each answer the manager
    /// has no turn itself, and the calls that it carries are where they were.
    pub fn reopen(&self, alloc: Global, manager: &mut Manager) -> Result<Books, ReopenFault>
        requires { IsManagerOf self.now manager.old }
        ensures manager { IsManagerOf self.now manager.new × (manager.new.users ≡ manager.old.users) }
        ensures others { (who : CallerId) (p : Phase) → Keeps self.now manager.old manager.new who p }
        ensures answer { IsReopening D.row.coded D.meaning manager.old.seat.me.0 result manager.new.seat.me.0 }
        ensures state { (m : LaneLink (RingState D)) → IsStateOf D.row.coded manager.old m → ReopensState D.row.coded D.meaning m result manager.new }
    {
        let room = match self.reopen_room(alloc) {
            Ok(room) => room,
            Err(_) => return Err(ReopenFault::NoMemory),
        };
        let seat = &mut manager.seat;
        let inc = match self.find_closed(seat) {
            Ok(inc) => inc,
            Err(era) => return Err(ReopenFault::StillOpen(era)),
        };
        let (host, remote) = match self.take_lanes(seat) {
            Ok(lanes) => lanes,
            Err(holder) => return Err(ReopenFault::StillTurn(holder)),
        };
        match refusal_from(&host.receiver, &remote.receiver, inc) {
            Some(fault) => {
                self.put_lanes(seat, host, remote);
                Err(fault)
            }
            None => Ok(self.open_next(seat, inc, host, remote, room)),
        }
    }

    /// The memory that a reopening takes.
    fn reopen_room(&self, alloc: Global) -> Result<ReopenRoom, NoMemory>
        ensures words { IfOk result (λ room. room.words.items ≡ layout (opened_words self.now.sizes)) }
        ensures host { IfOk result (λ room. (room.host.sender ≡ opened_sender self.now.sizes.book) × (room.host.takers.items ≡ []) × (self.now.sizes.book ≤ vec_capacity room.host.takers)) }
        ensures remote { IfOk result (λ room. (room.remote.sender ≡ opened_sender self.now.sizes.book) × (room.remote.takers.items ≡ []) × (self.now.sizes.book ≤ vec_capacity room.remote.takers)) }
    {
        Ok(ReopenRoom {
            words: new_words(alloc, &self.sizes)?,
            host: next_lane(alloc, self.sizes.book)?,
            remote: next_lane(alloc, self.sizes.book)?,
        })
    }

    /// The incarnation, where it is closed.
    ///
    /// Errors: the era that was found, exactly where it is live.
    fn find_closed(&self, seat: &mut LinkSeat) -> Result<Inc, Era>
        requires seat { IsSeatOf self.now.table.shared.table_id self.now.sizes seat.old.table_id seat.old.me }
        requires manager { Manages seat.old.me.0 }
        ensures seat { IsSeatOf self.now.table.shared.table_id self.now.sizes seat.new.table_id seat.new.me }
        ensures order { IsOrderly seat.new.me.0 }
        ensures closed { IfOk result (λ inc. (inc ≡ seat.old.me.0.inc) × (inc < 4294967296) × (seat.new.me ≡ (record seat.old.me.0 { is_closed = true }, seat.old.me.1))) }
        ensures unknown { IfErr result (λ _. seat.old.me.0.is_closed ≡ false) }
        ensures open { IfErr result (λ era. (era ≡ live_era seat.old.me.0.inc) × (seat.new.me ≡ (record seat.old.me.0 { is_closed = false }, seat.old.me.1))) }
        ensures state { (m : LaneLink (RingState D)) → KnowsState D.row.coded seat.old.me.0 m → KnowsState D.row.coded seat.new.me.0 m }
        ensures shut { IfOk result (λ inc. (m : LaneLink (RingState D)) → KnowsState D.row.coded seat.old.me.0 m → m.era ≡ record { inc = inc; is_live = false }) }
        ensures live { IfErr result (λ era. (m : LaneLink (RingState D)) → KnowsState D.row.coded seat.old.me.0 m → (m.era ≡ era) × (m.era.is_live ≡ true)) }
    {
        let era = era_of(learn_era(&self.table.shared, seat));
        if era.is_live { Err(era) } else { Ok(era.inc) }
    }

    /// The side states of both lanes, by one attempt at each turn.
    ///
    /// Errors: the holder of the first turn that was another's, or a carried call's. The manager has none itself then.
    pub(crate) fn take_lanes(
        &self,
        seat: &mut LinkSeat,
    ) -> Result<(LaneStates, LaneStates), CallerNo>
        requires seat { IsSeatOf self.now.table.shared.table_id self.now.sizes seat.old.table_id seat.old.me }
        requires manager { (v : View) × HasNoneItself v seat.old.me }
        ensures seat { IsSeatOf self.now.table.shared.table_id self.now.sizes seat.new.table_id seat.new.me }
        ensures taken { IfOk result (λ lanes. TakesAll lanes.0.sender lanes.0.receiver lanes.1.sender lanes.1.receiver seat.old.me seat.new.me) }
        ensures order { IsOrderly seat.new.me.0 }
        ensures users { IfOk result (λ lanes. AreInUse seat.old.me.0 side.Host lanes.0.receiver.hands × AreInUse seat.old.me.0 side.Remote lanes.1.receiver.hands) }
        ensures met { IfErr result (λ holder. StillHasNone seat.old.me seat.new.me × MeetsTurn D.row.coded D.meaning holder seat.old.me) }
        ensures holder { IfErr result (λ holder. IsHolderIn seat.old.me.0 holder) }
        ensures known { IfOk result (λ lanes. (m : LaneLink (RingState D)) → KnowsState D.row.coded seat.old.me.0 m → KnowsState D.row.coded seat.new.me.0 (all_taken D.meaning m) × AreSidesOf m.to_host lanes.0.sender lanes.0.receiver × AreSidesOf m.to_remote lanes.1.sender lanes.1.receiver) }
        ensures refused { IfErr result (λ holder. (m : LaneLink (RingState D)) → KnowsState D.row.coded seat.old.me.0 m → KnowsState D.row.coded seat.new.me.0 m × (turns_out m ≡ Some holder)) }
    {
        let host = match self.take_lane(seat, End::Host) {
            Ok(states) => states,
            Err(holder) => return Err(holder),
        };
        match self.take_lane(seat, End::Remote) {
            Ok(remote) => Ok((host, remote)),
            Err(holder) => {
                self.put_lane(seat, End::Host, host);
                Err(holder)
            }
        }
    }

    /// The manager leaves the four turns, with these side states.
    pub(crate) fn put_lanes(&self, seat: &mut LinkSeat, host: LaneStates, remote: LaneStates)
        requires seat { IsSeatOf self.now.table.shared.table_id self.now.sizes seat.old.table_id seat.old.me }
        requires manager { (v : View) × (slots : List (ℕ × Slot)) × HasAllBeside slots v host.sender host.receiver remote.sender remote.receiver seat.old.me }
        ensures seat { IsSeatOf self.now.table.shared.table_id self.now.sizes seat.new.table_id seat.new.me }
        ensures order { IsOrderly seat.new.me.0 }
        ensures put { PutsAll seat.old.me seat.new.me }
        ensures state { (m : LaneLink (RingState D)) → KnowsState D.row.coded seat.old.me.0 m → KnowsState D.row.coded seat.new.me.0 (all_left D.meaning m) }
    {
        self.put_lane(seat, End::Remote, remote);
        self.put_lane(seat, End::Host, host);
    }

    /// The steps of a reopening: it begins, each index and each entry is as in a new link, and the next incarnation is live.
    fn open_next(
        &self,
        seat: &mut LinkSeat,
        inc: Inc,
        host: LaneStates,
        remote: LaneStates,
        room: ReopenRoom,
    ) -> Books
        requires seat { IsSeatOf self.now.table.shared.table_id self.now.sizes seat.old.table_id seat.old.me }
        requires manager { (v : View) × HasAll v host.sender host.receiver remote.sender remote.receiver seat.old.me × (inc ≡ v.inc) × (v.is_closed ≡ true) }
        requires none { (host.receiver.hands ≡ []) × (remote.receiver.hands ≡ []) × (inc + 1 < 4294967296) }
        requires words { room.words.items ≡ layout (opened_words self.now.sizes) }
        requires host { (room.host.sender ≡ opened_sender self.now.sizes.book) × (room.host.takers.items ≡ []) × (self.now.sizes.book ≤ vec_capacity room.host.takers) }
        requires remote { (room.remote.sender ≡ opened_sender self.now.sizes.book) × (room.remote.takers.items ≡ []) × (self.now.sizes.book ≤ vec_capacity room.remote.takers) }
        ensures seat { IsSeatOf self.now.table.shared.table_id self.now.sizes seat.new.table_id seat.new.me }
        ensures order { IsOrderly seat.new.me.0 }
        ensures next { (v : View) → HasAll v host.sender host.receiver remote.sender remote.receiver seat.old.me → v.inc ≡ inc → HasNone (next_view v) seat.new.me }
        ensures books { (v : View) → HasAll v host.sender host.receiver remote.sender remote.receiver seat.old.me → v.inc ≡ inc → v.is_closed ≡ true → (told : End → LaneBooks) × AreBooksOf v told × AreTold result told }
        ensures inc { result.inc ≡ inc }
        ensures told { AreTold result (λ e. books_by (sides_at e (both_sides host.sender host.receiver) (both_sides remote.sender remote.receiver))) }
        ensures state { (m : LaneLink (RingState D)) → KnowsState D.row.coded seat.old.me.0 m → KnowsState D.row.coded seat.new.me.0 (link_after_reopen (ring_form D.meaning) m) }
    {
        begin_reopening(&self.table.shared, seat);
        self.reset_words(seat, &room.words);
        open_era(&self.table.shared, seat, inc);
        let (next_host, to_host) = self.next_states(host, room.host);
        let (next_remote, to_remote) = self.next_states(remote, room.remote);
        self.put_lanes(seat, next_host, next_remote);
        Books {
            inc,
            to_host: to_host.accepted,
            to_host_handed: count(&to_host.takers),
            to_host_takers: to_host.takers,
            to_remote: to_remote.accepted,
            to_remote_handed: count(&to_remote.takers),
            to_remote_takers: to_remote.takers,
        }
    }

    /// Each index and each entry is that of a new link.
    fn reset_words(&self, seat: &mut LinkSeat, words: &[u64])
        requires seat { IsSeatOf self.now.table.shared.table_id self.now.sizes seat.old.table_id seat.old.me }
        requires manager { (v : View) × (inc : ℕ) × (a : LaneSides) × (b : LaneSides) × (slots : List (ℕ × Slot)) × IsCalling v (Reopens 0 inc a b) slots seat.old.me }
        requires words { words.now ≡ layout (opened_words self.now.sizes) }
        ensures seat { IsSeatOf self.now.table.shared.table_id self.now.sizes seat.new.table_id seat.new.me }
        ensures all { (v : View) (inc : ℕ) (a b : LaneSides) (slots : List (ℕ × Slot)) → IsCalling v (Reopens 0 inc a b) slots seat.old.me → IsCalling v (Reopens (length (fresh_of self.now.sizes)) inc a b) slots seat.new.me }
        ensures state { (m : LaneLink (RingState D)) → KnowsState D.row.coded seat.old.me.0 m → KnowsState D.row.coded seat.new.me.0 m }
    {
        let entries = u64::from(self.sizes.to_host.entries)
            + u64::from(self.sizes.to_remote.entries);
        for number in 0..entries * 2 + 4 {
            let new = words[reset_place(number)];
            reset_index(&self.table.shared, seat, number, new);
        }
    }

    /// The side states of a lane in the next incarnation, and what it accepted and handed over in this one.
    fn next_states(&self, states: LaneStates, next: NextLane) -> (LaneStates, ClosedLane)
        requires right { states.receiver.desk.table ≡ table_at self.now.sizes.desks states.receiver.desk.end }
        requires room { (next.takers.items ≡ []) × (self.now.sizes.book ≤ vec_capacity next.takers) }
        ensures sender { result.0.sender ≡ next.sender }
        ensures receiver { (d : D) → states.receiver.desk.code ≡ D.row.coded.code d → result.0.receiver ≡ opened_receiver self.now.sizes.book (record states.receiver.desk { code = D.row.coded.code (D.meaning.fresh d) }) }
        ensures closed { (result.1.accepted.entries ≡ states.sender.entries) × (result.1.takers.items ≡ states.receiver.takers) }
    {
        let LaneStates {
            sender,
            mut receiver,
        } = states;
        let NextLane {
            sender: next_sender,
            takers,
        } = next;
        let book = self.sizes.book;
        let takers = match receiver.end() {
            End::Host => receiver.reopen(&self.host.shared, book, takers),
            End::Remote => receiver.reopen(&self.remote.shared, book, takers),
        };
        (
            LaneStates {
                sender: next_sender,
                receiver,
            },
            ClosedLane {
                accepted: sender.into_book(),
                takers,
            },
        )
    }
}
