//! A send: a function for each step, and the whole walk.
ghost use Rattle.std.specs.Prelude.{◌≡◌, ◌≢◌, ◌+◌, ◌≤◌, ◌%◌, ◌<◌, ℕ, suc, ◌∷◌, [], IfOk, IfErr, None, length};
ghost use Rattle.rp_base.specs.declared.limits.TheConstants.{BOOK_MOST, CAPACITY_MOST};
ghost use Rattle.lane_model.specs.declared.calls.CallEnd.{CallEnd};
ghost use Rattle.lane_model.specs.declared.calls.CallEnd.TheVariants as call_end;
ghost use Rattle.lane_model.specs.declared.calls.Wish.TheVariants as wish;
ghost use Rattle.lane_model.specs.declared.lane_links.LaneLink.{LaneLink};
ghost use Rattle.lane_model.specs.declared.recoveries.LaneTurn.TheVariants as lane_turn;
ghost use Rattle.lane_model.specs.declared.stages.SendStage.TheVariants as stage;
ghost use Rattle.ring_core.specs.declared.states.RingState.{RingState};
ghost use Rattle.ring_core.specs.Rings.{return_count, entry_length};
ghost use Rattle.link_words.specs.declared.rule.Call.TheVariants.{Rests};
ghost use Rattle.link_words.specs.declared.rule.Event.TheVariants.{Step, Publish};
ghost use Rattle.link_words.specs.declared.rule.Made.TheVariants as made;
ghost use Rattle.link_words.specs.declared.rule.Slot.{Slot};
ghost use Rattle.link_words.specs.declared.rule.Slot.TheVariants.{Buffer};
ghost use Rattle.link_words.specs.Deeds.{Steps};
ghost use Rattle.link_words.specs.Parts.{AreNear};
ghost use Rattle.link_words.specs.PlacedLinks.{KnowsState};
ghost use Rattle.link_words.specs.Words.{other, sender_slot};
ghost use Rattle.split_ring.specs.CallPhases as phase;
ghost use Rattle.split_ring.specs.Callers.{IsCallerOf, IsAfterCall, MakesSend, SendNotBelow};
ghost use Rattle.split_ring.specs.Calls.{send_answer};
ghost use Rattle.split_ring.specs.Focus.{IsOrderlySeat, LeavesOthers, StaysAlone, StepsAlone, seat_of};
ghost use Rattle.split_ring.specs.Runs.{HasRun, RunsCall, send_behind};
ghost use Rattle.split_ring.specs.Seats.{IsAt, IsCaller};
ghost use Rattle.split_ring.specs.Sends.{live_era, room_look, IsSend, IsSendAt, IsFilledAt, HasNoRoom, HasSettled};
ghost use Rattle.split_ring.specs.Turns.{HasSender, IsLeaving};
ghost use Rattle.split_ring.specs.Walks.{HasDone, same_hands};

use crate::callers::{Caller, CallerId};
use crate::links::SharedLink;
use crate::slots::{accept_in, accepted_in, fill};
use crate::turns::{era_of, is_live_in, other};
use lane_model::{Desk, LaneTurn};
use link_words::{EraUse, IndexUse, Intent, LinkSeat, Ring, SenderState};
use ring_core::RingSizes;
use rp_base::{CallerNo, End, Era, Message};
use std::snapshot::Snapshot;
use vring_layout::UsedWord;

/// Why a send ended otherwise.
#[derive(Clone, Copy, Debug)]
pub enum SendFault {
    /// Another had the sender's turn.
    Busy(CallerNo),
    /// The era is not the one that the caller follows, live.
    Dead(Era),
    /// Each buffer is out: how many messages were accepted, and how many buffers were given back.
    NoBuffer(u64, u64),
    /// The book of this incarnation is full: how many messages were accepted.
    BookFull(u64),
}

/// A send that has the sender's turn.
#[derive(Drop)]
pub(crate) struct SendCall {
    pub who: CallerId,
    /// The message, for the proofs alone.
    pub message: Snapshot<Message>,
    /// The sender's side state, for the proofs alone.
    pub side: Snapshot<SenderState>,
    pub accepted: u64,
    pub buffer: u32,
}

/// The slot of the sender's side state of the lane to an end.
pub(crate) fn sender_slot(lane: End) -> usize
    ensures { result ≡ sender_slot lane }
{
    match lane {
        End::Host => 0,
        End::Remote => 2,
    }
}

/// How many buffers are not out, by the return index, which is near the count of accepted messages.
fn free_buffers(index: u64, sizes: &RingSizes, accepted: u64) -> u64
    requires sizes { sizes.now.own ≤ sizes.now.capacity }
    requires most { (sizes.now.capacity ≤ CAPACITY_MOST) × (accepted ≤ BOOK_MOST) × (index < 65536) }
    ensures { (returned : ℕ) → index ≡ return_count sizes.now returned % 65536 → AreNear sizes.now.capacity accepted returned → result + accepted ≡ returned + sizes.now.capacity }
{
    (index + u64::from(sizes.own) + 65_536 - accepted % 65_536) % 65_536
}

impl<D: Desk> SharedLink<D> {
    /// One attempt to send a message to the other end: the message's number in its lane and incarnation.
    /// It takes no memory and does not wait.
    ///
    /// Errors: `Busy` exactly where another had the sender's turn; `Dead` exactly where the era is not the
    /// one that the caller follows, live; `NoBuffer` exactly where each buffer is out, then `BookFull` exactly
    /// where the book is full. After each the caller is in no call.
    pub fn try_send(&self, caller: &mut Caller, message: &Message) -> Result<u64, SendFault>
        requires { IsCallerOf self.now caller.old }
        ensures caller { IsAfterCall self.now caller.old caller.new }
        ensures walk { MakesSend D.row.coded D.meaning self.now caller.old message.now result caller.new }
        ensures seen { SendNotBelow caller.old result }
    {
        self.send_in(&mut caller.seat, caller.id, message)
    }

    /// A whole send of this caller, whose pass is one of the seat's, and in no call.
    pub(crate) fn send_in(
        &self,
        seat: &mut LinkSeat,
        who: CallerId,
        message: &Message,
    ) -> Result<u64, SendFault>
        requires seat { IsOrderlySeat self.now.table.shared.table_id self.now.sizes seat.old.table_id seat.old.me }
        requires caller { IsCaller self.now.table.shared.table_id self.now.sizes who seat.old.table_id (seat_of who.number seat.old.me) }
        ensures seat { IsOrderlySeat self.now.table.shared.table_id self.now.sizes seat.new.table_id seat.new.me }
        ensures rests { IsAt (seat_of who.number seat.new.me) (Rests who.end) [] }
        ensures walk { IsSend D.row.coded D.meaning self.now.sizes who message.now result (seat_of who.number seat.old.me) (seat_of who.number seat.new.me) }
        ensures leaves { LeavesOthers who.number seat.old.me seat.new.me }
        ensures run { (m : LaneLink (RingState D)) → KnowsState D.row.coded seat.old.me.0 m → RunsCall D.row.coded D.meaning who m (wish.Send message.now) (send_behind result) (send_answer result) seat.new.me }
    {
        if let Err(holder) = self.enter(seat, who, Intent::send(message)) {
            return Err(SendFault::Busy(holder));
        }
        let answer = self.send_on(seat, who, message);
        self.leave(seat, who.number, other(who.end), LaneTurn::Sender);
        answer
    }

    /// The steps of a send after its first, up to the one that settles its end.
    fn send_on(
        &self,
        seat: &mut LinkSeat,
        who: CallerId,
        message: &Message,
    ) -> Result<u64, SendFault>
        requires seat { IsOrderlySeat self.now.table.shared.table_id self.now.sizes seat.old.table_id seat.old.me }
        requires turn { HasSender who message.now (seat_of who.number seat.old.me) }
        ensures seat { IsOrderlySeat self.now.table.shared.table_id self.now.sizes seat.new.table_id seat.new.me }
        ensures settled { HasSettled D.row.coded D.meaning self.now.sizes who message.now result (seat_of who.number seat.old.me) (seat_of who.number seat.new.me) }
        ensures leaves { LeavesOthers who.number seat.old.me seat.new.me }
        ensures run { (m : LaneLink (RingState D)) → KnowsState D.row.coded seat.old.me.0 m
            → (steps : ℕ) × (send_behind result ≡ suc steps) × HasRun D.row.coded D.meaning who self.now.sizes steps (phase.LeavesSender (send_answer result)) m seat.new.me }
    {
        let mut call = self.send_begun(seat, who, message);
        if let Err(era) = self.find_send_era(seat, &call) {
            return Err(SendFault::Dead(era));
        }
        if let Err(fault) = self.look_for_room(seat, &call) {
            return Err(fault);
        }
        call.buffer = self.take_free(seat, &call);
        self.store_message(seat, &call, message);
        self.publish_message(seat, &call, message);
        Ok(call.accepted)
    }

    /// A send that has its turn, by its side state.
    pub(crate) fn send_begun(
        &self,
        seat: &mut LinkSeat,
        who: CallerId,
        message: &Message,
    ) -> SendCall
        requires seat { IsOrderlySeat self.now.table.shared.table_id self.now.sizes seat.old.table_id seat.old.me }
        requires turn { HasSender who message.now (seat_of who.number seat.old.me) }
        ensures seat { IsOrderlySeat self.now.table.shared.table_id self.now.sizes seat.new.table_id seat.new.me }
        ensures call { IsSendAt result stage.Turn (seat_of result.who.number seat.new.me) × (result.who ≡ who) × (result.message.value ≡ message.now) }
        ensures still { HasDone D.row.coded D.meaning [] same_hands (seat_of result.who.number seat.old.me) (seat_of result.who.number seat.new.me) }
        ensures stays { StaysAlone result.who.number seat.old.me seat.new.me }
    {
        let slot = sender_slot(other(who.end));
        let (accepted, side) = accepted_in(seat.slot_mut(&self.table.shared, slot));
        SendCall {
            who,
            message: Snapshot::of(message),
            side,
            accepted,
            buffer: 0,
        }
    }

    /// Step 2 of a send: it goes on in its incarnation, live.
    ///
    /// Errors: the era that was found, exactly where it is another or a closed one.
    pub(crate) fn find_send_era(&self, seat: &mut LinkSeat, call: &SendCall) -> Result<(), Era>
        requires seat { IsOrderlySeat self.now.table.shared.table_id self.now.sizes seat.old.table_id seat.old.me }
        requires call { IsSendAt call.now stage.Turn (seat_of call.now.who.number seat.old.me) }
        ensures seat { IsOrderlySeat self.now.table.shared.table_id self.now.sizes seat.new.table_id seat.new.me }
        ensures live { IfOk result (λ _. IsSendAt call.now stage.Era (seat_of call.now.who.number seat.new.me)
            × HasDone D.row.coded D.meaning (Step (made.Era (live_era call.now.who.follows)) ∷ []) same_hands (seat_of call.now.who.number seat.old.me) (seat_of call.now.who.number seat.new.me)) }
        ensures dead { IfErr result (λ era. (era ≢ live_era call.now.who.follows) × IsLeaving lane_turn.Sender (other call.now.who.end) (call_end.Dead era) (seat_of call.now.who.number seat.new.me)
            × HasDone D.row.coded D.meaning (Step (made.Era era) ∷ []) same_hands (seat_of call.now.who.number seat.old.me) (seat_of call.now.who.number seat.new.me)) }
        ensures alone { StepsAlone D.row.coded D.meaning call.now.who.number (Steps call.now.who.number 0 None) seat.old.me seat.new.me }
    {
        let era = era_of(self.load_era(seat, call.who.number, EraUse::Send));
        if is_live_in(era, call.who.follows) {
            Ok(())
        } else {
            Err(era)
        }
    }

    /// Step 3 of a send: it looks for room by the return index.
    ///
    /// Errors: that each buffer is out, else that the book is full.
    pub(crate) fn look_for_room(
        &self,
        seat: &mut LinkSeat,
        call: &SendCall,
    ) -> Result<(), SendFault>
        requires seat { IsOrderlySeat self.now.table.shared.table_id self.now.sizes seat.old.table_id seat.old.me }
        requires call { IsSendAt call.now stage.Era (seat_of call.now.who.number seat.old.me) }
        ensures seat { IsOrderlySeat self.now.table.shared.table_id self.now.sizes seat.new.table_id seat.new.me }
        ensures room { IfOk result (λ _. IsSendAt call.now stage.Look (seat_of call.now.who.number seat.new.me)
            × ((returned : ℕ) × HasDone D.row.coded D.meaning (room_look call.now.who call.now.accepted returned ∷ []) same_hands (seat_of call.now.who.number seat.old.me) (seat_of call.now.who.number seat.new.me))) }
        ensures none { IfErr result (λ found. (returned : ℕ) × (ended : CallEnd) × HasNoRoom self.now.sizes call.now returned found ended
            × IsLeaving lane_turn.Sender (other call.now.who.end) ended (seat_of call.now.who.number seat.new.me)
            × HasDone D.row.coded D.meaning (room_look call.now.who call.now.accepted returned ∷ []) same_hands (seat_of call.now.who.number seat.old.me) (seat_of call.now.who.number seat.new.me)) }
        ensures alone { StepsAlone D.row.coded D.meaning call.now.who.number (Steps call.now.who.number 0 None) seat.old.me seat.new.me }
    {
        let lane = other(call.who.end);
        let index = self.load_index(seat, call.who.number, lane, IndexUse::Room);
        let sizes = self.sizes_of(lane);
        let free = free_buffers(index, &sizes, call.accepted);
        if free == 0 {
            let returned = call.accepted - u64::from(sizes.capacity);
            Err(SendFault::NoBuffer(call.accepted, returned))
        } else if call.accepted == u64::from(self.sizes.book) {
            Err(SendFault::BookFull(call.accepted))
        } else {
            Ok(())
        }
    }

    /// Step 4 of a send: a buffer is out, of the sender's own list or of the return ring.
    pub(crate) fn take_free(&self, seat: &mut LinkSeat, call: &SendCall) -> u32
        requires seat { IsOrderlySeat self.now.table.shared.table_id self.now.sizes seat.old.table_id seat.old.me }
        requires call { IsSendAt call.now stage.Look (seat_of call.now.who.number seat.old.me) }
        ensures seat { IsOrderlySeat self.now.table.shared.table_id self.now.sizes seat.new.table_id seat.new.me }
        ensures out { (y : Slot) × IsFilledAt self.now.sizes (record call.now { buffer = result }) stage.Buffer y (seat_of call.now.who.number seat.new.me) }
        ensures done { HasDone D.row.coded D.meaning (Step (made.Buffer result) ∷ []) same_hands (seat_of call.now.who.number seat.old.me) (seat_of call.now.who.number seat.new.me) }
        ensures alone { StepsAlone D.row.coded D.meaning call.now.who.number (Steps call.now.who.number 0 None) seat.old.me seat.new.me }
    {
        let lane = other(call.who.end);
        let own = u64::from(self.sizes_of(lane).own);
        if call.accepted < own {
            self.load_index(seat, call.who.number, lane, IndexUse::OwnBuffer);
            return call.accepted as u32;
        }
        let count = call.accepted - own;
        let entry = self.load_entry(seat, call.who.number, lane, Ring::Return, count);
        (entry % 4_294_967_296) as u32
    }

    /// Step 5 of a send: the message is in the buffer, and the forward entry names it.
    pub(crate) fn store_message(&self, seat: &mut LinkSeat, call: &SendCall, message: &Message)
        requires seat { IsOrderlySeat self.now.table.shared.table_id self.now.sizes seat.old.table_id seat.old.me }
        requires call { (y : Slot) × IsFilledAt self.now.sizes call.now stage.Buffer y (seat_of call.now.who.number seat.old.me) }
        requires message { call.now.message.value ≡ message.now }
        ensures seat { IsOrderlySeat self.now.table.shared.table_id self.now.sizes seat.new.table_id seat.new.me }
        ensures stored { IsFilledAt self.now.sizes call.now stage.Entry (Buffer message.now) (seat_of call.now.who.number seat.new.me) }
        ensures done { HasDone D.row.coded D.meaning (Step made.Entry ∷ []) same_hands (seat_of call.now.who.number seat.old.me) (seat_of call.now.who.number seat.new.me) }
        ensures alone { StepsAlone D.row.coded D.meaning call.now.who.number (Steps call.now.who.number 0 None) seat.old.me seat.new.me }
    {
        let lane = other(call.who.end);
        let slot = self.buffer_slot(lane, call.buffer);
        fill(seat.slot_mut(&self.table.shared, slot), message);
        let entry = UsedWord {
            id: call.buffer,
            len: entry_length(&self.sizes_of(lane), message),
        };
        self.store_entry(
            seat,
            call.who.number,
            lane,
            Ring::Forward,
            call.accepted,
            entry,
        );
    }

    /// Step 6 of a send: the message is accepted, and the buffer at home.
    pub(crate) fn publish_message(&self, seat: &mut LinkSeat, call: &SendCall, message: &Message)
        requires seat { IsOrderlySeat self.now.table.shared.table_id self.now.sizes seat.old.table_id seat.old.me }
        requires message { call.now.message.value ≡ message.now }
        requires call { IsFilledAt self.now.sizes call.now stage.Entry (Buffer call.now.message.value) (seat_of call.now.who.number seat.old.me) }
        ensures seat { IsOrderlySeat self.now.table.shared.table_id self.now.sizes seat.new.table_id seat.new.me }
        ensures published { IsLeaving lane_turn.Sender (other call.now.who.end) (call_end.Sent call.now.accepted) (seat_of call.now.who.number seat.new.me) }
        ensures done { HasDone D.row.coded D.meaning (Publish (other call.now.who.end) call.now.who.follows call.now.accepted call.now.message.value ∷ []) same_hands (seat_of call.now.who.number seat.old.me) (seat_of call.now.who.number seat.new.me) }
        ensures alone { StepsAlone D.row.coded D.meaning call.now.who.number (Steps call.now.who.number 0 None) seat.old.me seat.new.me }
    {
        let lane = other(call.who.end);
        self.publish_index(
            seat,
            call.who.number,
            lane,
            Ring::Forward,
            call.accepted + 1,
        );
        let side = seat.slot_mut(&self.table.shared, sender_slot(lane));
        accept_in(side, call.who.number, message);
    }
}

/// The length in a forward entry.
fn entry_length(sizes: &RingSizes, message: &Message) -> u32
    ensures { result ≡ entry_length sizes.now (length message.now) }
{
    if sizes.own == 0 {
        message.bytes().len() as u32
    } else {
        0
    }
}
