//! The manager takes the side states of the lanes with their turns, and leaves them again.
ghost use Rattle.std.specs.Prelude.{◌≡◌, false, ℕ, List, ◌∷◌, [], IfOk, IfErr, Some, None};
ghost use Rattle.lane_model.specs.declared.lane_links.LaneLink.{LaneLink};
ghost use Rattle.lane_model.specs.declared.recoveries.LaneTurn.TheVariants as lane_turn;
ghost use Rattle.lane_model.specs.Crashes.{turn_out};
ghost use Rattle.ring_core.specs.declared.states.RingState.{RingState};
ghost use Rattle.link_words.specs.declared.rule.Call.TheVariants.{Gathers};
ghost use Rattle.link_words.specs.declared.rule.LaneSides.{LaneSides};
ghost use Rattle.link_words.specs.declared.rule.ReceiverSide.{ReceiverSide};
ghost use Rattle.link_words.specs.declared.rule.SenderSide.{SenderSide};
ghost use Rattle.link_words.specs.declared.rule.Slot.{Slot};
ghost use Rattle.link_words.specs.declared.rule.Slot.TheVariants.{Empty, Receiver, Sender};
ghost use Rattle.link_words.specs.declared.rule.View.{View};
ghost use Rattle.link_words.specs.Orderly.{IsOrderly};
ghost use Rattle.link_words.specs.Parts.{has_for_manager, has_sender_for_manager};
ghost use Rattle.link_words.specs.PlacedLinks.{KnowsState};
ghost use Rattle.link_words.specs.Reopens.{AreInUse, MayGather, both_sides, gathered, manager_call};
ghost use Rattle.link_words.specs.Sides.{no_sides, sides_at};
ghost use Rattle.link_words.specs.Words.{lane_to, sender_slot, receiver_slot};
ghost use Rattle.split_ring.specs.Gathers.{IsCalling, TakesSide, PutsSide, FindsTurnFree, FreesTurn, Meets, IsHolderIn, lane_slots, TakesLane, IsAsBefore, MeetsLane, PutsLane};
ghost use Rattle.split_ring.specs.Seats.{IsSeatOf};
ghost use Rattle.split_ring.specs.States.{AreSidesOf, lane_left, lane_taken};

use crate::links::SharedLink;
use crate::sends::sender_slot;
use crate::takes::receiver_slot;
use lane_model::{Desk, LaneTurn};
use link_words::{LinkSeat, ReceiverState, SenderState, Slot, leave_for_manager, take_for_manager};
use rp_base::{CallerNo, End};

/// The side states of a lane, out of their slots.
#[derive(Drop)]
pub(crate) struct LaneStates {
    pub sender: SenderState,
    pub receiver: ReceiverState,
}

/// The sender's side state that was in a slot.
fn sender_of(slot: Slot) -> SenderState
    requires { (x : SenderSide) × (slot ≡ Sender x) }
    ensures { (x : SenderSide) → slot ≡ Sender x → result ≡ x }
{
    match slot {
        Slot::Sender(side) => side,
        _ => unreachable!(),
    }
}

/// The receiver's side state that was in a slot.
fn receiver_of(slot: Slot) -> ReceiverState
    requires { (x : ReceiverSide) × (slot ≡ Receiver x) }
    ensures { (x : ReceiverSide) → slot ≡ Receiver x → result ≡ x }
{
    match slot {
        Slot::Receiver(side) => side,
        _ => unreachable!(),
    }
}

impl<D: Desk> SharedLink<D> {
    /// One attempt of the manager to take the sender's turn of a lane, with its side state.
    ///
    /// Errors: the holder of the turn, exactly where it was another's.
    pub(crate) fn take_sender(
        &self,
        seat: &mut LinkSeat,
        lane: End,
    ) -> Result<SenderState, CallerNo>
        requires seat { IsSeatOf self.now.table.shared.table_id self.now.sizes seat.old.table_id seat.old.me }
        requires manager { MayGather seat.old.me }
        ensures seat { IsSeatOf self.now.table.shared.table_id self.now.sizes seat.new.table_id seat.new.me }
        ensures taken { IfOk result (λ side. TakesSide lane (λ g. record g { sender = Some side }) (sender_slot lane) seat.old.me seat.new.me) }
        ensures step { IfOk result (λ _. FindsTurnFree D.row.coded D.meaning lane_turn.Sender lane seat.old.me seat.new.me) }
        ensures order { IsOrderly seat.new.me.0 }
        ensures met { IfErr result (λ holder. (seat.new.me ≡ seat.old.me) × Meets D.row.coded D.meaning lane_turn.Sender lane holder seat.old.me) }
        ensures holder { IfErr result (λ holder. has_sender_for_manager lane (manager_call seat.old.me) ≡ false → IsHolderIn seat.old.me.0 holder) }
    {
        let table = &self.table.shared;
        let found = take_for_manager(table, seat, lane, LaneTurn::Sender);
        if found == 0 {
            Ok(sender_of(table.exchange(seat, sender_slot(lane), Slot::Empty)))
        } else {
            Err((found - 1) as CallerNo)
        }
    }

    /// The same for the receiver's turn.
    pub(crate) fn take_receiver(
        &self,
        seat: &mut LinkSeat,
        lane: End,
    ) -> Result<ReceiverState, CallerNo>
        requires seat { IsSeatOf self.now.table.shared.table_id self.now.sizes seat.old.table_id seat.old.me }
        requires manager { MayGather seat.old.me }
        ensures seat { IsSeatOf self.now.table.shared.table_id self.now.sizes seat.new.table_id seat.new.me }
        ensures taken { IfOk result (λ side. TakesSide lane (λ g. record g { receiver = Some side }) (receiver_slot lane) seat.old.me seat.new.me) }
        ensures users { IfOk result (λ side. AreInUse seat.old.me.0 lane side.hands) }
        ensures step { IfOk result (λ _. FindsTurnFree D.row.coded D.meaning lane_turn.Receiver lane seat.old.me seat.new.me) }
        ensures order { IsOrderly seat.new.me.0 }
        ensures met { IfErr result (λ holder. (seat.new.me ≡ seat.old.me) × Meets D.row.coded D.meaning lane_turn.Receiver lane holder seat.old.me) }
        ensures holder { IfErr result (λ holder. has_for_manager lane (manager_call seat.old.me) ≡ false → IsHolderIn seat.old.me.0 holder) }
    {
        let table = &self.table.shared;
        let found = take_for_manager(table, seat, lane, LaneTurn::Receiver);
        if found == 0 {
            Ok(receiver_of(table.exchange(seat, receiver_slot(lane), Slot::Empty)))
        } else {
            Err((found - 1) as CallerNo)
        }
    }

    /// The manager leaves the sender's turn, with this side state.
    pub(crate) fn put_sender(&self, seat: &mut LinkSeat, lane: End, side: SenderState)
        requires seat { IsSeatOf self.now.table.shared.table_id self.now.sizes seat.old.table_id seat.old.me }
        requires manager { (v : View) × (a : LaneSides) × (b : LaneSides) × (slots : List (ℕ × Slot)) × IsCalling v (Gathers a b) ((sender_slot lane, Empty) ∷ slots) seat.old.me × ((sides_at lane a b).sender ≡ Some side) }
        ensures seat { IsSeatOf self.now.table.shared.table_id self.now.sizes seat.new.table_id seat.new.me }
        ensures order { IsOrderly seat.new.me.0 }
        ensures put { PutsSide lane (λ g. record g { sender = None }) (sender_slot lane) seat.old.me seat.new.me }
        ensures step { FreesTurn D.row.coded D.meaning lane_turn.Sender lane seat.old.me seat.new.me }
    {
        let table = &self.table.shared;
        drop(table.exchange(seat, sender_slot(lane), Slot::Sender(side)));
        leave_for_manager(table, seat, lane, LaneTurn::Sender);
    }

    /// The same for the receiver's turn.
    pub(crate) fn put_receiver(&self, seat: &mut LinkSeat, lane: End, side: ReceiverState)
        requires seat { IsSeatOf self.now.table.shared.table_id self.now.sizes seat.old.table_id seat.old.me }
        requires manager { (v : View) × (a : LaneSides) × (b : LaneSides) × (slots : List (ℕ × Slot)) × IsCalling v (Gathers a b) ((receiver_slot lane, Empty) ∷ slots) seat.old.me × ((sides_at lane a b).receiver ≡ Some side) }
        ensures seat { IsSeatOf self.now.table.shared.table_id self.now.sizes seat.new.table_id seat.new.me }
        ensures order { IsOrderly seat.new.me.0 }
        ensures put { PutsSide lane (λ g. record g { receiver = None }) (receiver_slot lane) seat.old.me seat.new.me }
        ensures step { FreesTurn D.row.coded D.meaning lane_turn.Receiver lane seat.old.me seat.new.me }
    {
        let table = &self.table.shared;
        drop(table.exchange(seat, receiver_slot(lane), Slot::Receiver(side)));
        leave_for_manager(table, seat, lane, LaneTurn::Receiver);
    }

    /// One attempt of the manager to take both turns of a lane, the sender's first, of which it has none.
    ///
    /// Errors: the holder of a turn, exactly where one was another's. The manager has none of the two then.
    pub(crate) fn take_lane(&self, seat: &mut LinkSeat, lane: End) -> Result<LaneStates, CallerNo>
        requires seat { IsSeatOf self.now.table.shared.table_id self.now.sizes seat.old.table_id seat.old.me }
        requires manager { (v : View) × (a : LaneSides) × (b : LaneSides) × (slots : List (ℕ × Slot)) × IsCalling v (Gathers a b) slots seat.old.me × (sides_at lane a b ≡ no_sides) }
        ensures seat { IsSeatOf self.now.table.shared.table_id self.now.sizes seat.new.table_id seat.new.me }
        ensures taken { IfOk result (λ states. TakesLane lane states.sender states.receiver seat.old.me seat.new.me) }
        ensures order { IsOrderly seat.new.me.0 }
        ensures users { IfOk result (λ states. AreInUse seat.old.me.0 lane states.receiver.hands) }
        ensures met { IfErr result (λ holder. IsAsBefore lane seat.old.me seat.new.me × MeetsLane D.row.coded D.meaning lane holder seat.old.me) }
        ensures holder { IfErr result (λ holder. IsHolderIn seat.old.me.0 holder) }
        ensures known { IfOk result (λ states. (m : LaneLink (RingState D)) → KnowsState D.row.coded seat.old.me.0 m → KnowsState D.row.coded seat.new.me.0 (lane_taken D.meaning m lane) × AreSidesOf (lane_to m lane) states.sender states.receiver) }
        ensures refused { IfErr result (λ holder. (m : LaneLink (RingState D)) → KnowsState D.row.coded seat.old.me.0 m → KnowsState D.row.coded seat.new.me.0 m × (turn_out (lane_to m lane).lane ≡ Some holder)) }
    {
        let sender = match self.take_sender(seat, lane) {
            Ok(side) => side,
            Err(holder) => return Err(holder),
        };
        match self.take_receiver(seat, lane) {
            Ok(receiver) => Ok(LaneStates { sender, receiver }),
            Err(holder) => {
                self.put_sender(seat, lane, sender);
                Err(holder)
            }
        }
    }

    /// The manager leaves both turns of a lane, with these side states.
    pub(crate) fn put_lane(&self, seat: &mut LinkSeat, lane: End, states: LaneStates)
        requires seat { IsSeatOf self.now.table.shared.table_id self.now.sizes seat.old.table_id seat.old.me }
        requires manager { (v : View) × (a : LaneSides) × (b : LaneSides) × (slots : List (ℕ × Slot)) × IsCalling v (Gathers a b) (lane_slots lane slots) seat.old.me × (sides_at lane a b ≡ both_sides states.sender states.receiver) }
        ensures seat { IsSeatOf self.now.table.shared.table_id self.now.sizes seat.new.table_id seat.new.me }
        ensures order { IsOrderly seat.new.me.0 }
        ensures put { PutsLane lane seat.old.me seat.new.me }
        ensures state { (m : LaneLink (RingState D)) → KnowsState D.row.coded seat.old.me.0 m → KnowsState D.row.coded seat.new.me.0 (lane_left D.meaning m lane) }
    {
        let LaneStates { sender, receiver } = states;
        self.put_receiver(seat, lane, receiver);
        self.put_sender(seat, lane, sender);
    }
}
