//! The end of a caller's call in a reclaim, by its pass of a seat that may have several: a function for each part. What each asks and says is of that pass alone, with the
//! slots that are out with its call, which are in front.
ghost use Rattle.std.specs.Prelude.{◌≡◌, ◌<◌, ◌++◌, ◌∷◌, length, if◌then◌else◌, [], Bool, true, false, IfOk, IfErr};
ghost use Rattle.rp_base.specs.declared.limits.TheConstants.{CALLERS_MOST};
ghost use Rattle.rp_base.specs.declared.kinds.Era.{Era};
ghost use Rattle.lane_model.specs.declared.lane_links.LaneLink.{LaneLink};
ghost use Rattle.lane_model.specs.declared.recoveries.LaneTurn.TheVariants as lane_turn;
ghost use Rattle.lane_model.specs.declared.recoveries.ReclaimRefusal.TheVariants as refusal;
ghost use Rattle.ring_core.specs.declared.states.RingState.{RingState};
ghost use Rattle.link_words.specs.declared.rule.Call.TheVariants.{Rests};
ghost use Rattle.link_words.specs.declared.rule.ReceiverSide.{ReceiverSide};
ghost use Rattle.link_words.specs.declared.rule.Slot.TheVariants.{Receiver};
ghost use Rattle.link_words.specs.Deeds.{EndsCall, LeavesTurn, ManagerTakes};
ghost use Rattle.link_words.specs.Passes.{with_call};
ghost use Rattle.link_words.specs.PlacedLinks.{KnowsState};
ghost use Rattle.link_words.specs.Reclaims.{HasTurn, IsUnclaimed, MayEnd, doomed_call, claimed_call, spared_call, ended_pass, ending_of, slots_left};
ghost use Rattle.link_words.specs.Words.{receiver_slot};
ghost use Rattle.split_ring.specs.declared.ends.TurnHeld.TheVariants as held;
ghost use Rattle.split_ring.specs.Focus.{ChangesAlone, IsOrderlySeat, KnowsAfter, LeavesOthers, others_of, seat_of};
ghost use Rattle.split_ring.specs.Reclaims.{HasSend, HasReceive, HasTurnHeld, HoldsAlone, StandsAlone, IsNow, IsAnothers, IsEndFault, IsReceiver, KnowsFree, KnowsRefusal, end_deeds, ended_of, lacks_receiver, turn_slots};
ghost use Rattle.split_ring.specs.Seats.{IsAt, IsSeatOf, pass_in};

use crate::callers::CallerId;
use crate::links::SharedLink;
use crate::slots::{put_aside_in, turn_by};
use crate::takes::receiver_slot;
use crate::turns::{era_of, other};
use lane_model::{Desk, LaneTurn, ReclaimRefusal};
use link_words::{LinkSeat, claim_turn, find_closed, leave_ended};
use rp_base::{CallerNo, End, Era};

/// Which turn a caller has that is reclaimed.
#[derive(Clone, Copy)]
pub(crate) enum TurnHeld {
    Neither,
    Sender,
    /// Its buffer is out too.
    SenderAndBuffer,
    Receiver,
    /// Its buffer is out too.
    ReceiverAndBuffer,
}

impl TurnHeld {
    /// How many slots are out with it.
    pub(crate) fn slots(self) -> u8
        ensures { result ≡ turn_slots self }
    {
        match self {
            TurnHeld::Neither => 0,
            TurnHeld::Sender | TurnHeld::Receiver => 1,
            TurnHeld::SenderAndBuffer | TurnHeld::ReceiverAndBuffer => 2,
        }
    }
}

impl<D: Desk> SharedLink<D> {
    /// Parts 1 to 4 of a reclaim: the caller is in no call then, and holds nothing. So many slots are out with the seat.
    ///
    /// Errors: the era, where it was found live; the holder of the receiver's turn, where the caller holds something and its call does not
    /// have that turn. After each the caller is as it was.
    pub(crate) fn end_call(
        &self,
        seat: &mut LinkSeat,
        who: CallerId,
        turn: TurnHeld,
        is_holding: bool,
        all: u8,
    ) -> Result<(), ReclaimRefusal>
        requires seat { IsOrderlySeat self.now.table.shared.table_id self.now.sizes seat.old.table_id seat.old.me }
        requires all { all ≡ length seat.old.me.1 }
        requires number { ((pass_in (seat_of who.number seat.old.me)).number ≡ who.number) × (who.number < CALLERS_MOST) }
        requires stands { HasTurnHeld self.now.sizes who turn (seat_of who.number seat.old.me) }
        requires hands { is_holding ≡ false → (pass_in (seat_of who.number seat.old.me)).hands ≡ [] }
        ensures seat { IsOrderlySeat self.now.table.shared.table_id self.now.sizes seat.new.table_id seat.new.me }
        ensures ended { IfOk result (λ _. IsNow (ended_of who (pass_in (seat_of who.number seat.old.me))) [] (seat_of who.number seat.old.me) (seat_of who.number seat.new.me)) }
        ensures refused { IfErr result (λ fault. IsNow (pass_in (seat_of who.number seat.old.me)) (seat_of who.number seat.old.me).1 (seat_of who.number seat.old.me) (seat_of who.number seat.new.me) × IsEndFault D.row.coded D.meaning who turn is_holding fault) }
        ensures leaves { LeavesOthers who.number seat.old.me seat.new.me }
        ensures done { IfOk result (λ _. KnowsAfter D.row.coded D.meaning (end_deeds who turn is_holding) seat.old.me seat.new.me) }
        ensures free { IfOk result (λ _. is_holding ≡ true → lacks_receiver turn ≡ true → KnowsFree D.row.coded who.end seat.old.me) }
        ensures met { IfErr result (λ fault. KnowsRefusal D.row.coded who fault seat.old.me seat.new.me) }
    {
        match turn {
            TurnHeld::Neither => {
                if is_holding {
                    self.end_holder(seat, who, all)
                } else {
                    Ok(())
                }
            }
            TurnHeld::Sender | TurnHeld::SenderAndBuffer => {
                self.end_send(seat, who, turn, is_holding, all)
            }
            TurnHeld::Receiver => self.end_receive(seat, who),
            TurnHeld::ReceiverAndBuffer => self.end_take(seat, who, all),
        }
    }

    /// The same with the caller's own seat, in which its pass is alone.
    pub(crate) fn end_alone(
        &self,
        seat: &mut LinkSeat,
        who: CallerId,
        turn: TurnHeld,
        is_holding: bool,
    ) -> Result<(), ReclaimRefusal>
        requires seat { IsSeatOf self.now.table.shared.table_id self.now.sizes seat.old.table_id seat.old.me }
        requires number { ((pass_in seat.old.me).number ≡ who.number) × (who.number < CALLERS_MOST) }
        requires stands { HasTurnHeld self.now.sizes who turn seat.old.me }
        requires hands { is_holding ≡ false → (pass_in seat.old.me).hands ≡ [] }
        ensures seat { IsSeatOf self.now.table.shared.table_id self.now.sizes seat.new.table_id seat.new.me }
        ensures ended { IfOk result (λ _. IsNow (ended_of who (pass_in seat.old.me)) [] seat.old.me seat.new.me) }
        ensures refused { IfErr result (λ fault. IsNow (pass_in seat.old.me) seat.old.me.1 seat.old.me seat.new.me × IsEndFault D.row.coded D.meaning who turn is_holding fault) }
    {
        self.end_call(seat, who, turn, is_holding, turn.slots())
    }

    /// A caller that is in no call and holds something: the receiver's turn, the era again, and the leave.
    fn end_holder(&self, seat: &mut LinkSeat, who: CallerId, all: u8) -> Result<(), ReclaimRefusal>
        requires seat { IsOrderlySeat self.now.table.shared.table_id self.now.sizes seat.old.table_id seat.old.me }
        requires all { all ≡ length seat.old.me.1 }
        requires number { (pass_in (seat_of who.number seat.old.me)).number ≡ who.number }
        requires rests { IsAt (seat_of who.number seat.old.me) (Rests who.end) [] }
        ensures seat { IsOrderlySeat self.now.table.shared.table_id self.now.sizes seat.new.table_id seat.new.me }
        ensures ended { IfOk result (λ _. IsNow (ended_of who (pass_in (seat_of who.number seat.old.me))) [] (seat_of who.number seat.old.me) (seat_of who.number seat.new.me)) }
        ensures refused { IfErr result (λ fault. IsNow (pass_in (seat_of who.number seat.old.me)) (seat_of who.number seat.old.me).1 (seat_of who.number seat.old.me) (seat_of who.number seat.new.me) × IsEndFault D.row.coded D.meaning who held.Neither true fault) }
        ensures leaves { LeavesOthers who.number seat.old.me seat.new.me }
        ensures done { IfOk result (λ _. KnowsAfter D.row.coded D.meaning (ManagerTakes lane_turn.Receiver who.end ∷ LeavesTurn who.end who.number ∷ []) seat.old.me seat.new.me) }
        ensures free { IfOk result (λ _. KnowsFree D.row.coded who.end seat.old.me) }
        ensures met { IfErr result (λ fault. KnowsRefusal D.row.coded who fault seat.old.me seat.new.me) }
    {
        if let Err(holder) = self.claim(seat, who, 0, all) {
            return Err(ReclaimRefusal::Busy(holder));
        }
        if let Err(era) = self.find_end(seat, who.number) {
            self.quit(seat, who.number, who.end, LaneTurn::Receiver);
            return Err(ReclaimRefusal::StillOpen(era));
        }
        self.quit_empty(seat, who);
        Ok(())
    }

    /// A caller that has the sender's turn: where it holds something, the receiver's turn comes before the leave.
    fn end_send(
        &self,
        seat: &mut LinkSeat,
        who: CallerId,
        turn: TurnHeld,
        is_holding: bool,
        all: u8,
    ) -> Result<(), ReclaimRefusal>
        requires seat { IsOrderlySeat self.now.table.shared.table_id self.now.sizes seat.old.table_id seat.old.me }
        requires all { all ≡ length seat.old.me.1 }
        requires number { (pass_in (seat_of who.number seat.old.me)).number ≡ who.number }
        requires stands { (out : Bool) × HasSend self.now.sizes who out (seat_of who.number seat.old.me) × (turn ≡ (if out then held.SenderAndBuffer else held.Sender)) }
        requires hands { is_holding ≡ false → (pass_in (seat_of who.number seat.old.me)).hands ≡ [] }
        ensures seat { IsOrderlySeat self.now.table.shared.table_id self.now.sizes seat.new.table_id seat.new.me }
        ensures ended { IfOk result (λ _. IsNow (ended_of who (pass_in (seat_of who.number seat.old.me))) [] (seat_of who.number seat.old.me) (seat_of who.number seat.new.me)) }
        ensures refused { IfErr result (λ fault. IsNow (pass_in (seat_of who.number seat.old.me)) (seat_of who.number seat.old.me).1 (seat_of who.number seat.old.me) (seat_of who.number seat.new.me) × IsEndFault D.row.coded D.meaning who held.Sender is_holding fault) }
        ensures leaves { LeavesOthers who.number seat.old.me seat.new.me }
        ensures done { IfOk result (λ _. KnowsAfter D.row.coded D.meaning (end_deeds who held.Sender is_holding) seat.old.me seat.new.me) }
        ensures free { IfOk result (λ _. is_holding ≡ true → KnowsFree D.row.coded who.end seat.old.me) }
        ensures met { IfErr result (λ fault. KnowsRefusal D.row.coded who fault seat.old.me seat.new.me) }
    {
        if let Err(era) = self.find_end(seat, who.number) {
            return Err(ReclaimRefusal::StillOpen(era));
        }
        if !is_holding {
            self.quit(seat, who.number, other(who.end), LaneTurn::Sender);
            return Ok(());
        }
        if let Err(holder) = self.claim(seat, who, turn.slots(), all) {
            return Err(ReclaimRefusal::Busy(holder));
        }
        self.quit(seat, who.number, other(who.end), LaneTurn::Sender);
        self.quit_empty(seat, who);
        Ok(())
    }

    /// A caller that has the receiver's turn, with no buffer out.
    fn end_receive(&self, seat: &mut LinkSeat, who: CallerId) -> Result<(), ReclaimRefusal>
        requires seat { IsOrderlySeat self.now.table.shared.table_id self.now.sizes seat.old.table_id seat.old.me }
        requires number { (pass_in (seat_of who.number seat.old.me)).number ≡ who.number }
        requires stands { HasReceive self.now.sizes who false (seat_of who.number seat.old.me) }
        ensures seat { IsOrderlySeat self.now.table.shared.table_id self.now.sizes seat.new.table_id seat.new.me }
        ensures ended { IfOk result (λ _. IsNow (ended_of who (pass_in (seat_of who.number seat.old.me))) [] (seat_of who.number seat.old.me) (seat_of who.number seat.new.me)) }
        ensures refused { IfErr result (λ fault. IsNow (pass_in (seat_of who.number seat.old.me)) (seat_of who.number seat.old.me).1 (seat_of who.number seat.old.me) (seat_of who.number seat.new.me) × ((era : Era) × (fault ≡ refusal.StillOpen era) × (era.is_live ≡ true))) }
        ensures leaves { LeavesOthers who.number seat.old.me seat.new.me }
        ensures done { IfOk result (λ _. KnowsAfter D.row.coded D.meaning (EndsCall who.end who.number ∷ []) seat.old.me seat.new.me) }
        ensures met { IfErr result (λ fault. KnowsRefusal D.row.coded who fault seat.old.me seat.new.me) }
    {
        if let Err(era) = self.find_end(seat, who.number) {
            return Err(ReclaimRefusal::StillOpen(era));
        }
        self.quit_empty(seat, who);
        Ok(())
    }

    /// A caller that has the receiver's turn, whose buffer is out too.
    fn end_take(&self, seat: &mut LinkSeat, who: CallerId, all: u8) -> Result<(), ReclaimRefusal>
        requires seat { IsOrderlySeat self.now.table.shared.table_id self.now.sizes seat.old.table_id seat.old.me }
        requires all { all ≡ length seat.old.me.1 }
        requires number { (pass_in (seat_of who.number seat.old.me)).number ≡ who.number }
        requires stands { HasReceive self.now.sizes who true (seat_of who.number seat.old.me) }
        ensures seat { IsOrderlySeat self.now.table.shared.table_id self.now.sizes seat.new.table_id seat.new.me }
        ensures ended { IfOk result (λ _. IsNow (ended_of who (pass_in (seat_of who.number seat.old.me))) [] (seat_of who.number seat.old.me) (seat_of who.number seat.new.me)) }
        ensures refused { IfErr result (λ fault. IsNow (pass_in (seat_of who.number seat.old.me)) (seat_of who.number seat.old.me).1 (seat_of who.number seat.old.me) (seat_of who.number seat.new.me) × ((era : Era) × (fault ≡ refusal.StillOpen era) × (era.is_live ≡ true))) }
        ensures leaves { LeavesOthers who.number seat.old.me seat.new.me }
        ensures done { IfOk result (λ _. KnowsAfter D.row.coded D.meaning (EndsCall who.end who.number ∷ []) seat.old.me seat.new.me) }
        ensures met { IfErr result (λ fault. KnowsRefusal D.row.coded who fault seat.old.me seat.new.me) }
    {
        if let Err(era) = self.find_end(seat, who.number) {
            return Err(ReclaimRefusal::StillOpen(era));
        }
        seat.turn();
        put_aside_in(
            seat.slot_mut(&self.table.shared, receiver_slot(who.end)),
            who.number,
        );
        turn_by(seat, all - 1);
        self.quit(seat, who.number, who.end, LaneTurn::Receiver);
        Ok(())
    }

    /// A load of the era by a caller that has a turn.
    ///
    /// Errors: the era, where it is live.
    fn find_end(&self, seat: &mut LinkSeat, number: CallerNo) -> Result<(), Era>
        requires seat { IsOrderlySeat self.now.table.shared.table_id self.now.sizes seat.old.table_id seat.old.me }
        requires turn { StandsAlone (seat_of number seat.old.me) × HasTurn (pass_in (seat_of number seat.old.me)).call }
        ensures seat { IsOrderlySeat self.now.table.shared.table_id self.now.sizes seat.new.table_id seat.new.me }
        ensures closed { IfOk result (λ _. IsNow (with_call (pass_in (seat_of number seat.old.me)) (doomed_call (pass_in (seat_of number seat.old.me)).call)) (seat_of number seat.old.me).1 (seat_of number seat.old.me) (seat_of number seat.new.me)) }
        ensures live { IfErr result (λ era. (era.is_live ≡ true) × IsNow (pass_in (seat_of number seat.old.me)) (seat_of number seat.old.me).1 (seat_of number seat.old.me) (seat_of number seat.new.me)) }
        ensures alone { ChangesAlone D.row.coded D.meaning number [] seat.old.me seat.new.me }
        ensures slots { seat.new.me.1 ≡ seat.old.me.1 }
        ensures known { IfErr result (λ era. (m : LaneLink (RingState D)) → KnowsState D.row.coded seat.old.me.0 m → m.era.is_live ≡ true) }
    {
        let era = era_of(find_closed(&self.table.shared, seat));
        if era.is_live { Err(era) } else { Ok(()) }
    }

    /// One attempt to take the receiver's turn for the manager. Of all the slots of the seat so many are out with the caller's call; the side state comes after them.
    ///
    /// Errors: the holder of the turn, exactly where it was another's.
    fn claim(&self, seat: &mut LinkSeat, who: CallerId, own: u8, all: u8) -> Result<(), CallerNo>
        requires seat { IsOrderlySeat self.now.table.shared.table_id self.now.sizes seat.old.table_id seat.old.me }
        requires pass { ((seat_of who.number seat.old.me).0.passes ≡ pass_in (seat_of who.number seat.old.me) ∷ []) × ((pass_in (seat_of who.number seat.old.me)).number ≡ who.number) }
        requires call { IsUnclaimed who.end (pass_in (seat_of who.number seat.old.me)).call }
        requires slots { (own ≡ length (seat_of who.number seat.old.me).1) × (all ≡ length seat.old.me.1) }
        ensures seat { IsOrderlySeat self.now.table.shared.table_id self.now.sizes seat.new.table_id seat.new.me }
        ensures claimed { IfOk result (λ _. (y : ReceiverSide) × IsNow (with_call (pass_in (seat_of who.number seat.old.me)) (claimed_call y (pass_in (seat_of who.number seat.old.me)).call)) ((seat_of who.number seat.old.me).1 ++ (receiver_slot who.end, Receiver y) ∷ []) (seat_of who.number seat.old.me) (seat_of who.number seat.new.me)) }
        ensures busy { IfErr result (λ holder. IsNow (with_call (pass_in (seat_of who.number seat.old.me)) (spared_call (pass_in (seat_of who.number seat.old.me)).call)) (seat_of who.number seat.old.me).1 (seat_of who.number seat.old.me) (seat_of who.number seat.new.me) × IsAnothers D.row.coded D.meaning who holder) }
        ensures free { IfOk result (λ _. KnowsFree D.row.coded who.end seat.old.me) }
        ensures alone { ChangesAlone D.row.coded D.meaning who.number (ManagerTakes lane_turn.Receiver who.end ∷ []) seat.old.me seat.new.me }
        ensures met { IfErr result (λ holder. (m : LaneLink (RingState D)) → KnowsState D.row.coded seat.old.me.0 m → IsReceiver who.end holder m) }
    {
        turn_by(seat, own);
        let found = claim_turn(&self.table.shared, seat, who.end, who.number);
        if found == 0 {
            seat.turn();
            turn_by(seat, all - own);
            Ok(())
        } else {
            turn_by(seat, all - own);
            Err((found - 1) as CallerNo)
        }
    }

    /// The turn of a call that is to be ended is left.
    fn quit(&self, seat: &mut LinkSeat, number: CallerNo, lane: End, turn: LaneTurn)
        requires seat { IsOrderlySeat self.now.table.shared.table_id self.now.sizes seat.old.table_id seat.old.me }
        requires turn { StandsAlone (seat_of number seat.old.me) × MayEnd turn lane (pass_in (seat_of number seat.old.me)).number (seat_of number seat.old.me) (pass_in (seat_of number seat.old.me)).call }
        ensures seat { IsOrderlySeat self.now.table.shared.table_id self.now.sizes seat.new.table_id seat.new.me }
        ensures left { IsNow (ended_pass (pass_in (seat_of number seat.old.me)) (pass_in (seat_of number seat.old.me)).call) (slots_left (pass_in (seat_of number seat.old.me)).call (seat_of number seat.old.me).1) (seat_of number seat.old.me) (seat_of number seat.new.me) }
        ensures alone { ChangesAlone D.row.coded D.meaning number (ending_of (pass_in (seat_of number seat.old.me)).call number ∷ []) seat.old.me seat.new.me }
    {
        leave_ended(&self.table.shared, seat, lane, turn);
    }

    /// The receiver's turn is left, without what the caller held.
    fn quit_empty(&self, seat: &mut LinkSeat, who: CallerId)
        requires seat { IsOrderlySeat self.now.table.shared.table_id self.now.sizes seat.old.table_id seat.old.me }
        requires holds { HoldsAlone who (seat_of who.number seat.old.me) }
        ensures seat { IsOrderlySeat self.now.table.shared.table_id self.now.sizes seat.new.table_id seat.new.me }
        ensures left { IsNow (ended_of who (pass_in (seat_of who.number seat.old.me))) [] (seat_of who.number seat.old.me) (seat_of who.number seat.new.me) }
        ensures alone { ChangesAlone D.row.coded D.meaning who.number (ending_of (pass_in (seat_of who.number seat.old.me)).call who.number ∷ []) seat.old.me seat.new.me }
    {
        put_aside_in(
            seat.slot_mut(&self.table.shared, receiver_slot(who.end)),
            who.number,
        );
        self.quit(seat, who.number, who.end, LaneTurn::Receiver);
    }
}
