//! A give: a function for each step, and the whole walk.
ghost use Rattle.std.specs.Prelude.{◌≡◌, ◌⊎◌, ◌+◌, ◌<◌, ◌≤◌, ◌^◌, ℕ, ◌∷◌, [], IfErr, None};
ghost use Rattle.lane_model.specs.declared.calls.CallEnd.TheVariants as call_end;
ghost use Rattle.lane_model.specs.declared.calls.Wish.TheVariants as wish;
ghost use Rattle.lane_model.specs.declared.lane_links.LaneLink.{LaneLink};
ghost use Rattle.lane_model.specs.declared.recoveries.LaneTurn.TheVariants as lane_turn;
ghost use Rattle.lane_model.specs.declared.stages.GiveStage.TheVariants as give_stage;
ghost use Rattle.lane_model.specs.declared.stages.Work.TheVariants as work;
ghost use Rattle.lane_model.specs.HeldBuffers.{HeldBuffer};
ghost use Rattle.ring_core.specs.declared.states.RingState.{RingState};
ghost use Rattle.link_words.specs.declared.rule.Call.TheVariants.{Rests};
ghost use Rattle.link_words.specs.declared.rule.Counted.TheVariants.{Gave};
ghost use Rattle.link_words.specs.declared.rule.Event.TheVariants.{Step, Count};
ghost use Rattle.link_words.specs.declared.rule.Made.TheVariants as made;
ghost use Rattle.link_words.specs.Deeds.{Steps};
ghost use Rattle.link_words.specs.Histories.{latest};
ghost use Rattle.link_words.specs.PlacedLinks.{KnowsState};
ghost use Rattle.link_words.specs.Steps.{hands_but};
ghost use Rattle.split_ring.specs.Callers.{Holds, IsCallerOf, IsAfterCall, MakesGive, GiveAbove};
ghost use Rattle.split_ring.specs.Calls.{give_answer};
ghost use Rattle.split_ring.specs.Receives.{given_of, IsGive, IsGiveAt, IsHeldBy};
ghost use Rattle.split_ring.specs.Focus.{IsOrderlySeat, LeavesOthers, StepsAlone, seat_of};
ghost use Rattle.split_ring.specs.Runs.{RunsCall};
ghost use Rattle.split_ring.specs.Seats.{IsAt, IsCaller, pass_in};
ghost use Rattle.split_ring.specs.Turns.{HasReceiver, IsLeaving};
ghost use Rattle.split_ring.specs.Walks.{HasDone, same_hands};

use crate::callers::{Caller, CallerId};
use crate::links::SharedLink;
use crate::slots::{give_back_in, returned_in};
use crate::takes::receiver_slot;
use lane_model::{Desk, Held, LaneTurn};
use link_words::{Intent, LinkSeat, Ring};
use rp_base::CallerNo;
use vring_layout::UsedWord;

/// Another had the receiver's turn of a give, which hands its buffer back.
#[derive(Drop)]
pub struct GiveBusy {
    pub holder: CallerNo,
    pub held: Held,
}

impl<D: Desk> SharedLink<D> {
    /// One attempt to give a buffer back, in any era: the number of its message. It takes no memory and does
    /// not wait.
    ///
    /// Errors: exactly where another had the receiver's turn, with the buffer.
    pub fn try_give(&self, caller: &mut Caller, held: Held) -> Result<u64, GiveBusy>
        requires caller { IsCallerOf self.now caller.old }
        requires held { Holds caller.old held }
        ensures caller { IsAfterCall self.now caller.old caller.new }
        ensures walk { MakesGive D.row.coded D.meaning caller.old held result caller.new }
        ensures seen { GiveAbove caller.old result caller.new }
        ensures held { IfErr result (λ busy. Holds caller.new busy.held) }
    {
        let mut steps = 0;
        match self.give_in(&mut caller.seat, caller.id, held.number(), &mut steps) {
            Ok(number) => Ok(number),
            Err(holder) => Err(GiveBusy { holder, held }),
        }
    }

    /// A whole give of this caller, whose pass is one of the seat's, and in no call, by the number of its buffer's message; `steps` counts its steps.
    ///
    /// Errors: the holder, exactly where another had the receiver's turn.
    pub(crate) fn give_in(
        &self,
        seat: &mut LinkSeat,
        who: CallerId,
        number: u64,
        steps: &mut u64,
    ) -> Result<u64, CallerNo>
        requires seat { IsOrderlySeat self.now.table.shared.table_id self.now.sizes seat.old.table_id seat.old.me }
        requires caller { IsCaller self.now.table.shared.table_id self.now.sizes who seat.old.table_id (seat_of who.number seat.old.me) }
        requires held { (held : HeldBuffer) × (held.number ≡ number) × IsHeldBy who held (seat_of who.number seat.old.me) }
        requires steps { steps.old < 2 ^ 60 }
        ensures seat { IsOrderlySeat self.now.table.shared.table_id self.now.sizes seat.new.table_id seat.new.me }
        ensures rests { IsAt (seat_of who.number seat.new.me) (Rests who.end) [] }
        ensures walk { (held : HeldBuffer) → held.number ≡ number → IsGive D.row.coded D.meaning who.end held (given_of held result) (seat_of who.number seat.old.me) (seat_of who.number seat.new.me) }
        ensures leaves { LeavesOthers who.number seat.old.me seat.new.me }
        ensures run { (held : HeldBuffer) → held.number ≡ number → (m : LaneLink (RingState D)) → KnowsState D.row.coded seat.old.me.0 m
            → (behind : ℕ) × (steps.new ≡ steps.old + behind + 1) × RunsCall D.row.coded D.meaning who m (wish.Give held.number) behind (give_answer (given_of held result)) seat.new.me }
        ensures few { steps.new ≤ steps.old + 4 }
    {
        if let Err(holder) = self.enter(seat, who, Intent::give(number)) {
            *steps += 1;
            return Err(holder);
        }
        let returned = self.store_given(seat, who, number);
        self.publish_given(seat, who, number, returned);
        self.leave(seat, who.number, who.end, LaneTurn::Receiver);
        *steps += 4;
        Ok(number)
    }

    /// Step 2 of a give: the return entry names the buffer. The answer is how many buffers are back.
    pub(crate) fn store_given(&self, seat: &mut LinkSeat, who: CallerId, number: u64) -> u64
        requires seat { IsOrderlySeat self.now.table.shared.table_id self.now.sizes seat.old.table_id seat.old.me }
        requires turn { HasReceiver who (work.Give number give_stage.Turn) (seat_of who.number seat.old.me) }
        ensures seat { IsOrderlySeat self.now.table.shared.table_id self.now.sizes seat.new.table_id seat.new.me }
        ensures stored { IsGiveAt who result (work.Give number give_stage.Entry) (seat_of who.number seat.new.me) }
        ensures done { HasDone D.row.coded D.meaning (Step made.Entry ∷ []) same_hands (seat_of who.number seat.old.me) (seat_of who.number seat.new.me) }
        ensures alone { StepsAlone D.row.coded D.meaning who.number (Steps who.number 0 None) seat.old.me seat.new.me }
    {
        let lane = who.end;
        let slot = receiver_slot(lane);
        let (returned, buffer) = returned_in(seat.slot_mut(&self.table.shared, slot), number);
        let entry = UsedWord { id: buffer, len: 0 };
        let count = self.return_count(lane, returned);
        self.store_entry(seat, who.number, lane, Ring::Return, count, entry);
        returned
    }

    /// Step 3 of a give: the buffer is back.
    pub(crate) fn publish_given(
        &self,
        seat: &mut LinkSeat,
        who: CallerId,
        number: u64,
        returned: u64,
    )
        requires seat { IsOrderlySeat self.now.table.shared.table_id self.now.sizes seat.old.table_id seat.old.me }
        requires call { IsGiveAt who returned (work.Give number give_stage.Entry) (seat_of who.number seat.old.me) }
        ensures seat { IsOrderlySeat self.now.table.shared.table_id self.now.sizes seat.new.table_id seat.new.me }
        ensures given { IsLeaving lane_turn.Receiver who.end (call_end.Gave number) (seat_of who.number seat.new.me) }
        ensures done { (inc : ℕ) × (((pass_in (seat_of who.number seat.old.me)).hands ≡ []) ⊎ (latest (pass_in (seat_of who.number seat.old.me)).own ≡ inc)) × HasDone D.row.coded D.meaning (Count who.end inc (Gave (returned + 1)) ∷ []) (λ hands. hands_but hands number) (seat_of who.number seat.old.me) (seat_of who.number seat.new.me) }
        ensures alone { StepsAlone D.row.coded D.meaning who.number (Steps who.number 0 None) seat.old.me seat.new.me }
    {
        let lane = who.end;
        let count = self.return_count(lane, returned) + 1;
        self.publish_index(seat, who.number, lane, Ring::Return, count);
        give_back_in(
            seat.slot_mut(&self.table.shared, receiver_slot(lane)),
            number,
        );
    }
}
