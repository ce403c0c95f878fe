//! The first and the last step of a call.
ghost use Rattle.std.specs.Prelude.{◌≡◌, ◌+◌, ◌∷◌, [], IfOk, IfErr, None, Some};
ghost use Rattle.link_words.specs.declared.rule.Call.TheVariants.{Rests};
ghost use Rattle.link_words.specs.declared.rule.Event.TheVariants.{Step};
ghost use Rattle.link_words.specs.declared.rule.Made.TheVariants as made;
ghost use Rattle.link_words.specs.Deeds.{Steps};
ghost use Rattle.link_words.specs.PlacedLinks.{KnowsState};
ghost use Rattle.link_words.specs.Steps.{IsFit};
ghost use Rattle.link_words.specs.Words.{other, era_word};
ghost use Rattle.rp_base.specs.declared.kinds.Era.{Era};
ghost use Rattle.std.specs.Prelude.{◌<◌};
ghost use Rattle.lane_model.specs.declared.lane_links.LaneLink.{LaneLink};
ghost use Rattle.lane_model.specs.Lanes.{is_live_in};
ghost use Rattle.ring_core.specs.declared.states.RingState.{RingState};
ghost use Rattle.split_ring.specs.Focus.{IsOrderlySeat, StepsAlone, seat_of};
ghost use Rattle.split_ring.specs.Phases.{holder_for};
ghost use Rattle.split_ring.specs.Seats.{pass_in, IsAt, IsCaller};
ghost use Rattle.split_ring.specs.Turns.{HasBegun, MayLeave, end_with};
ghost use Rattle.split_ring.specs.Walks.{HasDone, same_hands};

use crate::callers::CallerId;
use crate::links::SharedLink;
use lane_model::{Desk, LaneTurn};
use link_words::{CallStart, Intent, LinkSeat, leave_turn, take_turn};
use rp_base::{CallerNo, End, Era, Inc};

/// The other end.
pub(crate) fn other(end: End) -> End
    ensures { result ≡ other end }
{
    match end {
        End::Host => End::Remote,
        End::Remote => End::Host,
    }
}

/// The era of a word.
pub(crate) fn era_of(word: u64) -> Era
    ensures { (era : Era) → word ≡ era_word era → era.inc < 4294967296 → result ≡ era }
{
    Era {
        inc: (word / 2 % 4_294_967_296) as u32,
        is_live: word % 2 == 1,
    }
}

/// Whether the era is this incarnation, live.
pub(crate) fn is_live_in(era: Era, inc: Inc) -> bool
    ensures { result ≡ is_live_in era inc }
{
    era.inc == inc && era.is_live
}

impl<D: Desk> SharedLink<D> {
    /// Step 1 of a call of this caller, whose pass is one of the seat's: one attempt to take the turn that it needs.
    ///
    /// Errors: the holder of the turn, exactly where it was another's.
    pub(crate) fn enter(
        &self,
        seat: &mut LinkSeat,
        who: CallerId,
        wish: Intent,
    ) -> Result<(), CallerNo>
        requires seat { IsOrderlySeat self.now.table.shared.table_id self.now.sizes seat.old.table_id seat.old.me }
        requires caller { IsCaller self.now.table.shared.table_id self.now.sizes who seat.old.table_id (seat_of who.number seat.old.me) }
        requires fit { IsFit wish (pass_in (seat_of who.number seat.old.me)).hands }
        ensures seat { IsOrderlySeat self.now.table.shared.table_id self.now.sizes seat.new.table_id seat.new.me }
        ensures entered { IfOk result (λ _. HasBegun who wish (seat_of who.number seat.new.me) × HasDone D.row.coded D.meaning (Step (made.Turn 0) ∷ []) same_hands (seat_of who.number seat.old.me) (seat_of who.number seat.new.me)) }
        ensures busy { IfErr result (λ holder. IsAt (seat_of who.number seat.new.me) (Rests who.end) [] × HasDone D.row.coded D.meaning (Step (made.Turn (holder + 1)) ∷ []) same_hands (seat_of who.number seat.old.me) (seat_of who.number seat.new.me)) }
        ensures alone { StepsAlone D.row.coded D.meaning who.number (Steps who.number who.follows (Some wish)) seat.old.me seat.new.me }
        ensures met { IfErr result (λ found. (m : LaneLink (RingState D)) → KnowsState D.row.coded seat.old.me.0 m → holder_for who.end wish m ≡ Some found) }
    {
        let start = CallStart {
            caller: who.number,
            end: who.end,
            follows: who.follows,
            wish,
        };
        let found = take_turn(&self.table.shared, seat, start);
        if found == 0 {
            Ok(())
        } else {
            Err((found - 1) as CallerNo)
        }
    }

    /// The last step of the call of the caller of this number: its turn is free.
    pub(crate) fn leave(&self, seat: &mut LinkSeat, number: CallerNo, lane: End, turn: LaneTurn)
        requires seat { IsOrderlySeat self.now.table.shared.table_id self.now.sizes seat.old.table_id seat.old.me }
        requires call { MayLeave turn lane (seat_of number seat.old.me) }
        ensures seat { IsOrderlySeat self.now.table.shared.table_id self.now.sizes seat.new.table_id seat.new.me }
        ensures left { IsAt (seat_of number seat.new.me) (Rests (end_with turn lane)) [] × HasDone D.row.coded D.meaning (Step made.Left ∷ []) same_hands (seat_of number seat.old.me) (seat_of number seat.new.me) }
        ensures alone { StepsAlone D.row.coded D.meaning number (Steps number 0 None) seat.old.me seat.new.me }
    {
        leave_turn(&self.table.shared, seat, lane, turn);
    }
}
