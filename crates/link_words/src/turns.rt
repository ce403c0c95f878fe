//! Turns are taken and left: the first and the last step of each call.
ghost use Rattle.std.specs.Prelude.{◌≡◌, ◌≤◌, ◌<◌};
ghost use Rattle.rp_base.specs.declared.limits.TheConstants.{CALLERS_MOST};
ghost use Rattle.lane_model.specs.declared.recoveries.LaneTurn.TheVariants as lane_turn;
ghost use Rattle.link_words.specs.Calls.{RestsAt};
ghost use Rattle.link_words.specs.Orderly.{IsOrderly};
ghost use Rattle.link_words.specs.Steps.{GoesOn, Begins, HasWord, StoresWord, turn_number, IsFit, turn_word_for, TakesTurn, EndsAt, LeavesTurn};
ghost use Rattle.link_words.specs.Layouts.{place_in};
ghost use Rattle.link_words.specs.Words.{words_in};

use crate::places::{receiver_place, sender_place};
use crate::plays::{TellsLeavesReceiver, TellsLeavesSender, TellsTakesTurn};
use crate::rule::{CallStart, LinkSeat, LinkTable, Slot};
use lane_model::{Desk, LaneTurn};
use rp_base::End;

/// Step 1 of what a caller wishes: one attempt to take the turn that it needs. The answer is the word of that turn as it was: 0
/// where it was free, and the caller has it now; else the number of the one who has it, and 1.
#[inline(always)]
pub fn take_turn<D: Desk>(table: &LinkTable<D>, seat: &mut LinkSeat, start: CallStart) -> u64
    requires table { (seat.old.table_id ≡ table.now.table_id) × (words_in table.now.key ≤ table.now.table_id.words) × (seat.old.me.0.sizes ≡ table.now.key) }
    requires caller { (r : RestsAt seat.old.me start.end start.caller) × IsFit start.wish r.mover.pass.hands × (start.caller < CALLERS_MOST) }
    ensures same { (seat.new.table_id ≡ seat.old.table_id) × (seat.new.id ≡ seat.old.id) }
    ensures told { TakesTurn start.end start.caller start.follows start.wish seat.old.me result seat.new.me }
    ensures holder { result ≤ 65 }
    ensures step { Begins D.row.coded D.meaning seat.old.me (HasWord (place_in (turn_word_for start.end start.wish)) result) start.caller start.follows start.wish seat.new.me }
    ensures order { IsOrderly seat.new.me.0 }
{
    let word = start.wish.place(start.end);
    let new = start.caller as u64 + 1;
    table.compare_exchange_with::<TellsTakesTurn<D>>(seat, word, 0, new, &Slot::Start(start))
}

/// The last step of a call: its turn is free, and the side state is at home.
#[inline(always)]
pub fn leave_turn<D: Desk>(table: &LinkTable<D>, seat: &mut LinkSeat, lane: End, turn: LaneTurn)
    requires table { (seat.old.table_id ≡ table.now.table_id) × (words_in table.now.key ≤ table.now.table_id.words) × (seat.old.me.0.sizes ≡ table.now.key) }
    requires call { EndsAt turn seat.old.me lane }
    ensures same { (seat.new.table_id ≡ seat.old.table_id) × (seat.new.id ≡ seat.old.id) }
    ensures told { LeavesTurn turn seat.old.me seat.new.me }
    ensures step { GoesOn D.row.coded D.meaning seat.old.me (StoresWord (place_in (turn_number turn lane)) 0) seat.new.me }
    ensures order { IsOrderly seat.new.me.0 }
{
    match turn {
        LaneTurn::Sender => table.store::<TellsLeavesSender<D>>(seat, sender_place(lane), 0),
        LaneTurn::Receiver => table.store::<TellsLeavesReceiver<D>>(seat, receiver_place(lane), 0),
    }
}
