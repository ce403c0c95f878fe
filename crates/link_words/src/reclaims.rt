//! The steps of a reclaim that are made with the seat of the caller that is reclaimed. They are the manager's, and none of them is noted in the caller's list.
ghost use Rattle.std.specs.Prelude.{◌≡◌, ◌≤◌, ◌<◌};
ghost use Rattle.lane_model.specs.declared.recoveries.LaneTurn.TheVariants as lane_turn;
ghost use Rattle.link_words.specs.Calls.{place_of, number_at, call_at};
ghost use Rattle.link_words.specs.Deeds.{Nothing, ManagerTakes};
ghost use Rattle.link_words.specs.Orderly.{IsOrderly};
ghost use Rattle.link_words.specs.Passes.{place_of_number};
ghost use Rattle.link_words.specs.Reclaims.{DoesAt, MayFindClosed, FindsClosed, MayClaim, ClaimsTurn, MayLeaveEnded, LeavesEnded, ending_of};
ghost use Rattle.link_words.specs.Steps.{HasWord, StoresWord, turn_number};
ghost use Rattle.link_words.specs.Layouts.{place_in};
ghost use Rattle.link_words.specs.Words.{words_in, receiver_word};

use crate::places::{ERA_PLACE, receiver_place, sender_place};
use crate::rule::{LinkSeat, LinkTable, Slot, View};
use atomic_table::Play;
use lane_model::{Desk, LaneTurn};
use rp_base::{CallerNo, End};
use std::marker::PhantomData;

/// The word of the manager's turns.
pub(crate) const MANAGER_WORD: u64 = 65;

/// A load of the era in a reclaim. It is for the proofs alone.
pub struct TellsFindsClosed<D> {
    marker: PhantomData<D>,
}

impl<D: Desk> Play<Slot, View> for TellsFindsClosed<D> {
    ghost use Rattle.link_words.specs.Calls.{place_of};
    ghost use Rattle.link_words.specs.Deeds.{Nothing};
    ghost use Rattle.link_words.specs.Orderly.{IsOrderly};
    ghost use Rattle.link_words.specs.Reclaims.{DoesAt, FindsClosed};
    ghost use Rattle.link_words.specs.Steps.{HasWord};

    ghost then = { λ st m r m'. (FindsClosed m r m' × DoesAt D.row.coded D.meaning (place_of m) m (HasWord st.word r) Nothing m') × IsOrderly m'.0 };
}

/// An attempt to take a receiver's turn for the manager. It is for the proofs alone.
pub struct TellsClaims<D> {
    marker: PhantomData<D>,
}

impl<D: Desk> Play<Slot, View> for TellsClaims<D> {
    ghost use Rattle.std.specs.Prelude.{◌≡◌};
    ghost use Rattle.rp_base.specs.declared.kinds.End.{End};
    ghost use Rattle.link_words.specs.Layouts.{place_in};
    ghost use Rattle.link_words.specs.Orderly.{IsOrderly};
    ghost use Rattle.link_words.specs.Reclaims.{ClaimsAs};
    ghost use Rattle.link_words.specs.Seats.{named_by};
    ghost use Rattle.link_words.specs.Words.{receiver_word};

    ghost then = { λ st m r m'. ((end : End) → st.word ≡ place_in (receiver_word end) → ClaimsAs D.row.coded D.meaning end (named_by st.said) st.word m r m') × IsOrderly m'.0 };
}

/// A turn is left in a reclaim. It is for the proofs alone.
pub struct TellsLeavesEnded<D> {
    marker: PhantomData<D>,
}

impl<D: Desk> Play<Slot, View> for TellsLeavesEnded<D> {
    ghost use Rattle.link_words.specs.Orderly.{IsOrderly};
    ghost use Rattle.link_words.specs.Reclaims.{LeavesAs};

    ghost then = { λ st m r m'. LeavesAs D.row.coded D.meaning st.word m r m' × IsOrderly m'.0 };
}

/// The word of a turn of the lane to an end.
fn turn_place(lane: End, turn: LaneTurn) -> usize
    ensures { result ≡ place_in (turn_number turn lane) }
{
    match turn {
        LaneTurn::Sender => sender_place(lane),
        LaneTurn::Receiver => receiver_place(lane),
    }
}

/// Part 1 of a reclaim of a caller that has a turn, and part 2 again of one that only holds: a load of the era with its seat. Where it is
/// closed the call is to be ended, and no reopening comes before it is.
pub fn find_closed<D: Desk>(table: &LinkTable<D>, seat: &mut LinkSeat) -> u64
    requires table { (seat.old.table_id ≡ table.now.table_id) × (words_in table.now.key ≤ table.now.table_id.words) × (seat.old.me.0.sizes ≡ table.now.key) }
    requires turn { MayFindClosed seat.old.me }
    ensures same { (seat.new.table_id ≡ seat.old.table_id) × (seat.new.id ≡ seat.old.id) }
    ensures told { FindsClosed seat.old.me result seat.new.me }
    ensures step { DoesAt D.row.coded D.meaning (place_of seat.old.me) seat.old.me (HasWord 16 result) Nothing seat.new.me }
    ensures order { IsOrderly seat.new.me.0 }
{
    table.load::<TellsFindsClosed<D>>(seat, ERA_PLACE)
}

/// Part 2 of a reclaim: one attempt to take the receiver's turn of a caller of this end for the manager, with the caller's seat. The answer
/// is the word of that turn as it was: 0 where it was free, else the number of the one who has it, and 1.
pub fn claim_turn<D: Desk>(
    table: &LinkTable<D>,
    seat: &mut LinkSeat,
    end: End,
    caller: CallerNo,
) -> u64
    requires table { (seat.old.table_id ≡ table.now.table_id) × (words_in table.now.key ≤ table.now.table_id.words) × (seat.old.me.0.sizes ≡ table.now.key) }
    requires caller { MayClaim seat.old.me end caller }
    ensures same { (seat.new.table_id ≡ seat.old.table_id) × (seat.new.id ≡ seat.old.id) }
    ensures told { ClaimsTurn end caller seat.old.me result seat.new.me }
    ensures holder { result ≤ 65 }
    ensures step { DoesAt D.row.coded D.meaning (place_of_number caller seat.old.me.0.passes) seat.old.me (HasWord (place_in (receiver_word end)) result) (ManagerTakes lane_turn.Receiver end) seat.new.me }
    ensures order { IsOrderly seat.new.me.0 }
{
    let word = receiver_place(end);
    let said = Slot::Caller(caller);
    table.compare_exchange_with::<TellsClaims<D>>(seat, word, 0, MANAGER_WORD, &said)
}

/// Parts 3 and 4 of a reclaim: a turn is left with the seat of the caller, whose call is to be ended, and its slots are at home. Behind
/// the receiver's turn the caller holds nothing; where its seat found the era live the turn is left as it was taken.
pub fn leave_ended<D: Desk>(table: &LinkTable<D>, seat: &mut LinkSeat, lane: End, turn: LaneTurn)
    requires table { (seat.old.table_id ≡ table.now.table_id) × (words_in table.now.key ≤ table.now.table_id.words) × (seat.old.me.0.sizes ≡ table.now.key) }
    requires call { MayLeaveEnded turn lane seat.old.me }
    ensures same { (seat.new.table_id ≡ seat.old.table_id) × (seat.new.id ≡ seat.old.id) }
    ensures told { LeavesEnded seat.old.me seat.new.me }
    ensures step { DoesAt D.row.coded D.meaning (place_of seat.old.me) seat.old.me (StoresWord (place_in (turn_number turn lane)) 0)
        (ending_of (call_at (place_of seat.old.me) seat.old.me.0.passes) (number_at (place_of seat.old.me) seat.old.me.0.passes)) seat.new.me }
    ensures order { IsOrderly seat.new.me.0 }
{
    table.store::<TellsLeavesEnded<D>>(seat, turn_place(lane, turn), 0);
}
