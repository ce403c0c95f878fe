//! The steps of the manager: it takes and leaves turns, and opens the next incarnation.
ghost use Rattle.std.specs.Prelude.{◌≡◌, ◌≤◌, ◌<◌, ◌+◌, ℕ};
ghost use Rattle.link_words.specs.Deeds.{ManagerTakes, ManagerLeaves, Nothing};
ghost use Rattle.link_words.specs.Layouts.{place_in};
ghost use Rattle.link_words.specs.Orderly.{IsOrderly};
ghost use Rattle.link_words.specs.Looks.{SeesWord};
ghost use Rattle.link_words.specs.Reopens.{ManagerDoes, ManagerTakesTurn, ManagerLeavesTurn, MayGather, MayLeaveTurn, MayBegin, BeginsReopening, KeepsCopy, MayReset, ResetsWord, MayOpen, OpensEra, OpensLink};
ghost use Rattle.link_words.specs.Steps.{HasWord, StoresWord, turn_number};
ghost use Rattle.link_words.specs.Words.{words_in};

use crate::manages::{
    TellsBeginsReopening, TellsLeavesForManager, TellsLooksForManager, TellsOpensEra,
    TellsResetsWord, TellsTakesForManager,
};
use crate::places::{ERA_PLACE, receiver_place, sender_place};
use crate::reclaims::MANAGER_WORD;
use crate::rule::{LinkSeat, LinkTable};
use lane_model::{Desk, LaneTurn};
use rp_base::{End, Inc};

/// The word of a turn.
fn turn_place(lane: End, turn: LaneTurn) -> usize
    ensures { result ≡ place_in (turn_number turn lane) }
{
    match turn {
        LaneTurn::Sender => sender_place(lane),
        LaneTurn::Receiver => receiver_place(lane),
    }
}

/// Where the word is that a reopening resets after so many others: an index, then an entry.
pub fn reset_place(number: u64) -> usize
    requires { number < 4294967296 }
    ensures { result ≡ place_in (6 + number) }
{
    if number < 4 {
        (number * 16 + 96) as usize
    } else {
        (number * 8 + 128) as usize
    }
}

/// One attempt of the manager, under the number 64, to take a turn. The answer is the word of that turn as it was: 0 where it was free,
/// and the manager has it now; else the number of the one who has it, and 1.
pub fn take_for_manager<D: Desk>(
    table: &LinkTable<D>,
    manager: &mut LinkSeat,
    lane: End,
    turn: LaneTurn,
) -> u64
    requires table { (manager.old.table_id ≡ table.now.table_id) × (words_in table.now.key ≤ table.now.table_id.words) × (manager.old.me.0.sizes ≡ table.now.key) }
    requires manager { MayGather manager.old.me }
    ensures same { (manager.new.table_id ≡ manager.old.table_id) × (manager.new.id ≡ manager.old.id) }
    ensures told { ManagerTakesTurn turn lane manager.old.me result manager.new.me }
    ensures step { ManagerDoes D.row.coded D.meaning manager.old.me (HasWord (place_in (turn_number turn lane)) result) (ManagerTakes turn lane) manager.new.me }
    ensures order { IsOrderly manager.new.me.0 }
{
    let word = turn_place(lane, turn);
    table.compare_exchange::<TellsTakesForManager<D>>(manager, word, 0, MANAGER_WORD)
}

/// The manager leaves a turn: it is free, and the side state is at home.
pub fn leave_for_manager<D: Desk>(
    table: &LinkTable<D>,
    manager: &mut LinkSeat,
    lane: End,
    turn: LaneTurn,
)
    requires table { (manager.old.table_id ≡ table.now.table_id) × (words_in table.now.key ≤ table.now.table_id.words) × (manager.old.me.0.sizes ≡ table.now.key) }
    requires manager { MayLeaveTurn turn lane manager.old.me }
    ensures same { (manager.new.table_id ≡ manager.old.table_id) × (manager.new.id ≡ manager.old.id) }
    ensures told { ManagerLeavesTurn turn lane manager.old.me manager.new.me }
    ensures step { ManagerDoes D.row.coded D.meaning manager.old.me (StoresWord (place_in (turn_number turn lane)) 0) (ManagerLeaves turn lane) manager.new.me }
    ensures order { IsOrderly manager.new.me.0 }
{
    let word = turn_place(lane, turn);
    table.store::<TellsLeavesForManager<D>>(manager, word, 0);
}

/// The manager loads a word, outside a reopening, and nothing changes.
pub fn look_for_manager<D: Desk>(table: &LinkTable<D>, manager: &mut LinkSeat, place: usize) -> u64
    requires table { (manager.old.table_id ≡ table.now.table_id) × (manager.old.me.0.sizes ≡ table.now.key) }
    requires place { (place < table.now.table_id.words) × ((i : ℕ) × (place ≡ place_in i)) }
    requires manager { MayGather manager.old.me }
    ensures same { (manager.new.table_id ≡ manager.old.table_id) × (manager.new.id ≡ manager.old.id) }
    ensures told { manager.new.me ≡ manager.old.me }
    ensures step { ManagerDoes D.row.coded D.meaning manager.old.me (SeesWord manager.old.me.0.sizes place result) Nothing manager.new.me }
    ensures order { IsOrderly manager.new.me.0 }
{
    table.load::<TellsLooksForManager<D>>(manager, place)
}

/// The manager, which has the four turns and holds nothing by them, loads the era. Where it is closed, a reopening begins. The answer is the
/// word of the era that was found.
pub fn begin_reopening<D: Desk>(table: &LinkTable<D>, manager: &mut LinkSeat) -> u64
    requires table { (manager.old.table_id ≡ table.now.table_id) × (words_in table.now.key ≤ table.now.table_id.words) }
    requires manager { MayBegin manager.old.me }
    ensures same { (manager.new.table_id ≡ manager.old.table_id) × (manager.new.id ≡ manager.old.id) }
    ensures told { BeginsReopening manager.old.me result manager.new.me }
    ensures copy { KeepsCopy manager.old.me manager.new.me }
    ensures order { IsOrderly manager.new.me.0 }
{
    table.load::<TellsBeginsReopening>(manager, ERA_PLACE)
}

/// A reopening stores what an index or an entry is in a new incarnation, after so many others.
pub fn reset_index<D: Desk>(table: &LinkTable<D>, manager: &mut LinkSeat, number: u64, new: u64)
    requires table { (manager.old.table_id ≡ table.now.table_id) × (words_in table.now.key ≤ table.now.table_id.words) × (manager.old.me.0.sizes ≡ table.now.key) }
    requires number { (number < 4294967296) × (place_in (6 + number) < table.now.table_id.words) }
    requires manager { MayReset number new manager.old.me }
    ensures same { (manager.new.table_id ≡ manager.old.table_id) × (manager.new.id ≡ manager.old.id) }
    ensures told { ResetsWord manager.old.me manager.new.me }
    ensures copy { KeepsCopy manager.old.me manager.new.me }
    ensures order { IsOrderly manager.new.me.0 }
{
    let word = reset_place(number);
    table.store::<TellsResetsWord>(manager, word, new);
}

/// The last step of a reopening: the next incarnation is live, and both lanes are empty.
pub fn open_era<D: Desk>(table: &LinkTable<D>, manager: &mut LinkSeat, inc: Inc)
    requires table { (manager.old.table_id ≡ table.now.table_id) × (words_in table.now.key ≤ table.now.table_id.words) × (manager.old.me.0.sizes ≡ table.now.key) }
    requires manager { MayOpen inc manager.old.me }
    ensures same { (manager.new.table_id ≡ manager.old.table_id) × (manager.new.id ≡ manager.old.id) }
    ensures told { OpensEra D.row.coded D.meaning manager.old.me manager.new.me }
    ensures step { OpensLink D.row.coded D.meaning manager.old.me manager.new.me }
    ensures order { IsOrderly manager.new.me.0 }
{
    let new = (inc as u64 + 1) * 2 + 1;
    table.store::<TellsOpensEra<D>>(manager, ERA_PLACE, new);
}
