//! Loads of indexes, of ring entries and of the era.
ghost use Rattle.std.specs.Prelude.{◌≡◌, ◌≤◌, ◌<◌};
ghost use Rattle.link_words.specs.Orderly.{IsOrderly};
ghost use Rattle.link_words.specs.Steps.{GoesOn, HasWord, index_number, MayLoadIndex, LoadsIndex, MayLoadEntry, LoadsEntry, MayLoadEra, LoadsEra};
ghost use Rattle.link_words.specs.Words.{words_in, entry_number, IsSized};
ghost use Rattle.link_words.specs.Layouts.{place_in};

use crate::places::{ERA_PLACE, entry_place, forward_place, return_place};
use crate::plays::{
    TellsBindLoadsEra, TellsSendLoadsEntry, TellsSendLoadsEra, TellsSendLooks, TellsSendTakesOwn,
    TellsTakeHands, TellsTakeLoadsEntry, TellsTakeLoadsEra, TellsTakeLooks,
};
use crate::rule::{LinkSeat, LinkSizes, LinkTable, Ring};
use lane_model::Desk;
use rp_base::End;

/// What an index is loaded for.
#[derive(Clone, Copy)]
pub enum IndexUse {
    /// A send looks for room.
    Room,
    /// A send takes a buffer of the sender's own list, whatever the index is.
    OwnBuffer,
    /// A take looks for a message.
    Message,
}

/// What the era is loaded for.
#[derive(Clone, Copy)]
pub enum EraUse {
    /// Step 2 of a send.
    Send,
    /// Step 2 of a take.
    Take,
    /// Step 5 of a take, at which the message is handed over.
    Hand,
    /// Step 2 of a binding or an unbinding, at which the endpoint changes.
    Bind,
}

/// Step 3 of a send or a take, and step 4 of a send that takes a buffer of the sender's own list: a load of an index of the lane.
#[inline(always)]
pub fn load_index<D: Desk>(
    table: &LinkTable<D>,
    seat: &mut LinkSeat,
    lane: End,
    index: IndexUse,
) -> u64
    requires table { (seat.old.table_id ≡ table.now.table_id) × (words_in table.now.key ≤ table.now.table_id.words) × (seat.old.me.0.sizes ≡ table.now.key) }
    requires call { MayLoadIndex index lane seat.old.me }
    ensures same { (seat.new.table_id ≡ seat.old.table_id) × (seat.new.id ≡ seat.old.id) }
    ensures told { LoadsIndex index seat.old.me result seat.new.me }
    ensures step { GoesOn D.row.coded D.meaning seat.old.me (HasWord (place_in (index_number index lane)) result) seat.new.me }
    ensures order { IsOrderly seat.new.me.0 }
{
    match index {
        IndexUse::Room => table.load::<TellsSendLooks<D>>(seat, return_place(lane)),
        IndexUse::OwnBuffer => table.load::<TellsSendTakesOwn<D>>(seat, return_place(lane)),
        IndexUse::Message => table.load::<TellsTakeLooks<D>>(seat, forward_place(lane)),
    }
}

/// Step 4 of a send or a take: a load of the entry of this count, and its buffer is out.
#[inline(always)]
pub fn load_entry<D: Desk>(
    table: &LinkTable<D>,
    sizes: &LinkSizes,
    seat: &mut LinkSeat,
    lane: End,
    ring: Ring,
    count: u64,
) -> u64
    requires table { (seat.old.table_id ≡ table.now.table_id) × (words_in table.now.key ≤ table.now.table_id.words) × (seat.old.me.0.sizes ≡ table.now.key) }
    requires sizes { (sizes.now ≡ table.now.key) × IsSized sizes.now }
    requires call { MayLoadEntry ring lane count seat.old.me }
    ensures same { (seat.new.table_id ≡ seat.old.table_id) × (seat.new.id ≡ seat.old.id) }
    ensures told { LoadsEntry ring seat.old.me result seat.new.me }
    ensures step { GoesOn D.row.coded D.meaning seat.old.me (HasWord (place_in (entry_number sizes.now lane ring count)) result) seat.new.me }
    ensures order { IsOrderly seat.new.me.0 }
{
    let word = entry_place(sizes, lane, ring, count);
    match ring {
        Ring::Return => table.load::<TellsSendLoadsEntry<D>>(seat, word),
        Ring::Forward => table.load::<TellsTakeLoadsEntry<D>>(seat, word),
    }
}

/// Step 2 of a send, a take, a binding or an unbinding, and step 5 of a take: a load of the era.
#[inline(always)]
pub fn load_era<D: Desk>(table: &LinkTable<D>, seat: &mut LinkSeat, era: EraUse) -> u64
    requires table { (seat.old.table_id ≡ table.now.table_id) × (words_in table.now.key ≤ table.now.table_id.words) × (seat.old.me.0.sizes ≡ table.now.key) }
    requires call { MayLoadEra era seat.old.me }
    ensures same { (seat.new.table_id ≡ seat.old.table_id) × (seat.new.id ≡ seat.old.id) }
    ensures told { LoadsEra D.row.coded D.meaning era seat.old.me result seat.new.me }
    ensures step { GoesOn D.row.coded D.meaning seat.old.me (HasWord 16 result) seat.new.me }
    ensures order { IsOrderly seat.new.me.0 }
{
    match era {
        EraUse::Send => table.load::<TellsSendLoadsEra<D>>(seat, ERA_PLACE),
        EraUse::Take => table.load::<TellsTakeLoadsEra<D>>(seat, ERA_PLACE),
        EraUse::Hand => table.load::<TellsTakeHands<D>>(seat, ERA_PLACE),
        EraUse::Bind => table.load::<TellsBindLoadsEra<D>>(seat, ERA_PLACE),
    }
}
