//! Stores of ring entries and of indexes.
ghost use Rattle.std.specs.Prelude.{◌≡◌, ◌≤◌, ◌+◌, ◌*◌, ◌%◌};
ghost use Rattle.link_words.specs.Layouts.{place_in};
ghost use Rattle.link_words.specs.Orderly.{IsOrderly};
ghost use Rattle.link_words.specs.Steps.{GoesOn, StoresWord, ring_index, MayStoreEntry, StoresEntry, MayPublish, PublishesIndex};
ghost use Rattle.link_words.specs.Words.{words_in, entry_number, IsSized};

use crate::places::{entry_place, forward_place, return_place};
use crate::plays::{
    TellsGivePublishes, TellsGiveStoresEntry, TellsSendPublishes, TellsSendStoresEntry,
};
use crate::rule::{LinkSeat, LinkSizes, LinkTable, Ring};
use lane_model::Desk;
use rp_base::End;
use vring_layout::UsedWord;

/// Step 5 of a send, in the forward ring, and step 2 of a give, in the return ring: the entry of this count names the buffer.
#[inline(always)]
pub fn store_entry<D: Desk>(
    table: &LinkTable<D>,
    sizes: &LinkSizes,
    seat: &mut LinkSeat,
    lane: End,
    ring: Ring,
    count: u64,
    entry: UsedWord,
)
    requires table { (seat.old.table_id ≡ table.now.table_id) × (words_in table.now.key ≤ table.now.table_id.words) × (seat.old.me.0.sizes ≡ table.now.key) }
    requires sizes { (sizes.now ≡ table.now.key) × IsSized sizes.now }
    requires call { MayStoreEntry ring lane count entry seat.old.me }
    ensures same { (seat.new.table_id ≡ seat.old.table_id) × (seat.new.id ≡ seat.old.id) }
    ensures told { StoresEntry ring seat.old.me seat.new.me }
    ensures step { GoesOn D.row.coded D.meaning seat.old.me (StoresWord (place_in (entry_number sizes.now lane ring count)) (entry.id + entry.len * 4294967296)) seat.new.me }
    ensures order { IsOrderly seat.new.me.0 }
{
    let word = entry_place(sizes, lane, ring, count);
    let new = entry.id as u64 + entry.len as u64 * 4_294_967_296;
    match ring {
        Ring::Forward => table.store::<TellsSendStoresEntry<D>>(seat, word, new),
        Ring::Return => table.store::<TellsGiveStoresEntry<D>>(seat, word, new),
    }
}

/// Step 6 of a send, in the forward ring: the index is that of this count, the message is accepted, and its buffer is at home. Step 3
/// of a give, in the return ring: the buffer is back.
#[inline(always)]
pub fn publish_index<D: Desk>(
    table: &LinkTable<D>,
    seat: &mut LinkSeat,
    lane: End,
    ring: Ring,
    count: u64,
)
    requires table { (seat.old.table_id ≡ table.now.table_id) × (words_in table.now.key ≤ table.now.table_id.words) × (seat.old.me.0.sizes ≡ table.now.key) }
    requires call { MayPublish ring lane count seat.old.me }
    ensures same { (seat.new.table_id ≡ seat.old.table_id) × (seat.new.id ≡ seat.old.id) }
    ensures told { PublishesIndex ring seat.old.me seat.new.me }
    ensures step { GoesOn D.row.coded D.meaning seat.old.me (StoresWord (place_in (ring_index ring lane)) (count % 65536)) seat.new.me }
    ensures order { IsOrderly seat.new.me.0 }
{
    match ring {
        Ring::Forward => {
            table.store::<TellsSendPublishes<D>>(seat, forward_place(lane), count % 65_536)
        }
        Ring::Return => {
            table.store::<TellsGivePublishes<D>>(seat, return_place(lane), count % 65_536)
        }
    }
}
