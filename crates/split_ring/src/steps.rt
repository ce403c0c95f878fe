//! The later steps of a call over link_words, by the pass of one caller of a seat that may have several: what each asks and says is of that pass
//! alone, with the slots that are out with its call, which are in front.
ghost use Rattle.std.specs.Prelude.{◌≡◌, ◌+◌, ◌*◌, ◌%◌, None};
ghost use Rattle.link_words.specs.Deeds.{Steps};
ghost use Rattle.link_words.specs.Layouts.{place_in};
ghost use Rattle.link_words.specs.Steps.{GoesOn, HasWord, StoresWord, index_number, ring_index, MayLoadIndex, LoadsIndex, MayLoadEntry, LoadsEntry, MayLoadEra, LoadsEra, MayStoreEntry, StoresEntry, MayPublish, PublishesIndex};
ghost use Rattle.link_words.specs.Words.{entry_number};
ghost use Rattle.split_ring.specs.Focus.{IsOrderlySeat, StepsAlone, seat_of};

use crate::links::SharedLink;
use lane_model::Desk;
use link_words::{
    EraUse, IndexUse, LinkSeat, Ring, load_entry, load_era, load_index, publish_index, store_entry,
};
use rp_base::{CallerNo, End};
use vring_layout::UsedWord;

impl<D: Desk> SharedLink<D> {
    /// A load of an index of the lane.
    #[inline(always)]
    pub(crate) fn load_index(
        &self,
        seat: &mut LinkSeat,
        number: CallerNo,
        lane: End,
        index: IndexUse,
    ) -> u64
        requires seat { IsOrderlySeat self.now.table.shared.table_id self.now.sizes seat.old.table_id seat.old.me }
        requires call { MayLoadIndex index lane (seat_of number seat.old.me) }
        ensures seat { IsOrderlySeat self.now.table.shared.table_id self.now.sizes seat.new.table_id seat.new.me }
        ensures told { LoadsIndex index (seat_of number seat.old.me) result (seat_of number seat.new.me) }
        ensures step { GoesOn D.row.coded D.meaning (seat_of number seat.old.me) (HasWord (place_in (index_number index lane)) result) (seat_of number seat.new.me) }
        ensures alone { StepsAlone D.row.coded D.meaning number (Steps number 0 None) seat.old.me seat.new.me }
    {
        load_index(&self.table.shared, seat, lane, index)
    }

    /// A load of the entry of this count, and its buffer is out.
    #[inline(always)]
    pub(crate) fn load_entry(
        &self,
        seat: &mut LinkSeat,
        number: CallerNo,
        lane: End,
        ring: Ring,
        count: u64,
    ) -> u64
        requires seat { IsOrderlySeat self.now.table.shared.table_id self.now.sizes seat.old.table_id seat.old.me }
        requires call { MayLoadEntry ring lane count (seat_of number seat.old.me) }
        ensures seat { IsOrderlySeat self.now.table.shared.table_id self.now.sizes seat.new.table_id seat.new.me }
        ensures told { LoadsEntry ring (seat_of number seat.old.me) result (seat_of number seat.new.me) }
        ensures step { GoesOn D.row.coded D.meaning (seat_of number seat.old.me) (HasWord (place_in (entry_number self.now.sizes lane ring count)) result) (seat_of number seat.new.me) }
        ensures alone { StepsAlone D.row.coded D.meaning number (Steps number 0 None) seat.old.me seat.new.me }
    {
        load_entry(&self.table.shared, &self.sizes, seat, lane, ring, count)
    }

    /// A load of the era.
    #[inline(always)]
    pub(crate) fn load_era(&self, seat: &mut LinkSeat, number: CallerNo, era: EraUse) -> u64
        requires seat { IsOrderlySeat self.now.table.shared.table_id self.now.sizes seat.old.table_id seat.old.me }
        requires call { MayLoadEra era (seat_of number seat.old.me) }
        ensures seat { IsOrderlySeat self.now.table.shared.table_id self.now.sizes seat.new.table_id seat.new.me }
        ensures told { LoadsEra D.row.coded D.meaning era (seat_of number seat.old.me) result (seat_of number seat.new.me) }
        ensures step { GoesOn D.row.coded D.meaning (seat_of number seat.old.me) (HasWord 16 result) (seat_of number seat.new.me) }
        ensures alone { StepsAlone D.row.coded D.meaning number (Steps number 0 None) seat.old.me seat.new.me }
    {
        load_era(&self.table.shared, seat, era)
    }

    /// The entry of this count names the buffer.
    #[inline(always)]
    pub(crate) fn store_entry(
        &self,
        seat: &mut LinkSeat,
        number: CallerNo,
        lane: End,
        ring: Ring,
        count: u64,
        entry: UsedWord,
    )
        requires seat { IsOrderlySeat self.now.table.shared.table_id self.now.sizes seat.old.table_id seat.old.me }
        requires call { MayStoreEntry ring lane count entry (seat_of number seat.old.me) }
        ensures seat { IsOrderlySeat self.now.table.shared.table_id self.now.sizes seat.new.table_id seat.new.me }
        ensures told { StoresEntry ring (seat_of number seat.old.me) (seat_of number seat.new.me) }
        ensures step { GoesOn D.row.coded D.meaning (seat_of number seat.old.me) (StoresWord (place_in (entry_number self.now.sizes lane ring count)) (entry.id + entry.len * 4294967296)) (seat_of number seat.new.me) }
        ensures alone { StepsAlone D.row.coded D.meaning number (Steps number 0 None) seat.old.me seat.new.me }
    {
        store_entry(
            &self.table.shared,
            &self.sizes,
            seat,
            lane,
            ring,
            count,
            entry,
        );
    }

    /// The index of a ring is that of this count.
    #[inline(always)]
    pub(crate) fn publish_index(
        &self,
        seat: &mut LinkSeat,
        number: CallerNo,
        lane: End,
        ring: Ring,
        count: u64,
    )
        requires seat { IsOrderlySeat self.now.table.shared.table_id self.now.sizes seat.old.table_id seat.old.me }
        requires call { MayPublish ring lane count (seat_of number seat.old.me) }
        ensures seat { IsOrderlySeat self.now.table.shared.table_id self.now.sizes seat.new.table_id seat.new.me }
        ensures told { PublishesIndex ring (seat_of number seat.old.me) (seat_of number seat.new.me) }
        ensures step { GoesOn D.row.coded D.meaning (seat_of number seat.old.me) (StoresWord (place_in (ring_index ring lane)) (count % 65536)) (seat_of number seat.new.me) }
        ensures alone { StepsAlone D.row.coded D.meaning number (Steps number 0 None) seat.old.me seat.new.me }
    {
        publish_index(&self.table.shared, seat, lane, ring, count);
    }
}
