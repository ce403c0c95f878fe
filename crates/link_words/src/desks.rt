//! Each desk lies in a table of its own, with one word, one slot and one seat: so the words of a link, and who steps on them, name no
//! desk. The seat goes with the receiver's turn, in its side state.
ghost use Rattle.std.specs.Prelude.{◌≡◌, ◌<◌, [], ◌∷◌};
ghost use Rattle.link_words.specs.DeskSeats.{home_view, away_view};

use crate::codes::DeskView;
use atomic_table::{Play, Seat, Shared, TableRule};
use lane_model::Desk;
use std::marker::PhantomData;
use std::snapshot::Snapshot;

/// The rule of the table of a desk. It is for the proofs alone.
pub struct DeskRule<D> {
    marker: PhantomData<D>,
}

impl<D: Desk> TableRule<D, DeskView, Snapshot<D>> for DeskRule<D> {
    ghost use Rattle.link_words.specs.DeskSeats.{IsDeskHome, home_view};

    ghost holds = { λ key. IsDeskHome D.row.coded };

    ghost first = { λ key. home_view (D.row.coded.code key.value) };
}

/// The table of a desk, as threads share it.
pub type DeskTable<D> = Shared<D, DeskView, Snapshot<D>, DeskRule<D>>;

/// The desk leaves its slot. It is for the proofs alone.
pub struct TellsOpens<D> {
    marker: PhantomData<D>,
}

impl<D: Desk> Play<D, DeskView> for TellsOpens<D> {
    ghost use Rattle.link_words.specs.DeskSeats.{OpensDesk};

    ghost then = { λ st m r m'. OpensDesk D.row.coded m m' };
}

/// The desk is in its slot again. It is for the proofs alone.
pub struct TellsShuts<D> {
    marker: PhantomData<D>,
}

impl<D: Desk> Play<D, DeskView> for TellsShuts<D> {
    ghost use Rattle.link_words.specs.DeskSeats.{ShutsDesk};

    ghost then = { λ st m r m'. ShutsDesk D.row.coded m m' };
}

/// Takes the desk out of its slot.
pub(crate) fn open<D: Desk>(desks: &DeskTable<D>, seat: &mut Seat<D, DeskView>)
    requires table { (seat.old.table_id ≡ desks.now.table_id) × (0 < desks.now.table_id.words) }
    requires home { seat.old.me ≡ (home_view seat.old.me.0.code, []) }
    ensures same { (seat.new.table_id ≡ seat.old.table_id) × (seat.new.id ≡ seat.old.id) }
    ensures desk { (d : D) × (seat.old.me.0.code ≡ D.row.coded.code d) × (seat.new.me ≡ (away_view seat.old.me.0.code, (0, d) ∷ [])) }
{
    desks.load::<TellsOpens<D>>(seat, 0);
}

/// Puts it back, as it is now.
pub(crate) fn shut<D: Desk>(desks: &DeskTable<D>, seat: &mut Seat<D, DeskView>)
    requires table { (seat.old.table_id ≡ desks.now.table_id) × (0 < desks.now.table_id.words) }
    requires away { (d : D) × (seat.old.me ≡ (away_view seat.old.me.0.code, (0, d) ∷ [])) }
    ensures same { (seat.new.table_id ≡ seat.old.table_id) × (seat.new.id ≡ seat.old.id) }
    ensures desk { (d : D) → seat.old.me.1 ≡ (0, d) ∷ [] → seat.new.me ≡ (home_view (D.row.coded.code d), []) }
{
    desks.load::<TellsShuts<D>>(seat, 0);
}
