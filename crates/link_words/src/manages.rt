//! What each step of the manager tells its seat. These types are for the proofs alone.
use crate::rule::{Slot, View};
use atomic_table::Play;
use lane_model::Desk;
use std::marker::PhantomData;

/// One attempt at a turn.
pub struct TellsTakesForManager<D> {
    marker: PhantomData<D>,
}

impl<D: Desk> Play<Slot, View> for TellsTakesForManager<D> {
    ghost use Rattle.std.specs.Prelude.{◌≡◌};
    ghost use Rattle.rp_base.specs.declared.kinds.End.{End};
    ghost use Rattle.lane_model.specs.declared.recoveries.LaneTurn.{LaneTurn};
    ghost use Rattle.link_words.specs.Deeds.{ManagerTakes};
    ghost use Rattle.link_words.specs.Layouts.{place_in};
    ghost use Rattle.link_words.specs.Orderly.{IsOrderly};
    ghost use Rattle.link_words.specs.Reopens.{ManagerDoes, ManagerTakesTurn};
    ghost use Rattle.link_words.specs.Steps.{HasWord, turn_number};

    ghost then = { λ st m r m'. ((which : LaneTurn) (e : End) → st.word ≡ place_in (turn_number which e) → ManagerTakesTurn which e m r m' × ManagerDoes D.row.coded D.meaning m (HasWord st.word r) (ManagerTakes which e) m') × IsOrderly m'.0 };
}

/// A turn is left.
pub struct TellsLeavesForManager<D> {
    marker: PhantomData<D>,
}

impl<D: Desk> Play<Slot, View> for TellsLeavesForManager<D> {
    ghost use Rattle.std.specs.Prelude.{◌≡◌};
    ghost use Rattle.rp_base.specs.declared.kinds.End.{End};
    ghost use Rattle.lane_model.specs.declared.recoveries.LaneTurn.{LaneTurn};
    ghost use Rattle.link_words.specs.Deeds.{ManagerLeaves};
    ghost use Rattle.link_words.specs.Layouts.{place_in};
    ghost use Rattle.link_words.specs.Orderly.{IsOrderly};
    ghost use Rattle.link_words.specs.Reopens.{ManagerDoes, ManagerLeavesTurn};
    ghost use Rattle.link_words.specs.Steps.{StoresWord, turn_number};

    ghost then = { λ st m r m'. ((which : LaneTurn) (e : End) → st.word ≡ place_in (turn_number which e) → ManagerLeavesTurn which e m m' × ManagerDoes D.row.coded D.meaning m (StoresWord st.word r) (ManagerLeaves which e) m') × IsOrderly m'.0 };
}

/// A reopening begins.
pub struct TellsBeginsReopening;

impl Play<Slot, View> for TellsBeginsReopening {
    ghost use Rattle.link_words.specs.Orderly.{IsOrderly};
    ghost use Rattle.link_words.specs.Reopens.{BeginsReopening, KeepsCopy};

    ghost then = { λ st m r m'. (BeginsReopening m r m' × KeepsCopy m m') × IsOrderly m'.0 };
}

/// A word is reset.
pub struct TellsResetsWord;

impl Play<Slot, View> for TellsResetsWord {
    ghost use Rattle.link_words.specs.Orderly.{IsOrderly};
    ghost use Rattle.link_words.specs.Reopens.{ResetsWord, KeepsCopy};

    ghost then = { λ st m r m'. (ResetsWord m m' × KeepsCopy m m') × IsOrderly m'.0 };
}

/// The next incarnation is opened.
pub struct TellsOpensEra<D> {
    marker: PhantomData<D>,
}

impl<D: Desk> Play<Slot, View> for TellsOpensEra<D> {
    ghost use Rattle.link_words.specs.Orderly.{IsOrderly};
    ghost use Rattle.link_words.specs.Reopens.{OpensEra, OpensLink};

    ghost then = { λ st m r m'. (OpensEra D.row.coded D.meaning m m' × OpensLink D.row.coded D.meaning m m') × IsOrderly m'.0 };
}

/// A word is loaded, and nothing changes.
pub struct TellsLooksForManager<D> {
    marker: PhantomData<D>,
}

impl<D: Desk> Play<Slot, View> for TellsLooksForManager<D> {
    ghost use Rattle.std.specs.Prelude.{◌≡◌};
    ghost use Rattle.link_words.specs.Deeds.{Nothing};
    ghost use Rattle.link_words.specs.Looks.{SeesWord};
    ghost use Rattle.link_words.specs.Orderly.{IsOrderly};
    ghost use Rattle.link_words.specs.Reopens.{ManagerDoes};

    ghost then = { λ st m r m'. ((m' ≡ m) × ManagerDoes D.row.coded D.meaning m (SeesWord m.0.sizes st.word r) Nothing m') × IsOrderly m'.0 };
}
