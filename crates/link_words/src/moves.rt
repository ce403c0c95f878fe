//! How the steps of the manager's seat change views, and how seats are split and joined. These types are for the proofs alone.
use crate::rule::{Slot, View};
use atomic_table::{Join, Play, Split};
use lane_model::Desk;
use std::marker::PhantomData;

/// A caller of the host is made, which the manager carries.
pub struct EnlistsHost<D> {
    marker: PhantomData<D>,
}

impl<D: Desk> Play<Slot, View> for EnlistsHost<D> {
    ghost use Rattle.rp_base.specs.declared.kinds.End.TheVariants as side;
    ghost use Rattle.link_words.specs.Orderly.{IsOrderly};
    ghost use Rattle.link_words.specs.Seats.{EnlistsCaller};
    ghost use Rattle.link_words.specs.Steps.{MakesCaller};

    ghost then = { λ st m r m'. (EnlistsCaller side.Host m m' × MakesCaller D.row.coded D.meaning side.Host m m') × IsOrderly m'.0 };
}

/// A caller of the remote is made, which the manager carries.
pub struct EnlistsRemote<D> {
    marker: PhantomData<D>,
}

impl<D: Desk> Play<Slot, View> for EnlistsRemote<D> {
    ghost use Rattle.rp_base.specs.declared.kinds.End.TheVariants as side;
    ghost use Rattle.link_words.specs.Orderly.{IsOrderly};
    ghost use Rattle.link_words.specs.Seats.{EnlistsCaller};
    ghost use Rattle.link_words.specs.Steps.{MakesCaller};

    ghost then = { λ st m r m'. (EnlistsCaller side.Remote m m' × MakesCaller D.row.coded D.meaning side.Remote m m') × IsOrderly m'.0 };
}

/// The caller that the step names ends.
pub struct TellsEndsCaller<D> {
    marker: PhantomData<D>,
}

impl<D: Desk> Play<Slot, View> for TellsEndsCaller<D> {
    ghost use Rattle.link_words.specs.Orderly.{IsOrderly};
    ghost use Rattle.link_words.specs.Seats.{EndsCaller, named_by};
    ghost use Rattle.link_words.specs.Steps.{FreesCaller};

    ghost then = { λ st m r m'. (EndsCaller (named_by st.said) m m' × FreesCaller D.row.coded D.meaning (named_by st.said) m m') × IsOrderly m'.0 };
}

/// The manager loads the era.
pub struct TellsLearnsEra<D> {
    marker: PhantomData<D>,
}

impl<D: Desk> Play<Slot, View> for TellsLearnsEra<D> {
    ghost use Rattle.link_words.specs.Orderly.{IsOrderly};
    ghost use Rattle.link_words.specs.Seats.{LearnsEra};
    ghost use Rattle.link_words.specs.Steps.{LooksAtLink};

    ghost then = { λ st m r m'. (LearnsEra m r m' × LooksAtLink D.row.coded D.meaning r m) × IsOrderly m'.0 };
}

/// All callers that were out have come back.
pub struct TellsSettles;

impl Play<Slot, View> for TellsSettles {
    ghost use Rattle.link_words.specs.Orderly.{IsOrderly};
    ghost use Rattle.link_words.specs.Seats.{Settles};

    ghost then = { λ st m r m'. Settles m m' × IsOrderly m'.0 };
}

/// One attempt to close the era.
pub struct TellsClosesEra<D> {
    marker: PhantomData<D>,
}

impl<D: Desk> Play<Slot, View> for TellsClosesEra<D> {
    ghost use Rattle.std.specs.Prelude.{◌≡◌, ℕ, ◌*◌};
    ghost use Rattle.link_words.specs.Orderly.{IsOrderly};
    ghost use Rattle.link_words.specs.Seats.{ClosesEra, named_by};
    ghost use Rattle.link_words.specs.Steps.{ClosesLink};

    ghost then = { λ st m r m'. ((inc : ℕ) → st.second ≡ inc * 2 → ClosesEra (named_by st.said) inc m r m' × ClosesLink D.row.coded D.meaning inc r m m') × IsOrderly m'.0 };
}

/// The last pass goes to a new seat.
pub struct GoesOut;

impl Split<View> for GoesOut {
    ghost use Rattle.link_words.specs.Passes.{without_last, only_last};

    ghost left = { without_last };

    ghost right = { only_last };
}

/// The passes of a seat come to the manager's.
pub struct ComesBack;

impl Join<View> for ComesBack {
    ghost use Rattle.link_words.specs.Passes.{with_passes_from, spent_view};

    ghost both = { with_passes_from };

    ghost spent = { spent_view };
}

/// The pass of a seat ends.
pub struct EndsReturned;

impl Join<View> for EndsReturned {
    ghost use Rattle.link_words.specs.Passes.{after_end_with, spent_view};

    ghost both = { after_end_with };

    ghost spent = { spent_view };
}
