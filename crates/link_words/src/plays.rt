//! What each step on a word tells its seat. These types are for the proofs alone.
use crate::rule::{Slot, View};
use atomic_table::Play;
use lane_model::Desk;
use std::marker::PhantomData;

/// Step 1 of a call.
pub struct TellsTakesTurn<D> {
    marker: PhantomData<D>,
}

impl<D: Desk> Play<Slot, View> for TellsTakesTurn<D> {
    ghost use Rattle.link_words.specs.Orderly.{IsOrderly};
    ghost use Rattle.link_words.specs.Steps.{TakesTurnAs};

    ghost then = { λ st m r m'. TakesTurnAs D.row.coded D.meaning st.word st.said m r m' × IsOrderly m'.0 };
}

/// The last step of a send.
pub struct TellsLeavesSender<D> {
    marker: PhantomData<D>,
}

impl<D: Desk> Play<Slot, View> for TellsLeavesSender<D> {
    ghost use Rattle.link_words.specs.Orderly.{IsOrderly};
    ghost use Rattle.link_words.specs.Steps.{GoesOn, StoresWord, LeavesSender};

    ghost then = { λ st m r m'. LeavesSender m m' × GoesOn D.row.coded D.meaning m (StoresWord st.word r) m' × IsOrderly m'.0 };
}

/// The last step of a call that has the receiver's turn.
pub struct TellsLeavesReceiver<D> {
    marker: PhantomData<D>,
}

impl<D: Desk> Play<Slot, View> for TellsLeavesReceiver<D> {
    ghost use Rattle.link_words.specs.Orderly.{IsOrderly};
    ghost use Rattle.link_words.specs.Steps.{GoesOn, StoresWord, LeavesReceiver};

    ghost then = { λ st m r m'. LeavesReceiver m m' × GoesOn D.row.coded D.meaning m (StoresWord st.word r) m' × IsOrderly m'.0 };
}

/// Step 2 of a send.
pub struct TellsSendLoadsEra<D> {
    marker: PhantomData<D>,
}

impl<D: Desk> Play<Slot, View> for TellsSendLoadsEra<D> {
    ghost use Rattle.link_words.specs.Orderly.{IsOrderly};
    ghost use Rattle.link_words.specs.Steps.{GoesOn, HasWord, SendLoadsEra};

    ghost then = { λ st m r m'. SendLoadsEra m r m' × GoesOn D.row.coded D.meaning m (HasWord st.word r) m' × IsOrderly m'.0 };
}

/// Step 3 of a send.
pub struct TellsSendLooks<D> {
    marker: PhantomData<D>,
}

impl<D: Desk> Play<Slot, View> for TellsSendLooks<D> {
    ghost use Rattle.link_words.specs.Orderly.{IsOrderly};
    ghost use Rattle.link_words.specs.Steps.{GoesOn, HasWord, SendLooks};

    ghost then = { λ st m r m'. SendLooks m r m' × GoesOn D.row.coded D.meaning m (HasWord st.word r) m' × IsOrderly m'.0 };
}

/// Step 4 of a send, from the sender's own list.
pub struct TellsSendTakesOwn<D> {
    marker: PhantomData<D>,
}

impl<D: Desk> Play<Slot, View> for TellsSendTakesOwn<D> {
    ghost use Rattle.link_words.specs.Orderly.{IsOrderly};
    ghost use Rattle.link_words.specs.Steps.{GoesOn, HasWord, SendTakesBuffer, accepted_by};

    ghost then = { λ st m r m'. SendTakesBuffer (accepted_by m) m m' × GoesOn D.row.coded D.meaning m (HasWord st.word r) m' × IsOrderly m'.0 };
}

/// Step 4 of a send, from the return ring.
pub struct TellsSendLoadsEntry<D> {
    marker: PhantomData<D>,
}

impl<D: Desk> Play<Slot, View> for TellsSendLoadsEntry<D> {
    ghost use Rattle.std.specs.Prelude.{◌%◌};
    ghost use Rattle.link_words.specs.Orderly.{IsOrderly};
    ghost use Rattle.link_words.specs.Steps.{GoesOn, HasWord, SendTakesBuffer};

    ghost then = { λ st m r m'. SendTakesBuffer (r % 4294967296) m m' × GoesOn D.row.coded D.meaning m (HasWord st.word r) m' × IsOrderly m'.0 };
}

/// Step 5 of a send.
pub struct TellsSendStoresEntry<D> {
    marker: PhantomData<D>,
}

impl<D: Desk> Play<Slot, View> for TellsSendStoresEntry<D> {
    ghost use Rattle.link_words.specs.Orderly.{IsOrderly};
    ghost use Rattle.link_words.specs.Steps.{GoesOn, StoresWord, SendStoresEntry};

    ghost then = { λ st m r m'. SendStoresEntry m m' × GoesOn D.row.coded D.meaning m (StoresWord st.word r) m' × IsOrderly m'.0 };
}

/// Step 6 of a send.
pub struct TellsSendPublishes<D> {
    marker: PhantomData<D>,
}

impl<D: Desk> Play<Slot, View> for TellsSendPublishes<D> {
    ghost use Rattle.link_words.specs.Orderly.{IsOrderly};
    ghost use Rattle.link_words.specs.Steps.{GoesOn, StoresWord, SendPublishes};

    ghost then = { λ st m r m'. SendPublishes m m' × GoesOn D.row.coded D.meaning m (StoresWord st.word r) m' × IsOrderly m'.0 };
}

/// Step 2 of a take.
pub struct TellsTakeLoadsEra<D> {
    marker: PhantomData<D>,
}

impl<D: Desk> Play<Slot, View> for TellsTakeLoadsEra<D> {
    ghost use Rattle.link_words.specs.Orderly.{IsOrderly};
    ghost use Rattle.link_words.specs.Steps.{GoesOn, HasWord, TakeLoadsEra};

    ghost then = { λ st m r m'. TakeLoadsEra m r m' × GoesOn D.row.coded D.meaning m (HasWord st.word r) m' × IsOrderly m'.0 };
}

/// Step 3 of a take.
pub struct TellsTakeLooks<D> {
    marker: PhantomData<D>,
}

impl<D: Desk> Play<Slot, View> for TellsTakeLooks<D> {
    ghost use Rattle.link_words.specs.Orderly.{IsOrderly};
    ghost use Rattle.link_words.specs.Steps.{GoesOn, HasWord, TakeLooks};

    ghost then = { λ st m r m'. TakeLooks m r m' × GoesOn D.row.coded D.meaning m (HasWord st.word r) m' × IsOrderly m'.0 };
}

/// Step 4 of a take.
pub struct TellsTakeLoadsEntry<D> {
    marker: PhantomData<D>,
}

impl<D: Desk> Play<Slot, View> for TellsTakeLoadsEntry<D> {
    ghost use Rattle.std.specs.Prelude.{◌%◌};
    ghost use Rattle.link_words.specs.Orderly.{IsOrderly};
    ghost use Rattle.link_words.specs.Steps.{GoesOn, HasWord, TakeTakesBuffer};

    ghost then = { λ st m r m'. TakeTakesBuffer (r % 4294967296) m m' × GoesOn D.row.coded D.meaning m (HasWord st.word r) m' × IsOrderly m'.0 };
}

/// Step 5 of a take.
pub struct TellsTakeHands<D> {
    marker: PhantomData<D>,
}

impl<D: Desk> Play<Slot, View> for TellsTakeHands<D> {
    ghost use Rattle.link_words.specs.Orderly.{IsOrderly};
    ghost use Rattle.link_words.specs.Steps.{GoesOn, HasWord, TakeHands};

    ghost then = { λ st m r m'. TakeHands D.row.coded D.meaning m.0.sizes.desks m r m' × GoesOn D.row.coded D.meaning m (HasWord st.word r) m' × IsOrderly m'.0 };
}

/// Step 2 of a give.
pub struct TellsGiveStoresEntry<D> {
    marker: PhantomData<D>,
}

impl<D: Desk> Play<Slot, View> for TellsGiveStoresEntry<D> {
    ghost use Rattle.link_words.specs.Orderly.{IsOrderly};
    ghost use Rattle.link_words.specs.Steps.{GoesOn, StoresWord, GiveStoresEntry};

    ghost then = { λ st m r m'. GiveStoresEntry m m' × GoesOn D.row.coded D.meaning m (StoresWord st.word r) m' × IsOrderly m'.0 };
}

/// Step 3 of a give.
pub struct TellsGivePublishes<D> {
    marker: PhantomData<D>,
}

impl<D: Desk> Play<Slot, View> for TellsGivePublishes<D> {
    ghost use Rattle.link_words.specs.Orderly.{IsOrderly};
    ghost use Rattle.link_words.specs.Steps.{GoesOn, StoresWord, GivePublishes};

    ghost then = { λ st m r m'. GivePublishes m m' × GoesOn D.row.coded D.meaning m (StoresWord st.word r) m' × IsOrderly m'.0 };
}

/// Step 2 of a binding or an unbinding.
pub struct TellsBindLoadsEra<D> {
    marker: PhantomData<D>,
}

impl<D: Desk> Play<Slot, View> for TellsBindLoadsEra<D> {
    ghost use Rattle.link_words.specs.Orderly.{IsOrderly};
    ghost use Rattle.link_words.specs.Steps.{GoesOn, HasWord, BindLoadsEra};

    ghost then = { λ st m r m'. BindLoadsEra D.row.coded D.meaning m.0.sizes.desks m r m' × GoesOn D.row.coded D.meaning m (HasWord st.word r) m' × IsOrderly m'.0 };
}
