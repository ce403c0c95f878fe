//! A binding and an unbinding: the step at which the desk changes, and the whole walk.
ghost use Rattle.std.specs.Prelude.{◌≡◌, ◌≢◌, ◌<◌, ◌∷◌, [], IfOk, IfErr, None};
ghost use Rattle.lane_model.specs.declared.recoveries.LaneTurn.TheVariants as lane_turn;
ghost use Rattle.link_words.specs.declared.rule.Event.TheVariants.{Step};
ghost use Rattle.link_words.specs.declared.rule.Made.TheVariants as made;
ghost use Rattle.link_words.specs.declared.rule.ReceiverSide.{ReceiverSide};
ghost use Rattle.link_words.specs.declared.rule.Slot.TheVariants.{Receiver};
ghost use Rattle.link_words.specs.Deeds.{Steps};
ghost use Rattle.link_words.specs.PlacedDesks.{table_at};
ghost use Rattle.split_ring.specs.Binds.{desk_wish, desk_work, desk_answer, desk_result, asked_side, DeskAnswers};
ghost use Rattle.split_ring.specs.Calls.{call_end, desk_said};
ghost use Rattle.split_ring.specs.Callers.{IsCallerOf, IsAfterCall, MakesBind, MakesUnbind, MakesDeskCall};
ghost use Rattle.split_ring.specs.Focus.{IsOrderlySeat, StepsAlone, seat_of};
ghost use Rattle.split_ring.specs.Sends.{live_era};
ghost use Rattle.split_ring.specs.Turns.{HasReceiver, IsLeaving};
ghost use Rattle.split_ring.specs.Walks.{HasDone, same_hands};

use crate::callers::{Caller, CallerId};
use crate::links::SharedLink;
use crate::takes::receiver_slot;
use crate::turns::{era_of, is_live_in};
use lane_model::{Desk, LaneTurn};
use link_words::{DeskTable, EraUse, Intent, LinkSeat, ReceiverState, Slot};
use rp_base::{BindFault, CallerNo, End, Endpoint, Era};

/// Why a binding or an unbinding ended otherwise.
#[derive(Clone, Copy, Debug)]
pub enum DeskFault {
    /// Another had the receiver's turn.
    Busy(CallerNo),
    /// The era is not the one that the caller follows, live.
    Dead(Era),
    /// The desk refused it.
    Bind(BindFault),
}

/// What a caller asks of the desk of its end.
#[derive(Clone, Copy)]
pub(crate) enum DeskAsk {
    /// To bind an endpoint at this address.
    Bind(u32),
    /// To unbind the endpoint at this address.
    Unbind(u32),
}

/// What a caller wishes that asks this of the desk.
pub(crate) fn desk_wish(asked: DeskAsk) -> Intent
    ensures { result ≡ desk_wish asked }
{
    match asked {
        DeskAsk::Bind(address) => Intent::bind(address),
        DeskAsk::Unbind(address) => Intent::unbind(address),
    }
}

/// What a call says when the desk has answered, or its era was another.
pub(crate) fn desk_result(
    answer: Result<Result<Endpoint, BindFault>, Era>,
) -> Result<Endpoint, DeskFault>
    ensures { result ≡ desk_result answer }
{
    match answer {
        Ok(Ok(endpoint)) => Ok(endpoint),
        Ok(Err(fault)) => Err(DeskFault::Bind(fault)),
        Err(era) => Err(DeskFault::Dead(era)),
    }
}

/// The desk in this table changes and answers. A binding has the count of handed messages.
fn ask_in<D: Desk>(
    side: &mut ReceiverState,
    desks: &DeskTable<D>,
    asked: DeskAsk,
) -> Result<Endpoint, BindFault>
    requires { (side.old.desk.table ≡ desks.now.table_id) × (0 < desks.now.table_id.words) }
    ensures { (desk : D) → side.old.desk.code ≡ D.row.coded.code desk
        → (result ≡ desk_answer D.meaning desk side.old.handed asked) × (side.new ≡ asked_side D.row.coded D.meaning desk side.old asked) }
{
    match asked {
        DeskAsk::Bind(address) => {
            let since = side.handed();
            side.bind(desks, address, since)
        }
        DeskAsk::Unbind(address) => side.unbind(desks, address),
    }
}

impl<D: Desk> SharedLink<D> {
    /// One attempt to bind an endpoint at an address of the caller's end. 0xFFFFFFFF asks for the least free
    /// one from 1024. It takes no memory and does not wait.
    ///
    /// Errors: `Busy` exactly where another had the receiver's turn; `Dead` exactly where the era is not the
    /// one that the caller follows, live; `Bind` exactly where the desk refused it. After each the caller is
    /// in no call.
    pub fn try_bind(&self, caller: &mut Caller, address: u32) -> Result<Endpoint, DeskFault>
        requires { IsCallerOf self.now caller.old }
        ensures caller { IsAfterCall self.now caller.old caller.new }
        ensures walk { MakesBind D.row.coded D.meaning self.now caller.old address result caller.new }
    {
        self.ask_once(caller, DeskAsk::Bind(address))
    }

    /// One attempt to unbind the endpoint at an address of the caller's end. It takes no memory and does not
    /// wait.
    ///
    /// Errors: as for a binding.
    pub fn try_unbind(&self, caller: &mut Caller, address: u32) -> Result<Endpoint, DeskFault>
        requires { IsCallerOf self.now caller.old }
        ensures caller { IsAfterCall self.now caller.old caller.new }
        ensures walk { MakesUnbind D.row.coded D.meaning self.now caller.old address result caller.new }
    {
        self.ask_once(caller, DeskAsk::Unbind(address))
    }

    /// One attempt to ask something of the desk.
    fn ask_once(&self, caller: &mut Caller, asked: DeskAsk) -> Result<Endpoint, DeskFault>
        requires { IsCallerOf self.now caller.old }
        ensures caller { IsAfterCall self.now caller.old caller.new }
        ensures walk { MakesDeskCall D.row.coded D.meaning self.now caller.old asked result caller.new }
    {
        let who = caller.id;
        if let Err(holder) = self.enter(&mut caller.seat, who, desk_wish(asked)) {
            return Err(DeskFault::Busy(holder));
        }
        let answer = self.ask_desk(&mut caller.seat, who, asked);
        self.leave(&mut caller.seat, who.number, who.end, LaneTurn::Receiver);
        desk_result(answer)
    }

    /// Step 2 of a binding or an unbinding: in its incarnation, live, the desk changes and answers.
    ///
    /// Errors: the era that was found, exactly where it is another or a closed one.
    pub(crate) fn ask_desk(
        &self,
        seat: &mut LinkSeat,
        who: CallerId,
        asked: DeskAsk,
    ) -> Result<Result<Endpoint, BindFault>, Era>
        requires seat { IsOrderlySeat self.now.table.shared.table_id self.now.sizes seat.old.table_id seat.old.me }
        requires turn { HasReceiver who (desk_work asked) (seat_of who.number seat.old.me) }
        ensures seat { IsOrderlySeat self.now.table.shared.table_id self.now.sizes seat.new.table_id seat.new.me }
        ensures left { IsLeaving lane_turn.Receiver who.end (call_end (desk_said asked (desk_result result))) (seat_of who.number seat.new.me) }
        ensures answered { IfOk result (λ answer. DeskAnswers D.row.coded D.meaning self.now.sizes.desks who asked answer (seat_of who.number seat.old.me) (seat_of who.number seat.new.me)
            × HasDone D.row.coded D.meaning (Step (made.Era (live_era who.follows)) ∷ []) same_hands (seat_of who.number seat.old.me) (seat_of who.number seat.new.me)) }
        ensures dead { IfErr result (λ era. (era ≢ live_era who.follows) × HasDone D.row.coded D.meaning (Step (made.Era era) ∷ []) same_hands (seat_of who.number seat.old.me) (seat_of who.number seat.new.me)) }
        ensures alone { StepsAlone D.row.coded D.meaning who.number (Steps who.number 0 None) seat.old.me seat.new.me }
    {
        let era = era_of(self.load_era(seat, who.number, EraUse::Bind));
        if is_live_in(era, who.follows) {
            let side = seat.slot_mut(&self.table.shared, receiver_slot(who.end));
            Ok(self.change_desk(side, asked))
        } else {
            Err(era)
        }
    }

    /// The desk of the side state in the slot changes and answers.
    fn change_desk(&self, slot: &mut Slot, asked: DeskAsk) -> Result<Endpoint, BindFault>
        requires side { (x : ReceiverSide) × (slot.old ≡ Receiver x) × (x.desk.table ≡ table_at self.now.sizes.desks x.desk.end) }
        ensures answered { (x : ReceiverSide) (desk : D) → slot.old ≡ Receiver x → x.desk.code ≡ D.row.coded.code desk
            → (result ≡ desk_answer D.meaning desk x.handed asked) × (slot.new ≡ Receiver (asked_side D.row.coded D.meaning desk x asked)) }
    {
        let Slot::Receiver(side) = slot else {
            unreachable!()
        };
        match side.end() {
            End::Host => ask_in(side, &self.host.shared, asked),
            End::Remote => ask_in(side, &self.remote.shared, asked),
        }
    }
}
