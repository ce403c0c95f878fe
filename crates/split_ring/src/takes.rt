//! A take: a function for each step, and the whole walk.
ghost use Rattle.std.specs.Prelude.{◌≡◌, ◌≢◌, ◌+◌, ◌≤◌, ◌<◌, ◌%◌, ◌^◌, ℕ, List, ◌∷◌, [], length, IfOk, IfErr, None};
ghost use Rattle.rp_base.specs.declared.limits.TheConstants.{BOOK_MOST, CAPACITY_MOST};
ghost use Rattle.lane_model.specs.declared.calls.CallEnd.TheVariants as call_end;
ghost use Rattle.lane_model.specs.declared.calls.Wish.TheVariants as wish;
ghost use Rattle.lane_model.specs.declared.lane_links.LaneLink.{LaneLink};
ghost use Rattle.lane_model.specs.declared.recoveries.LaneTurn.TheVariants as lane_turn;
ghost use Rattle.lane_model.specs.declared.stages.TakeStage.TheVariants as take_stage;
ghost use Rattle.lane_model.specs.declared.stages.Work.TheVariants as work;
ghost use Rattle.ring_core.specs.declared.states.RingState.{RingState};
ghost use Rattle.link_words.specs.declared.rule.Call.TheVariants.{Rests};
ghost use Rattle.link_words.specs.declared.rule.Event.TheVariants.{Step, Take};
ghost use Rattle.link_words.specs.declared.rule.Made.TheVariants as made;
ghost use Rattle.link_words.specs.declared.rule.ReceiverSide.{ReceiverSide};
ghost use Rattle.link_words.specs.declared.rule.Slot.TheVariants.{Receiver};
ghost use Rattle.link_words.specs.Deeds.{Steps};
ghost use Rattle.link_words.specs.PlacedDesks.{table_at, IsRightTo};
ghost use Rattle.link_words.specs.PlacedLinks.{KnowsState};
ghost use Rattle.link_words.specs.Steps.{handed_side};
ghost use Rattle.link_words.specs.Words.{receiver_slot};
ghost use Rattle.split_ring.specs.CallPhases as phase;
ghost use Rattle.split_ring.specs.Callers.{Holds, IsCallerOf, IsAfterCall, MakesTake, TakeNotBelow};
ghost use Rattle.split_ring.specs.Calls.{take_answer};
ghost use Rattle.split_ring.specs.Receives.{handing_end, lane_number, message_look, taken_of, took, IsTakeAt, HasBufferOut, IsHandedTo, IsTake, HasSettledTake};
ghost use Rattle.split_ring.specs.Focus.{IsOrderlySeat, LeavesOthers, StaysAlone, StepsAlone, seat_of};
ghost use Rattle.split_ring.specs.Runs.{HasRun, RunsCall};
ghost use Rattle.split_ring.specs.Seats.{IsAt, IsCaller};
ghost use Rattle.split_ring.specs.Sends.{live_era};
ghost use Rattle.split_ring.specs.Turns.{HasReceiver, IsLeaving, receive_slots};
ghost use Rattle.split_ring.specs.Walks.{HasDone, same_hands, one_more};

use crate::callers::{Caller, CallerId};
use crate::links::SharedLink;
use crate::slots::{handed_in, read_message};
use crate::turns::{era_of, is_live_in};
use lane_model::{Desk, Held, LaneTurn};
use link_words::{EraUse, IndexUse, Intent, LinkSeat, Ring, Slot};
use rp_base::{Buffer, CallerNo, End, Era, Message, Verdict};

/// A message that was handed over, in its buffer, and what the desk said of it.
#[derive(Drop)]
pub struct Taken {
    pub held: Held,
    pub verdict: Verdict,
}

/// What is given of a message that was handed over, beside its bytes.
#[derive(Drop)]
pub struct Handing {
    pub number: u64,
    pub buffer: u16,
    pub verdict: Verdict,
}

/// Why a take ended otherwise.
#[derive(Clone, Copy, Debug)]
pub enum TakeFault {
    /// Another had the receiver's turn.
    Busy(CallerNo),
    /// The era is not the one that the caller follows, live.
    Dead(Era),
    /// Each accepted message was handed over: how many there are.
    Empty(u64),
}

/// A take that has the receiver's turn.
#[derive(Clone, Copy)]
pub(crate) struct TakeCall {
    pub who: CallerId,
    /// How many messages were handed over.
    pub handed: u64,
}

/// The slot of the receiver's side state of the lane to an end.
pub(crate) fn receiver_slot(lane: End) -> usize
    ensures { result ≡ receiver_slot lane }
{
    match lane {
        End::Host => 1,
        End::Remote => 3,
    }
}

/// The number of the lane to an end.
pub(crate) fn lane_number(end: End) -> u8
    ensures { result ≡ lane_number end }
{
    match end {
        End::Host => 0,
        End::Remote => 1,
    }
}

/// The message of these bytes that was handed to this caller, in its buffer.
pub(crate) fn taken_of(who: CallerId, handing: Handing, message: Message) -> Taken
    ensures { result ≡ taken_of who handing message }
{
    let Handing {
        number,
        buffer,
        verdict,
    } = handing;
    let filled = Buffer {
        id: buffer,
        message,
    };
    Taken {
        held: Held::of(lane_number(who.end), who.number, number, filled),
        verdict,
    }
}

/// The same for the answer of a take.
pub(crate) fn took(
    who: CallerId,
    answer: Result<Handing, TakeFault>,
    message: Message,
) -> Result<Taken, TakeFault>
    ensures { result ≡ took who message answer }
{
    match answer {
        Ok(handing) => Ok(taken_of(who, handing, message)),
        Err(fault) => Err(fault),
    }
}

/// How many messages are accepted and not handed over, by the forward index.
fn waiting_messages(index: u64, handed: u64) -> u64
    requires { (index < 65536) × (handed ≤ BOOK_MOST) }
    ensures { (accepted : ℕ) → index ≡ accepted % 65536 → handed ≤ accepted → accepted ≤ handed + CAPACITY_MOST → result + handed ≡ accepted }
{
    (index + 65_536 - handed % 65_536) % 65_536
}

impl<D: Desk> SharedLink<D> {
    /// One attempt to be handed the next message of the lane to the caller's end. It takes no memory and does
    /// not wait. The buffer stays the caller's until it gives it back.
    ///
    /// Errors: `Busy` exactly where another had the receiver's turn; `Dead` exactly where the era is not the
    /// one that the caller follows, live, before or after the look; `Empty` exactly where each accepted
    /// message was handed over. After each the caller is in no call.
    pub fn try_take(&self, caller: &mut Caller) -> Result<Taken, TakeFault>
        requires { IsCallerOf self.now caller.old }
        ensures caller { IsAfterCall self.now caller.old caller.new }
        ensures walk { MakesTake D.row.coded D.meaning caller.old result caller.new }
        ensures seen { TakeNotBelow caller.old result }
        ensures held { IfOk result (λ taken. Holds caller.new taken.held) }
    {
        let mut message = Message::empty();
        let answer = self.take_into(caller, &mut message);
        took(caller.id, answer, message)
    }

    /// The same attempt, which reads the bytes of what it is handed into this message.
    pub(crate) fn take_into(
        &self,
        caller: &mut Caller,
        message: &mut Message,
    ) -> Result<Handing, TakeFault>
        requires { IsCallerOf self.now caller.old }
        ensures caller { IsAfterCall self.now caller.old caller.new }
        ensures walk { MakesTake D.row.coded D.meaning caller.old (took caller.old.id message.new result) caller.new }
        ensures seen { TakeNotBelow caller.old (took caller.old.id message.new result) }
        ensures held { IfOk (took caller.old.id message.new result) (λ taken. Holds caller.new taken.held) }
    {
        let mut steps = 0;
        self.take_in(&mut caller.seat, caller.id, message, &mut steps)
    }

    /// A whole take of this caller, whose pass is one of the seat's, and in no call, which reads the bytes of what it is handed into this message; `steps` counts its steps.
    pub(crate) fn take_in(
        &self,
        seat: &mut LinkSeat,
        who: CallerId,
        message: &mut Message,
        steps: &mut u64,
    ) -> Result<Handing, TakeFault>
        requires seat { IsOrderlySeat self.now.table.shared.table_id self.now.sizes seat.old.table_id seat.old.me }
        requires caller { IsCaller self.now.table.shared.table_id self.now.sizes who seat.old.table_id (seat_of who.number seat.old.me) }
        requires steps { steps.old < 2 ^ 60 }
        ensures seat { IsOrderlySeat self.now.table.shared.table_id self.now.sizes seat.new.table_id seat.new.me }
        ensures rests { IsAt (seat_of who.number seat.new.me) (Rests who.end) [] }
        ensures walk { IsTake D.row.coded D.meaning who (took who message.new result) (seat_of who.number seat.old.me) (seat_of who.number seat.new.me) }
        ensures leaves { LeavesOthers who.number seat.old.me seat.new.me }
        ensures run { (m : LaneLink (RingState D)) → KnowsState D.row.coded seat.old.me.0 m
            → (behind : ℕ) × (steps.new ≡ steps.old + behind + 1) × RunsCall D.row.coded D.meaning who m wish.Take behind (take_answer (took who message.new result)) seat.new.me }
        ensures few { steps.new ≤ steps.old + 6 }
    {
        if let Err(holder) = self.enter(seat, who, Intent::take()) {
            *steps += 1;
            return Err(TakeFault::Busy(holder));
        }
        let answer = self.take_on(seat, who, message, steps);
        self.leave(seat, who.number, who.end, LaneTurn::Receiver);
        *steps += 2;
        answer
    }

    /// The steps of a take after its first, up to the one that settles its end, with the bytes in this message; `steps` counts them.
    fn take_on(
        &self,
        seat: &mut LinkSeat,
        who: CallerId,
        message: &mut Message,
        steps: &mut u64,
    ) -> Result<Handing, TakeFault>
        requires seat { IsOrderlySeat self.now.table.shared.table_id self.now.sizes seat.old.table_id seat.old.me }
        requires turn { HasReceiver who (work.Take take_stage.Turn) (seat_of who.number seat.old.me) }
        requires steps { steps.old < 2 ^ 60 }
        ensures seat { IsOrderlySeat self.now.table.shared.table_id self.now.sizes seat.new.table_id seat.new.me }
        ensures settled { HasSettledTake D.row.coded D.meaning who (took who message.new result) (seat_of who.number seat.old.me) (seat_of who.number seat.new.me) }
        ensures leaves { LeavesOthers who.number seat.old.me seat.new.me }
        ensures run { (m : LaneLink (RingState D)) → KnowsState D.row.coded seat.old.me.0 m
            → (count : ℕ) × (steps.new ≡ steps.old + count) × HasRun D.row.coded D.meaning who self.now.sizes count (phase.LeavesReceiver (take_answer (took who message.new result))) m seat.new.me }
        ensures few { steps.new ≤ steps.old + 4 }
    {
        let call = self.take_begun(seat, who);
        if let Err(era) = self.find_take_era(seat, &call) {
            *steps += 1;
            return Err(TakeFault::Dead(era));
        }
        if let Err(accepted) = self.look_for_message(seat, &call) {
            *steps += 2;
            return Err(TakeFault::Empty(accepted));
        }
        let buffer = self.take_filled(seat, &call);
        *steps += 4;
        match self.hand_over(seat, &call, buffer, message) {
            Ok(handing) => Ok(handing),
            Err(era) => Err(TakeFault::Dead(era)),
        }
    }

    /// A take that has its turn, by its side state.
    pub(crate) fn take_begun(&self, seat: &mut LinkSeat, who: CallerId) -> TakeCall
        requires seat { IsOrderlySeat self.now.table.shared.table_id self.now.sizes seat.old.table_id seat.old.me }
        requires turn { HasReceiver who (work.Take take_stage.Turn) (seat_of who.number seat.old.me) }
        ensures seat { IsOrderlySeat self.now.table.shared.table_id self.now.sizes seat.new.table_id seat.new.me }
        ensures call { IsTakeAt result (work.Take take_stage.Turn) (seat_of result.who.number seat.new.me) × (result.who ≡ who) }
        ensures still { HasDone D.row.coded D.meaning [] same_hands (seat_of result.who.number seat.old.me) (seat_of result.who.number seat.new.me) }
        ensures stays { StaysAlone result.who.number seat.old.me seat.new.me }
    {
        let slot = receiver_slot(who.end);
        TakeCall {
            who,
            handed: handed_in(seat.slot_mut(&self.table.shared, slot)),
        }
    }

    /// Step 2 of a take: it goes on in its incarnation, live.
    ///
    /// Errors: the era that was found, exactly where it is another or a closed one.
    pub(crate) fn find_take_era(&self, seat: &mut LinkSeat, call: &TakeCall) -> Result<(), Era>
        requires seat { IsOrderlySeat self.now.table.shared.table_id self.now.sizes seat.old.table_id seat.old.me }
        requires call { IsTakeAt call.now (work.Take take_stage.Turn) (seat_of call.now.who.number seat.old.me) }
        ensures seat { IsOrderlySeat self.now.table.shared.table_id self.now.sizes seat.new.table_id seat.new.me }
        ensures live { IfOk result (λ _. IsTakeAt call.now (work.Take take_stage.Era) (seat_of call.now.who.number seat.new.me)
            × HasDone D.row.coded D.meaning (Step (made.Era (live_era call.now.who.follows)) ∷ []) same_hands (seat_of call.now.who.number seat.old.me) (seat_of call.now.who.number seat.new.me)) }
        ensures dead { IfErr result (λ era. (era ≢ live_era call.now.who.follows) × IsLeaving lane_turn.Receiver call.now.who.end (call_end.Dead era) (seat_of call.now.who.number seat.new.me)
            × HasDone D.row.coded D.meaning (Step (made.Era era) ∷ []) same_hands (seat_of call.now.who.number seat.old.me) (seat_of call.now.who.number seat.new.me)) }
        ensures alone { StepsAlone D.row.coded D.meaning call.now.who.number (Steps call.now.who.number 0 None) seat.old.me seat.new.me }
    {
        let era = era_of(self.load_era(seat, call.who.number, EraUse::Take));
        if is_live_in(era, call.who.follows) {
            Ok(())
        } else {
            Err(era)
        }
    }

    /// Step 3 of a take: it looks for a message by the forward index.
    ///
    /// Errors: how many messages were accepted, exactly where each was handed over.
    pub(crate) fn look_for_message(&self, seat: &mut LinkSeat, call: &TakeCall) -> Result<(), u64>
        requires seat { IsOrderlySeat self.now.table.shared.table_id self.now.sizes seat.old.table_id seat.old.me }
        requires call { IsTakeAt call.now (work.Take take_stage.Era) (seat_of call.now.who.number seat.old.me) }
        ensures seat { IsOrderlySeat self.now.table.shared.table_id self.now.sizes seat.new.table_id seat.new.me }
        ensures message { IfOk result (λ _. IsTakeAt call.now (work.Take take_stage.Look) (seat_of call.now.who.number seat.new.me)
            × ((accepted : ℕ) × HasDone D.row.coded D.meaning (message_look call.now.who call.now.handed accepted ∷ []) same_hands (seat_of call.now.who.number seat.old.me) (seat_of call.now.who.number seat.new.me))) }
        ensures empty { IfErr result (λ accepted. (accepted ≡ call.now.handed) × IsLeaving lane_turn.Receiver call.now.who.end (call_end.Empty accepted) (seat_of call.now.who.number seat.new.me)
            × HasDone D.row.coded D.meaning (message_look call.now.who accepted accepted ∷ []) same_hands (seat_of call.now.who.number seat.old.me) (seat_of call.now.who.number seat.new.me)) }
        ensures alone { StepsAlone D.row.coded D.meaning call.now.who.number (Steps call.now.who.number 0 None) seat.old.me seat.new.me }
    {
        let index = self.load_index(seat, call.who.number, call.who.end, IndexUse::Message);
        if waiting_messages(index, call.handed) == 0 {
            Err(call.handed)
        } else {
            Ok(())
        }
    }

    /// Step 4 of a take: the buffer of the next message is out.
    pub(crate) fn take_filled(&self, seat: &mut LinkSeat, call: &TakeCall) -> u32
        requires seat { IsOrderlySeat self.now.table.shared.table_id self.now.sizes seat.old.table_id seat.old.me }
        requires call { IsTakeAt call.now (work.Take take_stage.Look) (seat_of call.now.who.number seat.old.me) }
        ensures seat { IsOrderlySeat self.now.table.shared.table_id self.now.sizes seat.new.table_id seat.new.me }
        ensures out { (message : List ℕ) × HasBufferOut self.now.sizes call.now (work.Take take_stage.Buffer) result message (seat_of call.now.who.number seat.new.me) }
        ensures done { HasDone D.row.coded D.meaning (Step (made.Buffer result) ∷ []) same_hands (seat_of call.now.who.number seat.old.me) (seat_of call.now.who.number seat.new.me) }
        ensures alone { StepsAlone D.row.coded D.meaning call.now.who.number (Steps call.now.who.number 0 None) seat.old.me seat.new.me }
    {
        let entry = self.load_entry(
            seat,
            call.who.number,
            call.who.end,
            Ring::Forward,
            call.handed,
        );
        (entry % 4_294_967_296) as u32
    }

    /// Step 5 of a take: its bytes are read into this message, and in its incarnation, live, it is handed
    /// to the caller, and the desk judges it.
    ///
    /// Errors: the era that was found, exactly where it is another or a closed one.
    pub(crate) fn hand_over(
        &self,
        seat: &mut LinkSeat,
        call: &TakeCall,
        buffer: u32,
        message: &mut Message,
    ) -> Result<Handing, Era>
        requires seat { IsOrderlySeat self.now.table.shared.table_id self.now.sizes seat.old.table_id seat.old.me }
        requires call { (said : List ℕ) × HasBufferOut self.now.sizes call.now (work.Take take_stage.Buffer) buffer said (seat_of call.now.who.number seat.old.me) }
        ensures seat { IsOrderlySeat self.now.table.shared.table_id self.now.sizes seat.new.table_id seat.new.me }
        ensures left { IsLeaving lane_turn.Receiver call.now.who.end (handing_end call.now.handed (took call.now.who message.new result)) (seat_of call.now.who.number seat.new.me) }
        ensures handed { IfOk (took call.now.who message.new result) (λ taken. (said : List ℕ) × IsHandedTo D.meaning call.now.who call.now.handed said taken
            × HasDone D.row.coded D.meaning (Step (made.Era (live_era call.now.who.follows)) ∷ Take call.now.who.end call.now.who.follows call.now.handed said ∷ []) (one_more call.now.handed) (seat_of call.now.who.number seat.old.me) (seat_of call.now.who.number seat.new.me)) }
        ensures dead { IfErr (took call.now.who message.new result) (λ era. (era ≢ live_era call.now.who.follows) × HasDone D.row.coded D.meaning (Step (made.Era era) ∷ []) same_hands (seat_of call.now.who.number seat.old.me) (seat_of call.now.who.number seat.new.me)) }
        ensures out { IfOk (took call.now.who message.new result) (λ taken. HasBufferOut self.now.sizes call.now (work.Take take_stage.Buffer) buffer taken.held.message (seat_of call.now.who.number seat.old.me)) }
        ensures alone { StepsAlone D.row.coded D.meaning call.now.who.number (Steps call.now.who.number 0 None) seat.old.me seat.new.me }
    {
        let who = call.who;
        let table = &self.table.shared;
        let slot = self.buffer_slot(who.end, buffer);
        read_message(seat.slot_mut(table, slot), message);
        let era = era_of(self.load_era(seat, who.number, EraUse::Hand));
        if is_live_in(era, who.follows) {
            let side = seat.slot_mut(table, receiver_slot(who.end));
            let verdict = self.judge(side, who.number, buffer, message);
            Ok(Handing {
                number: call.handed,
                buffer: (buffer % 65_536) as u16,
                verdict,
            })
        } else {
            Err(era)
        }
    }

    /// The desk judges the next message, which is in the caller's hands then.
    fn judge(&self, slot: &mut Slot, caller: CallerNo, buffer: u32, message: &Message) -> Verdict
        requires side { (x : ReceiverSide) × (slot.old ≡ Receiver x) × (x.handed < x.room) × (length x.hands < CAPACITY_MOST) × (x.desk.table ≡ table_at self.now.sizes.desks x.desk.end) }
        ensures judged { (x : ReceiverSide) (desk : D) → slot.old ≡ Receiver x → x.desk.code ≡ D.row.coded.code desk
            → (result ≡ D.meaning.verdict desk x.handed message.now) × (slot.new ≡ Receiver (handed_side D.row.coded D.meaning desk x caller buffer message.now)) }
    {
        let Slot::Receiver(side) = slot else {
            unreachable!()
        };
        let number = side.handed();
        side.hand_over(caller, buffer);
        match side.end() {
            End::Host => side.deliver(&self.host.shared, number, message),
            End::Remote => side.deliver(&self.remote.shared, number, message),
        }
    }
}
