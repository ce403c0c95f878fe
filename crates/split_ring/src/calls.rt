//! A call taken step by step: in which phase it is, and one step of it.
ghost use Rattle.std.specs.Prelude.{◌≡◌, ◌≢◌, ◌+◌, ◌∷◌, [], ◌<◌, ℕ, None, Some, Err, is_some, option_and_then, option_copied, true};
ghost use Rattle.rp_base.specs.declared.limits.TheConstants.{CALLERS_MOST};
ghost use Rattle.lane_model.specs.declared.calls.Answer.TheVariants as answer;
ghost use Rattle.lane_model.specs.declared.calls.Ask.{Ask};
ghost use Rattle.lane_model.specs.declared.calls.Ask.TheVariants as ask;
ghost use Rattle.lane_model.specs.declared.calls.Progress.TheVariants as progress;
ghost use Rattle.lane_model.specs.declared.calls.Step.TheVariants as done;
ghost use Rattle.lane_model.specs.declared.calls.Wish.TheVariants as wish;
ghost use Rattle.lane_model.specs.declared.lane_links.LaneLink.{LaneLink};
ghost use Rattle.lane_model.specs.declared.stages.GiveStage.TheVariants as give_stage;
ghost use Rattle.lane_model.specs.declared.stages.TakeStage.TheVariants as take_stage;
ghost use Rattle.lane_model.specs.HeldBuffers.{HeldBuffer};
ghost use Rattle.lane_model.specs.Answers.{busy_answer, given_back, wish_of};
ghost use Rattle.lane_model.specs.Links.{form_step};
ghost use Rattle.ring_core.specs.declared.states.RingState.{RingState};
ghost use Rattle.ring_core.specs.RingSteps.{ring_form};
ghost use Rattle.link_words.specs.declared.rule.Event.TheVariants as event;
ghost use Rattle.link_words.specs.declared.rule.Made.TheVariants as made;
ghost use Rattle.link_words.specs.Calls.{SeatState};
ghost use Rattle.link_words.specs.Deeds.{after_deed};
ghost use Rattle.link_words.specs.PlacedLinks.{KnowsState};
ghost use Rattle.split_ring.specs.CallPhases as in_phase;
ghost use Rattle.split_ring.specs.Calls.{call_end, deed_of, send_answer, take_answer, desk_said, hands_in, IsInPhase, IsOwnAsk, IsShort, IsPath, Advances};
ghost use Rattle.split_ring.specs.Callers.{IsAdvanced, MayAdvance, StepNotBelow, TakesStep};
ghost use Rattle.split_ring.specs.declared.callers.CallerId.{CallerId};
ghost use Rattle.split_ring.specs.declared.callers.Manager.{Manager};
ghost use Rattle.split_ring.specs.Carried.{MayAdvanceBy, MayAskBy};
ghost use Rattle.split_ring.specs.Focus.{IsOrderlySeat, StaysAlone, StepsAlone, seat_of};
ghost use Rattle.split_ring.specs.Handed.{HandsBufferOf, StepsLanes};
ghost use Rattle.split_ring.specs.Phases.{IsNext, IsUnderWay, IsUnsettled, KeepsBuffer, answer_in, asked_side, give_phase, give_steps, phase_behind, outcome_said, progress_of, send_phase, send_steps, settled_end, side_of, steps_in, take_phase, take_steps, wished_in};
ghost use Rattle.split_ring.specs.Seats.{pass_in};
ghost use Rattle.split_ring.specs.Stages.{answer_buffer};
ghost use Rattle.split_ring.specs.declared.takes.TakeCall.{TakeCall};
ghost use Rattle.split_ring.specs.Turns.{HasBegun};
ghost use Rattle.split_ring.specs.Walks.{HasDone, same_hands};

use crate::binds::{DeskAsk, DeskFault, desk_result};
use crate::callers::{Caller, CallerId};
use crate::held_places::HeldPlace;
use crate::links::SharedLink;
use crate::sends::{SendCall, SendFault};
use crate::stages::{Phase, Request, Stage};
use crate::takes::{TakeCall, TakeFault};
use crate::turns::other;
use lane_model::{
    Ask, CallEnd, Desk, GiveStage, LaneTurn, Progress, SendStage, Step, TakeStage, Wish,
};
use link_words::LinkSeat;
use rp_base::{CallerNo, Endpoint, Message};
use std::marker::PhantomData;

/// A call of a caller from its beginning to its end, of which one step is taken at a time.
#[derive(Drop)]
pub struct RingCall<D: Desk> {
    pub(crate) phase: Phase,
    marker: PhantomData<D>,
}

impl<D: Desk> RingCall<D> {
    /// A call that has ended. Another begins in its place with `ask` or `give`.
    pub fn ended() -> RingCall<D>
        ensures { result.phase ≡ in_phase.Ended }
    {
        RingCall {
            phase: Phase::ended(),
            marker: PhantomData,
        }
    }

    /// Begins a call here that asks for what is wished, anything but to give a buffer back, and has done no step yet.
    pub fn ask(&mut self, wished: &Wish)
        requires { (number : ℕ) → wished.now ≢ wish.Give number }
        ensures { (asked : Ask) × (self.new.phase ≡ in_phase.Asked asked) × (wish_of asked ≡ wished.now) × (given_back asked ≡ None) }
    {
        self.phase.ask(wished);
    }

    /// Begins a call here that gives back the buffer in this place, and has done no step yet.
    pub fn give(&mut self, held: &HeldPlace)
        ensures { self.new.phase ≡ in_phase.Asked (ask.Give held.now) }
    {
        self.phase.give(held);
    }

    /// How the call ends, once that is settled: its next step is the last one.
    pub fn settled(&self) -> Option<CallEnd>
        ensures { result ≡ settled_end self.now.phase }
    {
        self.phase.settled()
    }

    /// Whether it is settled how the call ends.
    pub fn is_settled(&self) -> bool
        ensures { result ≡ is_some (settled_end self.now.phase) }
    {
        self.phase.is_settled()
    }

    /// The buffer that its caller is handed, or has back, by the answer that is settled.
    pub fn held(&self) -> Option<&HeldPlace>
        ensures { option_copied result ≡ option_and_then answer_buffer (answer_in self.now.phase) }
    {
        self.phase.held()
    }
}

/// What a step says that left its call in this phase. Where it ended the call, the answer goes out of it.
pub(crate) fn progress_of(step: Step, phase: &mut Phase) -> Progress
    requires { step ≡ done.Ended → is_some (settled_end phase.old) ≡ true }
    ensures said { result ≡ progress_of step phase.old }
    ensures left { phase.new ≡ phase_behind step phase.old }
{
    match step {
        Step::At(number) => Progress::At(number),
        Step::Ended => {
            let answer = phase.answer();
            phase.stage = Stage::Ended;
            Progress::Done(answer)
        }
    }
}

/// Another had the turn of a call that has done no step, which ends it.
fn refuse(phase: &mut Phase, holder: CallerNo)
    requires { (asked : Ask) × (phase.old ≡ in_phase.Asked asked) }
    ensures { (asked : Ask) → phase.old ≡ in_phase.Asked asked → phase.new ≡ in_phase.LeavesReceiver (busy_answer holder (Some asked)) }
{
    phase.stage = match phase.stage {
        Stage::Asked(Request::Give) => Stage::HandsBack(holder),
        _ => Stage::LeavesReceiver(CallEnd::Busy(holder)),
    };
}

/// The end of a send is settled.
fn settle_send(phase: &mut Phase, sent: Result<u64, SendFault>)
    ensures { phase.new ≡ in_phase.LeavesSender (send_answer sent) }
{
    phase.stage = Stage::LeavesSender(match sent {
        Ok(number) => CallEnd::Sent(number),
        Err(SendFault::Busy(holder)) => CallEnd::Busy(holder),
        Err(SendFault::Dead(era)) => CallEnd::Dead(era),
        Err(SendFault::NoBuffer(accepted, returned)) => CallEnd::NoBuffer(accepted, returned),
        Err(SendFault::BookFull(accepted)) => CallEnd::BookFull(accepted),
    });
}

/// A take is settled that is handed nothing.
fn settle_take(phase: &mut Phase, fault: TakeFault)
    ensures { phase.new ≡ in_phase.LeavesReceiver (take_answer (Err fault)) }
{
    phase.stage = Stage::LeavesReceiver(match fault {
        TakeFault::Busy(holder) => CallEnd::Busy(holder),
        TakeFault::Dead(era) => CallEnd::Dead(era),
        TakeFault::Empty(accepted) => CallEnd::Empty(accepted),
    });
}

/// A give is settled: the buffer of the message of this number is back.
fn settle_give(phase: &mut Phase, number: u64)
    ensures { phase.new ≡ in_phase.LeavesReceiver (answer.Gave number) }
{
    phase.stage = Stage::LeavesReceiver(CallEnd::Gave(number));
}

/// A binding or an unbinding is settled.
fn settle_desk(phase: &mut Phase, asked: DeskAsk, answer: Result<Endpoint, DeskFault>)
    ensures { phase.new ≡ in_phase.LeavesReceiver (desk_said asked answer) }
{
    phase.stage = Stage::LeavesReceiver(match answer {
        Ok(endpoint) => match asked {
            DeskAsk::Bind(_) => CallEnd::Bound(endpoint),
            DeskAsk::Unbind(_) => CallEnd::Unbound(endpoint),
        },
        Err(DeskFault::Busy(holder)) => CallEnd::Busy(holder),
        Err(DeskFault::Dead(era)) => CallEnd::Dead(era),
        Err(DeskFault::Bind(fault)) => CallEnd::Refused(fault),
    });
}

impl<D: Desk> SharedLink<D> {
    /// A call that asks this, which has done no step yet. It follows the incarnation that its caller follows.
    pub fn begin_call(&self, ask: Ask) -> RingCall<D>
        ensures asked { result.phase ≡ in_phase.Asked ask }
        ensures carried { (manager : Manager) (who : CallerId) → MayAskBy self.now manager who ask → MayAdvanceBy self.now manager who result }
    {
        RingCall {
            phase: Phase::asked(ask),
            marker: PhantomData,
        }
    }

    /// One step of a call: one load, store or exchange of a word, with what belongs to it. Where another has
    /// the turn the first step ends the call; a refusal makes the leave the next step, and the leave ends it.
    pub fn advance_call(&self, caller: &mut Caller, call: &mut RingCall<D>) -> Progress
        requires { MayAdvance self.now caller.old call.old }
        ensures caller { (caller.new.id ≡ caller.old.id) × IsAdvanced self.now caller.new call.new result }
        ensures step { TakesStep D.row.coded D.meaning self.now caller.old call.old result caller.new call.new }
        ensures seen { StepNotBelow D.row.coded D.meaning self.now caller.old call.old result caller.new }
    {
        let step = self.step_on(&mut caller.seat, caller.id, &mut call.phase);
        progress_of(step, &mut call.phase)
    }

    /// The next step of the call of a seat in this phase, which it leaves in place. A step that ends the call leaves its answer there.
    pub(crate) fn step_on(&self, seat: &mut LinkSeat, who: CallerId, phase: &mut Phase) -> Step
        requires seat { IsOrderlySeat self.now.table.shared.table_id self.now.sizes seat.old.table_id seat.old.me }
        requires number { ((pass_in (seat_of who.number seat.old.me)).number ≡ who.number) × (who.number < CALLERS_MOST) }
        requires stands { IsInPhase self.now.sizes who phase.old (seat_of who.number seat.old.me) }
        ensures seat { IsOrderlySeat self.now.table.shared.table_id self.now.sizes seat.new.table_id seat.new.me }
        ensures step { Advances D.row.coded D.meaning self.now.sizes who phase.old (progress_of result phase.new) (phase_behind result phase.new) (seat_of who.number seat.old.me) (seat_of who.number seat.new.me) }
        ensures alone { StepsAlone D.row.coded D.meaning who.number (deed_of who phase.old) seat.old.me seat.new.me }
        ensures next { IsNext who.end phase.old (progress_of result phase.new) (phase_behind result phase.new) }
        ensures said { (m : LaneLink (RingState D)) → KnowsState D.row.coded seat.old.me.0 m → outcome_said (progress_of result phase.new) ≡ (form_step (ring_form D.meaning) D.meaning m who.number who.follows (wished_in phase.old)).outcome }
        ensures lanes { (m : LaneLink (RingState D)) → KnowsState D.row.coded seat.old.me.0 m → StepsLanes who (phase_behind result phase.new) m (after_deed D.meaning m (deed_of who phase.old)) }
    {
        let number = phase.steps() + 1;
        let Phase { stage, place } = phase;
        match stage {
            Stage::Asked(_) => return self.first_step(seat, who, phase),
            Stage::Sends(stage, call) => {
                if let Some(sent) = self.send_step(seat, who, stage, call, &place.message) {
                    settle_send(phase, sent);
                }
            }
            Stage::Takes(TakeStage::Buffer, _, _) => self.hand_step(seat, who, phase),
            Stage::Takes(stage, call, buffer) => {
                if let Some(fault) = self.take_step(seat, who, stage, call, buffer) {
                    settle_take(phase, fault);
                }
            }
            Stage::Gives(stage, returned) => {
                if let Some(given) = self.give_step(seat, who, stage, place, returned) {
                    settle_give(phase, given);
                }
            }
            Stage::Asks(asked) => {
                let asked = *asked;
                self.desk_step(seat, who, asked, phase);
            }
            Stage::LeavesSender(_) => {
                self.leave(seat, who.number, other(who.end), LaneTurn::Sender);
                return Step::Ended;
            }
            Stage::LeavesReceiver(_) => {
                self.leave(seat, who.number, who.end, LaneTurn::Receiver);
                return Step::Ended;
            }
            Stage::HandsBack(_) => {
                self.leave(seat, who.number, who.end, LaneTurn::Receiver);
                return Step::Ended;
            }
            Stage::Ended => unreachable!(),
        }
        Step::At(number)
    }

    /// The first step of a call.
    #[inline(never)]
    fn first_step(&self, seat: &mut LinkSeat, who: CallerId, phase: &mut Phase) -> Step
        requires seat { IsOrderlySeat self.now.table.shared.table_id self.now.sizes seat.old.table_id seat.old.me }
        requires number { ((pass_in (seat_of who.number seat.old.me)).number ≡ who.number) × (who.number < CALLERS_MOST) }
        requires stands { (asked : Ask) × (phase.old ≡ in_phase.Asked asked) × IsInPhase self.now.sizes who (in_phase.Asked asked) (seat_of who.number seat.old.me) }
        ensures seat { IsOrderlySeat self.now.table.shared.table_id self.now.sizes seat.new.table_id seat.new.me }
        ensures step { Advances D.row.coded D.meaning self.now.sizes who phase.old (progress_of result phase.new) (phase_behind result phase.new) (seat_of who.number seat.old.me) (seat_of who.number seat.new.me) }
        ensures alone { StepsAlone D.row.coded D.meaning who.number (deed_of who phase.old) seat.old.me seat.new.me }
        ensures next { IsNext who.end phase.old (progress_of result phase.new) (phase_behind result phase.new) }
        ensures said { (m : LaneLink (RingState D)) → KnowsState D.row.coded seat.old.me.0 m → outcome_said (progress_of result phase.new) ≡ (form_step (ring_form D.meaning) D.meaning m who.number who.follows (wished_in phase.old)).outcome }
        ensures lanes { (m : LaneLink (RingState D)) → KnowsState D.row.coded seat.old.me.0 m → StepsLanes who (phase_behind result phase.new) m (after_deed D.meaning m (deed_of who phase.old)) }
    {
        let wish = phase.intent();
        match self.enter(seat, who, wish) {
            Ok(()) => {
                self.begin_turn(seat, who, phase);
                Step::At(1)
            }
            Err(holder) => {
                refuse(phase, holder);
                Step::Ended
            }
        }
    }

    /// A call has its turn.
    fn begin_turn(&self, seat: &mut LinkSeat, who: CallerId, phase: &mut Phase)
        requires seat { IsOrderlySeat self.now.table.shared.table_id self.now.sizes seat.old.table_id seat.old.me }
        requires asked { (asked : Ask) × (phase.old ≡ in_phase.Asked asked) × HasBegun who (wish_of asked) (seat_of who.number seat.old.me) × IsOwnAsk who asked (seat_of who.number seat.old.me) }
        ensures seat { IsOrderlySeat self.now.table.shared.table_id self.now.sizes seat.new.table_id seat.new.me }
        ensures stands { IsInPhase self.now.sizes who phase.new (seat_of who.number seat.new.me) }
        ensures still { HasDone D.row.coded D.meaning [] same_hands (seat_of who.number seat.old.me) (seat_of who.number seat.new.me) }
        ensures hands { hands_in phase.new ≡ same_hands }
        ensures path { (asked : Ask) (start : SeatState) → phase.old ≡ in_phase.Asked asked → IsPath D.row.coded D.meaning self.now.sizes who asked phase.new (event.Step (made.Turn 0) ∷ []) start (seat_of who.number seat.new.me) }
        ensures stays { StaysAlone who.number seat.old.me seat.new.me }
        ensures next { (asked : Ask) → phase.old ≡ in_phase.Asked asked → (side_of who.end phase.new ≡ asked_side who.end asked) × IsUnderWay phase.new }
        ensures unsettled { IsUnsettled phase.new }
        ensures buffer { KeepsBuffer phase.old phase.new }
    {
        let Phase { stage, place } = phase;
        match stage {
            Stage::Asked(Request::Send) => {
                let call = self.send_begun(seat, who, &place.message);
                *stage = Stage::Sends(SendStage::Turn, call);
            }
            Stage::Asked(Request::Take) => {
                let call = self.take_begun(seat, who);
                *stage = Stage::Takes(TakeStage::Turn, call, 0);
            }
            Stage::Asked(Request::Give) => *stage = Stage::Gives(GiveStage::Turn, 0),
            Stage::Asked(Request::Bind(address)) => {
                let asked = DeskAsk::Bind(*address);
                *stage = Stage::Asks(asked);
            }
            Stage::Asked(Request::Unbind(address)) => {
                let asked = DeskAsk::Unbind(*address);
                *stage = Stage::Asks(asked);
            }
            _ => unreachable!(),
        }
    }

    /// A later step of a send: how it ends, once that is settled.
    fn send_step(
        &self,
        seat: &mut LinkSeat,
        who: CallerId,
        stage: &mut SendStage,
        call: &mut SendCall,
        message: &Message,
    ) -> Option<Result<u64, SendFault>>
        requires seat { IsOrderlySeat self.now.table.shared.table_id self.now.sizes seat.old.table_id seat.old.me }
        requires stands { IsInPhase self.now.sizes who (in_phase.Sends stage.old call.old message.now) (seat_of who.number seat.old.me) }
        ensures seat { IsOrderlySeat self.now.table.shared.table_id self.now.sizes seat.new.table_id seat.new.me }
        ensures step { Advances D.row.coded D.meaning self.now.sizes who (in_phase.Sends stage.old call.old message.now) (progress.At (send_steps stage.old + 1)) (send_phase result stage.new call.new message.now) (seat_of who.number seat.old.me) (seat_of who.number seat.new.me) }
        ensures alone { StepsAlone D.row.coded D.meaning who.number (deed_of who (in_phase.Sends stage.old call.old message.now)) seat.old.me seat.new.me }
        ensures next { IsNext who.end (in_phase.Sends stage.old call.old message.now) (progress.At (send_steps stage.old + 1)) (send_phase result stage.new call.new message.now) }
    {
        match stage {
            SendStage::Turn => match self.find_send_era(seat, call) {
                Ok(()) => *stage = SendStage::Era,
                Err(era) => return Some(Err(SendFault::Dead(era))),
            },
            SendStage::Era => match self.look_for_room(seat, call) {
                Ok(()) => *stage = SendStage::Look,
                Err(fault) => return Some(Err(fault)),
            },
            SendStage::Look => {
                call.buffer = self.take_free(seat, call);
                *stage = SendStage::Buffer;
            }
            SendStage::Buffer => {
                self.store_message(seat, call, message);
                *stage = SendStage::Entry;
            }
            SendStage::Entry => {
                self.publish_message(seat, call, message);
                return Some(Ok(call.accepted));
            }
        }
        None
    }

    /// A later step of a take but the handing: why it ends, once that is settled.
    fn take_step(
        &self,
        seat: &mut LinkSeat,
        who: CallerId,
        stage: &mut TakeStage,
        call: &TakeCall,
        buffer: &mut u32,
    ) -> Option<TakeFault>
        requires seat { IsOrderlySeat self.now.table.shared.table_id self.now.sizes seat.old.table_id seat.old.me }
        requires early { stage.old ≢ take_stage.Buffer }
        requires stands { IsInPhase self.now.sizes who (in_phase.Takes stage.old call.now buffer.old) (seat_of who.number seat.old.me) }
        ensures seat { IsOrderlySeat self.now.table.shared.table_id self.now.sizes seat.new.table_id seat.new.me }
        ensures step { Advances D.row.coded D.meaning self.now.sizes who (in_phase.Takes stage.old call.now buffer.old) (progress.At (take_steps stage.old + 1)) (take_phase result stage.new call.now buffer.new) (seat_of who.number seat.old.me) (seat_of who.number seat.new.me) }
        ensures alone { StepsAlone D.row.coded D.meaning who.number (deed_of who (in_phase.Takes stage.old call.now buffer.old)) seat.old.me seat.new.me }
        ensures next { IsNext who.end (in_phase.Takes stage.old call.now buffer.old) (progress.At (take_steps stage.old + 1)) (take_phase result stage.new call.now buffer.new) }
        ensures nothing { HandsBufferOf self.now.sizes call.now buffer.old (take_phase result stage.new call.now buffer.new) (seat_of who.number seat.old.me) }
    {
        match stage {
            TakeStage::Turn => match self.find_take_era(seat, call) {
                Ok(()) => *stage = TakeStage::Era,
                Err(era) => return Some(TakeFault::Dead(era)),
            },
            TakeStage::Era => match self.look_for_message(seat, call) {
                Ok(()) => *stage = TakeStage::Look,
                Err(accepted) => return Some(TakeFault::Empty(accepted)),
            },
            TakeStage::Look => {
                *buffer = self.take_filled(seat, call);
                *stage = TakeStage::Buffer;
            }
            TakeStage::Buffer => unreachable!(),
        }
        None
    }

    /// The handing of a take, which settles its end.
    #[inline(never)]
    fn hand_step(&self, seat: &mut LinkSeat, who: CallerId, phase: &mut Phase)
        requires seat { IsOrderlySeat self.now.table.shared.table_id self.now.sizes seat.old.table_id seat.old.me }
        requires last { (call : TakeCall) × (buffer : ℕ) × (phase.old ≡ in_phase.Takes take_stage.Buffer call buffer) }
        requires stands { IsInPhase self.now.sizes who phase.old (seat_of who.number seat.old.me) }
        ensures seat { IsOrderlySeat self.now.table.shared.table_id self.now.sizes seat.new.table_id seat.new.me }
        ensures step { Advances D.row.coded D.meaning self.now.sizes who phase.old (progress.At 5) phase.new (seat_of who.number seat.old.me) (seat_of who.number seat.new.me) }
        ensures alone { StepsAlone D.row.coded D.meaning who.number (deed_of who phase.old) seat.old.me seat.new.me }
        ensures next { IsNext who.end phase.old (progress.At 5) phase.new }
        ensures handed { (call : TakeCall) (buffer : ℕ) → phase.old ≡ in_phase.Takes take_stage.Buffer call buffer → HandsBufferOf self.now.sizes call buffer phase.new (seat_of who.number seat.old.me) }
    {
        let Phase { stage, place } = phase;
        let (call, buffer) = match stage {
            Stage::Takes(_, call, buffer) => (*call, *buffer),
            _ => unreachable!(),
        };
        let handing = match self.hand_over(seat, &call, buffer, &mut place.message) {
            Ok(handing) => handing,
            Err(era) => {
                *stage = Stage::LeavesReceiver(CallEnd::Dead(era));
                return;
            }
        };
        let end = CallEnd::Took(handing.number, handing.verdict);
        place.hold(call.who, handing);
        *stage = Stage::LeavesReceiver(end);
    }

    /// A later step of a give: the number of its message, once its end is settled.
    fn give_step(
        &self,
        seat: &mut LinkSeat,
        who: CallerId,
        stage: &mut GiveStage,
        held: &HeldPlace,
        returned: &mut u64,
    ) -> Option<u64>
        requires seat { IsOrderlySeat self.now.table.shared.table_id self.now.sizes seat.old.table_id seat.old.me }
        requires stands { IsInPhase self.now.sizes who (in_phase.Gives stage.old held.now returned.old) (seat_of who.number seat.old.me) }
        ensures seat { IsOrderlySeat self.now.table.shared.table_id self.now.sizes seat.new.table_id seat.new.me }
        ensures step { Advances D.row.coded D.meaning self.now.sizes who (in_phase.Gives stage.old held.now returned.old) (progress.At (give_steps stage.old + 1)) (give_phase result stage.new held.now returned.new) (seat_of who.number seat.old.me) (seat_of who.number seat.new.me) }
        ensures alone { StepsAlone D.row.coded D.meaning who.number (deed_of who (in_phase.Gives stage.old held.now returned.old)) seat.old.me seat.new.me }
        ensures next { IsNext who.end (in_phase.Gives stage.old held.now returned.old) (progress.At (give_steps stage.old + 1)) (give_phase result stage.new held.now returned.new) }
    {
        let number = held.number();
        match stage {
            GiveStage::Turn => {
                *returned = self.store_given(seat, who, number);
                *stage = GiveStage::Entry;
                None
            }
            GiveStage::Entry => {
                self.publish_given(seat, who, number, *returned);
                Some(number)
            }
        }
    }

    /// The second step of a binding or an unbinding, which settles its end.
    #[inline(never)]
    fn desk_step(&self, seat: &mut LinkSeat, who: CallerId, asked: DeskAsk, phase: &mut Phase)
        requires seat { IsOrderlySeat self.now.table.shared.table_id self.now.sizes seat.old.table_id seat.old.me }
        requires stands { IsInPhase self.now.sizes who (in_phase.Asks asked) (seat_of who.number seat.old.me) }
        ensures seat { IsOrderlySeat self.now.table.shared.table_id self.now.sizes seat.new.table_id seat.new.me }
        ensures step { Advances D.row.coded D.meaning self.now.sizes who (in_phase.Asks asked) (progress.At 2) phase.new (seat_of who.number seat.old.me) (seat_of who.number seat.new.me) }
        ensures alone { StepsAlone D.row.coded D.meaning who.number (deed_of who (in_phase.Asks asked)) seat.old.me seat.new.me }
        ensures next { IsNext who.end (in_phase.Asks asked) (progress.At 2) phase.new }
    {
        let answer = desk_result(self.ask_desk(seat, who, asked));
        settle_desk(phase, asked, answer);
    }
}
