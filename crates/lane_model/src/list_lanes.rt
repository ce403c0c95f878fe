ghost use Rattle.std.specs.Prelude.{◌≡◌, ◌≢◌, ℕ, ◌+◌, ◌<◌, ◌≤◌, List, length, IfOk, IsTrue, Some, None, vec_capacity};
ghost use Rattle.std.specs.Bool.{OnFalse, OnTrue};
ghost use Rattle.std.specs.Option.{option_map};
ghost use Rattle.rp_base.specs.declared.limits.TheConstants.{BOOK_MOST, CAPACITY_MOST, MESSAGE_MOST};
ghost use Rattle.lane_model.specs.Lanes.{is_live_in, holds, without, has_call, holder};
ghost use Rattle.lane_model.specs.Crashes.{ended_turn, other_holder, has_held, held_by_others, lesser, least_held};

use crate::MANAGER;
use crate::books::Book;
use crate::calls::{CallEnd, Step};
use crate::desks::Desk;
use crate::lane_forms::LaneForm;
use crate::recoveries::{LaneBook, LaneRoom};
use crate::stages::{GiveStage, Receiving, SendStage, TakeStage, Turn, Work};
use crate::states::Holding;
use rp_base::{CallerNo, Era, Inc, Message, NoMemory, Verdict};
use std::alloc::Global;
use std::marker::Model;
use std::mem;

/// A lane as lists: its book, to whom each message was handed, and what is held. It has no buffers.
#[derive(Drop)]
pub struct ListLane<D: Desk> {
    capacity: u64,
    accepted: Book,
    takers: Vec<CallerNo>,
    held: Vec<Holding>,
    returned: u64,
    sender: Turn<SendTurn>,
    outgoing: Message,
    receiver: Turn<Receiving>,
    incoming: Message,
    desk: D,
}

/// A send that has the sender's turn. Its message is the lane's `outgoing`, where it stays until it
/// is published.
#[derive(Clone, Copy)]
pub(crate) struct SendTurn {
    pub follows: Inc,
    pub stage: SendStage,
}

impl<D: Desk> Model for ListLane<D> {
    ghost use Rattle.lane_model.specs.declared.states.LaneState.{LaneState};

    ghost Value = { LaneState D };

    ghost use Rattle.lane_model.specs.ListLanes.{state_of, IsListInside};

    ghost view = { state_of };

    ghost invariant = { IsListInside };
}

impl<D: Desk> ListLane<D> {
    ghost use Rattle.lane_model.specs.declared.stages.Turn.TheVariants as turn;
    ghost use Rattle.lane_model.specs.declared.stages.SendStage.TheVariants as send_stage;
    ghost use Rattle.lane_model.specs.declared.stages.TakeStage.TheVariants as take_stage;
    ghost use Rattle.lane_model.specs.declared.stages.Work.TheVariants as work;
    ghost use Rattle.lane_model.specs.declared.stages.Receiving.{Receiving};
    ghost use Rattle.lane_model.specs.declared.stages.Sending.{Sending};
    ghost use Rattle.rp_base.specs.declared.kinds.Era.{Era};
    ghost use Rattle.lane_model.specs.declared.calls.CallEnd.{CallEnd};
    ghost use Rattle.lane_model.specs.declared.calls.CallEnd.TheVariants as call_end;
    ghost use Rattle.lane_model.specs.Lanes.{call_of, message_at};
    ghost use Rattle.lane_model.specs.Sends.{sender_step, with_accepted};
    ghost use Rattle.lane_model.specs.AtOnce.{SendsAtOnce, TakesAtOnce, took_next};
    ghost use Rattle.lane_model.specs.Receives.{receiver_step, after_handing, with_handed, with_returned};
    ghost use Rattle.lane_model.specs.Crashes.{opened_lane};
    ghost use Rattle.lane_model.specs.Conditions.{HasMessageAt, IsFitWork};
    ghost use Rattle.lane_model.specs.Answers.{outcome_of};

    /// An empty lane with so many buffers, and a book of so many messages. Takes all its room at once.
    pub fn make(alloc: Global, capacity: u16, book: u32, desk: D) -> Result<ListLane<D>, NoMemory>
        requires capacity { capacity ≤ CAPACITY_MOST }
        requires book { book ≤ BOOK_MOST }
        ensures { IfOk result (λ lane. lane ≡ opened_lane capacity book desk) }
    {
        Ok(ListLane {
            capacity: u64::from(capacity),
            accepted: Book::with_room(alloc, book)?,
            takers: Vec::with_capacity(alloc, book as usize)?,
            held: Vec::with_capacity(alloc, usize::from(capacity))?,
            returned: 0,
            sender: Turn::Free,
            outgoing: Message::empty(),
            receiver: Turn::Free,
            incoming: Message::empty(),
            desk,
        })
    }

    /// The stage of the send that has the sender's turn and whose end is not settled.
    pub fn send_stage(&self) -> Option<SendStage>
        ensures { result ≡ option_map (λ (s : Sending). s.stage) (call_of self.now.sender) }
    {
        match &self.sender {
            Turn::Taken(_, sending) => Some(sending.stage),
            Turn::Free | Turn::Leaving(_, _) | Turn::Manager => None,
        }
    }

    /// The message of the send that has the sender's turn.
    pub fn outgoing(&self) -> &Message
        ensures sent { (caller : ℕ) (s : Sending) → self.now.sender ≡ turn.Taken caller s → result.now ≡ s.message }
    {
        &self.outgoing
    }

    /// Whose the receiver's turn is, and for what call.
    pub fn receiver(&self) -> &Turn<Receiving>
        ensures { result.now ≡ self.now.receiver }
    {
        &self.receiver
    }

    /// Who has the sender's turn.
    pub fn sender_holder(&self) -> Option<CallerNo>
        ensures { result ≡ holder self.now.sender }
    {
        holder(&self.sender)
    }

    /// The desk that goes with the receiver's turn.
    pub fn desk(&self) -> &D
        ensures { result.now ≡ self.now.desk }
    {
        &self.desk
    }

    /// Step 3 of a send, which has found that so many buffers were given back.
    pub fn look_for_room(&mut self, returned: u64)
        requires found { returned ≡ self.old.lane.returned }
        requires turn { option_map (λ (s : Sending). s.stage) (call_of self.old.sender) ≡ Some send_stage.Era }
        ensures { (era : Era) → self.new ≡ (sender_step era self.old).state }
    {
        let Turn::Taken(caller, sending) = self.sender else {
            unreachable!();
        };
        let accepted = self.accepted.len();
        self.sender = if accepted == returned + self.capacity {
            Turn::Leaving(caller, CallEnd::NoBuffer(accepted, returned))
        } else if accepted == u64::from(self.accepted.room()) {
            Turn::Leaving(caller, CallEnd::BookFull(accepted))
        } else {
            Turn::Taken(caller, sending.at(SendStage::Look))
        };
    }

    /// Step 3 of a take, which has found that so many messages were accepted.
    pub fn look_for_message(&mut self, accepted: u64)
        requires found { accepted ≡ length self.old.lane.accepted }
        requires turn { option_map (λ (r : Receiving). r.work) (call_of self.old.receiver) ≡ Some (work.Take take_stage.Era) }
        ensures { (era : Era) → self.new ≡ (receiver_step D.meaning era self.old).state }
    {
        let Turn::Taken(caller, receiving) = self.receiver else {
            unreachable!();
        };
        if self.takers.len() as u64 == accepted {
            self.receiver = Turn::Leaving(caller, CallEnd::Empty(accepted));
        } else {
            self.work_on(caller, receiving.follows, Work::Take(TakeStage::Look));
        }
    }

    /// The handing, which is step 5 of a take in a live era: the desk judges the next message.
    pub fn hand(&mut self, message: &Message)
        requires found { message.now ≡ message_at self.old.lane.accepted (length self.old.lane.takers) }
        requires turn { option_map (λ (r : Receiving). r.work) (call_of self.old.receiver) ≡ Some (work.Take take_stage.Buffer) }
        ensures { (caller : ℕ) (r : Receiving) → self.old.receiver ≡ turn.Taken caller r → self.new ≡ after_handing D.meaning self.old caller }
    {
        let Turn::Taken(caller, _) = self.receiver else {
            unreachable!();
        };
        let verdict = self.desk.deliver(self.takers.len() as u64, message);
        self.record_handing(caller, verdict);
    }

    /// Whether a send is refused nowhere in a live era, by so many buffers that were given back.
    pub fn sends_at_once(&self, returned: u64) -> bool
        requires { returned ≡ self.now.lane.returned }
        ensures may { OnTrue result (SendsAtOnce self.now) }
        ensures refused { OnFalse result (SendsAtOnce self.now → ⊥) }
    {
        let accepted = self.accepted.len();
        matches!(self.sender, Turn::Free)
            && accepted != returned + self.capacity
            && accepted != u64::from(self.accepted.room())
    }

    /// Whether a take is refused nowhere in a live era, by so many messages that were accepted.
    pub fn takes_at_once(&self, accepted: u64) -> bool
        requires { accepted ≡ length self.now.lane.accepted }
        ensures may { OnTrue result (TakesAtOnce self.now) }
        ensures refused { OnFalse result (TakesAtOnce self.now → ⊥) }
    {
        matches!(self.receiver, Turn::Free) && self.takers.len() as u64 != accepted
    }

    /// Whether the receiver's turn is free.
    pub fn gives_at_once(&self) -> bool
        ensures may { OnTrue result (holder self.now.receiver ≡ None) }
        ensures refused { OnFalse result (holder self.now.receiver ≢ None) }
    {
        matches!(self.receiver, Turn::Free)
    }

    /// A message of this caller is in the book, by a whole send.
    pub fn accept_at_once(&mut self, caller: CallerNo, message: &Message)
        requires { SendsAtOnce self.old }
        ensures { self.new ≡ record self.old { lane = with_accepted self.old.lane caller message.now } }
    {
        self.accepted.push(caller, message.bytes());
    }

    /// The desk judges the next message, which is with this caller by a whole take. Then `end` says how
    /// the take ended.
    pub fn hand_at_once(&mut self, caller: CallerNo, message: &Message, end: &mut CallEnd)
        requires may { TakesAtOnce self.old }
        requires found { message.now ≡ message_at self.old.lane.accepted (length self.old.lane.takers) }
        ensures left { self.new ≡ record self.old {
          lane = with_handed self.old.lane caller;
          desk = D.meaning.delivered self.old.desk (length self.old.lane.takers) message.now;
        } }
        ensures end { end.new ≡ took_next D.meaning self.old }
    {
        let number = self.takers.len() as u64;
        *end = CallEnd::Took(number, self.desk.deliver(number, message));
        self.takers.push_reserved(caller);
        self.held.push_reserved(Holding { number, caller });
    }

    /// The buffer of the message of this number is back from this caller, by a whole give.
    pub fn return_at_once(&mut self, number: u64, caller: CallerNo)
        requires held { IsTrue (holds self.old.lane.held number caller) }
        requires may { holder self.old.receiver ≡ None }
        ensures { self.new ≡ record self.old { lane = with_returned self.old.lane number caller } }
    {
        let returned = self.returned + 1;
        remove_holding(&mut self.held, number, caller);
        self.returned = returned;
    }

    /// The next message is with this caller, by this verdict.
    fn record_handing(&mut self, caller: CallerNo, verdict: Verdict)
        requires { length self.old.lane.takers < length self.old.lane.accepted }
        ensures { self.new ≡ record self.old {
          lane = with_handed self.old.lane caller;
          receiver = turn.Leaving caller (call_end.Took (length self.old.lane.takers) verdict);
        } }
    {
        let number = self.takers.len() as u64;
        self.takers.push_reserved(caller);
        self.held.push_reserved(Holding { number, caller });
        self.receiver = Turn::Leaving(caller, CallEnd::Took(number, verdict));
    }

    /// The call that has the receiver's turn has done one step more.
    fn work_on(&mut self, caller: CallerNo, follows: Inc, work: Work)
        requires { IsFitWork work self.old.lane caller }
        ensures { self.new ≡ record self.old { receiver = turn.Taken caller (record { follows = follows; work = work }) } }
    {
        self.receiver = Turn::Taken(caller, Receiving { follows, work });
    }

    /// The end of the call that has the receiver's turn is settled.
    fn settle_receiver(&mut self, caller: CallerNo, end: CallEnd)
        ensures { self.new ≡ record self.old { receiver = turn.Leaving caller end } }
    {
        self.receiver = Turn::Leaving(caller, end);
    }

    fn send_on(&mut self, era: Era, caller: CallerNo, sending: SendTurn) -> Step
        requires { (message : List ℕ) × (self.old.sender ≡ turn.Taken caller (record { follows = sending.follows; message = message; stage = sending.stage })) }
        ensures left { self.new ≡ (sender_step era self.old).state }
        ensures outcome { (end : CallEnd) → outcome_of result end ≡ (sender_step era self.old).outcome }
    {
        match sending.stage {
            SendStage::Turn => {
                self.sender = if is_live_in(era, sending.follows) {
                    Turn::Taken(caller, sending.at(SendStage::Era))
                } else {
                    Turn::Leaving(caller, CallEnd::Dead(era))
                };
                Step::At(2)
            }
            SendStage::Era => {
                let returned = self.returned;
                self.look_for_room(returned);
                Step::At(3)
            }
            SendStage::Look => {
                self.sender = Turn::Taken(caller, sending.at(SendStage::Buffer));
                Step::At(4)
            }
            SendStage::Buffer => {
                self.sender = Turn::Taken(caller, sending.at(SendStage::Entry));
                Step::At(5)
            }
            SendStage::Entry => {
                let number = self.accepted.len();
                self.accepted.push(caller, self.outgoing.bytes());
                self.sender = Turn::Leaving(caller, CallEnd::Sent(number));
                Step::At(6)
            }
        }
    }

    fn take_on(&mut self, era: Era, caller: CallerNo, follows: Inc, stage: TakeStage) -> Step
        requires turn { self.old.receiver ≡ turn.Taken caller (record { follows = follows; work = work.Take stage }) }
        requires fit { HasMessageAt stage self.old.lane }
        ensures left { self.new ≡ (receiver_step D.meaning era self.old).state }
        ensures outcome { (end : CallEnd) → outcome_of result end ≡ (receiver_step D.meaning era self.old).outcome }
    {
        match stage {
            TakeStage::Turn => {
                if is_live_in(era, follows) {
                    self.work_on(caller, follows, Work::Take(TakeStage::Era));
                } else {
                    self.settle_receiver(caller, CallEnd::Dead(era));
                }
                Step::At(2)
            }
            TakeStage::Era => {
                let accepted = self.accepted.len();
                self.look_for_message(accepted);
                Step::At(3)
            }
            TakeStage::Look => {
                self.work_on(caller, follows, Work::Take(TakeStage::Buffer));
                Step::At(4)
            }
            TakeStage::Buffer => {
                if is_live_in(era, follows) {
                    self.hand_next();
                } else {
                    self.settle_receiver(caller, CallEnd::Dead(era));
                }
                Step::At(5)
            }
        }
    }

    /// Hands over the next message of the book.
    fn hand_next(&mut self)
        requires turn { option_map (λ (r : Receiving). r.work) (call_of self.old.receiver) ≡ Some (work.Take take_stage.Buffer) }
        ensures { (caller : ℕ) (r : Receiving) → self.old.receiver ≡ turn.Taken caller r → self.new ≡ after_handing D.meaning self.old caller }
    {
        let Turn::Taken(caller, _) = self.receiver else {
            unreachable!();
        };
        let number = self.takers.len() as u64;
        let Some(bytes) = self.accepted.message(number) else {
            unreachable!();
        };
        self.incoming.set(bytes, &[]);
        let verdict = self.desk.deliver(number, &self.incoming);
        self.record_handing(caller, verdict);
    }

    fn give_on(&mut self, caller: CallerNo, follows: Inc, number: u64, stage: GiveStage) -> Step
        requires turn { self.old.receiver ≡ turn.Taken caller (record { follows = follows; work = work.Give number stage }) }
        requires fit { IsTrue (holds self.old.lane.held number caller) }
        ensures left { (era : Era) → self.new ≡ (receiver_step D.meaning era self.old).state }
        ensures outcome { (era : Era) (end : CallEnd) → outcome_of result end ≡ (receiver_step D.meaning era self.old).outcome }
    {
        match stage {
            GiveStage::Turn => {
                self.work_on(caller, follows, Work::Give(number, GiveStage::Entry));
                Step::At(2)
            }
            GiveStage::Entry => {
                self.record_return(caller, number);
                Step::At(3)
            }
        }
    }

    /// The buffer of the message of this number is back from this caller.
    fn record_return(&mut self, caller: CallerNo, number: u64)
        requires { IsTrue (holds self.old.lane.held number caller) }
        ensures { self.new ≡ record self.old { lane = with_returned self.old.lane number caller; receiver = turn.Leaving caller (call_end.Gave number) } }
    {
        remove_holding(&mut self.held, number, caller);
        self.returned += 1;
        self.receiver = Turn::Leaving(caller, CallEnd::Gave(number));
    }

    fn bind_on(&mut self, era: Era, caller: CallerNo, follows: Inc, address: u32) -> Step
        requires { self.old.receiver ≡ turn.Taken caller (record { follows = follows; work = work.Bind address }) }
        ensures left { self.new ≡ (receiver_step D.meaning era self.old).state }
        ensures outcome { (end : CallEnd) → outcome_of result end ≡ (receiver_step D.meaning era self.old).outcome }
    {
        let end = if is_live_in(era, follows) {
            match self.desk.bind(address, self.takers.len() as u64) {
                Ok(endpoint) => CallEnd::Bound(endpoint),
                Err(fault) => CallEnd::Refused(fault),
            }
        } else {
            CallEnd::Dead(era)
        };
        self.settle_receiver(caller, end);
        Step::At(2)
    }

    fn unbind_on(&mut self, era: Era, caller: CallerNo, follows: Inc, address: u32) -> Step
        requires { self.old.receiver ≡ turn.Taken caller (record { follows = follows; work = work.Unbind address }) }
        ensures left { self.new ≡ (receiver_step D.meaning era self.old).state }
        ensures outcome { (end : CallEnd) → outcome_of result end ≡ (receiver_step D.meaning era self.old).outcome }
    {
        let end = if is_live_in(era, follows) {
            match self.desk.unbind(address) {
                Ok(endpoint) => CallEnd::Unbound(endpoint),
                Err(fault) => CallEnd::Refused(fault),
            }
        } else {
            CallEnd::Dead(era)
        };
        self.settle_receiver(caller, end);
        Step::At(2)
    }
}

impl SendTurn {
    /// The same send at another stage.
    fn at(self, stage: SendStage) -> SendTurn
        ensures { result ≡ record self { stage = stage } }
    {
        SendTurn {
            follows: self.follows,
            stage,
        }
    }
}

impl<D: Desk> LaneForm for ListLane<D> {
    ghost use Rattle.std.specs.Prelude.{refl};
    ghost use Rattle.lane_model.specs.Forms.{list_form};

    type Desk = D;

    ghost form = { list_form D.meaning };

    ghost is_form = { record {
      after_send_start = λ lane caller follows message. refl;
      after_receive_start = λ lane caller follows first. refl;
      sent_on = λ lane era. refl;
      received_on = λ lane era. refl;
      after_send_end = λ lane caller. refl;
      after_receive_end = λ lane caller. refl;
      link_after_reopen = λ lane. refl;
    } };

    fn is_sending(&self, caller: CallerNo) -> bool {
        match &self.sender {
            Turn::Taken(other, _) => *other == caller,
            Turn::Leaving(other, _) => *other == caller,
            Turn::Free | Turn::Manager => false,
        }
    }

    fn is_receiving(&self, caller: CallerNo) -> bool {
        has_call(&self.receiver, caller)
    }

    fn holds(&self, number: u64, caller: CallerNo) -> bool {
        holds(&self.held, number, caller)
    }

    fn accepted(&self) -> u64 {
        self.accepted.len()
    }

    fn handed(&self) -> u64 {
        self.takers.len() as u64
    }

    fn returned(&self) -> u64 {
        self.returned
    }

    fn message(&self, number: u64) -> Option<&[u8]> {
        self.accepted.message(number)
    }

    fn begin_send(
        &mut self,
        caller: CallerNo,
        follows: Inc,
        head: &[u8],
        body: &[u8],
    ) -> Option<CallerNo> {
        match &self.sender {
            Turn::Free => {}
            Turn::Taken(other, _) => return Some(*other),
            Turn::Leaving(other, _) => return Some(*other),
            Turn::Manager => return Some(MANAGER),
        }
        self.outgoing.set(head, body);
        self.sender = Turn::Taken(
            caller,
            SendTurn {
                follows,
                stage: SendStage::Turn,
            },
        );
        None
    }

    fn begin_receive(&mut self, caller: CallerNo, follows: Inc, first: Work) -> Option<CallerNo> {
        match &self.receiver {
            Turn::Free => {}
            Turn::Taken(other, _) => return Some(*other),
            Turn::Leaving(other, _) => return Some(*other),
            Turn::Manager => return Some(MANAGER),
        }
        self.work_on(caller, follows, first);
        None
    }

    fn advance_send(&mut self, era: Era, end: &mut CallEnd) -> Step {
        match self.sender {
            Turn::Taken(caller, sending) => self.send_on(era, caller, sending),
            Turn::Leaving(_, settled) => {
                *end = settled;
                self.sender = Turn::Free;
                Step::Ended
            }
            Turn::Free | Turn::Manager => unreachable!(),
        }
    }

    fn advance_receive(&mut self, era: Era, end: &mut CallEnd) -> Step {
        match self.receiver {
            Turn::Taken(caller, receiving) => {
                let follows = receiving.follows;
                match receiving.work {
                    Work::Take(stage) => self.take_on(era, caller, follows, stage),
                    Work::Give(number, stage) => self.give_on(caller, follows, number, stage),
                    Work::Bind(address) => self.bind_on(era, caller, follows, address),
                    Work::Unbind(address) => self.unbind_on(era, caller, follows, address),
                }
            }
            Turn::Leaving(_, settled) => {
                *end = settled;
                self.receiver = Turn::Free;
                Step::Ended
            }
            Turn::Free | Turn::Manager => unreachable!(),
        }
    }

    fn send_at_once(
        &mut self,
        _caller: CallerNo,
        _era: Era,
        _head: &[u8],
        _body: &[u8],
        _end: &mut CallEnd,
    ) -> bool {
        false
    }

    fn take_at_once(&mut self, _caller: CallerNo, _era: Era, _end: &mut CallEnd) -> bool {
        false
    }

    fn give_at_once(
        &mut self,
        _number: u64,
        _caller: CallerNo,
        _era: Era,
        _end: &mut CallEnd,
    ) -> bool {
        false
    }

    fn book(&self) -> u32 {
        self.accepted.room()
    }

    fn has_held(&self, caller: CallerNo) -> bool {
        has_held(&self.held, caller)
    }

    fn needed_holder(&self, caller: CallerNo) -> Option<CallerNo> {
        if has_held(&self.held, caller) {
            other_holder(&self.receiver, caller)
        } else {
            None
        }
    }

    fn turn_out(&self) -> Option<CallerNo> {
        match &self.sender {
            Turn::Free => holder(&self.receiver),
            Turn::Taken(other, _) => Some(*other),
            Turn::Leaving(other, _) => Some(*other),
            Turn::Manager => Some(MANAGER),
        }
    }

    fn least_held(&self) -> Option<Holding> {
        least_held(&self.held)
    }

    fn end_send(&mut self, caller: CallerNo) {
        if self.is_sending(caller) {
            self.sender = Turn::Free;
        }
    }

    fn end_receive(&mut self, caller: CallerNo) {
        self.receiver = ended_turn(self.receiver, caller);
        remove_holdings(&mut self.held, caller);
    }

    fn reopen(&mut self, room: LaneRoom) -> LaneBook {
        let (accepted, takers) = room.into_parts();
        let accepted = mem::replace(&mut self.accepted, accepted);
        let takers = mem::replace(&mut self.takers, takers);
        self.held.clear();
        self.returned = 0;
        self.sender = Turn::Free;
        self.receiver = Turn::Free;
        self.desk.reset();
        LaneBook { accepted, takers }
    }
}

/// A turn without the call of this caller.
fn ended_turn<C: Copy>(now: Turn<C>, caller: CallerNo) -> Turn<C>
    ensures { result ≡ ended_turn now caller }
{
    if has_call(&now, caller) {
        return Turn::Free;
    }
    now
}

/// Who has a turn.
fn holder<C>(now: &Turn<C>) -> Option<CallerNo>
    ensures { result ≡ holder now.now }
{
    match now {
        Turn::Free => None,
        Turn::Taken(other, _) => Some(*other),
        Turn::Leaving(other, _) => Some(*other),
        Turn::Manager => Some(MANAGER),
    }
}

/// Whether a call of this caller has a turn.
fn has_call<C>(now: &Turn<C>, caller: CallerNo) -> bool
    ensures { result ≡ has_call now.now caller }
{
    match now {
        Turn::Taken(other, _) => *other == caller,
        Turn::Leaving(other, _) => *other == caller,
        Turn::Free | Turn::Manager => false,
    }
}

/// Who else has a turn.
fn other_holder<C>(now: &Turn<C>, caller: CallerNo) -> Option<CallerNo>
    ensures { result ≡ other_holder now.now caller }
{
    if has_call(now, caller) {
        None
    } else {
        holder(now)
    }
}

/// Whether this caller holds some buffer.
fn has_held(held: &[Holding], caller: CallerNo) -> bool
    ensures { result ≡ has_held held.now caller }
{
    held.iter().any(|holding| holding.caller == caller)
}

/// The holding of the least number.
fn least_held(held: &[Holding]) -> Option<Holding>
    ensures { result ≡ least_held held.now }
{
    let mut least = None;
    for holding in held {
        least = lesser(least, *holding);
    }
    least
}

/// The holding of the lesser number.
fn lesser(least: Option<Holding>, holding: Holding) -> Option<Holding>
    ensures { result ≡ lesser least holding }
{
    match least {
        None => Some(holding),
        Some(found) => {
            if holding.number < found.number {
                Some(holding)
            } else {
                Some(found)
            }
        }
    }
}

/// Removes the holdings of this caller.
fn remove_holdings(held: &mut Vec<Holding>, caller: CallerNo)
    ensures rest { held.new.items ≡ held_by_others held.old.items caller }
    ensures room { vec_capacity held.new ≡ vec_capacity held.old }
{
    held.retain(|holding| !(holding.caller == caller));
}

/// Whether this caller has the holding of this number.
fn holds(held: &[Holding], number: u64, caller: CallerNo) -> bool
    ensures { result ≡ holds held.now number caller }
{
    held.iter().any(|holding| holding.number == number && holding.caller == caller)
}

/// Removes the holding of this number in the hands of this caller.
fn remove_holding(held: &mut Vec<Holding>, number: u64, caller: CallerNo)
    ensures rest { held.new.items ≡ without held.old.items number caller }
    ensures room { vec_capacity held.new ≡ vec_capacity held.old }
{
    held.retain(|holding| !(holding.number == number && holding.caller == caller));
}

/// Whether the era is this incarnation, live.
fn is_live_in(era: Era, inc: Inc) -> bool
    ensures { result ≡ is_live_in era inc }
{
    era.inc == inc && era.is_live
}
