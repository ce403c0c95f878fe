//! Whole calls of a managed link: each is its steps, made in one run where that is shorter.
ghost use Rattle.std.specs.Prelude.{◌≡◌, ◌∷◌, ◌++◌, ◌+◌, ◌<◌, ◌≤◌, ◌^◌, ℕ, [], length, map, Some, MatchResult, vec_capacity};
ghost use Rattle.lane_model.specs.declared.calls.Wish.TheVariants as wish;
ghost use Rattle.lane_model.specs.AtOnce.{FormEndsIn};
ghost use Rattle.lane_model.specs.Conditions.{MayStep};
ghost use Rattle.lane_model.specs.HeldBuffers.{HeldBuffer};
ghost use Rattle.split_ring.specs.Calls.{call_end, give_answer, send_answer, take_answer};
ghost use Rattle.split_ring.specs.Receives.{given_of, lane_number, took};
ghost use Rattle.channel_bus.specs.Sides.{side_meaning};
ghost use Rattle.managed_link.specs.Hands.{AreSome, holding_of};
ghost use Rattle.managed_link.specs.Known.{lists_of, on_rings};
ghost use Rattle.managed_link.specs.Settles.{HasRoomFor, held_behind, incoming_view, outgoing_view};
ghost use Rattle.managed_link.specs.Taken.{HoldsTaken};

use crate::hands::{Hand, HeldSlot, drop_hand};
use crate::links::ManagedLink;
use crate::views::LaneView;
use lane_model::{CallEnd, Step, Wish};
use rp_base::{CallerNo, End, Inc, Message};
use split_ring::{CallerId, Handing, HeldPlace, SendFault, TakeFault};

impl ManagedLink {
    /// A whole call of this caller; `steps` counts its steps. Then `end` says how it ended.
    pub fn call(
        &mut self,
        caller: CallerNo,
        follows: Inc,
        wished: &Wish,
        steps: &mut u64,
        end: &mut CallEnd,
    )
        requires may { MayStep (lists_of self.old) caller (Some wished.now) }
        requires steps { steps.old < 2 ^ 60 }
        ensures few { steps.new ≤ steps.old + 7 }
        ensures whole { (behind : ℕ) × (steps.new ≡ steps.old + behind + 1) × FormEndsIn behind on_rings side_meaning self.old caller follows (Some wished.now) self.new end.new }
        ensures taken { HoldsTaken (lists_of self.new) caller end.new }
    {
        match wished {
            Wish::Send(message) => self.send(caller, follows, message, steps, end),
            Wish::Take => self.take(caller, follows, steps, end),
            Wish::Give(number) => self.give(caller, follows, *number, steps, end),
            Wish::Bind(_) | Wish::Unbind(_) => self.walk(caller, follows, wished, steps, end),
        }
    }

    /// A whole send of this caller.
    pub fn send(
        &mut self,
        caller: CallerNo,
        follows: Inc,
        message: &Message,
        steps: &mut u64,
        end: &mut CallEnd,
    )
        requires may { MayStep (lists_of self.old) caller (Some (wish.Send message.now)) }
        requires steps { steps.old < 2 ^ 60 }
        ensures few { steps.new ≤ steps.old + 7 }
        ensures whole { (behind : ℕ) × (steps.new ≡ steps.old + behind + 1) × FormEndsIn behind on_rings side_meaning self.old caller follows (Some (wish.Send message.now)) self.new end.new }
        ensures taken { HoldsTaken (lists_of self.new) caller end.new }
    {
        let sent = self
            .shared
            .send_by(&mut self.manager, caller, follows, message, steps);
        *end = match self.manager.end_of(caller) {
            Some(End::Host) => sent_end(sent, &mut self.to_remote),
            Some(End::Remote) => sent_end(sent, &mut self.to_host),
            None => unreachable!(),
        };
    }

    /// A whole take of this caller.
    #[inline(never)]
    fn take(&mut self, caller: CallerNo, follows: Inc, steps: &mut u64, end: &mut CallEnd)
        requires may { MayStep (lists_of self.old) caller (Some wish.Take) }
        requires steps { steps.old < 2 ^ 60 }
        ensures few { steps.new ≤ steps.old + 6 }
        ensures whole { (behind : ℕ) × (steps.new ≡ steps.old + behind + 1) × FormEndsIn behind on_rings side_meaning self.old caller follows (Some wish.Take) self.new end.new }
        ensures taken { HoldsTaken (lists_of self.new) caller end.new }
    {
        let mut message = Message::empty();
        let taken = self
            .shared
            .take_by(&mut self.manager, caller, follows, &mut message, steps);
        *end = match self.manager.end_of(caller) {
            Some(End::Host) => {
                let who = CallerId {
                    number: caller,
                    end: End::Host,
                    follows,
                };
                took_end(who, taken, message, &mut self.to_host, &mut self.host)
            }
            Some(End::Remote) => {
                let who = CallerId {
                    number: caller,
                    end: End::Remote,
                    follows,
                };
                took_end(who, taken, message, &mut self.to_remote, &mut self.remote)
            }
            None => unreachable!(),
        };
    }

    /// A whole give of this caller.
    #[inline(never)]
    fn give(
        &mut self,
        caller: CallerNo,
        follows: Inc,
        number: u64,
        steps: &mut u64,
        end: &mut CallEnd,
    )
        requires may { MayStep (lists_of self.old) caller (Some (wish.Give number)) }
        requires steps { steps.old < 2 ^ 60 }
        ensures few { steps.new ≤ steps.old + 4 }
        ensures whole { (behind : ℕ) × (steps.new ≡ steps.old + behind + 1) × FormEndsIn behind on_rings side_meaning self.old caller follows (Some (wish.Give number)) self.new end.new }
        ensures taken { HoldsTaken (lists_of self.new) caller end.new }
    {
        let given = self
            .shared
            .give_by(&mut self.manager, caller, follows, number, steps);
        *end = match self.manager.end_of(caller) {
            Some(End::Host) => gave_end(caller, given, &mut self.to_host, &mut self.host),
            Some(End::Remote) => gave_end(caller, given, &mut self.to_remote, &mut self.remote),
            None => unreachable!(),
        };
    }

    /// A binding or an unbinding of this caller, step by step.
    #[inline(never)]
    fn walk(
        &mut self,
        caller: CallerNo,
        follows: Inc,
        wished: &Wish,
        steps: &mut u64,
        end: &mut CallEnd,
    )
        requires may { MayStep (lists_of self.old) caller (Some wished.now) }
        requires steps { steps.old < 2 ^ 60 }
        ensures few { steps.new ≤ steps.old + 7 }
        ensures whole { (behind : ℕ) × (steps.new ≡ steps.old + behind + 1) × FormEndsIn behind on_rings side_meaning self.old caller follows (Some wished.now) self.new end.new }
        ensures taken { HoldsTaken (lists_of self.new) caller end.new }
    {
        *steps += 1;
        if let Step::Ended = self.first_step(caller, follows, wished, end) {
            return;
        }
        for _ in 0..6u8 {
            *steps += 1;
            if let Step::Ended = self.next_step(caller, end) {
                return;
            }
        }
        unreachable!()
    }
}

/// How a send ended with this answer. A message that was accepted is counted.
fn sent_end(sent: Result<u64, SendFault>, outgoing: &mut LaneView) -> CallEnd
    requires { outgoing.old.accepted < 2 ^ 60 }
    ensures end { result ≡ call_end (send_answer sent) }
    ensures outgoing { outgoing.new ≡ outgoing_view (call_end (send_answer sent)) outgoing.old }
{
    match sent {
        Ok(number) => {
            outgoing.accepted += 1;
            CallEnd::Sent(number)
        }
        Err(SendFault::Busy(holder)) => CallEnd::Busy(holder),
        Err(SendFault::Dead(era)) => CallEnd::Dead(era),
        Err(SendFault::NoBuffer(accepted, returned)) => CallEnd::NoBuffer(accepted, returned),
        Err(SendFault::BookFull(accepted)) => CallEnd::BookFull(accepted),
    }
}

/// How a take of this caller ended with this answer, which read the bytes into this message. A buffer that it was handed is here.
#[inline(always)]
fn took_end(
    who: CallerId,
    taken: Result<Handing, TakeFault>,
    message: Message,
    incoming: &mut LaneView,
    hands: &mut Vec<Hand>,
) -> CallEnd
    requires handed { incoming.old.handed < 2 ^ 60 }
    requires room { HasRoomFor (call_end (take_answer (took who message taken))) hands.old }
    ensures end { result ≡ call_end (take_answer (took who message taken)) }
    ensures incoming { incoming.new ≡ incoming_view (call_end (take_answer (took who message taken))) incoming.old }
    ensures hands { MatchResult (took who message taken) (λ ok. hands.new.items ≡ hands.old.items ++ record { caller = who.number; number = ok.held.number; held = Some ok.held } ∷ []) (λ _. hands.new.items ≡ hands.old.items) }
    ensures room { vec_capacity hands.new ≡ vec_capacity hands.old }
{
    match taken {
        Ok(handing) => {
            let number = handing.number;
            let verdict = handing.verdict;
            hands.push_reserved(Hand {
                caller: who.number,
                number,
                held: HeldSlot::of(HeldPlace::handed(who, handing, message)),
            });
            incoming.handed += 1;
            CallEnd::Took(number, verdict)
        }
        Err(TakeFault::Busy(holder)) => CallEnd::Busy(holder),
        Err(TakeFault::Dead(era)) => CallEnd::Dead(era),
        Err(TakeFault::Empty(accepted)) => CallEnd::Empty(accepted),
    }
}

/// How a give of this caller ended with this answer. The buffer stays in hand where another had the turn.
fn gave_end(
    caller: CallerNo,
    given: Result<u64, CallerNo>,
    incoming: &mut LaneView,
    hands: &mut Vec<Hand>,
) -> CallEnd
    requires { incoming.old.returned < 2 ^ 60 }
    ensures end { (held : HeldBuffer) → result ≡ call_end (give_answer (given_of held given)) }
    ensures incoming { incoming.new ≡ incoming_view result incoming.old }
    ensures listed { map holding_of hands.new.items ≡ held_behind result caller (map holding_of hands.old.items) }
    ensures some { AreSome hands.old.items hands.new.items }
    ensures room { vec_capacity hands.new ≡ vec_capacity hands.old }
{
    match given {
        Ok(number) => {
            drop_hand(hands, number, caller);
            incoming.returned += 1;
            CallEnd::Gave(number)
        }
        Err(holder) => CallEnd::Busy(holder),
    }
}
