//! The steps of the calls of a managed link.
ghost use Rattle.std.specs.Prelude.{◌≡◌, ◌<◌, ◌^◌, is_some, map, true, Option, None, Some, IfSome, MatchOption, vec_capacity};
ghost use Rattle.rp_base.specs.declared.kinds.End.{End};
ghost use Rattle.lane_model.specs.Answers.{outcome_of};
ghost use Rattle.lane_model.specs.HeldBuffers.{HeldBuffer};
ghost use Rattle.lane_model.specs.declared.calls.Answer.{Answer};
ghost use Rattle.lane_model.specs.Conditions.{MayStep};
ghost use Rattle.lane_model.specs.Lanes.{holds};
ghost use Rattle.lane_model.specs.Links.{caller_step, end_of, form_step};
ghost use Rattle.channel_bus.specs.Sides.{side_meaning};
ghost use Rattle.link_words.specs.Words.{other};
ghost use Rattle.split_ring.specs.Callers.{IsManagerOf, IsStateOf};
ghost use Rattle.split_ring.specs.Calls.{call_end};
ghost use Rattle.split_ring.specs.Carried.{Carries};
ghost use Rattle.split_ring.specs.Phases.{IsUnderWay, answer_in, settled_end};
ghost use Rattle.split_ring.specs.Stages.{answer_buffer};
ghost use Rattle.managed_link.specs.declared.call_slots.CarriedCall.{CarriedCall};
ghost use Rattle.managed_link.specs.EndCodes.{end_coded};
ghost use Rattle.managed_link.specs.Hands.{AreSome, IsPutIn, IsTakenOut, holding_of};
ghost use Rattle.managed_link.specs.Known.{LinkRings, lists_of, on_rings};
ghost use Rattle.managed_link.specs.Managed.{caller_id};
ghost use Rattle.managed_link.specs.Settles.{CanGive, HasRoomFor};
ghost use Rattle.managed_link.specs.Steps.{AdvancesCall, IsAnsweredIn, IsAsking, hands_learnt, held_learnt, incoming_begun, incoming_learnt, of_end, outgoing_begun, outgoing_learnt, settled_in};
ghost use Rattle.managed_link.specs.Taken.{HoldsStepTaken};
ghost use Rattle.managed_link.specs.Views.{if_other};

use crate::call_slots::CallSlot;
use crate::hands::{Hand, put_in};
use crate::links::ManagedLink;
use crate::settles::{ask_for, learn};
use crate::views::LaneView;
use channel_bus::Side;
use lane_model::{CallEnd, Step, Wish};
use rp_base::{CallerNo, End, Inc};
use split_ring::{Manager, RingCall, SharedLink};

impl ManagedLink {
    /// Step 1 of a call of this caller: takes the turn that it needs. Where another has it, the call ends, and `end` says how.
    pub fn first_step(
        &mut self,
        caller: CallerNo,
        follows: Inc,
        wished: &Wish,
        end: &mut CallEnd,
    ) -> Step
        requires { MayStep (lists_of self.old) caller (Some wished.now) }
        ensures whole { self.new ≡ (form_step on_rings side_meaning self.old caller follows (Some wished.now)).state }
        ensures outcome { outcome_of result end.new ≡ (caller_step side_meaning (lists_of self.old) caller follows (Some wished.now)).outcome }
        ensures taken { HoldsStepTaken (lists_of self.new) caller result end.new }
    {
        let Some(side) = self.manager.end_of(caller) else {
            unreachable!()
        };
        let place = usize::from(caller);
        ask_at(
            side,
            caller,
            follows,
            wished,
            &mut self.calls[place],
            &mut self.host,
            &mut self.remote,
        );
        let step = advance_in(
            &self.shared,
            &mut self.manager,
            caller,
            &mut self.calls[place],
        );
        match step {
            Step::At(_) => mark_turn(side, caller, wished, &mut self.to_host, &mut self.to_remote),
            Step::Ended => {
                *end = end_at(
                    side,
                    &mut self.calls[place],
                    &mut self.host,
                    &mut self.remote,
                );
            }
        }
        step
    }

    /// The next step of the call that this caller has under way. Where the call ends, `end` says how.
    pub fn next_step(&mut self, caller: CallerNo, end: &mut CallEnd) -> Step
        requires { MayStep (lists_of self.old) caller None }
        ensures whole { self.new ≡ (form_step on_rings side_meaning self.old caller 0 None).state }
        ensures outcome { outcome_of result end.new ≡ (caller_step side_meaning (lists_of self.old) caller 0 None).outcome }
        ensures taken { HoldsStepTaken (lists_of self.new) caller result end.new }
    {
        let place = usize::from(caller);
        let Some(side) = self.manager.end_of(caller) else {
            unreachable!()
        };
        let step = advance_in(
            &self.shared,
            &mut self.manager,
            caller,
            &mut self.calls[place],
        );
        match step {
            Step::At(_) => learn_at(
                side,
                caller,
                &self.calls[place],
                &mut self.to_host,
                &mut self.to_remote,
                &mut self.host,
                &mut self.remote,
            ),
            Step::Ended => {
                free_turns(side, caller, &mut self.to_host, &mut self.to_remote);
                *end = end_at(
                    side,
                    &mut self.calls[place],
                    &mut self.host,
                    &mut self.remote,
                );
            }
        }
        step
    }
}

/// The next step of the call of this caller, which is in this slot.
fn advance_in(
    shared: &SharedLink<Side>,
    manager: &mut Manager,
    caller: CallerNo,
    slot: &mut CallSlot,
) -> Step
    requires manager { IsManagerOf shared.now manager.old }
    requires call { (end : End) × (carried : CarriedCall) × (slot.old ≡ Some carried) × Carries shared.now manager.old (caller_id caller end carried.follows) carried.call.phase × IsUnderWay carried.call.phase }
    ensures { (end : End) (carried : CarriedCall) (m : LinkRings) → end_of manager.old.users caller ≡ Some end → slot.old ≡ Some carried → IsStateOf end_coded manager.old m
        → AdvancesCall shared.now manager.old (caller_id caller end carried.follows) carried.call.phase m result manager.new slot.new }
{
    if !slot.is_used {
        unreachable!()
    }
    shared.step_by(
        manager,
        caller,
        slot.carried.follows,
        &mut slot.carried.call,
    )
}

/// Whether there is a call in this slot of which it is settled how it ends.
fn is_settled(slot: &CallSlot) -> bool
    ensures { result ≡ is_some (settled_in slot.now) }
{
    match slot.carried() {
        Some(carried) => carried.call.is_settled(),
        None => false,
    }
}

/// How the call in this slot ends, where that is settled.
fn settled_in(slot: &CallSlot) -> Option<CallEnd>
    ensures { result ≡ settled_in slot.now }
{
    match slot.carried() {
        Some(carried) => carried.call.settled(),
        None => None,
    }
}

/// A call of a caller of this end begins in its slot, which asks for what is wished. The buffer that it gives back goes with it.
fn ask_at(
    side: End,
    caller: CallerNo,
    follows: Inc,
    wished: &Wish,
    slot: &mut CallSlot,
    host: &mut Vec<Hand>,
    remote: &mut Vec<Hand>,
)
    requires { CanGive (of_end side host.old remote.old).items caller wished.now }
    ensures asking { (given : Option HeldBuffer) × IsAsking follows wished.now given slot.new
        × MatchOption given ((of_end side host.new remote.new).items ≡ (of_end side host.old remote.old).items)
        (λ held. IsTakenOut held.number caller (Some held) (of_end side host.old remote.old).items (of_end side host.new remote.new).items) }
    ensures room { vec_capacity (of_end side host.new remote.new) ≡ vec_capacity (of_end side host.old remote.old) }
    ensures beside { of_end (other side) host.new remote.new ≡ of_end (other side) host.old remote.old }
{
    match side {
        End::Host => ask_for(host, caller, follows, wished, slot),
        End::Remote => ask_for(remote, caller, follows, wished, slot),
    }
}

/// A caller of this end has the turn that it needs for what it wishes.
fn mark_turn(
    side: End,
    caller: CallerNo,
    wished: &Wish,
    to_host: &mut LaneView,
    to_remote: &mut LaneView,
)
    ensures incoming { of_end side to_host.new to_remote.new ≡ incoming_begun wished.now caller (of_end side to_host.old to_remote.old) }
    ensures outgoing { of_end (other side) to_host.new to_remote.new ≡ outgoing_begun wished.now caller (of_end (other side) to_host.old to_remote.old) }
{
    match (side, wished) {
        (End::Host, Wish::Send(_)) => to_remote.sender = Some(caller),
        (End::Remote, Wish::Send(_)) => to_host.sender = Some(caller),
        (End::Host, _) => to_host.receiver = Some(caller),
        (End::Remote, _) => to_remote.receiver = Some(caller),
    }
}

/// The turns that a caller of this end has are free.
fn free_turns(side: End, caller: CallerNo, to_host: &mut LaneView, to_remote: &mut LaneView)
    ensures incoming { of_end side to_host.new to_remote.new ≡ record (of_end side to_host.old to_remote.old) { receiver = if_other (of_end side to_host.old to_remote.old).receiver caller } }
    ensures outgoing { of_end (other side) to_host.new to_remote.new ≡ record (of_end (other side) to_host.old to_remote.old) { sender = if_other (of_end (other side) to_host.old to_remote.old).sender caller } }
{
    match side {
        End::Host => {
            to_host.free_receiver(caller);
            to_remote.free_sender(caller);
        }
        End::Remote => {
            to_remote.free_receiver(caller);
            to_host.free_sender(caller);
        }
    }
}

/// The call of a caller of this end, in this slot, has settled how it ends, or not yet: what is known beside the words of the lanes follows.
fn learn_at(
    side: End,
    caller: CallerNo,
    slot: &CallSlot,
    to_host: &mut LaneView,
    to_remote: &mut LaneView,
    host: &mut Vec<Hand>,
    remote: &mut Vec<Hand>,
)
    requires room { IfSome (settled_in slot.now) (λ ended. HasRoomFor ended (of_end side host.old remote.old)) }
    requires accepted { (of_end (other side) to_host.old to_remote.old).accepted < 2 ^ 60 }
    requires handed { (of_end side to_host.old to_remote.old).handed < 2 ^ 60 }
    requires returned { (of_end side to_host.old to_remote.old).returned < 2 ^ 60 }
    ensures incoming { of_end side to_host.new to_remote.new ≡ incoming_learnt (settled_in slot.now) (of_end side to_host.old to_remote.old) }
    ensures outgoing { of_end (other side) to_host.new to_remote.new ≡ outgoing_learnt (settled_in slot.now) (of_end (other side) to_host.old to_remote.old) }
    ensures listed { map holding_of (of_end side host.new remote.new).items ≡ held_learnt (settled_in slot.now) caller (map holding_of (of_end side host.old remote.old).items) }
    ensures among { AreSome (hands_learnt (settled_in slot.now) caller (of_end side host.old remote.old).items) (of_end side host.new remote.new).items }
    ensures room { vec_capacity (of_end side host.new remote.new) ≡ vec_capacity (of_end side host.old remote.old) }
    ensures beside { of_end (other side) host.new remote.new ≡ of_end (other side) host.old remote.old }
{
    if !is_settled(slot) {
        return;
    }
    let Some(ended) = settled_in(slot) else {
        return;
    };
    match side {
        End::Host => learn(caller, &ended, to_host, to_remote, host),
        End::Remote => learn(caller, &ended, to_remote, to_host, remote),
    }
}

/// The call of a caller of this end, in this slot, has ended: how. The buffer in its answer is in hand again, and the slot is free.
fn end_at(side: End, slot: &mut CallSlot, host: &mut Vec<Hand>, remote: &mut Vec<Hand>) -> CallEnd
    requires { (answer : Answer) × IsAnsweredIn slot.old answer × IfSome (answer_buffer answer) (λ held. holds (map holding_of (of_end side host.old remote.old).items) held.number held.caller ≡ true) }
    ensures free { slot.new ≡ None }
    ensures end { (answer : Answer) → IsAnsweredIn slot.old answer → result ≡ call_end answer }
    ensures hands { (answer : Answer) → IsAnsweredIn slot.old answer
        → MatchOption (answer_buffer answer) ((of_end side host.new remote.new).items ≡ (of_end side host.old remote.old).items)
        (λ held. IsPutIn held (of_end side host.old remote.old).items (of_end side host.new remote.new).items) }
    ensures room { vec_capacity (of_end side host.new remote.new) ≡ vec_capacity (of_end side host.old remote.old) }
    ensures beside { of_end (other side) host.new remote.new ≡ of_end (other side) host.old remote.old }
{
    let end = match (slot.carried(), side) {
        (Some(carried), End::Host) => end_call(&carried.call, host),
        (Some(carried), End::Remote) => end_call(&carried.call, remote),
        (None, _) => unreachable!(),
    };
    slot.clear();
    end
}

/// How a call ended. The buffer in its answer is among these hands again.
fn end_call(call: &RingCall<Side>, hands: &mut Vec<Hand>) -> CallEnd
    requires { (answer : Answer) × (answer_in call.now.phase ≡ Some answer) × IfSome (answer_buffer answer) (λ held. holds (map holding_of hands.old.items) held.number held.caller ≡ true) }
    ensures end { settled_end call.now.phase ≡ Some result }
    ensures hands { (answer : Answer) → answer_in call.now.phase ≡ Some answer → MatchOption (answer_buffer answer) (hands.new.items ≡ hands.old.items) (λ held. IsPutIn held hands.old.items hands.new.items) }
    ensures room { vec_capacity hands.new ≡ vec_capacity hands.old }
{
    if let Some(held) = call.held() {
        put_in(hands, held);
    }
    match call.settled() {
        Some(end) => end,
        None => unreachable!(),
    }
}
