ghost use Rattle.std.specs.Prelude.{◌≡◌, ℕ, ◌<◌, ◌≤◌, ◌+◌, ◌++◌, IfNone, IfOk, IfSome, MatchOption, OnErr, OnOk, length};
ghost use Rattle.rp_base.specs.declared.limits.TheConstants.{CALLERS_MOST, MESSAGE_MOST, PAYLOAD_MOST, STEPS_MOST};
ghost use Rattle.lane_model.specs.declared.calls.Wish.TheVariants as wish;
ghost use Rattle.byteorder.specs.Endian.{little_bytes};
ghost use Rattle.rpmsg_header.specs.Headers.{header_bytes};
ghost use Rattle.link_bench.specs.Benches.{HoldsReachTaken, call_walk, link_in};
ghost use Rattle.link_bench.specs.declared.turns.TurnEnd.TheVariants as turn_end;
ghost use Rattle.link_bench.specs.Watchers.{watcher_after};
ghost use Rattle.link_bench.specs.Turns.{HoldsEndTaken, IsCutPump, is_whole, number_of, one_turn, pump_turns, reach_number, take_turn, turn_call, turn_end_of};

use crate::benches::{Bench, BenchFault, Reach};
use crate::step_counts::StepCount;
use crate::watchers::Watcher;
use lane_model::{CallEnd, Wish};
use rp_base::{CallerNo, Message, NoMemory};

/// How a turn of a pump ended: a send, its take and its give.
#[derive(Clone, Copy)]
pub enum TurnEnd {
    /// The message was sent, taken and given back.
    Whole,
    /// A call of this caller could not begin.
    Fault(CallerNo, BenchFault),
    /// A call of this caller came so far, which is not the end that the turn needs.
    Reached(CallerNo, Reach),
}

impl TurnEnd {
    pub fn is_whole(&self) -> bool
        ensures { result ≡ is_whole self.now }
    {
        matches!(self, TurnEnd::Whole)
    }
}

impl Bench {
    /// At most so many turns, up to the first that is not whole: how many were whole. The watcher sees
    /// the end of each take before its give. `ended` says how the last turn ended, and `steps` counts
    /// the steps.
    ///
    /// Errors: only if memory runs out, before a turn, where the watcher needs it. Nothing of that turn is
    /// done: bench and watcher are then as so many turns leave both, or fewer.
    pub fn turns<W: Watcher>(
        &mut self,
        watcher: &mut W,
        sender: CallerNo,
        receiver: CallerNo,
        count: u64,
        steps: &mut StepCount,
        ended: &mut TurnEnd,
    ) -> Result<u64, NoMemory>
        requires sender { sender < CALLERS_MOST }
        requires receiver { receiver < CALLERS_MOST }
        requires count { count ≤ STEPS_MOST }
        ensures bench { OnOk result (self.new ≡ (pump_turns W.sees count 0 sender receiver self.old (W.state watcher.old) steps.old).turns.bench) }
        ensures watcher { OnOk result (W.state watcher.new ≡ (pump_turns W.sees count 0 sender receiver self.old (W.state watcher.old) steps.old).turns.watcher) }
        ensures steps { OnOk result (steps.new ≡ (pump_turns W.sees count 0 sender receiver self.old (W.state watcher.old) steps.old).turns.steps) }
        ensures ended { OnOk result (ended.new ≡ (pump_turns W.sees count 0 sender receiver self.old (W.state watcher.old) steps.old).turns.ended) }
        ensures taken { OnOk result (HoldsEndTaken (link_in self.new) ended.new) }
        ensures done { IfOk result (λ done. done ≡ (pump_turns W.sees count 0 sender receiver self.old (W.state watcher.old) steps.old).done) }
        ensures cut { let left = λ (done : ℕ). (pump_turns W.sees done 0 sender receiver self.old (W.state watcher.old) steps.old).turns in
            OnErr result (IsCutPump (λ done. (left done).bench) (λ done. (left done).watcher) count self.new (W.state watcher.new)) }
    {
        for done in 0..count {
            watcher.make_room()?;
            self.turn(watcher, sender, receiver, done, steps, ended);
            if !ended.is_whole() {
                return Ok(done);
            }
        }
        *ended = TurnEnd::Whole;
        Ok(count)
    }

    /// A turn: a send of its number, a take, the give of what it took. `ended` says how it ended.
    #[tactic(auto, unfolding(crate::specs::Turns::one_turn))]
    fn turn<W: Watcher>(
        &mut self,
        watcher: &mut W,
        sender: CallerNo,
        receiver: CallerNo,
        number: u64,
        steps: &mut StepCount,
        ended: &mut TurnEnd,
    )
        requires room { W.HasRoom watcher.old }
        requires sender { sender < CALLERS_MOST }
        requires receiver { receiver < CALLERS_MOST }
        requires number { number ≤ STEPS_MOST }
        ensures bench { self.new ≡ (one_turn W.sees sender receiver number self.old (W.state watcher.old) steps.old).bench }
        ensures watcher { W.state watcher.new ≡ (one_turn W.sees sender receiver number self.old (W.state watcher.old) steps.old).watcher }
        ensures steps { steps.new ≡ (one_turn W.sees sender receiver number self.old (W.state watcher.old) steps.old).steps }
        ensures ended { ended.new ≡ (one_turn W.sees sender receiver number self.old (W.state watcher.old) steps.old).ended }
        ensures taken { HoldsEndTaken (link_in self.new) ended.new }
    {
        let wished = Wish::Send(turn_message(number));
        let sent = self.turn_call(sender, &wished, steps, &mut Reach::Limit, ended);
        if sent.is_some() {
            self.take_turn(watcher, receiver, steps, ended);
        }
    }

    /// The take of a turn, of which the watcher sees the end, and the give of what was taken.
    #[tactic(auto, unfolding(crate::specs::Turns::take_turn))]
    fn take_turn<W: Watcher>(
        &mut self,
        watcher: &mut W,
        receiver: CallerNo,
        steps: &mut StepCount,
        ended: &mut TurnEnd,
    )
        requires room { W.HasRoom watcher.old }
        requires receiver { receiver < CALLERS_MOST }
        ensures bench { self.new ≡ (take_turn W.sees receiver self.old (W.state watcher.old) steps.old).bench }
        ensures watcher { W.state watcher.new ≡ (take_turn W.sees receiver self.old (W.state watcher.old) steps.old).watcher }
        ensures steps { steps.new ≡ (take_turn W.sees receiver self.old (W.state watcher.old) steps.old).steps }
        ensures ended { ended.new ≡ (take_turn W.sees receiver self.old (W.state watcher.old) steps.old).ended }
        ensures taken { HoldsEndTaken (link_in self.new) ended.new }
    {
        let mut reach = Reach::Limit;
        let taken = self.turn_call(receiver, &Wish::Take, steps, &mut reach, ended);
        if let Some(number) = taken {
            self.see_reach(watcher, receiver, &reach);
            self.give_turn(receiver, number, steps, ended);
        }
    }

    /// The watcher, which has room for it, sees the end of a call that came to its end.
    pub(crate) fn see_reach<W: Watcher>(&self, watcher: &mut W, caller: CallerNo, reach: &Reach)
        requires room { W.HasRoom watcher.old }
        requires taken { HoldsReachTaken (link_in self.now) caller reach.now }
        ensures { W.state watcher.new ≡ watcher_after W.sees self.now caller reach.now (W.state watcher.old) }
    {
        if let Reach::Ended(end) = reach {
            watcher.see(self, caller, end);
        }
    }

    /// The give of a turn.
    fn give_turn(
        &mut self,
        receiver: CallerNo,
        number: u64,
        steps: &mut StepCount,
        ended: &mut TurnEnd,
    )
        requires receiver { receiver < CALLERS_MOST }
        ensures bench { self.new ≡ (turn_call self.old steps.old receiver (wish.Give number)).bench }
        ensures steps { steps.new ≡ (turn_call self.old steps.old receiver (wish.Give number)).steps }
        ensures ended { ended.new ≡ turn_end_of (turn_call self.old steps.old receiver (wish.Give number)).number }
        ensures taken { HoldsEndTaken (link_in self.new) ended.new }
    {
        let mut reach = Reach::Limit;
        let given = self.turn_call(receiver, &Wish::Give(number), steps, &mut reach, ended);
        if given.is_some() {
            *ended = TurnEnd::Whole;
        }
    }

    /// A call of a turn, with the tests that each call has: the number of its message; `reach` is its
    /// end then. Where it doesn't end well, `ended` says how.
    #[inline(always)]
    #[tactic(auto, unfolding(crate::specs::Turns::turn_call))]
    fn turn_call(
        &mut self,
        caller: CallerNo,
        wished: &Wish,
        steps: &mut StepCount,
        reach: &mut Reach,
        ended: &mut TurnEnd,
    ) -> Option<u64>
        requires caller { caller < CALLERS_MOST }
        ensures bench { self.new ≡ (turn_call self.old steps.old caller wished.now).bench }
        ensures steps { steps.new ≡ (turn_call self.old steps.old caller wished.now).steps }
        ensures number { number_of result ended.new ≡ (turn_call self.old steps.old caller wished.now).number }
        ensures reach { IfSome result (λ _. reach.new ≡ (call_walk self.old steps.old caller wished.now).reach) }
        ensures taken { MatchOption result (HoldsEndTaken (link_in self.new) ended.new) (λ _. HoldsReachTaken (link_in self.new) caller reach.new) }
    {
        if let Some(fault) = self.begin_fault(caller, wished) {
            *ended = TurnEnd::Fault(caller, fault);
            return None;
        }
        self.call(caller, wished, steps, reach);
        reach_number(caller, reach, ended)
    }
}

/// The message of a turn, from address 0 to 1024: its payload is the turn's number in four bytes.
fn turn_message(number: u64) -> Message
    requires { number ≤ STEPS_MOST }
    ensures { result ≡ header_bytes 0 1024 (little_bytes 4 number) }
{
    let head = rpmsg_header::head(0, 1024, 4);
    message_of(&head, &(number as u32).to_le_bytes())
}

/// The number of the message of a call that ended well. Of any other, `ended` says how far it came.
fn reach_number(caller: CallerNo, reach: &Reach, ended: &mut TurnEnd) -> Option<u64>
    ensures number { number_of result ended.new ≡ reach_number caller reach.now }
    ensures reach { IfNone result (ended.new ≡ turn_end.Reached caller reach.now) }
{
    if let Reach::Ended(
        CallEnd::Sent(number) | CallEnd::Took(number, _) | CallEnd::Gave(number),
    ) = reach
    {
        return Some(*number);
    }
    *ended = TurnEnd::Reached(caller, *reach);
    None
}

/// The message of a header and the bytes after it.
pub(crate) fn message_of(head: &[u8], body: &[u8]) -> Message
    requires { length head.now + length body.now ≤ MESSAGE_MOST }
    ensures { result ≡ head.now ++ body.now }
{
    let mut message = Message::empty();
    message.set(head, body);
    message
}
