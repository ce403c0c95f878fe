ghost use Rattle.rp_base.specs.declared.limits.TheConstants.{CALLERS_MOST};
ghost use Rattle.std.specs.Prelude.{◌≡◌, ◌<◌, ◌≤◌, ◌+◌, ◌++◌, length, Some, None, IfSome};
ghost use Rattle.lane_model.specs.Links.{Lanes, lanes_step, begun_outcome, free_number};
ghost use Rattle.lane_model.specs.Conditions.{MayLanesStep};
ghost use Rattle.lane_model.specs.Answers.{outcome_of};

use crate::calls::{CallEnd, Step, Wish};
use crate::lane_forms::LaneForm;
use crate::stages::{GiveStage, TakeStage, Work};
use rp_base::{CALLERS_MOST, CallerNo, End, Era, Inc};

/// A link for one thread, whatever the form of its lanes: its era, its lanes, and the end of each
/// caller in use by number.
#[derive(Drop)]
pub struct LaneLink<L> {
    pub(crate) era: Era,
    pub(crate) to_host: L,
    pub(crate) to_remote: L,
    pub(crate) callers: [Option<End>; CALLERS_MOST],
}

impl<L: LaneForm> LaneLink<L> {
    ghost use Rattle.rp_base.specs.declared.limits.TheConstants.{MESSAGE_MOST};
    ghost use Rattle.lane_model.specs.declared.calls.Wish.TheVariants as wish;
    ghost use Rattle.lane_model.specs.Links.{link_of, opened, form_step, caller_step, after_work_start, end_of, with_caller};
    ghost use Rattle.lane_model.specs.Conditions.{MayStep, MayWork, is_calling, is_holding};
    ghost use Rattle.lane_model.specs.Forms.{list_form};
    ghost use Rattle.lane_model.specs.WholeCalls.{form_to_end, steps_to_end};
    ghost use Rattle.lane_model.specs.AtOnce.{FormEndsIn, EndsIn, steps_behind};
    ghost use Rattle.std.specs.Bool.{OnTrue, OnFalse};

    /// A live link over two lanes, with no caller.
    pub fn of(first: Inc, to_host: L, to_remote: L) -> LaneLink<L>
        ensures { result ≡ opened first to_host to_remote }
    {
        LaneLink {
            era: Era {
                inc: first,
                is_live: true,
            },
            to_host,
            to_remote,
            callers: [None; CALLERS_MOST],
        }
    }

    /// The incarnation that the link is in, and whether it is live.
    pub fn era(&self) -> Era
        ensures { result ≡ self.now.era }
    {
        self.era
    }

    /// The lane to the host.
    pub fn to_host(&self) -> &L
        ensures { result.now ≡ self.now.to_host }
    {
        &self.to_host
    }

    /// The lane to the remote end.
    pub fn to_remote(&self) -> &L
        ensures { result.now ≡ self.now.to_remote }
    {
        &self.to_remote
    }

    /// A new caller at this end, under the least number that is not in use. There is none exactly
    /// where all are.
    pub fn caller(&mut self, end: End) -> Option<CallerNo>
        ensures number { result ≡ free_number self.old.callers }
        ensures left { self.new ≡ record self.old { callers = with_caller self.old.callers end (free_number self.old.callers) } }
    {
        let number = least_free(&self.callers)?;
        self.callers[number as usize] = Some(end);
        Some(number)
    }

    /// The end of the caller of this number, where it is in use.
    pub fn end_of(&self, caller: u64) -> Option<End>
        ensures end { result ≡ end_of self.now.callers caller }
        ensures within { IfSome result (λ _. caller < CALLERS_MOST) }
    {
        if caller < CALLERS_MOST as u64 {
            self.callers[caller as usize]
        } else {
            None
        }
    }

    /// Whether the caller of this number is in use and has a call under way.
    #[inline(always)]
    pub fn is_calling(&self, caller: CallerNo) -> bool
        ensures { result ≡ is_calling (link_of L.form self.now) caller }
    {
        match self.end_of(u64::from(caller)) {
            Some(End::Host) => {
                self.to_remote.is_sending(caller) || self.to_host.is_receiving(caller)
            }
            Some(End::Remote) => {
                self.to_host.is_sending(caller) || self.to_remote.is_receiving(caller)
            }
            None => false,
        }
    }

    /// Whether the caller of this number is in use and holds the buffer of the message `number`.
    pub fn is_holding(&self, caller: CallerNo, number: u64) -> bool
        ensures { result ≡ is_holding (link_of L.form self.now) caller number }
    {
        match self.end_of(u64::from(caller)) {
            Some(End::Host) => self.to_host.holds(number, caller),
            Some(End::Remote) => self.to_remote.holds(number, caller),
            None => false,
        }
    }

    /// Step 1 of a send of this caller: takes the turn, and answers who else has it. The message has
    /// the bytes of `head` and then those of `body`.
    pub fn send_first(
        &mut self,
        caller: CallerNo,
        follows: Inc,
        head: &[u8],
        body: &[u8],
        end: &mut CallEnd,
    ) -> Step
        requires may { MayStep (link_of L.form self.old) caller (Some (wish.Send (head.now ++ body.now))) }
        requires fits { length head.now + length body.now ≤ MESSAGE_MOST }
        ensures whole { self.new ≡ (form_step L.form L.Desk.meaning self.old caller follows (Some (wish.Send (head.now ++ body.now)))).state }
        ensures left { link_of L.form self.new
            ≡ (caller_step L.Desk.meaning (link_of L.form self.old) caller follows (Some (wish.Send (head.now ++ body.now)))).state }
        ensures outcome { outcome_of result end.new
            ≡ (caller_step L.Desk.meaning (link_of L.form self.old) caller follows (Some (wish.Send (head.now ++ body.now)))).outcome }
    {
        let holder = match self.callers[caller as usize] {
            Some(End::Host) => self.to_remote.begin_send(caller, follows, head, body),
            Some(End::Remote) => self.to_host.begin_send(caller, follows, head, body),
            None => unreachable!(),
        };
        begun(holder, end)
    }

    /// Step 1 of a call of this caller: takes the turn that it needs. Where another has it, the call
    /// ends, and `end` says how.
    pub fn first_step(
        &mut self,
        caller: CallerNo,
        follows: Inc,
        wished: &Wish,
        end: &mut CallEnd,
    ) -> Step
        requires { MayStep (link_of L.form self.old) caller (Some wished.now) }
        ensures whole { self.new ≡ (form_step L.form L.Desk.meaning self.old caller follows (Some wished.now)).state }
        ensures left { link_of L.form self.new
            ≡ (caller_step L.Desk.meaning (link_of L.form self.old) caller follows (Some wished.now)).state }
        ensures outcome { outcome_of result end.new
            ≡ (caller_step L.Desk.meaning (link_of L.form self.old) caller follows (Some wished.now)).outcome }
    {
        match wished {
            Wish::Send(message) => self.send_first(caller, follows, message.bytes(), &[], end),
            Wish::Take => self.work_first(caller, follows, Work::Take(TakeStage::Turn), end),
            Wish::Give(number) => {
                self.work_first(caller, follows, Work::Give(*number, GiveStage::Turn), end)
            }
            Wish::Bind(address) => self.work_first(caller, follows, Work::Bind(*address), end),
            Wish::Unbind(address) => self.work_first(caller, follows, Work::Unbind(*address), end),
        }
    }

    /// Step 1 of a call that needs the receiver's turn.
    pub(crate) fn work_first(
        &mut self,
        caller: CallerNo,
        follows: Inc,
        first: Work,
        end: &mut CallEnd,
    ) -> Step
        requires { MayWork (link_of L.form self.old) (end_of self.old.callers caller) caller first }
        ensures whole { self.new ≡ (after_work_start L.form self.old caller follows first).state }
        ensures left { link_of L.form self.new ≡ (after_work_start (list_form L.Desk.meaning) (link_of L.form self.old) caller follows first).state }
        ensures outcome { outcome_of result end.new ≡ (after_work_start (list_form L.Desk.meaning) (link_of L.form self.old) caller follows first).outcome }
    {
        let holder = match self.callers[caller as usize] {
            Some(End::Host) => self.to_host.begin_receive(caller, follows, first),
            Some(End::Remote) => self.to_remote.begin_receive(caller, follows, first),
            None => unreachable!(),
        };
        begun(holder, end)
    }

    /// The next step of the call that this caller has under way. Where the call ends, `end` says how.
    #[inline(always)]
    pub fn next_step(&mut self, caller: CallerNo, end: &mut CallEnd) -> Step
        requires { MayStep (link_of L.form self.old) caller None }
        ensures whole { self.new ≡ (form_step L.form L.Desk.meaning self.old caller 0 None).state }
        ensures left { link_of L.form self.new ≡ (caller_step L.Desk.meaning (link_of L.form self.old) caller 0 None).state }
        ensures outcome { outcome_of result end.new ≡ (caller_step L.Desk.meaning (link_of L.form self.old) caller 0 None).outcome }
    {
        let era = self.era;
        match self.callers[caller as usize] {
            Some(End::Host) => {
                advance_lanes(&mut self.to_remote, &mut self.to_host, era, caller, end)
            }
            Some(End::Remote) => {
                advance_lanes(&mut self.to_host, &mut self.to_remote, era, caller, end)
            }
            None => unreachable!(),
        }
    }

    /// Makes a whole call of this caller at once, where it follows the incarnation, nothing refuses it and
    /// the form of the lanes has a way that is shorter than the steps. Then `end` says how it ended. Else
    /// nothing changes.
    pub fn at_once(
        &mut self,
        caller: CallerNo,
        follows: Inc,
        wished: &Wish,
        end: &mut CallEnd,
    ) -> bool
        requires { MayStep (link_of L.form self.old) caller (Some wished.now) }
        ensures whole { OnTrue result (FormEndsIn (steps_behind wished.now) L.form L.Desk.meaning self.old caller follows (Some wished.now) self.new end.new) }
        ensures left { OnTrue result (EndsIn (steps_behind wished.now) L.Desk.meaning (link_of L.form self.old) caller follows (Some wished.now) (link_of L.form self.new) end.new) }
        ensures none { OnFalse result (self.new ≡ self.old) }
    {
        match wished {
            Wish::Send(message) => self.send_at_once(caller, follows, message.bytes(), &[], end),
            Wish::Take => self.take_at_once(caller, follows, end),
            Wish::Give(number) => self.give_at_once(caller, follows, *number, end),
            Wish::Bind(_) | Wish::Unbind(_) => false,
        }
    }

    /// Makes a whole send at once, where that may be done. The message has the bytes of `head` and then
    /// those of `body`.
    pub fn send_at_once(
        &mut self,
        caller: CallerNo,
        follows: Inc,
        head: &[u8],
        body: &[u8],
        end: &mut CallEnd,
    ) -> bool
        requires may { MayStep (link_of L.form self.old) caller (Some (wish.Send (head.now ++ body.now))) }
        requires fits { length head.now + length body.now ≤ MESSAGE_MOST }
        ensures whole { OnTrue result (FormEndsIn 6 L.form L.Desk.meaning self.old caller follows (Some (wish.Send (head.now ++ body.now))) self.new end.new) }
        ensures left { OnTrue result (EndsIn 6 L.Desk.meaning (link_of L.form self.old) caller follows (Some (wish.Send (head.now ++ body.now))) (link_of L.form self.new) end.new) }
        ensures none { OnFalse result (self.new ≡ self.old) }
    {
        let era = self.era;
        if era.inc != follows || !era.is_live {
            return false;
        }
        match self.end_of(u64::from(caller)) {
            Some(End::Host) => self.to_remote.send_at_once(caller, era, head, body, end),
            Some(End::Remote) => self.to_host.send_at_once(caller, era, head, body, end),
            None => false,
        }
    }

    /// Makes a whole take at once, where that may be done.
    fn take_at_once(&mut self, caller: CallerNo, follows: Inc, end: &mut CallEnd) -> bool
        requires { MayStep (link_of L.form self.old) caller (Some wish.Take) }
        ensures whole { OnTrue result (FormEndsIn 5 L.form L.Desk.meaning self.old caller follows (Some wish.Take) self.new end.new) }
        ensures none { OnFalse result (self.new ≡ self.old) }
    {
        let era = self.era;
        if era.inc != follows || !era.is_live {
            return false;
        }
        match self.end_of(u64::from(caller)) {
            Some(End::Host) => self.to_host.take_at_once(caller, era, end),
            Some(End::Remote) => self.to_remote.take_at_once(caller, era, end),
            None => false,
        }
    }

    /// Makes a whole give at once, where that may be done.
    fn give_at_once(
        &mut self,
        caller: CallerNo,
        follows: Inc,
        number: u64,
        end: &mut CallEnd,
    ) -> bool
        requires { MayStep (link_of L.form self.old) caller (Some (wish.Give number)) }
        ensures whole { OnTrue result (FormEndsIn 3 L.form L.Desk.meaning self.old caller follows (Some (wish.Give number)) self.new end.new) }
        ensures none { OnFalse result (self.new ≡ self.old) }
    {
        let era = self.era;
        if era.inc != follows {
            return false;
        }
        match self.end_of(u64::from(caller)) {
            Some(End::Host) => self.to_host.give_at_once(number, caller, era, end),
            Some(End::Remote) => self.to_remote.give_at_once(number, caller, era, end),
            None => false,
        }
    }

    /// Takes the steps that are left of the call that this caller has under way. Then `end` says how
    /// it ended.
    pub fn finish(&mut self, caller: CallerNo, end: &mut CallEnd)
        requires { MayStep (link_of L.form self.old) caller None }
        ensures whole { form_to_end 6 L.form L.Desk.meaning self.old caller 0 None ≡ Some (record { state = self.new; end = end.new }) }
        ensures left { steps_to_end 6 L.Desk.meaning (link_of L.form self.old) caller 0 None
            ≡ Some (record { state = link_of L.form self.new; end = end.new }) }
    {
        for _ in 0..6u8 {
            match self.next_step(caller, end) {
                Step::At(_) => {}
                Step::Ended => return,
            }
        }
        unreachable!()
    }

    /// Makes a whole call of this caller. Then `end` says how it ended.
    pub fn call(&mut self, caller: CallerNo, follows: Inc, wished: &Wish, end: &mut CallEnd)
        requires { MayStep (link_of L.form self.old) caller (Some wished.now) }
        ensures whole { form_to_end 7 L.form L.Desk.meaning self.old caller follows (Some wished.now)
            ≡ Some (record { state = self.new; end = end.new }) }
        ensures left { steps_to_end 7 L.Desk.meaning (link_of L.form self.old) caller follows (Some wished.now)
            ≡ Some (record { state = link_of L.form self.new; end = end.new }) }
    {
        match self.first_step(caller, follows, wished, end) {
            Step::At(_) => self.finish(caller, end),
            Step::Ended => {}
        }
    }

    /// Sends a message of this caller, with the bytes of `head` and then those of `body`. Then `end`
    /// says how the send ended.
    pub fn send(
        &mut self,
        caller: CallerNo,
        follows: Inc,
        head: &[u8],
        body: &[u8],
        end: &mut CallEnd,
    )
        requires may { MayStep (link_of L.form self.old) caller (Some (wish.Send (head.now ++ body.now))) }
        requires fits { length head.now + length body.now ≤ MESSAGE_MOST }
        ensures whole { form_to_end 7 L.form L.Desk.meaning self.old caller follows (Some (wish.Send (head.now ++ body.now)))
            ≡ Some (record { state = self.new; end = end.new }) }
        ensures left { steps_to_end 7 L.Desk.meaning (link_of L.form self.old) caller follows (Some (wish.Send (head.now ++ body.now)))
            ≡ Some (record { state = link_of L.form self.new; end = end.new }) }
    {
        match self.send_first(caller, follows, head, body, end) {
            Step::At(_) => self.finish(caller, end),
            Step::Ended => {}
        }
    }
}

/// A later step of a caller who sends on one lane and takes from the other.
#[inline(always)]
fn advance_lanes<L: LaneForm>(
    outgoing: &mut L,
    incoming: &mut L,
    era: Era,
    caller: CallerNo,
    end: &mut CallEnd,
) -> Step
    requires { MayLanesStep (record { outgoing = L.form.state outgoing.old; incoming = L.form.state incoming.old }) caller None }
    ensures outgoing { outgoing.new ≡ (lanes_step L.form L.Desk.meaning era (record { outgoing = outgoing.old; incoming = incoming.old }) caller 0 None).state.outgoing }
    ensures incoming { incoming.new ≡ (lanes_step L.form L.Desk.meaning era (record { outgoing = outgoing.old; incoming = incoming.old }) caller 0 None).state.incoming }
    ensures outcome { outcome_of result end.new
        ≡ (lanes_step L.form L.Desk.meaning era (record { outgoing = outgoing.old; incoming = incoming.old }) caller 0 None).outcome }
{
    if outgoing.is_sending(caller) {
        outgoing.advance_send(era, end)
    } else {
        incoming.advance_receive(era, end)
    }
}

/// What step 1 says, by who else had the turn.
fn begun(holder: Option<CallerNo>, end: &mut CallEnd) -> Step
    ensures { outcome_of result end.new ≡ begun_outcome holder }
{
    match holder {
        None => Step::At(1),
        Some(other) => {
            *end = CallEnd::Busy(other);
            Step::Ended
        }
    }
}

/// The least number that is not in use.
fn least_free(callers: &[Option<End>; CALLERS_MOST]) -> Option<CallerNo>
    ensures number { result ≡ free_number callers.now }
    ensures within { IfSome result (λ number. number < CALLERS_MOST) }
{
    match callers.iter().position(|found| found.is_none()) {
        None => None,
        Some(place) => Some(place as CallerNo),
    }
}
