use crate::calls::{CallEnd, Step};
use crate::desks::Desk;
use crate::recoveries::{LaneBook, LaneRoom};
use crate::stages::Work;
use crate::states::Holding;
use rp_base::{CallerNo, Era, Inc};

/// One direction of a link, in whatever form it is kept: as lists, or as rings. None of these calls
/// takes memory.
pub trait LaneForm: Drop {
    ghost use Rattle.std.specs.Prelude.{◌≡◌, ℕ, ◌+◌, ◌≤◌, ◌++◌, length, true, slice_get, IfSome, None, IsTrue};
    ghost use Rattle.std.specs.Bool.{OnTrue, OnFalse};
    ghost use Rattle.std.specs.Option.{option_map};
    ghost use Rattle.rp_base.specs.declared.limits.TheConstants.{MESSAGE_MOST, BOOK_MOST};
    ghost use Rattle.lane_model.specs.Lanes.{holder, has_call, holds};
    ghost use Rattle.lane_model.specs.Sends.{sender_step};
    ghost use Rattle.lane_model.specs.Receives.{receiver_step};
    ghost use Rattle.lane_model.specs.Crashes.{has_held, needed_holder, turn_out, least_held};
    ghost use Rattle.lane_model.specs.Forms.{FormMeaning, IsForm};
    ghost use Rattle.lane_model.specs.Conditions.{IsFirst, IsFitWork};
    ghost use Rattle.lane_model.specs.Answers.{outcome_of};
    ghost use Rattle.lane_model.specs.declared.calls.CallEnd.TheVariants as call_end;
    ghost use Rattle.lane_model.specs.AtOnce.{after_send, after_take, after_give, SendsAtOnce, TakesAtOnce, took_next};

    type Desk: Desk;

    /// The lane that it stands for, and what each step leaves of it.
    ghost form: { FormMeaning Self Self.Desk };

    /// Whether a send of this caller is under way.
    fn is_sending(&self, caller: CallerNo) -> bool
        ensures { result ≡ has_call (form.state self.now).sender caller };

    /// Whether a take, give, binding or unbinding of this caller is under way.
    fn is_receiving(&self, caller: CallerNo) -> bool
        ensures { result ≡ has_call (form.state self.now).receiver caller };

    /// Whether this caller holds the buffer of the message of this number.
    fn holds(&self, number: u64, caller: CallerNo) -> bool
        ensures { result ≡ holds (form.state self.now).lane.held number caller };

    /// Whether this caller holds a buffer.
    fn has_held(&self, caller: CallerNo) -> bool
        ensures { result ≡ has_held (form.state self.now).lane.held caller };

    /// How many messages were accepted.
    fn accepted(&self) -> u64
        ensures count { result ≡ length (form.state self.now).lane.accepted }
        ensures few { result ≤ BOOK_MOST };

    /// How many messages were handed over.
    fn handed(&self) -> u64
        ensures { result ≡ length (form.state self.now).lane.takers };

    /// How many buffers were given back.
    fn returned(&self) -> u64
        ensures { result ≡ (form.state self.now).lane.returned };

    /// The bytes of the message of this number. There is none exactly where fewer were accepted.
    fn message(&self, number: u64) -> Option<&[u8]>
        ensures short { IfSome result (λ bytes. length bytes.now ≤ MESSAGE_MOST) }
        ensures message { option_map (λ bytes. bytes.now) result ≡ option_map (λ entry. entry.message) (slice_get (form.state self.now).lane.accepted number) };

    /// Step 1 of a send: takes the sender's turn where it is free. Answers who else has it. The
    /// message has the bytes of `head` and then those of `body`.
    fn begin_send(
        &mut self,
        caller: CallerNo,
        follows: Inc,
        head: &[u8],
        body: &[u8],
    ) -> Option<CallerNo>
        requires { length head.now + length body.now ≤ MESSAGE_MOST }
        ensures left { self.new ≡ form.after_send_start self.old caller follows (head.now ++ body.now) }
        ensures holder { result ≡ holder (form.state self.old).sender };

    /// Step 1 of the other calls: takes the receiver's turn where it is free. Answers who else has it.
    fn begin_receive(&mut self, caller: CallerNo, follows: Inc, first: Work) -> Option<CallerNo>
        requires first { IsFirst first }
        requires fit { IsFitWork first (form.state self.old).lane caller }
        ensures left { self.new ≡ form.after_receive_start self.old caller follows first }
        ensures holder { result ≡ holder (form.state self.old).receiver };

    /// The next step of the send that has the sender's turn. Where it ends, `end` says how.
    fn advance_send(&mut self, era: Era, end: &mut CallEnd) -> Step
        requires { (caller : ℕ) × (has_call (form.state self.old).sender caller ≡ true) }
        ensures left { self.new ≡ form.sent_on self.old era }
        ensures outcome { outcome_of result end.new ≡ (sender_step era (form.state self.old)).outcome };

    /// The next step of the call that has the receiver's turn. Where it ends, `end` says how.
    fn advance_receive(&mut self, era: Era, end: &mut CallEnd) -> Step
        requires { (caller : ℕ) × (has_call (form.state self.old).receiver caller ≡ true) }
        ensures left { self.new ≡ form.received_on self.old era }
        ensures outcome { outcome_of result end.new ≡ (receiver_step Self.Desk.meaning era (form.state self.old)).outcome };

    /// How many messages the lane accepts in one incarnation.
    fn book(&self) -> u32
        ensures book { result ≡ (form.state self.now).lane.book }
        ensures most { result ≤ BOOK_MOST };

    /// Who else has the receiver's turn, where this caller holds a buffer.
    fn needed_holder(&self, caller: CallerNo) -> Option<CallerNo>
        ensures { result ≡ needed_holder (form.state self.now) caller };

    /// Who has a turn of this lane, the sender's first.
    fn turn_out(&self) -> Option<CallerNo>
        ensures { result ≡ turn_out (form.state self.now) };

    /// The holding of the least number.
    fn least_held(&self) -> Option<Holding>
        ensures { result ≡ least_held (form.state self.now).lane.held };

    /// Ends the send of this caller, where one is under way.
    fn end_send(&mut self, caller: CallerNo)
        ensures { self.new ≡ form.after_send_end self.old caller };

    /// Ends the call of this caller that has the receiver's turn, where one has it, and takes back
    /// what it holds.
    fn end_receive(&mut self, caller: CallerNo)
        ensures { self.new ≡ form.after_receive_end self.old caller };

    /// Begins a new incarnation in this room. Answers the book of the one before and to whom its
    /// messages were handed.
    fn reopen(&mut self, room: LaneRoom) -> LaneBook
        requires { room ≡ (form.state self.old).lane.book }
        ensures left { self.new ≡ form.link_after_reopen self.old }
        ensures accepted { result.accepted.entries ≡ (form.state self.old).lane.accepted }
        ensures takers { result.takers.items ≡ (form.state self.old).lane.takers };

    /// A whole send in a live era, where nothing refuses it, or nothing: a form that has no shorter way
    /// than its steps answers false. The message has the bytes of `head` and then those of `body`.
    fn send_at_once(
        &mut self,
        caller: CallerNo,
        era: Era,
        head: &[u8],
        body: &[u8],
        end: &mut CallEnd,
    ) -> bool
        requires live { era.is_live ≡ true }
        requires fits { length head.now + length body.now ≤ MESSAGE_MOST }
        ensures may { OnTrue result (SendsAtOnce (form.state self.old)) }
        ensures left { OnTrue result (self.new ≡ after_send form self.old era caller (head.now ++ body.now)) }
        ensures end { OnTrue result (end.new ≡ call_end.Sent (length (form.state self.old).lane.accepted)) }
        ensures none { OnFalse result (self.new ≡ self.old) };

    /// A whole take in a live era, where nothing refuses it, or nothing.
    fn take_at_once(&mut self, caller: CallerNo, era: Era, end: &mut CallEnd) -> bool
        requires live { era.is_live ≡ true }
        ensures may { OnTrue result (TakesAtOnce (form.state self.old)) }
        ensures left { OnTrue result (self.new ≡ after_take form self.old era caller) }
        ensures end { OnTrue result (end.new ≡ took_next Self.Desk.meaning (form.state self.old)) }
        ensures none { OnFalse result (self.new ≡ self.old) };

    /// A whole give of the buffer of the message of this number, which this caller holds, where nothing
    /// refuses it, or nothing.
    fn give_at_once(&mut self, number: u64, caller: CallerNo, era: Era, end: &mut CallEnd) -> bool
        requires held { IsTrue (holds (form.state self.old).lane.held number caller) }
        ensures may { OnTrue result (holder (form.state self.old).receiver ≡ None) }
        ensures left { OnTrue result (self.new ≡ after_give form self.old era caller number) }
        ensures end { OnTrue result (end.new ≡ call_end.Gave number) }
        ensures none { OnFalse result (self.new ≡ self.old) };

    /// Each step is the lane's.
    ghost is_form: { IsForm form Self.Desk.meaning };
}
