ghost use Rattle.std.specs.Prelude.{◌≡◌, ◌≤◌, [], length, IfSome};
ghost use Rattle.std.specs.Option.{option_map, unwrap_or};
ghost use Rattle.rp_base.specs.declared.limits.TheConstants.{MESSAGE_MOST};
ghost use Rattle.lane_model.specs.Answers.{busy_answer};

use crate::calls::{Answer, Ask, CallEnd, Progress, Step};
use crate::helds::Held;
use crate::lane_forms::LaneForm;
use crate::lane_links::LaneLink;
use crate::links::Link;
use crate::stages::{GiveStage, TakeStage, Work};
use rp_base::{Buffer, CallerNo, End, Inc, Message};

/// A call of a link: the incarnation that it follows, and what it asks until its first step. From
/// then on the link has the call, in the turn that it took.
#[derive(Drop)]
pub struct LinkCall {
    pub follows: Inc,
    pub asked: Option<Ask>,
}

impl<L: LaneForm> LaneLink<L> {
    ghost use Rattle.std.specs.Prelude.{Some};
    ghost use Rattle.std.specs.Option.{option_map_or};
    ghost use Rattle.lane_model.specs.declared.calls.Progress.TheVariants as progress;
    ghost use Rattle.lane_model.specs.Links.{link_of, form_step, caller_step, end_of};
    ghost use Rattle.lane_model.specs.Conditions.{MayStep};
    ghost use Rattle.lane_model.specs.Answers.{wish_of, outcome_of, held_buffer, answer_at, progress_at};

    /// Step 1 of what a caller asks.
    fn first_ask(&mut self, caller: CallerNo, follows: Inc, asked: &Ask, end: &mut CallEnd) -> Step
        requires { MayStep (link_of L.form self.old) caller (Some (wish_of asked.now)) }
        ensures left { link_of L.form self.new ≡ (caller_step L.Desk.meaning (link_of L.form self.old) caller follows (Some (wish_of asked.now))).state }
        ensures outcome { outcome_of result end.new ≡ (caller_step L.Desk.meaning (link_of L.form self.old) caller follows (Some (wish_of asked.now))).outcome }
    {
        match asked {
            Ask::Send(message) => self.send_first(caller, follows, message.bytes(), &[], end),
            Ask::Take => self.work_first(caller, follows, Work::Take(TakeStage::Turn), end),
            Ask::Give(held) => {
                self.work_first(
                    caller,
                    follows,
                    Work::Give(held.number(), GiveStage::Turn),
                    end,
                )
            }
            Ask::Bind(address) => self.work_first(caller, follows, Work::Bind(*address), end),
            Ask::Unbind(address) => self.work_first(caller, follows, Work::Unbind(*address), end),
        }
    }

    /// The buffer of a message of the lane that callers of this end take from, in the hands of a caller.
    fn held(&self, side: End, caller: CallerNo, number: u64) -> Held
        ensures { result ≡ held_buffer (link_of L.form self.now) side caller number }
    {
        match side {
            End::Host => buffer_of(0, caller, number, self.to_host.message(number)),
            End::Remote => buffer_of(1, caller, number, self.to_remote.message(number)),
        }
    }

    /// The answer to a caller of this end, by the end of its call and what it asked in the last step.
    fn answer(&self, side: End, caller: CallerNo, asked: Option<Ask>, end: CallEnd) -> Answer
        ensures { result ≡ answer_at (link_of L.form self.now) side caller asked end }
    {
        match end {
            CallEnd::Sent(number) => Answer::Sent(number),
            CallEnd::Took(number, verdict) => Answer::Took(
                self.held(side, caller, number),
                verdict,
            ),
            CallEnd::Gave(number) => Answer::Gave(number),
            CallEnd::Bound(endpoint) => Answer::Bound(endpoint),
            CallEnd::Unbound(endpoint) => Answer::Unbound(endpoint),
            CallEnd::Busy(holder) => busy(holder, asked),
            CallEnd::Dead(era) => Answer::Dead(era),
            CallEnd::NoBuffer(accepted, returned) => Answer::NoBuffer(accepted, returned),
            CallEnd::BookFull(accepted) => Answer::BookFull(accepted),
            CallEnd::Empty(accepted) => Answer::Empty(accepted),
            CallEnd::Refused(fault) => Answer::Refused(fault),
        }
    }

    /// What a step says to its caller, which asked this in it.
    fn progress(&self, caller: CallerNo, asked: Option<Ask>, step: Step, end: CallEnd) -> Progress
        ensures { result ≡ option_map_or (λ side. progress_at (link_of L.form self.now) side caller asked (outcome_of step end)) (end_of self.now.callers caller) (progress.At 0) }
    {
        match self.end_of(u64::from(caller)) {
            None => Progress::At(0),
            Some(side) => match step {
                Step::At(number) => Progress::At(number),
                Step::Ended => Progress::Done(self.answer(side, caller, asked, end)),
            },
        }
    }
}

impl<L: LaneForm> Link for LaneLink<L> {
    ghost use Rattle.std.specs.Prelude.{Some};
    ghost use Rattle.lane_model.specs.Links.{link_of};
    ghost use Rattle.lane_model.specs.Answers.{MayAsk};
    ghost use Rattle.lane_model.specs.LinkLaws.{leads_to_may};

    type Pass = CallerNo;

    type Call = LinkCall;

    type Desk = L::Desk;

    ghost state = { λ link. Some (link_of L.form link) };

    ghost number = { λ caller. caller };

    ghost follows = { λ call. call.follows };

    ghost asked = { λ call. call.asked };

    ghost may = { λ link caller call. MayAsk (link_of L.form link) caller call.asked };

    ghost leads = { λ link caller call told is may. leads_to_may (link_of L.form link) told caller call.asked is may };

    fn begin(&self, ask: Ask) -> LinkCall {
        LinkCall {
            follows: self.era.inc,
            asked: Some(ask),
        }
    }

    fn advance(&mut self, caller: &mut CallerNo, call: &mut LinkCall) -> Progress {
        let mut end = CallEnd::Gave(0);
        let asked = call.asked.take();
        let step = match &asked {
            None => self.next_step(*caller, &mut end),
            Some(ask) => self.first_ask(*caller, call.follows, ask, &mut end),
        };
        self.progress(*caller, asked, step, end)
    }
}

/// The buffer of the message of a number with these bytes, in the hands of a caller. A link doesn't
/// say the number of a buffer to who holds it, which is 0 here.
fn buffer_of(lane: u8, caller: CallerNo, number: u64, bytes: Option<&[u8]>) -> Held
    requires { IfSome bytes (λ found. length found.now ≤ MESSAGE_MOST) }
    ensures { result ≡ record { lane = lane; caller = caller; number = number; buffer = 0; message = unwrap_or (option_map (λ found. found.now) bytes.entry) [] } }
{
    let message = match bytes {
        None => Message::empty(),
        Some(found) => match Message::of(found) {
            None => unreachable!(),
            Some(message) => message,
        },
    };
    Held::of(lane, caller, number, Buffer { id: 0, message })
}

/// The answer where another had the turn: a give hands its buffer back.
fn busy(holder: CallerNo, asked: Option<Ask>) -> Answer
    ensures { result ≡ busy_answer holder asked }
{
    match asked {
        Some(Ask::Give(held)) => Answer::GiveBusy(holder, held),
        Some(Ask::Send(_)) | Some(Ask::Take) | Some(Ask::Bind(_)) | Some(Ask::Unbind(_)) | None => {
            Answer::Busy(holder)
        }
    }
}
