//! In which phase a call is.
ghost use Rattle.std.specs.Prelude.{◌≡◌, ◌≢◌, ◌<◌, ℕ, None, Some, is_some, option_and_then, option_copied, true};
ghost use Rattle.std.specs.Option.{option_map};
ghost use Rattle.lane_model.specs.declared.calls.Ask.{Ask};
ghost use Rattle.lane_model.specs.declared.calls.Ask.TheVariants as ask;
ghost use Rattle.lane_model.specs.declared.calls.Wish.TheVariants as wish;
ghost use Rattle.lane_model.specs.Answers.{given_back, wish_of};
ghost use Rattle.lane_model.specs.HeldBuffers.{HeldBuffer};
ghost use Rattle.split_ring.specs.CallPhases as in_phase;
ghost use Rattle.split_ring.specs.Calls.{IsShort};
ghost use Rattle.split_ring.specs.Phases.{answer_in, settled_end, side_of, slots_in, steps_in};
ghost use Rattle.split_ring.specs.Stages.{answer_buffer, answer_with};

use crate::binds::DeskAsk;
use crate::held_places::HeldPlace;
use crate::sends::{SendCall, sender_slot};
use crate::takes::{TakeCall, receiver_slot};
use crate::turns::other;
use lane_model::{Answer, Ask, CallEnd, GiveStage, SendStage, TakeStage, Wish};
use link_words::Intent;
use rp_base::{CallerNo, End};
use std::marker::Model;

/// What a caller asks, beside the message that it sends or the buffer that it gives back.
#[derive(Clone, Copy)]
pub(crate) enum Request {
    Send,
    Take,
    Give,
    /// To bind an endpoint at this address.
    Bind(u32),
    /// To unbind the endpoint at this address.
    Unbind(u32),
}

/// The step that a call has done last, with what the next one needs beside the message that it sends or the
/// buffer that it gives back or was handed.
#[derive(Drop)]
pub(crate) enum Stage {
    /// No step is done.
    Asked(Request),
    /// A send has done the step of this stage last.
    Sends(SendStage, SendCall),
    /// A take has done the step of this stage last. The fourth has this buffer out.
    Takes(TakeStage, TakeCall, u32),
    /// A give has done the step of this stage last. By the second so many buffers are back.
    Gives(GiveStage, u64),
    /// A binding or an unbinding has its turn.
    Asks(DeskAsk),
    /// The end of a send is settled, and it has its turn to leave.
    LeavesSender(CallEnd),
    /// The same of a call that has the receiver's turn.
    LeavesReceiver(CallEnd),
    /// This one had the turn that a give needs: the buffer goes back to its caller.
    HandsBack(CallerNo),
    /// The call has ended.
    Ended,
}

/// In which phase a call is. Contracts see the step that it has done last, with what the next one needs.
#[derive(Drop)]
pub(crate) struct Phase {
    pub stage: Stage,
    /// Where the buffer is that a give brings back or a take was handed, or a message to send.
    pub place: HeldPlace,
}

impl Model for Phase {
    ghost use Rattle.split_ring.specs.CallPhases.{Phase};
    ghost use Rattle.split_ring.specs.Stages.{phase_at};

    ghost Value = { Phase };

    ghost view = { λ p. phase_at p.stage p.place };
}

impl Phase {
    /// That of a call that has ended.
    pub fn ended() -> Phase
        ensures { result ≡ in_phase.Ended }
    {
        Phase {
            stage: Stage::Ended,
            place: HeldPlace::new(),
        }
    }

    /// That of a call that asks this and has done no step.
    pub fn asked(ask: Ask) -> Phase
        ensures { result ≡ in_phase.Asked ask }
    {
        let (request, place) = match ask {
            Ask::Send(message) => (Request::Send, HeldPlace::with(message)),
            Ask::Take => (Request::Take, HeldPlace::new()),
            Ask::Give(held) => (Request::Give, HeldPlace::of(held)),
            Ask::Bind(address) => (Request::Bind(address), HeldPlace::new()),
            Ask::Unbind(address) => (Request::Unbind(address), HeldPlace::new()),
        };
        Phase {
            stage: Stage::Asked(request),
            place,
        }
    }

    /// Becomes that of a call that asks for what is wished, anything but to give a buffer back.
    pub fn ask(&mut self, wished: &Wish)
        requires { (number : ℕ) → wished.now ≢ wish.Give number }
        ensures { (asked : Ask) × (self.new ≡ in_phase.Asked asked) × (wish_of asked ≡ wished.now) × (given_back asked ≡ None) }
    {
        self.stage = Stage::Asked(match wished {
            Wish::Send(message) => {
                self.place.message.set(message.bytes(), &[]);
                Request::Send
            }
            Wish::Take => Request::Take,
            Wish::Bind(address) => Request::Bind(*address),
            Wish::Unbind(address) => Request::Unbind(*address),
            Wish::Give(_) => unreachable!(),
        });
    }

    /// Becomes that of a call that gives back the buffer in this place.
    pub fn give(&mut self, held: &HeldPlace)
        ensures { self.new ≡ in_phase.Asked (ask.Give held.now) }
    {
        self.place.set(held);
        self.stage = Stage::Asked(Request::Give);
    }

    /// What its caller wishes, of a call that has done no step.
    pub fn intent(&self) -> Intent
        requires { (asked : Ask) × (self.now ≡ in_phase.Asked asked) }
        ensures wish { (asked : Ask) → self.now ≡ in_phase.Asked asked → result ≡ wish_of asked }
        ensures short { IsShort result }
    {
        let Phase { stage, place } = self;
        match stage {
            Stage::Asked(Request::Send) => Intent::send(&place.message),
            Stage::Asked(Request::Take) => Intent::take(),
            Stage::Asked(Request::Give) => Intent::give(place.number),
            Stage::Asked(Request::Bind(address)) => Intent::bind(*address),
            Stage::Asked(Request::Unbind(address)) => Intent::unbind(*address),
            _ => unreachable!(),
        }
    }

    /// The slot of the side state that goes with the turn of a call in this phase, or that it asks for.
    pub fn side_of(&self, end: End) -> usize
        ensures side { result ≡ side_of end self.now }
        ensures within { result < 4 }
    {
        match &self.stage {
            Stage::Asked(Request::Send) | Stage::Sends(_, _) | Stage::LeavesSender(_) => {
                sender_slot(other(end))
            }
            Stage::Asked(_)
            | Stage::Takes(_, _, _)
            | Stage::Gives(_, _)
            | Stage::Asks(_)
            | Stage::LeavesReceiver(_)
            | Stage::HandsBack(_)
            | Stage::Ended => receiver_slot(end),
        }
    }

    /// How many slots are out with a call in this phase.
    pub fn slots(&self) -> u8
        ensures { result ≡ slots_in self.now }
    {
        match &self.stage {
            Stage::Asked(_) | Stage::Ended => 0,
            Stage::Sends(SendStage::Buffer | SendStage::Entry, _)
            | Stage::Takes(TakeStage::Buffer, _, _) => 2,
            Stage::Sends(_, _)
            | Stage::Takes(_, _, _)
            | Stage::Gives(_, _)
            | Stage::Asks(_)
            | Stage::LeavesSender(_)
            | Stage::LeavesReceiver(_)
            | Stage::HandsBack(_) => 1,
        }
    }

    /// How many steps a call in this phase has done, before its end is settled.
    pub fn steps(&self) -> u8
        ensures { result ≡ steps_in self.now }
    {
        match &self.stage {
            Stage::Sends(stage, _) => match stage {
                SendStage::Turn => 1,
                SendStage::Era => 2,
                SendStage::Look => 3,
                SendStage::Buffer => 4,
                SendStage::Entry => 5,
            },
            Stage::Takes(stage, _, _) => match stage {
                TakeStage::Turn => 1,
                TakeStage::Era => 2,
                TakeStage::Look => 3,
                TakeStage::Buffer => 4,
            },
            Stage::Gives(stage, _) => match stage {
                GiveStage::Turn => 1,
                GiveStage::Entry => 2,
            },
            Stage::Asks(_) => 1,
            _ => 0,
        }
    }

    /// How a call in this phase ends, once that is settled.
    pub fn settled(&self) -> Option<CallEnd>
        ensures { result ≡ settled_end self.now }
    {
        match &self.stage {
            Stage::LeavesSender(end) | Stage::LeavesReceiver(end) => match end {
                CallEnd::Took(_, verdict) => Some(CallEnd::Took(self.place.number, *verdict)),
                end => Some(*end),
            },
            Stage::HandsBack(holder) => Some(CallEnd::Busy(*holder)),
            _ => None,
        }
    }

    /// Whether it is settled how a call in this phase ends.
    pub fn is_settled(&self) -> bool
        ensures { result ≡ is_some (settled_end self.now) }
    {
        matches!(
            self.stage,
            Stage::LeavesSender(_) | Stage::LeavesReceiver(_) | Stage::HandsBack(_)
        )
    }

    /// The buffer that its caller is handed, or has back, by the answer that is settled.
    pub fn held(&self) -> Option<&HeldPlace>
        ensures { option_copied result ≡ option_and_then answer_buffer (answer_in self.now) }
    {
        match &self.stage {
            Stage::LeavesSender(CallEnd::Took(_, _))
            | Stage::LeavesReceiver(CallEnd::Took(_, _))
            | Stage::HandsBack(_) => Some(&self.place),
            _ => None,
        }
    }

    /// The answer of a call whose end is settled.
    pub fn answer(&self) -> Answer
        requires { is_some (settled_end self.now) ≡ true }
        ensures { answer_in self.now ≡ Some result }
    {
        match &self.stage {
            Stage::LeavesSender(end) | Stage::LeavesReceiver(end) => answer_with(*end, &self.place),
            Stage::HandsBack(holder) => Answer::GiveBusy(*holder, self.place.held()),
            _ => unreachable!(),
        }
    }
}

/// The answer of a call that ends so: a take was handed the buffer in this place.
fn answer_with(end: CallEnd, place: &HeldPlace) -> Answer
    ensures { result ≡ answer_with end place.now }
{
    match end {
        CallEnd::Sent(number) => Answer::Sent(number),
        CallEnd::Took(_, verdict) => Answer::Took(place.held(), verdict),
        CallEnd::Gave(number) => Answer::Gave(number),
        CallEnd::Bound(endpoint) => Answer::Bound(endpoint),
        CallEnd::Unbound(endpoint) => Answer::Unbound(endpoint),
        CallEnd::Busy(holder) => Answer::Busy(holder),
        CallEnd::Dead(era) => Answer::Dead(era),
        CallEnd::NoBuffer(accepted, returned) => Answer::NoBuffer(accepted, returned),
        CallEnd::BookFull(accepted) => Answer::BookFull(accepted),
        CallEnd::Empty(accepted) => Answer::Empty(accepted),
        CallEnd::Refused(fault) => Answer::Refused(fault),
    }
}
