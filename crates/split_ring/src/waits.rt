//! Calls that wait: each is tried again where another had the turn.
ghost use Rattle.std.specs.Prelude.{◌≡◌, ℕ, List, IfOk};
ghost use Rattle.split_ring.specs.declared.callers.CallerId.{CallerId};
ghost use Rattle.split_ring.specs.Callers.{Holds, IsCallerOf, IsAfterCall, SendNotBelow, TakeNotBelow, WaitsToSend, WaitsToTake};
ghost use Rattle.split_ring.specs.Receives.{took};
ghost use Rattle.split_ring.specs.Waits.{is_send_busy, is_take_busy};

use crate::callers::Caller;
use crate::links::SharedLink;
use crate::sends::SendFault;
use crate::takes::{Handing, TakeFault, Taken, took};
use crossbeam_utils::Backoff;
use lane_model::Desk;
use rp_base::Message;
use std::sync::Wait;
use std::thread::yield_now;

/// How often the first pause spins. That takes longer than any call has a turn.
const SPINS: u32 = 70;

/// The pauses between the tries of one call. The first one spins; each later one gives the processor away.
#[derive(Drop)]
pub struct Pauses {
    has_spun: bool,
}

impl Pauses {
    /// None was made yet.
    pub fn new() -> Pauses {
        Pauses { has_spun: false }
    }

    /// The next pause.
    pub fn pause(&mut self) {
        if self.has_spun {
            yield_now();
            return;
        }
        self.has_spun = true;
        let backoff = Backoff::new();
        for _ in 0..SPINS {
            backoff.spin();
        }
    }
}

/// Whether another had the sender's turn.
fn is_send_busy(answer: &Result<u64, SendFault>) -> bool
    ensures { result ≡ is_send_busy answer.now }
{
    match answer {
        Err(SendFault::Busy(_)) => true,
        Ok(_) | Err(SendFault::Dead(_) | SendFault::NoBuffer(_, _) | SendFault::BookFull(_)) =>
            false,
    }
}

/// Whether another had the receiver's turn.
fn is_take_busy(answer: &Result<Handing, TakeFault>) -> bool
    ensures { (who : CallerId) (message : List ℕ) → result ≡ is_take_busy (took who message answer.now) }
{
    match answer {
        Err(TakeFault::Busy(_)) => true,
        Ok(_) | Err(TakeFault::Dead(_) | TakeFault::Empty(_)) => false,
    }
}

impl<D: Desk> SharedLink<D> {
    /// Sends a message to the other end: the message's number in its lane and incarnation. It is tried again
    /// where another had the sender's turn, so it may wait. It takes no memory.
    ///
    /// Errors: those of [`SharedLink::try_send`] but `Busy`.
    pub fn send<R: Wait>(
        &self,
        rt: &R,
        caller: &mut Caller,
        message: &Message,
    ) -> Result<u64, SendFault>
        requires { IsCallerOf self.now caller.old }
        ensures caller { IsAfterCall self.now caller.old caller.new }
        ensures walks { WaitsToSend D.row.coded D.meaning self.now caller.old message.now result caller.new }
        ensures seen { SendNotBelow caller.old result }
    {
        let mut pauses = Pauses::new();
        for _ in rt.forever() {
            let answer = self.try_send(caller, message);
            if !is_send_busy(&answer) {
                return answer;
            }
            pauses.pause();
        }
        unreachable!()
    }

    /// Is handed the next message of the lane to the caller's end. It is tried again where another had the
    /// receiver's turn, so it may wait. It takes no memory. The buffer stays the caller's until it gives it
    /// back.
    ///
    /// Errors: those of [`SharedLink::try_take`] but `Busy`.
    pub fn take<R: Wait>(&self, rt: &R, caller: &mut Caller) -> Result<Taken, TakeFault>
        requires { IsCallerOf self.now caller.old }
        ensures caller { IsAfterCall self.now caller.old caller.new }
        ensures walks { WaitsToTake D.row.coded D.meaning caller.old result caller.new }
        ensures seen { TakeNotBelow caller.old result }
        ensures held { IfOk result (λ taken. Holds caller.new taken.held) }
    {
        let mut message = Message::empty();
        let mut pauses = Pauses::new();
        for _ in rt.forever() {
            let answer = self.take_into(caller, &mut message);
            if !is_take_busy(&answer) {
                return took(caller.id, answer, message);
            }
            pauses.pause();
        }
        unreachable!()
    }
}
