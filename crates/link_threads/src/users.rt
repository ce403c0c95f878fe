//! What the two callers of a life do: the one sends, the other is handed what was sent.
ghost use Rattle.std.specs.Prelude.{◌≡◌, IfSome};
ghost use Rattle.split_ring.specs.Callers.{Holds, IsAfterCall, IsCallerOf};
ghost use Rattle.link_threads.specs.Lives.{HasGrown, HasPublishedNone, HasSentAlone, HasStopped, HasTaken, IsFree, IsNew};

use lane_model::{Ask, Desk, Held, Progress};
use rp_base::Message;
use split_ring::{Caller, RingCall, SharedLink, Taken};
use std::thread::yield_now;

/// How often a call is tried, so that its caller ends where the others do not go on.
const TRIES: u64 = 1_000_000_000;

/// How many of its six steps the send makes that is never ended.
const STEPS: u8 = 5;

/// A message that was handed over, and its number.
#[derive(Drop)]
pub struct Found {
    pub number: u64,
    pub message: Message,
}

/// A sender that has stopped, with the call that it is in.
#[derive(Drop)]
pub struct Stopped<D: Desk> {
    pub caller: Caller,
    pub call: Option<RingCall<D>>,
    /// The number of the message that it has sent whole.
    pub sent: Option<u64>,
}

/// Sends one message whole, and stops in the middle of the next send. Whatever came of the two, by its own list the caller has sent
/// the first message alone, or none where that was not accepted; and what it is left with can be reclaimed.
pub fn send_and_stop<D: Desk>(
    link: &SharedLink<D>,
    caller: Caller,
    first: &Message,
    second: Message,
) -> Stopped<D>
    requires { IsNew link.now caller }
    ensures stopped { HasStopped link.now result.caller result.call }
    ensures sent { HasSentAlone result.caller result.sent first.now }
{
    let mut caller = caller;
    let sent = link.try_send(&mut caller, first).ok();
    let (caller, call) = stop_in_send(link, caller, second);
    Stopped { caller, call, sent }
}

/// Begins a send, makes five of its steps, and stops. The turn and a buffer are out then, and nothing was published; where another had
/// the turn, or there was no room, the caller is in no call.
fn stop_in_send<D: Desk>(
    link: &SharedLink<D>,
    caller: Caller,
    message: Message,
) -> (Caller, Option<RingCall<D>>)
    requires { IsFree link.now caller }
    ensures stopped { HasStopped link.now result.0 result.1 }
    ensures id { result.0.id ≡ caller.id }
    ensures unsent { HasPublishedNone caller result.0 }
{
    let mut caller = caller;
    let mut call = link.begin_call(Ask::Send(message));
    for step in 0..STEPS {
        match link.advance_call(&mut caller, &mut call) {
            Progress::At(_) => {}
            Progress::Done(_) => return (caller, None),
        }
    }
    (caller, Some(call))
}

/// Takes until a message was handed over, and gives its buffer back. By its own list the caller has taken that message, under that
/// number, in the incarnation that it follows.
pub fn take_one<D: Desk>(link: &SharedLink<D>, caller: &mut Caller) -> Option<Found>
    requires { IsCallerOf link.now caller.old }
    ensures caller { IsAfterCall link.now caller.old caller.new }
    ensures taken { IfSome result (λ found. HasTaken caller.new found.number found.message) }
{
    for _ in 0..TRIES {
        if let Some(found) = try_take_one(link, caller) {
            return Some(found);
        }
        yield_now();
    }
    None
}

/// Tries once.
fn try_take_one<D: Desk>(link: &SharedLink<D>, caller: &mut Caller) -> Option<Found>
    requires { IsCallerOf link.now caller.old }
    ensures caller { IsAfterCall link.now caller.old caller.new }
    ensures taken { IfSome result (λ found. HasTaken caller.new found.number found.message) }
{
    let Ok(Taken { held, .. }) = link.try_take(caller) else {
        return None;
    };
    let number = held.number();
    let message = held.message().copy();
    give_back(link, caller, held);
    Some(Found { number, message })
}

/// Gives a buffer back.
fn give_back<D: Desk>(link: &SharedLink<D>, caller: &mut Caller, held: Held)
    requires caller { IsCallerOf link.now caller.old }
    requires held { Holds caller.old held }
    ensures caller { IsAfterCall link.now caller.old caller.new }
    ensures grown { HasGrown caller.old caller.new }
{
    let mut held = held;
    for _ in 0..TRIES {
        match link.try_give(caller, held) {
            Ok(_) => return,
            Err(busy) => held = busy.held,
        }
        yield_now();
    }
}
