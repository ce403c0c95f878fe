//! The work of one caller of a round.
ghost use Rattle.std.specs.Prelude.{◌≡◌, ◌≤◌, [], ◌∷◌};
ghost use Rattle.split_ring.specs.Callers.{IsCallerOf, Holds};
ghost use Rattle.split_ring.specs.Seats.{pass_in};
ghost use Rattle.split_ring.specs.declared.callers.Caller.{Caller};
ghost use Rattle.storm_run.specs.Rounds.{HasSent, HasWorked, IsFree, storm_messages};
ghost use Rattle.storm_run.specs.Tasks.{HasTurned, least_in};

use crate::gates::{Gate, pass};
use crate::messages::storm_message;
use crate::tasks::Task;
use channel_bus::Side;
use crossbeam_utils::Backoff;
use lane_model::Held;
use split_ring::{Caller, Pauses, SharedLink, TakeFault};
use std::sync::Wait;

/// What a worker's take came to.
#[derive(Clone, Copy)]
pub(crate) enum Found {
    /// A message, whose buffer was given back.
    Message,
    /// None, and so many were accepted.
    Empty(u64),
    /// The era is another or a closed one.
    Dead,
}

/// Sends so many messages, and takes until at least as many messages were accepted as the other end sends. Where it
/// gets on neither way it spins for longer each time, and then gives its processor away.
pub(crate) fn work<R: Wait, G: Gate>(
    rt: &R,
    link: &SharedLink<Side>,
    caller: &mut Caller,
    task: Task,
    gate: &G,
)
    requires { IsFree link.now caller.old }
    ensures { HasWorked link.now task.count (least_in task caller.old.id.end) caller.old caller.new }
{
    let least = task.least(caller.end());
    let idle = Backoff::new();
    let mut calls = 0;
    let mut sent = 0;
    for _ in rt.forever() {
        let before = sent;
        sent = send_left(rt, link, caller, task, sent, gate, &mut calls);
        match take_next(rt, link, caller, gate, &mut calls) {
            Found::Message => idle.reset(),
            Found::Empty(accepted) if sent == task.count && u128::from(accepted) >= least => return,
            Found::Empty(_) | Found::Dead => rest(&idle, sent != before),
        }
    }
    unreachable!()
}

/// Waits after a take that came to nothing: anew where a message was sent before it, else longer than the last time.
fn rest(idle: &Backoff, has_sent: bool) {
    if has_sent {
        idle.reset();
    } else {
        idle.snooze();
    }
}

/// Sends the next message, if one is left and there is room for it: how many were sent then.
fn send_left<R: Wait, G: Gate>(
    rt: &R,
    link: &SharedLink<Side>,
    caller: &mut Caller,
    task: Task,
    sent: u32,
    gate: &G,
    calls: &mut u64,
) -> u32
    requires free { IsFree link.now caller.old }
    requires most { sent ≤ task.count }
    ensures free { IsFree link.now caller.new }
    ensures most { result ≤ task.count }
    ensures sent { (first : Caller) → HasSent (storm_messages first.id.number sent) first caller.old → HasSent (storm_messages first.id.number result) first caller.new }
{
    if sent == task.count {
        return sent;
    }
    pass(gate, caller, calls);
    let message = storm_message(caller.number(), sent);
    match link.send(rt, caller, &message) {
        Ok(_) => sent + 1,
        Err(_) => sent,
    }
}

/// Takes a message, if there is one, and gives its buffer back.
fn take_next<R: Wait, G: Gate>(
    rt: &R,
    link: &SharedLink<Side>,
    caller: &mut Caller,
    gate: &G,
    calls: &mut u64,
) -> Found
    requires { IsFree link.now caller.old }
    ensures free { IsFree link.now caller.new }
    ensures turned { HasTurned result caller.old caller.new }
{
    pass(gate, caller, calls);
    match link.take(rt, caller) {
        Ok(taken) => {
            give_back(rt, link, caller, taken.held, gate, calls);
            Found::Message
        }
        Err(TakeFault::Empty(accepted)) => Found::Empty(accepted),
        Err(TakeFault::Dead(_) | TakeFault::Busy(_)) => Found::Dead,
    }
}

/// Gives a buffer back, and tries again where another has the turn.
fn give_back<R: Wait, G: Gate>(
    rt: &R,
    link: &SharedLink<Side>,
    caller: &mut Caller,
    held: Held,
    gate: &G,
    calls: &mut u64,
)
    requires caller { IsCallerOf link.now caller.old }
    requires held { Holds caller.old held }
    requires alone { (pass_in caller.old.seat.me).hands ≡ held.number ∷ [] }
    ensures free { IsFree link.now caller.new }
    ensures sent { HasSent [] caller.old caller.new }
{
    let mut held = held;
    let mut pauses = Pauses::new();
    for _ in rt.forever() {
        pass(gate, caller, calls);
        match link.try_give(caller, held) {
            Ok(_) => return,
            Err(busy) => held = busy.held,
        }
        pauses.pause();
    }
    unreachable!()
}
