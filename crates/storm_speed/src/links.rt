//! Traffic over a shared link, timed.
ghost use Rattle.std.specs.Prelude.{All, IfOk};
ghost use Rattle.split_ring.specs.Callers.{Holds, IsCallerOf, IsManagerOf};

use crate::work::{MESSAGES_MOST, Work};
use channel_bus::Side;
use crossbeam_utils::Backoff;
use lane_model::{Held, LinkConfig};
use rp_base::{End, Message, NoMemory};
use split_ring::{Caller, Manager, Pauses, SharedLink, TakeFault};
use std::alloc::Global;
use std::sync::Wait;
use std::thread;
use std::thread::Threads;
use std::time::{Clock, Duration, Instant};

/// How long this work takes with messages of these bytes. There is none where the clock or the memory fails.
pub fn time<R: Threads + Wait + Clock + Sync>(
    rt: &R,
    alloc: Global,
    work: Work,
    bytes: &[u8],
) -> Option<Duration> {
    let message = Message::of(bytes)?;
    let Ok((link, callers)) = link_with_callers(alloc, work) else {
        return None;
    };
    let mut callers = callers;
    let start = Instant::now(rt).ok()?;
    work_all(rt, &link, work, &message, &mut callers);
    start.elapsed(rt).ok()
}

/// A link with rings of 256 entries, and its callers.
fn link_with_callers(alloc: Global, work: Work) -> Result<(SharedLink<Side>, Vec<Caller>), NoMemory>
    ensures { IfOk result (λ made. All (λ caller. IsCallerOf made.0 caller) made.1.items) }
{
    let config = LinkConfig {
        num0: 256,
        num1: 256,
        book: MESSAGES_MOST,
        first: 1,
        base: 0,
    };
    let host = Side::new(alloc, false, Vec::new(alloc))?;
    let remote = Side::new(alloc, false, Vec::new(alloc))?;
    let (link, mut manager) = SharedLink::make(alloc, config, host, remote)?;
    let callers = callers(alloc, &link, &mut manager, work.each)?;
    Ok((link, callers))
}

/// So many callers on each end.
fn callers(
    alloc: Global,
    link: &SharedLink<Side>,
    manager: &mut Manager,
    each: u8,
) -> Result<Vec<Caller>, NoMemory>
    requires { IsManagerOf link.now manager.old }
    ensures { IfOk result (λ callers. All (λ caller. IsCallerOf link.now caller) callers.items) }
{
    let mut callers = Vec::new(alloc);
    for place in 0..u16::from(each) * 2 {
        let end = if place < u16::from(each) {
            End::Host
        } else {
            End::Remote
        };
        if let Some(caller) = link.caller(manager, end) {
            callers.push(caller)?;
        }
    }
    Ok(callers)
}

/// Has each caller do its work on a thread of its own.
fn work_all<R: Threads + Wait + Sync>(
    rt: &R,
    link: &SharedLink<Side>,
    work: Work,
    message: &Message,
    callers: &mut [Caller],
)
    requires { All (λ caller. IsCallerOf link.now caller) callers.old }
{
    let threads = callers.len().max(1);
    thread::for_each_mut(
        rt,
        callers,
        threads,
        &|_, caller: &mut Caller|
            requires { IsCallerOf link.now caller.now }
        { do_work(rt, link, work, message, caller) },
    );
}

/// Sends the messages of one thread, and takes until all messages of the other end were handed over.
fn do_work<R: Wait>(
    rt: &R,
    link: &SharedLink<Side>,
    work: Work,
    message: &Message,
    caller: &mut Caller,
)
    requires { IsCallerOf link.now caller.old }
{
    let all = work.all();
    let idle = Backoff::new();
    let mut sent = 0;
    for _ in rt.forever() {
        let before = sent;
        if sent < work.count && link.send(rt, caller, message).is_ok() {
            sent += 1;
        }
        match link.take(rt, caller) {
            Ok(taken) => {
                give_back(rt, link, caller, taken.held);
                idle.reset();
            }
            Err(TakeFault::Empty(accepted)) if sent == work.count && accepted >= all => return,
            Err(_) if sent == before => idle.snooze(),
            Err(_) => idle.reset(),
        }
    }
    unreachable!()
}

/// Gives a buffer back, and tries again where another has the turn.
fn give_back<R: Wait>(rt: &R, link: &SharedLink<Side>, caller: &mut Caller, held: Held)
    requires caller { IsCallerOf link.now caller.old }
    requires held { Holds caller.old held }
    ensures { IsCallerOf link.now caller.new }
{
    let mut held = held;
    let mut pauses = Pauses::new();
    for _ in rt.forever() {
        match link.try_give(caller, held) {
            Ok(_) => return,
            Err(busy) => held = busy.held,
        }
        pauses.pause();
    }
    unreachable!()
}
