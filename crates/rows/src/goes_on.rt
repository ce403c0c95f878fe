//! Two threads over a link that a script has left.
ghost use Rattle.split_ring.specs.Callers.{Holds, IsCallerOf};

use channel_bus::Side;
use lane_model::Held;
use link_bench::Bench;
use rp_base::{End, Message, NoMemory};
use split_ring::{Caller, SharedLink, Taken};
use std::alloc::Global;
use std::fmt::{self, Write};
use std::thread;
use std::thread::{Threads, yield_now};

/// How many messages the host's thread is handed.
const MESSAGES: usize = 2;

/// How often a call is tried.
const TRIES: u64 = 1_000_000_000;

/// A message that was handed over, and its number.
#[derive(Drop)]
pub struct Handed {
    number: u64,
    message: Message,
}

impl fmt::Display for Handed {
    fn fmt<W: Write>(&self, f: &mut fmt::Formatter<W>) -> fmt::Result {
        let header = rpmsg_header::fields(self.message.bytes());
        match std::str::from_utf8(header.payload) {
            Ok(text) => write!(f, "message {}: {text}", self.number),
            Err(_) => write!(f, "message {}", self.number),
        }
    }
}

/// Has two threads go on over the link of a bench, each with a new caller: what the host's was handed.
/// That is nothing where the numbers of callers are all in use.
///
/// Errors: only if memory runs out.
pub fn go_on<R: Threads + Sync>(
    rt: &R,
    alloc: Global,
    bench: Bench,
) -> Result<Vec<Handed>, NoMemory> {
    let handed = Vec::with_capacity(alloc, MESSAGES)?;
    let (link, mut manager) = bench.into_shared();
    let Some(host) = link.caller(&mut manager, End::Host) else {
        return Ok(handed);
    };
    let Some(remote) = link.caller(&mut manager, End::Remote) else {
        return Ok(handed);
    };
    Ok(join(rt, &link, host, remote, handed))
}

/// A thread for each caller: the remote's sends a message, the host's takes.
fn join<R: Threads + Sync>(
    rt: &R,
    link: &SharedLink<Side>,
    host: Caller,
    remote: Caller,
    handed: Vec<Handed>,
) -> Vec<Handed>
    requires host { IsCallerOf link.now host }
    requires remote { IsCallerOf link.now remote }
{
    let taking = move || -> Vec<Handed>
        requires { IsCallerOf link.now host }
    { take_all(link, host, handed) };
    let sending = move || -> Option<u64>
        requires { IsCallerOf link.now remote }
    { send_one(link, remote) };
    let (handed, _) = thread::join(rt, taking, sending);
    handed
}

/// Takes until so many messages were handed over, and gives each buffer back.
fn take_all(link: &SharedLink<Side>, caller: Caller, handed: Vec<Handed>) -> Vec<Handed>
    requires { IsCallerOf link.now caller }
{
    let mut caller = caller;
    let mut handed = handed;
    for _ in 0..TRIES {
        if handed.len() >= MESSAGES {
            return handed;
        }
        match link.try_take(&mut caller) {
            Ok(Taken { held, .. }) => {
                let number = held.number();
                let message = held.message().copy();
                give_back(link, &mut caller, held);
                let _ = handed.push(Handed { number, message });
            }
            Err(_) => yield_now(),
        }
    }
    handed
}

/// Gives a buffer back.
fn give_back(link: &SharedLink<Side>, caller: &mut Caller, held: Held)
    requires caller { IsCallerOf link.now caller.old }
    requires held { Holds caller.old held }
    ensures { IsCallerOf link.now caller.new }
{
    let mut held = held;
    for _ in 0..TRIES {
        match link.try_give(caller, held) {
            Ok(_) => return,
            Err(busy) => held = busy.held,
        }
        yield_now();
    }
}

/// Sends a message: its number, where it was accepted.
fn send_one(link: &SharedLink<Side>, caller: Caller) -> Option<u64>
    requires { IsCallerOf link.now caller }
{
    let payload = b"a thread";
    let mut message = Message::empty();
    message.set(&rpmsg_header::head(1024, 1024, 8), payload);
    let mut caller = caller;
    for _ in 0..TRIES {
        if let Ok(number) = link.try_send(&mut caller, &message) {
            return Some(number);
        }
        yield_now();
    }
    None
}
