//! The two lives of a link, and what its manager does between them.
ghost use Rattle.std.specs.Prelude.{◌≡◌, ◌+◌, ◌<◌, ◌^◌, IfOk, IfSome, [], ◌∷◌, ◌++◌};
ghost use Rattle.split_ring.specs.Callers.{IsCallerOf, IsManagerOf};
ghost use Rattle.link_threads.specs.Lives.{HasSentAlone, HasStopped, HasTaken, IsNew};

use crate::users::{Found, Stopped, send_and_stop, take_one};
use channel_bus::Side;
use lane_model::{Books, LinkConfig};
use rp_base::{End, Inc, Message, NoMemory};
use split_ring::{Caller, Manager, Parts, SharedLink};
use std::alloc::Global;
use std::fmt::{self, Write};
use std::thread;
use std::thread::Threads;

/// The incarnation of the first life.
const FIRST: Inc = 1;

/// Why there is no second life.
#[derive(Debug, Drop)]
pub enum Halt {
    NoMemory,
    NoCaller,
    NotClosed,
    NotReclaimed,
    NotReopened,
}

impl From<NoMemory> for Halt {
    fn from(_: NoMemory) -> Halt {
        Halt::NoMemory
    }
}

/// What came of a life.
#[derive(Drop)]
pub struct Life {
    /// The number of the message that was sent whole.
    sent: Option<u64>,
    /// What was handed over.
    found: Option<Found>,
}

impl fmt::Display for Life {
    fn fmt<W: Write>(&self, f: &mut fmt::Formatter<W>) -> fmt::Result {
        match self.sent {
            Some(number) => write!(f, "sent {number}, ")?,
            None => write!(f, "sent none, ")?,
        }
        match &self.found {
            Some(found) => match std::str::from_utf8(found.message.bytes()) {
                Ok(text) => write!(f, "taken {}: {text}", found.number),
                Err(_) => write!(f, "taken {}", found.number),
            },
            None => write!(f, "taken none"),
        }
    }
}

/// What came of both, with the books of the first.
#[derive(Drop)]
pub struct Lives {
    pub first: Life,
    pub books: Books,
    pub second: Life,
    /// The host's caller has closed the second life.
    pub is_closed: bool,
}

/// A host's caller, and what it was handed.
#[derive(Drop)]
struct Taker {
    caller: Caller,
    found: Option<Found>,
}

/// The message of this text.
fn message_of(text: &[u8]) -> Message {
    match Message::of(text) {
        Some(message) => message,
        None => Message::empty(),
    }
}

/// Runs both lives.
///
/// Errors: why there is no second one.
pub fn run<R: Threads + Sync>(rt: &R, alloc: Global) -> Result<Lives, Halt> {
    let config = LinkConfig {
        num0: 4,
        num1: 4,
        book: 16,
        first: FIRST,
        base: 0,
    };
    let host = Side::new(alloc, false, Vec::new(alloc))?;
    let remote = Side::new(alloc, false, Vec::new(alloc))?;
    let (link, mut manager) = SharedLink::make(alloc, config, host, remote)?;
    let Some(host) = link.caller(&mut manager, End::Host) else {
        return Err(Halt::NoCaller);
    };
    let Some(remote) = link.caller(&mut manager, End::Remote) else {
        return Err(Halt::NoCaller);
    };
    let (taker, stopped) = first_life(rt, &link, host, remote);
    let Taker {
        caller: mut host,
        found,
    } = taker;
    let first = Life {
        sent: stopped.sent,
        found,
    };
    let books = begin_again(alloc, &link, &mut manager, stopped)?;
    let inc = books.inc + 1;
    let second = second_life(&link, &mut manager, &mut host, inc)?;
    let is_closed = link.close(&mut host, inc).is_ok();
    Ok(Lives {
        first,
        books,
        second,
        is_closed,
    })
}

/// The first life, with a thread for each caller: the remote's sends and stops, the host's takes.
fn first_life<R: Threads + Sync>(
    rt: &R,
    link: &SharedLink<Side>,
    host: Caller,
    remote: Caller,
) -> (Taker, Stopped<Side>)
    requires host { IsCallerOf link.now host }
    requires remote { IsNew link.now remote }
    ensures host { IsCallerOf link.now result.0.caller }
    ensures taken { IfSome result.0.found (λ found. HasTaken result.0.caller found.number found.message) }
    ensures stopped { HasStopped link.now result.1.caller result.1.call }
{
    let taking = move || -> Taker
        requires { IsCallerOf link.now host }
        ensures caller { IsCallerOf link.entry.now result.caller }
        ensures taken { IfSome result.found (λ found. HasTaken result.caller found.number found.message) }
    {
        let mut caller = host;
        let found = take_one(link, &mut caller);
        Taker { caller, found }
    };
    let sending = move || -> Stopped<Side>
        requires { IsNew link.now remote }
        ensures { HasStopped link.entry.now result.caller result.call }
    { send_and_stop(link, remote, &message_of(b"first"), message_of(b"half")) };
    thread::join(rt, taking, sending)
}

/// Between the lives: the manager closes the link, reclaims the sender that has stopped, and opens the next incarnation.
/// It is the manager of this link still, and there is a number for the next incarnation.
fn begin_again(
    alloc: Global,
    link: &SharedLink<Side>,
    manager: &mut Manager,
    stopped: Stopped<Side>,
) -> Result<Books, Halt>
    requires manager { IsManagerOf link.now manager.old }
    requires stopped { HasStopped link.now stopped.caller stopped.call }
    ensures manager { IsManagerOf link.now manager.new }
    ensures next { IfOk result (λ books. books.inc + 1 < 2 ^ 32) }
{
    if link.close_by(manager, FIRST).is_err() {
        return Err(Halt::NotClosed);
    }
    let Stopped { caller, call, .. } = stopped;
    let parts = Parts {
        caller,
        call,
        held: Vec::new(alloc),
    };
    if link.reclaim(manager, parts).is_err() {
        return Err(Halt::NotReclaimed);
    }
    match link.reopen(alloc, manager) {
        Ok(books) => Ok(books),
        Err(_) => Err(Halt::NotReopened),
    }
}

/// The second life, of this incarnation: a new sender sends one message, and the host's caller takes. By its own list, what it was
/// handed was taken in this incarnation.
fn second_life(
    link: &SharedLink<Side>,
    manager: &mut Manager,
    host: &mut Caller,
    inc: Inc,
) -> Result<Life, Halt>
    requires manager { IsManagerOf link.now manager.old }
    requires host { IsCallerOf link.now host.old }
    ensures manager { IsManagerOf link.now manager.new }
    ensures host { IsCallerOf link.now host.new × (host.new.id.follows ≡ inc) }
    ensures taken { IfOk result (λ life. IfSome life.found (λ found. HasTaken host.new found.number found.message)) }
{
    host.follow(inc);
    let Some(mut remote) = link.caller(manager, End::Remote) else {
        return Err(Halt::NoCaller);
    };
    remote.follow(inc);
    let sent = link.try_send(&mut remote, &message_of(b"new")).ok();
    let found = take_one(link, host);
    Ok(Life { sent, found })
}
