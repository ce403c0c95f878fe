//! A caller on a thread of its own.
ghost use Rattle.std.specs.Prelude.{All, IfOk};
ghost use Rattle.split_ring.specs.Callers.{IsCallerOf, IsManagerOf};

use channel_bus::Side;
use rp_base::{End, Endpoint, Message, NoMemory};
use split_ring::{Caller, DeskFault, Manager, SharedLink, Taken};
use std::alloc::Global;
use std::thread::yield_now;

/// How many messages each caller sends, and is handed.
pub const MESSAGES: u32 = 10_000;

/// How often it tries, so that it ends where the others do not go on.
const TRIES: u64 = 1_000_000_000;

/// A message by its number in its lane, and by who sent it as its what.
#[derive(Clone, Copy)]
pub struct Entry {
    pub number: u64,
    pub payload: u64,
}

/// A change of a caller's endpoint.
#[derive(Clone, Copy)]
enum Change {
    Bind,
    Unbind,
}

/// What a caller did: what it sent, and what was handed to it, and whether its endpoint was bound and unbound.
#[derive(Drop)]
pub struct Log {
    pub end: End,
    pub is_bound: bool,
    pub is_unbound: bool,
    pub sent: Vec<Entry>,
    pub taken: Vec<Entry>,
}

/// A caller with room for what it will have done.
#[derive(Drop)]
pub struct Worker {
    caller: Caller,
    log: Log,
}

/// The workers of a link, four on each end.
pub fn workers(
    alloc: Global,
    link: &SharedLink<Side>,
    manager: &mut Manager,
) -> Result<Vec<Worker>, NoMemory>
    requires { IsManagerOf link.now manager.old }
    ensures { IfOk result (λ workers. All (λ worker. IsCallerOf link.now worker.caller) workers.items) }
{
    let mut jobs = Vec::new(alloc);
    for number in 0..8u32 {
        let end = if number % 2 == 0 {
            End::Host
        } else {
            End::Remote
        };
        if let Some(caller) = link.caller(manager, end) {
            let log = Log {
                end,
                is_bound: false,
                is_unbound: false,
                sent: Vec::with_capacity(alloc, MESSAGES as usize)?,
                taken: Vec::with_capacity(alloc, MESSAGES as usize)?,
            };
            jobs.push(Worker { caller, log })?;
        }
    }
    Ok(jobs)
}

/// Binds an endpoint, sends all messages of a worker, is handed as many, and unbinds it.
pub fn run(link: &SharedLink<Side>, worker: Worker) -> Log
    requires { IsCallerOf link.now worker.caller }
{
    let Worker {
        mut caller,
        mut log,
    } = worker;
    let mut bytes = [0; 32];
    bytes[8] = caller.number();
    let address = 1024 + u32::from(caller.number());
    log.is_bound = make_change(link, &mut caller, address, Change::Bind);
    for _ in 0..TRIES {
        let sent = log.sent.len() as u64;
        if sent < u64::from(MESSAGES) {
            bytes[..8].copy_from_slice(&sent.to_le_bytes());
            send(link, &mut caller, &bytes, &mut log.sent);
        }
        if (log.taken.len() as u64) < u64::from(MESSAGES) {
            take(link, &mut caller, &mut log.taken);
        } else if sent == u64::from(MESSAGES) {
            break;
        }
    }
    log.is_unbound = make_change(link, &mut caller, address, Change::Unbind);
    log
}

/// Binds or unbinds the endpoint at an address: whether it was that one.
fn make_change(link: &SharedLink<Side>, caller: &mut Caller, address: u32, change: Change) -> bool
    requires { IsCallerOf link.now caller.old }
    ensures { IsCallerOf link.now caller.new }
{
    for _ in 0..TRIES {
        match try_change(link, caller, address, change) {
            Ok(endpoint) => return endpoint.address == address,
            Err(DeskFault::Busy(_)) => yield_now(),
            Err(_) => return false,
        }
    }
    false
}

/// Tries once.
fn try_change(
    link: &SharedLink<Side>,
    caller: &mut Caller,
    address: u32,
    change: Change,
) -> Result<Endpoint, DeskFault>
    requires { IsCallerOf link.now caller.old }
    ensures { IsCallerOf link.now caller.new }
{
    match change {
        Change::Bind => link.try_bind(caller, address),
        Change::Unbind => link.try_unbind(caller, address),
    }
}

/// What a message says, by its first nine bytes.
fn payload_of(message: &Message) -> u64 {
    message.bytes().iter().take(9).rev().fold(
        0u64,
        |sum, byte| sum.wrapping_mul(256).wrapping_add(u64::from(*byte)),
    )
}

/// Tries once to send a message.
fn send(link: &SharedLink<Side>, caller: &mut Caller, bytes: &[u8], sent: &mut Vec<Entry>)
    requires { IsCallerOf link.now caller.old }
    ensures { IsCallerOf link.now caller.new }
{
    let Some(message) = Message::of(bytes) else {
        return;
    };
    match link.try_send(caller, &message) {
        Ok(number) => {
            let payload = payload_of(&message);
            let _ = sent.push(Entry { number, payload });
        }
        Err(_) => yield_now(),
    }
}

/// Tries once to take a message, and gives its buffer back.
fn take(link: &SharedLink<Side>, caller: &mut Caller, taken: &mut Vec<Entry>)
    requires { IsCallerOf link.now caller.old }
    ensures { IsCallerOf link.now caller.new }
{
    let Ok(Taken { held, .. }) = link.try_take(caller) else {
        yield_now();
        return;
    };
    let payload = payload_of(held.message());
    let number = held.number();
    let _ = taken.push(Entry { number, payload });
    let mut held = held;
    for _ in 0..TRIES {
        match link.try_give(caller, held) {
            Ok(_) => return,
            Err(busy) => held = busy.held,
        }
        yield_now();
    }
}
