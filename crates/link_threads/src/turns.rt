//! Two senders of one end, each on a thread of its own, take the steps of their calls in a fixed order: a word says whose act is the next.
ghost use Rattle.std.specs.Prelude.{◌≡◌, All, IfOk};
ghost use Rattle.split_ring.specs.Callers.{IsCallerOf, IsManagerOf, MayAdvance};
ghost use Rattle.link_threads.specs.Actors.{IsBetween};

use channel_bus::Side;
use lane_model::{Answer, Ask, Link, LinkConfig, Progress};
use rp_base::{CallerNo, End, Message, NoMemory};
use split_ring::{Caller, Manager, RingCall, SendFault, SharedLink};
use std::alloc::{AllocError, Global};
use std::fmt::{self, Write};
use std::sync::atomic::{AtomicU64, Ordering};
use std::thread;
use std::thread::{Threads, yield_now};

/// How often an actor looks whether it is its turn, so that it ends where the other does not go on.
const LOOKS: u64 = 1_000_000_000;

/// What a caller does when it is its turn.
#[derive(Clone, Copy)]
enum Act {
    /// It begins a send.
    Begin,
    /// It takes this many steps of its call.
    Step(u8),
    /// It makes a whole send.
    Send,
}

/// The acts in their order, each with who does it.
const ACTS: [(CallerNo, Act); 9] = [
    (0, Act::Begin),
    (1, Act::Begin),
    (0, Act::Step(1)),
    (1, Act::Step(1)),
    (1, Act::Begin),
    (0, Act::Step(5)),
    (1, Act::Step(1)),
    (0, Act::Step(1)),
    (1, Act::Send),
];

/// What a caller said of an act.
#[derive(Clone, Copy)]
pub enum Said {
    Begun,
    /// The step of this number is done.
    At(u8),
    /// This caller had the turn.
    Busy(CallerNo),
    /// The message was accepted under this number.
    Sent(u64),
    /// It ended otherwise, or there was no call.
    Other,
}

/// What was said of the act of this place, and by whom.
#[derive(Clone, Copy)]
pub struct Line {
    pub place: u64,
    caller: CallerNo,
    said: Said,
}

impl fmt::Display for Line {
    fn fmt<W: Write>(&self, f: &mut fmt::Formatter<W>) -> fmt::Result {
        match self.said {
            Said::Begun => write!(f, "{} begun", self.caller),
            Said::At(number) => write!(f, "{} at {number}", self.caller),
            Said::Busy(holder) => write!(f, "{} busy {holder}", self.caller),
            Said::Sent(number) => write!(f, "{} sent {number}", self.caller),
            Said::Other => write!(f, "{} otherwise", self.caller),
        }
    }
}

/// A caller with room for what it will have said.
#[derive(Drop)]
pub struct Actor {
    caller: Caller,
    lines: Vec<Line>,
}

/// Runs the two senders over a link of four buffers, and merges what they said.
pub fn run<R: Threads + Sync>(rt: &R, alloc: Global) -> Result<Vec<Line>, NoMemory> {
    let config = LinkConfig {
        num0: 4,
        num1: 4,
        book: 16,
        first: 1,
        base: 0,
    };
    let host = Side::new(alloc, false, Vec::new(alloc))?;
    let remote = Side::new(alloc, false, Vec::new(alloc))?;
    let (link, mut manager) = SharedLink::make(alloc, config, host, remote)?;
    let actors = actors(alloc, &link, &mut manager)?;
    let next = AtomicU64::new(0);
    let logs = thread::map_vec(
        rt,
        actors,
        &|actor: Actor| -> Vec<Line>
            requires { IsCallerOf link actor.caller }
        { act_all(&link, &next, actor) },
    )?;
    let mut lines = Vec::new(alloc);
    for log in &logs {
        lines.extend_from_slice(log)?;
    }
    lines.sort_by_key(|line| line.place)?;
    Ok(lines)
}

/// The two senders, on the remote end.
fn actors(
    alloc: Global,
    link: &SharedLink<Side>,
    manager: &mut Manager,
) -> Result<Vec<Actor>, NoMemory>
    requires { IsManagerOf link.now manager.old }
    ensures { IfOk result (λ actors. All (λ actor. IsCallerOf link.now actor.caller) actors.items) }
{
    let mut actors = Vec::new(alloc);
    for _ in 0..2u8 {
        if let Some(caller) = link.caller(manager, End::Remote) {
            let lines = Vec::with_capacity(alloc, ACTS.len())?;
            actors.push(Actor { caller, lines })?;
        }
    }
    Ok(actors)
}

/// Does the acts of this actor, each when it is its turn.
fn act_all(link: &SharedLink<Side>, next: &AtomicU64, actor: Actor) -> Vec<Line>
    requires { IsCallerOf link.now actor.caller }
{
    let Actor {
        mut caller,
        mut lines,
    } = actor;
    let mut call = None;
    for (place, (who, act)) in ACTS.iter().enumerate() {
        if *who == caller.number() {
            let place = place as u64;
            wait_for(next, place);
            let (left, said) = act_once(link, &mut caller, call, *act);
            call = left;
            let line = Line {
                place,
                caller: *who,
                said,
            };
            let _ = lines.push(line);
            next.store(place + 1, Ordering::SeqCst);
        }
    }
    lines
}

/// Looks until it is the turn of this place.
fn wait_for(next: &AtomicU64, place: u64) {
    for _ in 0..LOOKS {
        if next.load(Ordering::SeqCst) == place {
            return;
        }
        yield_now();
    }
}

/// Does one act of a caller with this call. The answer has the call that is under way then.
fn act_once(
    link: &SharedLink<Side>,
    caller: &mut Caller,
    call: Option<RingCall<Side>>,
    act: Act,
) -> (Option<RingCall<Side>>, Said)
    requires { IsBetween link.now caller.old call }
    ensures { IsBetween link.now caller.new result.0 }
{
    match call {
        Some(call) => match act {
            Act::Step(steps) => step(link, caller, call, steps),
            Act::Begin | Act::Send => (Some(call), Said::Other),
        },
        None => match act {
            Act::Begin => (Some(begin(link, caller)), Said::Begun),
            Act::Send => (None, send(link, caller)),
            Act::Step(_) => (None, Said::Other),
        },
    }
}

/// Begins a send.
fn begin(link: &SharedLink<Side>, caller: &Caller) -> RingCall<Side>
    requires { IsCallerOf link.now caller.now }
    ensures { MayAdvance link.now caller.now result }
{
    link.begin(Ask::Send(message_of(caller.number())))
}

/// Makes a whole send.
fn send(link: &SharedLink<Side>, caller: &mut Caller) -> Said
    requires { IsCallerOf link.now caller.old }
    ensures { IsCallerOf link.now caller.new }
{
    let message = message_of(caller.number());
    match link.try_send(caller, &message) {
        Ok(number) => Said::Sent(number),
        Err(SendFault::Busy(holder)) => Said::Busy(holder),
        Err(_) => Said::Other,
    }
}

/// The message of a caller: its number.
fn message_of(caller: CallerNo) -> Message {
    match Message::of(&[caller]) {
        Some(message) => message,
        None => Message::empty(),
    }
}

/// Takes so many steps of a call, or fewer where it ends.
fn step(
    link: &SharedLink<Side>,
    caller: &mut Caller,
    call: RingCall<Side>,
    steps: u8,
) -> (Option<RingCall<Side>>, Said)
    requires { MayAdvance link.now caller.old call }
    ensures { IsBetween link.now caller.new result.0 }
{
    let mut call = call;
    let mut said = Said::Other;
    for _ in 0..steps {
        let mut form = link;
        match form.advance(caller, &mut call) {
            Progress::At(number) => said = Said::At(number),
            Progress::Done(Answer::Busy(holder)) => return (None, Said::Busy(holder)),
            Progress::Done(Answer::Sent(number)) => return (None, Said::Sent(number)),
            Progress::Done(_) => return (None, Said::Other),
        }
    }
    (Some(call), said)
}
