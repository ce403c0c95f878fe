// A message of 32 bytes is sent, taken and given back through one shared link, again and again, with nobody beside: bench/measure counts what
// that takes.
#![tactic(auto)]

ghost use Rattle.split_ring.specs.Callers.{IsCallerOf, IsManagerOf};

use channel_bus::Side;
use lane_model::LinkConfig;
use rp_base::{End, Message, NoMemory};
use split_ring::{Caller, Manager, SharedLink};
use std::alloc::Global;
use std::io;

/// How many messages there are, as many as the largest book has room for.
const MESSAGES: u32 = 262_144;

fn main(rt: HostRuntime) -> io::Result<()> {
    match run(rt.alloc()) {
        Ok(given) => println!(rt; "{given} messages sent, taken and given back"),
        Err(_) => println!(rt; "no memory"),
    }
}

/// Makes a link with a caller on each end, and has all messages through it. Answers how many were given back.
fn run(alloc: Global) -> Result<u64, NoMemory> {
    let config = LinkConfig {
        num0: 256,
        num1: 256,
        book: MESSAGES,
        first: 1,
        base: 0,
    };
    let host = Side::new(alloc, false, Vec::new(alloc))?;
    let remote = Side::new(alloc, false, Vec::new(alloc))?;
    let (link, mut manager) = SharedLink::make(alloc, config, host, remote)?;
    if !can_manage(&link, &mut manager) || !shows_words(alloc, &link, &mut manager) {
        return Ok(0);
    }
    let Some(mut sender) = link.caller(&mut manager, End::Remote) else {
        return Ok(0);
    };
    let Some(mut receiver) = link.caller(&mut manager, End::Host) else {
        return Ok(0);
    };
    let Some(message) = Message::of(&[7; 32]) else {
        return Ok(0);
    };
    Ok(triples(&link, &mut sender, &mut receiver, &message))
}

/// Whether the manager carries a caller of its own then, and sees that the host's desk knows no channel.
fn can_manage(link: &SharedLink<Side>, manager: &mut Manager) -> bool
    requires { IsManagerOf link.now manager.old }
    ensures { IsManagerOf link.now manager.new }
{
    let carried = link.enlist(manager, End::Host);
    let first = link.desk_by(manager, End::Host, |side: &Side| -> bool {
        side.channels().list(0).is_none()
    });
    carried == Some(0) && matches!(first, Ok(true))
}

/// Whether the words of the new link are those of two new rings: to the host, on which the device sends, all 256 buffers are available,
/// and to the remote none is.
fn shows_words(alloc: Global, link: &SharedLink<Side>, manager: &mut Manager) -> bool
    requires { IsManagerOf link.now manager.old }
    ensures { IsManagerOf link.now manager.new }
{
    match link.snapshot(alloc, manager) {
        Ok(words) => {
            words.era.is_live && words.to_host.avail_idx == 256 && words.to_remote.avail_idx == 0
        }
        Err(_) => false,
    }
}

/// All messages, one after the other. Answers how many were given back.
fn triples(
    link: &SharedLink<Side>,
    sender: &mut Caller,
    receiver: &mut Caller,
    message: &Message,
) -> u64
    requires sender { IsCallerOf link.now sender.old }
    requires receiver { IsCallerOf link.now receiver.old }
{
    let mut given = 0u64;
    for _ in 0..MESSAGES {
        if triple(link, sender, receiver, message) {
            given = given.wrapping_add(1);
        }
    }
    given
}

/// One send, its take and its give. Answers whether the buffer was given back.
fn triple(
    link: &SharedLink<Side>,
    sender: &mut Caller,
    receiver: &mut Caller,
    message: &Message,
) -> bool
    requires sender { IsCallerOf link.now sender.old }
    requires receiver { IsCallerOf link.now receiver.old }
    ensures sender { IsCallerOf link.now sender.new }
    ensures receiver { IsCallerOf link.now receiver.new }
{
    if link.try_send(sender, message).is_err() {
        return false;
    }
    match link.try_take(receiver) {
        Ok(taken) => link.try_give(receiver, taken.held).is_ok(),
        Err(_) => false,
    }
}
