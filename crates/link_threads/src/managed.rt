//! A managed link: a message goes by steps and one by whole calls, a caller is ended with a buffer in hand, the link lives again, and a caller that its manager lets out goes on.
ghost use Rattle.std.specs.Prelude.{◌≡◌, true, Some};
ghost use Rattle.lane_model.specs.Conditions.{MayStep};
ghost use Rattle.managed_link.specs.Known.{lists_of};

use crate::small_links::small_config;
use channel_bus::Side;
use lane_model::{CallEnd, ReopenFault, Step, Wish};
use managed_link::ManagedLink;
use rp_base::{CallerNo, End, MESSAGE_MOST, Message, NoMemory};
use std::alloc::Global;

/// What goes through the link.
const BYTES: [u8; 32] = [7; 32];

/// Whether a managed link does what is asked of it here.
pub fn can_manage(alloc: Global) -> Result<bool, NoMemory> {
    let host = Side::new(alloc, true, Vec::new(alloc))?;
    let remote = Side::new(alloc, false, Vec::new(alloc))?;
    let mut link = ManagedLink::make(alloc, small_config(), host, remote)?;
    let (Some(sender), Some(receiver)) = (link.caller(End::Remote), link.caller(End::Host)) else {
        return Ok(false);
    };
    let Some(message) = Message::of(&BYTES) else {
        return Ok(false);
    };
    let message = Wish::Send(message);
    Ok(
        sends_by_steps(&mut link, sender, &message)
            && takes_and_gives(&mut link, receiver)
            && is_seen(alloc, &mut link, receiver)
            && matches!(call(&mut link, sender, &message), Some(CallEnd::Sent(1)))
            && lives_again(alloc, &mut link, receiver)
            && goes_on(link),
    )
}

/// Whether this caller may begin what it wishes.
fn may_begin(link: &ManagedLink, caller: CallerNo, wished: &Wish) -> bool
    ensures { result ≡ true → MayStep (lists_of link.now) caller (Some wished.now) }
{
    if link.end_of(caller).is_none() || link.is_calling(caller) {
        return false;
    }
    match wished {
        Wish::Send(message) => message.bytes().len() <= MESSAGE_MOST,
        Wish::Give(number) => link.is_holding(caller, *number),
        Wish::Take | Wish::Bind(_) | Wish::Unbind(_) => true,
    }
}

/// A whole call of this caller, where it may begin it: how it ended.
fn call(link: &mut ManagedLink, caller: CallerNo, wished: &Wish) -> Option<CallEnd> {
    if !may_begin(link, caller, wished) {
        return None;
    }
    let follows = link.era().inc;
    let mut end = CallEnd::Empty(0);
    let mut steps = 0;
    link.call(caller, follows, wished, &mut steps, &mut end);
    Some(end)
}

/// Whether the first message is sent step by step.
fn sends_by_steps(link: &mut ManagedLink, sender: CallerNo, message: &Wish) -> bool {
    if !may_begin(link, sender, message) {
        return false;
    }
    let mut end = CallEnd::Empty(0);
    if let Step::Ended = link.first_step(sender, 1, message, &mut end) {
        return false;
    }
    let has_turn = link.sender_holder(End::Host) == Some(sender);
    for _ in 0..6u8 {
        if !link.is_calling(sender) {
            return false;
        }
        if let Step::Ended = link.next_step(sender, &mut end) {
            return has_turn && matches!(end, CallEnd::Sent(0));
        }
    }
    false
}

/// Whether the first message is taken and given back.
fn takes_and_gives(link: &mut ManagedLink, receiver: CallerNo) -> bool {
    let taken = call(link, receiver, &Wish::Take);
    if !matches!(taken, Some(CallEnd::Took(0, _)))
        || !link.is_holding(receiver, 0)
        || link.is_calling(receiver)
    {
        return false;
    }
    link.held_message(receiver, 0) == BYTES.as_slice()
        && link.has_held(receiver)
        && link.counts(End::Host) == (1, 1, 0)
        && matches!(call(link, receiver, &Wish::Give(0)), Some(CallEnd::Gave(0)))
        && link.counts(End::Host) == (1, 1, 1)
}

/// Whether an endpoint comes and goes, and what is seen of the link with no turn out.
fn is_seen(alloc: Global, link: &mut ManagedLink, receiver: CallerNo) -> bool {
    let bound = call(link, receiver, &Wish::Bind(1024));
    let unbound = call(link, receiver, &Wish::Unbind(1024));
    let is_first = match link.snapshot(alloc) {
        Ok(words) => words.era.inc == 1,
        Err(_) => false,
    };
    let is_bare = match link.channels(alloc) {
        Ok(channels) => channels.is_empty(),
        Err(_) => false,
    };
    matches!(bound, Some(CallEnd::Bound(_)))
        && matches!(unbound, Some(CallEnd::Unbound(_)))
        && link.receiver_holder(End::Host).is_none()
        && is_first
        && is_bare
}

/// Whether the link closes, ends a caller that holds a buffer, and opens again.
fn lives_again(alloc: Global, link: &mut ManagedLink, receiver: CallerNo) -> bool {
    let taken = call(link, receiver, &Wish::Take);
    let still_open = link.reopen_refusal();
    let closed = link.close(1);
    let again = link.close(1);
    let is_refused = match link.reopen(alloc) {
        Err(ReopenFault::StillHeld(holder, _)) => holder == receiver,
        Err(_) | Ok(_) => false,
    };
    if link.reclaim_refusal(receiver).is_some() {
        return false;
    }
    link.end_caller(receiver);
    let is_opened = match link.reopen(alloc) {
        Ok(books) => books.inc == 1 && books.to_host_handed == 2,
        Err(_) => false,
    };
    matches!(taken, Some(CallEnd::Took(1, _)))
        && matches!(still_open, Some(ReopenFault::StillOpen(_)))
        && closed.is_ok()
        && again.is_err()
        && is_refused
        && is_opened
        && link.era().inc == 2
        && link.end_of(receiver).is_none()
}

/// Whether a caller that the manager lets out sends on the shared link itself.
fn goes_on(link: ManagedLink) -> bool {
    let (shared, mut manager) = link.into_shared();
    let Some(mut caller) = shared.caller(&mut manager, End::Remote) else {
        return false;
    };
    caller.follow(2);
    let Some(message) = Message::of(&BYTES) else {
        return false;
    };
    matches!(shared.try_send(&mut caller, &message), Ok(0))
}
