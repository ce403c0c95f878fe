//! A caller that a manager carries and that stops in a send is reclaimed, and the link opens again.
ghost use Rattle.split_ring.specs.Callers.{IsManagerOf};

use crate::small_links::small_link;
use channel_bus::Side;
use lane_model::{Ask, Progress};
use rp_base::{End, Message, NoMemory};
use split_ring::{Manager, ReopenFault, SharedLink};
use std::alloc::Global;

/// Whether a caller that stops in a send, with the sender's turn, is reclaimed by the manager that carries it: the
/// closed link opens again after that, and not before.
pub fn can_reclaim(alloc: Global) -> Result<bool, NoMemory> {
    let (link, mut manager) = small_link(alloc)?;
    Ok(reclaims_sender(alloc, &link, &mut manager))
}

/// Whether a remote caller that stops after the first step of a send is reclaimed on this link.
fn reclaims_sender(alloc: Global, link: &SharedLink<Side>, manager: &mut Manager) -> bool
    requires { IsManagerOf link.now manager.old }
{
    let Some(sender) = link.enlist(manager, End::Remote) else {
        return false;
    };
    let Some(message) = Message::of(&[9; 32]) else {
        return false;
    };
    let mut send = link.begin_call(Ask::Send(message));
    match link.advance_by(manager, sender, 1, &mut send) {
        Progress::At(_) => {}
        Progress::Done(_) => return false,
    }
    let closed = link.close_by(manager, 1);
    let refused = link.reopen(alloc, manager);
    let gone = link.reclaim_by(manager, sender, Some(send), Vec::new(alloc));
    let opened = link.reopen(alloc, manager);
    closed.is_ok()
        && matches!(refused, Err(ReopenFault::StillTurn(holder)) if holder == sender)
        && gone.is_ok()
        && matches!(opened, Ok(books) if books.inc == 1)
}
