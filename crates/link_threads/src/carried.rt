//! Two callers that a manager carries: a message goes through a small link while both are in their calls.
ghost use Rattle.std.specs.Prelude.{◌≡◌, ◌≢◌, Some, IfSome};
ghost use Rattle.rp_base.specs.declared.kinds.End.{End};
ghost use Rattle.split_ring.specs.declared.callers.CallerId.{CallerId};
ghost use Rattle.split_ring.specs.Carried.{Carries};
ghost use Rattle.split_ring.specs.Callers.{IsManagerOf};
ghost use Rattle.split_ring.specs.Phases.{IsUnderWay};
ghost use Rattle.split_ring.specs.CallPhases.{Phase};

use crate::small_links::small_link;
use channel_bus::Side;
use lane_model::{Answer, Ask, Progress};
use rp_base::{CallerNo, End, Message, NoMemory};
use split_ring::{Manager, RingCall, SharedLink};
use std::alloc::Global;

/// Whether a message is sent and taken on a link whose manager carries both callers: the take begins, and
/// waits in the midst of its call until the send has ended.
pub fn can_carry(alloc: Global) -> Result<bool, NoMemory> {
    let (link, mut manager) = small_link(alloc)?;
    Ok(passes_message(&link, &mut manager))
}

/// Whether one message goes from a remote caller to a host caller.
fn passes_message(link: &SharedLink<Side>, manager: &mut Manager) -> bool
    requires { IsManagerOf link.now manager.old }
{
    let Some(sender) = link.enlist(manager, End::Remote) else {
        return false;
    };
    let Some(receiver) = link.enlist(manager, End::Host) else {
        return false;
    };
    let Some(message) = Message::of(&[7; 32]) else {
        return false;
    };
    if sender == receiver {
        return false;
    }
    let send = link.begin_call(Ask::Send(message));
    let mut take = link.begin_call(Ask::Take);
    match link.advance_by(manager, receiver, 1, &mut take) {
        Progress::At(_) => {}
        Progress::Done(_) => return false,
    }
    let sent = finish(link, manager, sender, send);
    let taken = finish(link, manager, receiver, take);
    matches!(sent, Some(Answer::Sent(0))) && matches!(taken, Some(Answer::Took(_, _)))
}

/// The later steps of the call of a carried caller, up to its end.
fn finish(
    link: &SharedLink<Side>,
    manager: &mut Manager,
    caller: CallerNo,
    call: RingCall<Side>,
) -> Option<Answer>
    requires manager { IsManagerOf link.now manager.old }
    requires call { (end : End) × Carries link.now manager.old (record { number = caller; end = end; follows = 1 }) call.phase × IsUnderWay call.phase }
    ensures manager { IsManagerOf link.now manager.new }
    ensures others { (who : CallerId) (p : Phase) → who.number ≢ caller → Carries link.now manager.old who p → Carries link.now manager.new who p }
{
    let mut call = call;
    for _ in 0..7u8 {
        match link.advance_by(manager, caller, 1, &mut call) {
            Progress::At(_) => {}
            Progress::Done(answer) => return Some(answer),
        }
    }
    None
}
