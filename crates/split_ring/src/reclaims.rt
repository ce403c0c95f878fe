//! The reclaim of a caller that is in any phase of a call, or in none, with all that it has.
ghost use Rattle.std.specs.Prelude.{◌≡◌, ◌≢◌, IfOk, IfErr};
ghost use Rattle.link_words.specs.Calls.{SeatState};
ghost use Rattle.split_ring.specs.Carried.{Keeps};
ghost use Rattle.split_ring.specs.Callers.{IsManagerOf};
ghost use Rattle.split_ring.specs.declared.callers.CallerId.{CallerId};
ghost use Rattle.split_ring.specs.CallPhases.{Phase};
ghost use Rattle.split_ring.specs.PartsOf.{AreHeldBy, HoldsItsOwn, HoldsNoOther, IsAllOf, IsReclaimed, IsRefusal, TellsHands};
ghost use Rattle.split_ring.specs.Reclaims.{has_buffer, phase_of, turn_in};

use crate::callers::{Caller, Manager};
use crate::calls::RingCall;
use crate::ends::TurnHeld;
use crate::links::SharedLink;
use crate::stages::{Phase, Request, Stage};
use crate::turns::era_of;
use lane_model::{CallEnd, Desk, Held, ReclaimRefusal, SendStage, TakeStage};
use link_words::{join, learn_era};
use rp_base::{CallerNo, Era};

/// All that a caller has: itself, the call that it is in, where it is in one, and the buffers in its
/// hands but for one that its call gives back or was handed.
#[derive(Drop)]
pub struct Parts<D: Desk> {
    pub caller: Caller,
    pub call: Option<RingCall<D>>,
    pub held: Vec<Held>,
}

/// Why a caller was not reclaimed, with its parts as they came.
#[derive(Drop)]
pub enum ReclaimFault<D: Desk> {
    /// The era is live.
    StillOpen(Era, Parts<D>),
    /// This one has the receiver's turn, which is needed for what the caller holds.
    Busy(CallerNo, Parts<D>),
}

/// Which turn a call has.
fn turn_in(phase: &Phase) -> TurnHeld
    ensures { result ≡ turn_in phase.now }
{
    match &phase.stage {
        Stage::Asked(_) | Stage::Ended => TurnHeld::Neither,
        Stage::Sends(stage, _) => match stage {
            SendStage::Turn | SendStage::Era | SendStage::Look => TurnHeld::Sender,
            SendStage::Buffer | SendStage::Entry => TurnHeld::SenderAndBuffer,
        },
        Stage::Takes(stage, _, _) => match stage {
            TakeStage::Turn | TakeStage::Era | TakeStage::Look => TurnHeld::Receiver,
            TakeStage::Buffer => TurnHeld::ReceiverAndBuffer,
        },
        Stage::LeavesSender(_) => TurnHeld::Sender,
        Stage::Gives(_, _) | Stage::Asks(_) | Stage::LeavesReceiver(_) | Stage::HandsBack(_) => {
            TurnHeld::Receiver
        }
    }
}

/// Whether a call gives a buffer back that is in its caller's hands still, or was handed one.
fn has_buffer(phase: &Phase) -> bool
    ensures { result ≡ has_buffer phase.now }
{
    match &phase.stage {
        Stage::Asked(request) => matches!(request, Request::Give),
        Stage::Gives(_, _) => true,
        Stage::LeavesSender(end) | Stage::LeavesReceiver(end) => {
            matches!(end, CallEnd::Took(_, _))
        }
        Stage::Sends(_, _)
        | Stage::Takes(_, _, _)
        | Stage::Asks(_)
        | Stage::HandsBack(_)
        | Stage::Ended => false,
    }
}

/// The turn that a caller's call has.
pub(crate) fn turn_of<D: Desk>(call: &Option<RingCall<D>>) -> TurnHeld
    ensures { result ≡ turn_in (phase_of call.now) }
{
    match call {
        Some(call) => turn_in(&call.phase),
        None => TurnHeld::Neither,
    }
}

/// Whether a caller holds something: the buffer that is in its call, or one of these.
pub(crate) fn is_holding<D: Desk>(call: &Option<RingCall<D>>, held: &[Held]) -> bool
    ensures { (who : CallerId) (me : SeatState) → AreHeldBy who held.now me → HoldsNoOther (phase_of call.now) held.now me → HoldsItsOwn (phase_of call.now) me → TellsHands result me }
{
    match (held.first(), call) {
        (Some(_), _) => true,
        (None, Some(call)) => has_buffer(&call.phase),
        (None, None) => false,
    }
}

impl<D: Desk> SharedLink<D> {
    /// Ends a caller, in any phase of its call, in a closed era: its number is free again. Nothing is
    /// accepted or handed over by it, and it takes neither memory nor waits.
    ///
    /// Errors: `StillOpen` exactly where the era was found live; `Busy` exactly where another has the
    /// receiver's turn of the caller's end, the caller holds a buffer, and its call does not have that turn.
    /// All parts come back then as they were.
    pub fn reclaim(&self, manager: &mut Manager, parts: Parts<D>) -> Result<(), ReclaimFault<D>>
        requires manager { IsManagerOf self.now manager.old }
        requires parts { IsAllOf self.now parts }
        ensures manager { IsManagerOf self.now manager.new }
        ensures others { (who : CallerId) (p : Phase) → who.number ≢ parts.caller.id.number → Keeps self.now manager.old manager.new who p }
        ensures reclaimed { IfOk result (λ _. IsReclaimed manager.old parts manager.new) }
        ensures refused { IfErr result (λ fault. IsRefusal D.row.coded D.meaning self.now manager.old parts fault manager.new) }
    {
        let era = era_of(learn_era(&self.table.shared, &mut manager.seat));
        if era.is_live {
            return Err(ReclaimFault::StillOpen(era, parts));
        }
        let Parts {
            mut caller,
            call,
            held,
        } = parts;
        let who = caller.id;
        let is_holding = is_holding(&call, &held);
        match self.end_alone(&mut caller.seat, who, turn_of(&call), is_holding) {
            Ok(()) => {
                join(&self.table.shared, &mut manager.seat, caller.seat);
                manager.users[who.number as usize] = None;
                Ok(())
            }
            Err(ReclaimRefusal::StillOpen(era)) => {
                let parts = Parts { caller, call, held };
                Err(ReclaimFault::StillOpen(era, parts))
            }
            Err(ReclaimRefusal::Busy(holder)) => {
                let parts = Parts { caller, call, held };
                Err(ReclaimFault::Busy(holder, parts))
            }
        }
    }
}
