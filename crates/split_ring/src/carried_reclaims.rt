//! The reclaim of a caller that the manager carries.
ghost use Rattle.std.specs.Prelude.{◌≡◌, ◌≢◌, ◌<◌, ◌∷◌, ℕ, [], false, true, IfOk, IfErr, Some, None, slice_set};
ghost use Rattle.rp_base.specs.declared.kinds.End.{End};
ghost use Rattle.lane_model.specs.declared.lane_links.LaneLink.{LaneLink};
ghost use Rattle.lane_model.specs.Links.{end_of};
ghost use Rattle.ring_core.specs.declared.states.RingState.{RingState};
ghost use Rattle.split_ring.specs.Callers.{IsManagerOf, IsStateOf};
ghost use Rattle.split_ring.specs.Carried.{Carries, Keeps, carried_seat};
ghost use Rattle.split_ring.specs.declared.callers.CallerId.{CallerId};
ghost use Rattle.split_ring.specs.CallPhases.{Phase};
ghost use Rattle.split_ring.specs.CallPhases as phase;
ghost use Rattle.split_ring.specs.Focus.{KnowsAfter};
ghost use Rattle.split_ring.specs.ManagerCalls.{EndsState, ReclaimsState};
ghost use Rattle.split_ring.specs.PartsOf.{IsAllCarried, IsRefusalBy, IsRetireRefusal, TellsHands};
ghost use Rattle.split_ring.specs.Phases.{side_of};
ghost use Rattle.split_ring.specs.Reclaims.{IsEndFault, IsNow, KnowsFree, KnowsRefusal, end_deeds, ended_of, lacks_receiver, phase_of, turn_in};
ghost use Rattle.split_ring.specs.Seats.{pass_in};

use crate::callers::{CallerId, Manager};
use crate::calls::RingCall;
use crate::ends::TurnHeld;
use crate::links::SharedLink;
use crate::reclaims::{is_holding, turn_of};
use crate::slots::turn_by;
use crate::takes::receiver_slot;
use crate::turns::era_of;
use lane_model::{Desk, Held, ReclaimByFault, ReclaimRefusal};
use link_words::{end_carried, learn_era};
use rp_base::{CallerNo, End};

/// The slot of the side state that goes with the turn of a caller's call, or that it asks for.
fn side_with<D: Desk>(end: End, call: &Option<RingCall<D>>) -> usize
    ensures side { result ≡ side_of end (phase_of call.now) }
    ensures within { result < 4 }
{
    match call {
        Some(call) => call.phase.side_of(end),
        None => receiver_slot(end),
    }
}

impl<D: Desk> SharedLink<D> {
    /// Ends a caller that the manager carries, in any phase of its call, in a closed era: its number is free again. These are the buffers in its hands, but for one that its
    /// call gives back or was handed. Nothing is accepted or handed over by it, and it takes neither memory nor waits.
    ///
    /// Errors: as for `reclaim`. Call and buffers come back as they came.
    pub fn reclaim_by(
        &self,
        manager: &mut Manager,
        caller: CallerNo,
        call: Option<RingCall<D>>,
        held: Vec<Held>,
    ) -> Result<(), ReclaimByFault<RingCall<D>>>
        requires manager { IsManagerOf self.now manager.old }
        requires caller { (who : CallerId) × (who.number ≡ caller) × IsAllCarried self.now manager.old who call held.items }
        ensures manager { IsManagerOf self.now manager.new }
        ensures others { (who : CallerId) (p : Phase) → who.number ≢ caller → Keeps self.now manager.old manager.new who p }
        ensures back { IfErr result (λ _. (manager.new.users ≡ manager.old.users) × ((who : CallerId) (p : Phase) → Keeps self.now manager.old manager.new who p)) }
        ensures users { IfOk result (λ _. manager.new.users ≡ slice_set manager.old.users caller None) }
        ensures retired { IfOk result (λ _. (who : CallerId) → who.number ≡ caller → IsAllCarried self.now manager.old who call held.items
            → manager.new.seat.me.0.ended_passes ≡ ended_of who (pass_in (carried_seat who (phase_of call) manager.old)) ∷ manager.old.seat.me.0.ended_passes) }
        ensures refused { IfErr result (λ fault. (who : CallerId) → who.number ≡ caller → IsAllCarried self.now manager.old who call held.items → IsRefusalBy D.row.coded D.meaning who manager.old call held fault) }
        ensures state { (m : LaneLink (RingState D)) → IsStateOf D.row.coded manager.old m → ReclaimsState D.row.coded D.meaning m caller call held result manager.new }
    {
        let is_holding = is_holding(&call, &held);
        match self.retire_by(manager, caller, &call, is_holding) {
            Ok(()) => Ok(()),
            Err(ReclaimRefusal::StillOpen(era)) => Err(ReclaimByFault::StillOpen(era, call, held)),
            Err(ReclaimRefusal::Busy(holder)) => Err(ReclaimByFault::Busy(holder, call, held)),
        }
    }

    /// Ends a caller that the manager carries, in any phase of this call of its, in a closed era, as `reclaim_by` does: its number is free again.
    /// `is_holding` says whether the caller has a buffer in hand, that of its call included. It takes neither memory nor waits.
    ///
    /// Errors: as for `reclaim`. Nothing changes then for the caller.
    pub fn retire_by(
        &self,
        manager: &mut Manager,
        caller: CallerNo,
        call: &Option<RingCall<D>>,
        is_holding: bool,
    ) -> Result<(), ReclaimRefusal>
        requires manager { IsManagerOf self.now manager.old }
        requires caller { (who : CallerId) × (who.number ≡ caller) × Carries self.now manager.old who (phase_of call.now) × TellsHands is_holding (carried_seat who (phase_of call.now) manager.old) }
        ensures manager { IsManagerOf self.now manager.new }
        ensures others { (who : CallerId) (p : Phase) → who.number ≢ caller → Keeps self.now manager.old manager.new who p }
        ensures back { IfErr result (λ _. (manager.new.users ≡ manager.old.users) × ((who : CallerId) (p : Phase) → Keeps self.now manager.old manager.new who p)) }
        ensures users { IfOk result (λ _. manager.new.users ≡ slice_set manager.old.users caller None) }
        ensures retired { IfOk result (λ _. (who : CallerId) → who.number ≡ caller → Carries self.now manager.old who (phase_of call.now)
            → manager.new.seat.me.0.ended_passes ≡ ended_of who (pass_in (carried_seat who (phase_of call.now) manager.old)) ∷ manager.old.seat.me.0.ended_passes) }
        ensures refused { IfErr result (λ why. (who : CallerId) → who.number ≡ caller → Carries self.now manager.old who (phase_of call.now) → IsRetireRefusal D.row.coded D.meaning who manager.old (phase_of call.now) why) }
        ensures state { (m : LaneLink (RingState D)) → IsStateOf D.row.coded manager.old m → EndsState D.row.coded D.meaning m caller result manager.new }
    {
        let era = era_of(learn_era(&self.table.shared, &mut manager.seat));
        if era.is_live {
            return Err(ReclaimRefusal::StillOpen(era));
        }
        // What its calls follow plays no part in a reclaim.
        let who = manager.carried_id(caller, self.sizes.first);
        self.end_by(manager, who, call, turn_of(call), is_holding)?;
        end_carried(&self.table.shared, &mut manager.seat, caller);
        manager.users[usize::from(caller)] = None;
        Ok(())
    }

    /// Parts 1 to 4 of a reclaim of this caller, whose call is this one: it is in no call then, and holds nothing.
    ///
    /// Errors: as for `end_call`. After each the manager carries the caller as it did.
    fn end_by(
        &self,
        manager: &mut Manager,
        who: CallerId,
        call: &Option<RingCall<D>>,
        turn: TurnHeld,
        is_holding: bool,
    ) -> Result<(), ReclaimRefusal>
        requires manager { IsManagerOf self.now manager.old }
        requires caller { (follows : ℕ) × Carries self.now manager.old (record who { follows = follows }) (phase_of call.now) }
        requires turn { turn ≡ turn_in (phase_of call.now) }
        requires hands { is_holding ≡ false → (pass_in (carried_seat who (phase_of call.now) manager.old)).hands ≡ [] }
        ensures manager { IsManagerOf self.now manager.new × (manager.new.users ≡ manager.old.users) }
        ensures others { (other : CallerId) (p : Phase) → other.number ≢ who.number → Keeps self.now manager.old manager.new other p }
        ensures ended { IfOk result (λ _. IsNow (ended_of who (pass_in (carried_seat who (phase_of call.now) manager.old))) [] manager.old.seat.me (carried_seat who phase.Ended manager.new)) }
        ensures refused { IfErr result (λ fault. IsEndFault D.row.coded D.meaning who turn is_holding fault × ((other : CallerId) (p : Phase) → Keeps self.now manager.old manager.new other p)) }
        ensures view { (manager.new.seat.me.0.is_closed ≡ manager.old.seat.me.0.is_closed) × (manager.new.seat.me.0.ended_passes ≡ manager.old.seat.me.0.ended_passes) }
        ensures done { IfOk result (λ _. KnowsAfter D.row.coded D.meaning (end_deeds who turn is_holding) manager.old.seat.me manager.new.seat.me) }
        ensures free { IfOk result (λ _. is_holding ≡ true → lacks_receiver turn ≡ true → KnowsFree D.row.coded who.end manager.old.seat.me) }
        ensures met { IfErr result (λ fault. KnowsRefusal D.row.coded who fault manager.old.seat.me manager.new.seat.me) }
    {
        let side = side_with(who.end, call);
        let had = turn.slots();
        let before = manager.out_before(side);
        let all = manager.out_before(4);
        turn_by(&mut manager.seat, before);
        match self.end_call(&mut manager.seat, who, turn, is_holding, all) {
            Ok(()) => {
                manager.out[side] -= had;
                turn_by(&mut manager.seat, all - had - before);
                Ok(())
            }
            Err(fault) => {
                turn_by(&mut manager.seat, all - before);
                Err(fault)
            }
        }
    }
}
