//! The calls of the callers that a manager carries, which are taken step by step.
ghost use Rattle.std.specs.Prelude.{◌≡◌, ◌≢◌, ◌<◌, ◌≤◌, ℕ, Some, slice_index};
ghost use Rattle.rp_base.specs.declared.kinds.End.{End};
ghost use Rattle.lane_model.specs.declared.lane_links.LaneLink.{LaneLink};
ghost use Rattle.lane_model.specs.Links.{end_of, form_step};
ghost use Rattle.ring_core.specs.declared.states.RingState.{RingState};
ghost use Rattle.ring_core.specs.RingSteps.{ring_form};
ghost use Rattle.link_words.specs.Deeds.{after_deed};
ghost use Rattle.split_ring.specs.declared.callers.CallerId.{CallerId};
ghost use Rattle.split_ring.specs.CallPhases.{Phase};
ghost use Rattle.split_ring.specs.Callers.{IsManagerOf, IsStateOf};
ghost use Rattle.split_ring.specs.Calls.{Advances, deed_of};
ghost use Rattle.split_ring.specs.Carried.{Carries, CarriesOn, Keeps, carried_seat, out_before};
ghost use Rattle.split_ring.specs.Handed.{StepsLanes};
ghost use Rattle.split_ring.specs.Phases.{IsNext, IsUnderWay, phase_behind, outcome_said, progress_of, side_of, slots_in, wished_in};

use crate::callers::{CallerId, Manager};
use crate::calls::{RingCall, progress_of};
use crate::links::SharedLink;
use crate::slots::turn_by;
use lane_model::{Desk, Progress, Step};
use rp_base::{CallerNo, Inc};

impl Manager {
    /// The caller of this number, which is in use, and whose calls follow this incarnation.
    pub(crate) fn carried_id(&self, number: CallerNo, follows: Inc) -> CallerId
        requires { (end : End) × (end_of self.now.users number ≡ Some end) }
        ensures { (result.number ≡ number) × (end_of self.now.users number ≡ Some result.end) × (result.follows ≡ follows) }
    {
        let end = match self.users.get(usize::from(number)) {
            Some(Some(end)) => *end,
            Some(None) | None => unreachable!(),
        };
        CallerId {
            number,
            end,
            follows,
        }
    }

    /// How many slots are out with the first so many side states.
    pub(crate) fn out_before(&self, side: usize) -> u8
        requires few { (slot : ℕ) → slice_index self.now.out slot ≤ 2 }
        requires within { side ≤ 4 }
        ensures { result ≡ out_before side self.now.out }
    {
        let [host_sender, host_receiver, remote_sender, remote_receiver] = self.out;
        let to_host = host_sender + host_receiver;
        match side {
            0 => 0,
            1 => host_sender,
            2 => to_host,
            3 => to_host + remote_sender,
            _ => to_host + remote_sender + remote_receiver,
        }
    }
}

impl<D: Desk> SharedLink<D> {
    /// One step of a call of a caller that the manager carries: the step that `advance_call` would take. The call
    /// follows this incarnation, the same at each of its steps.
    pub fn advance_by(
        &self,
        manager: &mut Manager,
        caller: CallerNo,
        inc: Inc,
        call: &mut RingCall<D>,
    ) -> Progress
        requires manager { IsManagerOf self.now manager.old }
        requires call { (end : End) × Carries self.now manager.old (record { number = caller; end = end; follows = inc }) call.old.phase × IsUnderWay call.old.phase }
        ensures manager { IsManagerOf self.now manager.new × (manager.new.users ≡ manager.old.users) }
        ensures call { (end : End) → end_of manager.old.users caller ≡ Some end → CarriesOn self.now manager.new (record { number = caller; end = end; follows = inc }) call.new.phase result }
        ensures others { (who : CallerId) (p : Phase) → who.number ≢ caller → Keeps self.now manager.old manager.new who p }
        ensures step { (end : End) → end_of manager.old.users caller ≡ Some end → let who : CallerId = record { number = caller; end = end; follows = inc } in
            Advances D.row.coded D.meaning self.now.sizes who call.old.phase result call.new.phase (carried_seat who call.old.phase manager.old) (carried_seat who call.old.phase manager.new) }
        ensures next { (end : End) → end_of manager.old.users caller ≡ Some end → IsNext end call.old.phase result call.new.phase }
        ensures lanes { (end : End) → end_of manager.old.users caller ≡ Some end → let who : CallerId = record { number = caller; end = end; follows = inc } in (m : LaneLink (RingState D)) → IsStateOf D.row.coded manager.old m
            → StepsLanes who call.new.phase m (after_deed D.meaning m (deed_of who call.old.phase)) }
        ensures said { (m : LaneLink (RingState D)) → IsStateOf D.row.coded manager.old m → outcome_said result ≡ (form_step (ring_form D.meaning) D.meaning m caller inc (wished_in call.old.phase)).outcome }
        ensures state { (end : End) → end_of manager.old.users caller ≡ Some end → (m : LaneLink (RingState D)) → IsStateOf D.row.coded manager.old m
            → IsStateOf D.row.coded manager.new (after_deed D.meaning m (deed_of (record { number = caller; end = end; follows = inc }) call.old.phase)) }
    {
        let step = self.step_by(manager, caller, inc, call);
        progress_of(step, &mut call.phase)
    }

    /// The same step of the call in its place. One that ends the call leaves its answer there.
    pub fn step_by(
        &self,
        manager: &mut Manager,
        caller: CallerNo,
        inc: Inc,
        call: &mut RingCall<D>,
    ) -> Step
        requires manager { IsManagerOf self.now manager.old }
        requires call { (end : End) × Carries self.now manager.old (record { number = caller; end = end; follows = inc }) call.old.phase × IsUnderWay call.old.phase }
        ensures manager { IsManagerOf self.now manager.new × (manager.new.users ≡ manager.old.users) }
        ensures call { (end : End) → end_of manager.old.users caller ≡ Some end → CarriesOn self.now manager.new (record { number = caller; end = end; follows = inc }) (phase_behind result call.new.phase) (progress_of result call.new.phase) }
        ensures others { (who : CallerId) (p : Phase) → who.number ≢ caller → Keeps self.now manager.old manager.new who p }
        ensures step { (end : End) → end_of manager.old.users caller ≡ Some end → let who : CallerId = record { number = caller; end = end; follows = inc } in
            Advances D.row.coded D.meaning self.now.sizes who call.old.phase (progress_of result call.new.phase) (phase_behind result call.new.phase) (carried_seat who call.old.phase manager.old) (carried_seat who call.old.phase manager.new) }
        ensures next { (end : End) → end_of manager.old.users caller ≡ Some end → IsNext end call.old.phase (progress_of result call.new.phase) (phase_behind result call.new.phase) }
        ensures lanes { (end : End) → end_of manager.old.users caller ≡ Some end → let who : CallerId = record { number = caller; end = end; follows = inc } in (m : LaneLink (RingState D)) → IsStateOf D.row.coded manager.old m
            → StepsLanes who (phase_behind result call.new.phase) m (after_deed D.meaning m (deed_of who call.old.phase)) }
        ensures said { (m : LaneLink (RingState D)) → IsStateOf D.row.coded manager.old m → outcome_said (progress_of result call.new.phase) ≡ (form_step (ring_form D.meaning) D.meaning m caller inc (wished_in call.old.phase)).outcome }
        ensures state { (end : End) → end_of manager.old.users caller ≡ Some end → (m : LaneLink (RingState D)) → IsStateOf D.row.coded manager.old m
            → IsStateOf D.row.coded manager.new (after_deed D.meaning m (deed_of (record { number = caller; end = end; follows = inc }) call.old.phase)) }
    {
        let who = manager.carried_id(caller, inc);
        let side = call.phase.side_of(who.end);
        let had = call.phase.slots();
        let before = manager.out_before(side);
        turn_by(&mut manager.seat, before);
        let step = self.step_on(&mut manager.seat, who, &mut call.phase);
        let has = match step {
            Step::At(_) => call.phase.slots(),
            Step::Ended => 0,
        };
        manager.out[side] = manager.out[side] + has - had;
        let rest = manager.out_before(4) - before;
        turn_by(&mut manager.seat, rest);
        step
    }
}
