//! A whole send of a caller that the manager carries: a straight run of the steps that `advance_by` takes one by one.
ghost use Rattle.std.specs.Prelude.{◌≡◌, ◌≢◌, ◌+◌, ◌<◌, ◌≤◌, ◌^◌, ℕ, Some};
ghost use Rattle.rp_base.specs.declared.kinds.End.{End};
ghost use Rattle.lane_model.specs.declared.calls.Wish.TheVariants as wish;
ghost use Rattle.lane_model.specs.declared.lane_links.LaneLink.{LaneLink};
ghost use Rattle.lane_model.specs.Links.{end_of};
ghost use Rattle.ring_core.specs.declared.states.RingState.{RingState};
ghost use Rattle.split_ring.specs.declared.callers.CallerId.{CallerId};
ghost use Rattle.split_ring.specs.CallPhases.{Phase};
ghost use Rattle.split_ring.specs.Callers.{IsManagerOf, IsStateOf};
ghost use Rattle.split_ring.specs.Calls.{send_answer};
ghost use Rattle.split_ring.specs.Carried.{CarriesIdle, Keeps};
ghost use Rattle.split_ring.specs.ManagerCalls.{CallsState};
ghost use Rattle.split_ring.specs.Runs.{send_behind};

use crate::callers::Manager;
use crate::links::SharedLink;
use crate::sends::SendFault;
use lane_model::Desk;
use rp_base::{CallerNo, Inc, Message};

/// How many steps a send with this answer has done.
fn send_steps(answer: &Result<u64, SendFault>) -> u64
    ensures steps { result ≡ send_behind answer.now + 1 }
    ensures few { result ≤ 7 }
{
    match answer {
        Err(SendFault::Busy(_)) => 1,
        Err(SendFault::Dead(_)) => 3,
        Err(SendFault::NoBuffer(_, _) | SendFault::BookFull(_)) => 4,
        Ok(_) => 7,
    }
}

impl<D: Desk> SharedLink<D> {
    /// A whole send of a caller that the manager carries, which follows this incarnation; `steps` counts its steps, at most seven. It takes no memory.
    ///
    /// Errors: as for `try_send`. After each the caller is in no call.
    pub fn send_by(
        &self,
        manager: &mut Manager,
        caller: CallerNo,
        inc: Inc,
        message: &Message,
        steps: &mut u64,
    ) -> Result<u64, SendFault>
        requires manager { IsManagerOf self.now manager.old }
        requires caller { (end : End) × CarriesIdle self.now manager.old (record { number = caller; end = end; follows = inc }) }
        requires steps { steps.old < 2 ^ 60 }
        ensures manager { IsManagerOf self.now manager.new × (manager.new.users ≡ manager.old.users) }
        ensures caller { (end : End) → end_of manager.old.users caller ≡ Some end → CarriesIdle self.now manager.new (record { number = caller; end = end; follows = inc }) }
        ensures others { (who : CallerId) (p : Phase) → who.number ≢ caller → Keeps self.now manager.old manager.new who p }
        ensures few { steps.new ≤ steps.old + 7 }
        ensures state { (end : End) → end_of manager.old.users caller ≡ Some end → (m : LaneLink (RingState D)) → IsStateOf D.row.coded manager.old m → (behind : ℕ) × (steps.new ≡ steps.old + behind + 1)
            × CallsState D.row.coded D.meaning m (record { number = caller; end = end; follows = inc }) (wish.Send message.now) behind (send_answer result) manager.new }
    {
        let who = manager.carried_id(caller, inc);
        let answer = self.send_in(&mut manager.seat, who, message);
        *steps += send_steps(&answer);
        answer
    }
}
