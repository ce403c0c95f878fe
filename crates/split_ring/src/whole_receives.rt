//! A whole take and a whole give of a caller that the manager carries: straight runs of the steps that `advance_by` takes one by one.
ghost use Rattle.std.specs.Prelude.{◌≡◌, ◌≢◌, ◌+◌, ◌<◌, ◌≤◌, ◌^◌, ℕ, Some};
ghost use Rattle.rp_base.specs.declared.kinds.End.{End};
ghost use Rattle.lane_model.specs.declared.calls.Ask.TheVariants as ask;
ghost use Rattle.lane_model.specs.declared.calls.Wish.TheVariants as wish;
ghost use Rattle.lane_model.specs.declared.lane_links.LaneLink.{LaneLink};
ghost use Rattle.lane_model.specs.HeldBuffers.{HeldBuffer};
ghost use Rattle.lane_model.specs.Links.{end_of};
ghost use Rattle.ring_core.specs.declared.states.RingState.{RingState};
ghost use Rattle.split_ring.specs.declared.callers.CallerId.{CallerId};
ghost use Rattle.split_ring.specs.CallPhases.{Phase};
ghost use Rattle.split_ring.specs.Callers.{IsManagerOf, IsStateOf};
ghost use Rattle.split_ring.specs.Calls.{give_answer, take_answer};
ghost use Rattle.split_ring.specs.Carried.{CarriesIdle, Keeps, MayAskBy};
ghost use Rattle.split_ring.specs.ManagerCalls.{CallsState};
ghost use Rattle.split_ring.specs.Receives.{given_of, took};

use crate::callers::Manager;
use crate::links::SharedLink;
use crate::takes::{Handing, TakeFault};
use lane_model::Desk;
use rp_base::{CallerNo, Inc, Message};

impl<D: Desk> SharedLink<D> {
    /// A whole take of a caller that the manager carries, which follows this incarnation. The bytes of what it is handed are read into this message; `steps` counts its
    /// steps, at most six. It takes no memory. The buffer stays the caller's until it gives it back.
    ///
    /// Errors: as for `try_take`. After each the caller is in no call.
    pub fn take_by(
        &self,
        manager: &mut Manager,
        caller: CallerNo,
        inc: Inc,
        message: &mut Message,
        steps: &mut u64,
    ) -> Result<Handing, TakeFault>
        requires manager { IsManagerOf self.now manager.old }
        requires caller { (end : End) × CarriesIdle self.now manager.old (record { number = caller; end = end; follows = inc }) }
        requires steps { steps.old < 2 ^ 60 }
        ensures manager { IsManagerOf self.now manager.new × (manager.new.users ≡ manager.old.users) }
        ensures caller { (end : End) → end_of manager.old.users caller ≡ Some end → CarriesIdle self.now manager.new (record { number = caller; end = end; follows = inc }) }
        ensures others { (who : CallerId) (p : Phase) → who.number ≢ caller → Keeps self.now manager.old manager.new who p }
        ensures few { steps.new ≤ steps.old + 6 }
        ensures state { (end : End) → end_of manager.old.users caller ≡ Some end → (m : LaneLink (RingState D)) → IsStateOf D.row.coded manager.old m → (behind : ℕ) × (steps.new ≡ steps.old + behind + 1)
            × CallsState D.row.coded D.meaning m (record { number = caller; end = end; follows = inc }) wish.Take behind (take_answer (took (record { number = caller; end = end; follows = inc }) message.new result)) manager.new }
    {
        let who = manager.carried_id(caller, inc);
        self.take_in(&mut manager.seat, who, message, steps)
    }

    /// A whole give of a buffer of a caller that the manager carries, by the number of its message, which is the answer; `steps` counts its steps, at most four. It takes no memory.
    ///
    /// Errors: the holder, exactly where another had the receiver's turn. After each the caller is in no call.
    pub fn give_by(
        &self,
        manager: &mut Manager,
        caller: CallerNo,
        inc: Inc,
        number: u64,
        steps: &mut u64,
    ) -> Result<u64, CallerNo>
        requires manager { IsManagerOf self.now manager.old }
        requires caller { (end : End) × (held : HeldBuffer) × (held.number ≡ number) × MayAskBy self.now manager.old (record { number = caller; end = end; follows = inc }) (ask.Give held) }
        requires steps { steps.old < 2 ^ 60 }
        ensures manager { IsManagerOf self.now manager.new × (manager.new.users ≡ manager.old.users) }
        ensures caller { (end : End) → end_of manager.old.users caller ≡ Some end → CarriesIdle self.now manager.new (record { number = caller; end = end; follows = inc }) }
        ensures others { (who : CallerId) (p : Phase) → who.number ≢ caller → Keeps self.now manager.old manager.new who p }
        ensures few { steps.new ≤ steps.old + 4 }
        ensures state { (held : HeldBuffer) → held.number ≡ number → (end : End) → end_of manager.old.users caller ≡ Some end → (m : LaneLink (RingState D)) → IsStateOf D.row.coded manager.old m → (behind : ℕ) × (steps.new ≡ steps.old + behind + 1)
            × CallsState D.row.coded D.meaning m (record { number = caller; end = end; follows = inc }) (wish.Give held.number) behind (give_answer (given_of held result)) manager.new }
    {
        let who = manager.carried_id(caller, inc);
        self.give_in(&mut manager.seat, who, number, steps)
    }
}
