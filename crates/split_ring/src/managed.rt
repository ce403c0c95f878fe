//! The manager's own form of the calls: it carries callers itself, and knows the state of its link.
ghost use Rattle.std.specs.Prelude.{◌≡◌, ℕ, IfSome, IfNone, IfOk, IfErr, Some, slice_set};
ghost use Rattle.lane_model.specs.declared.lane_links.LaneLink.{LaneLink};
ghost use Rattle.lane_model.specs.declared.stages.Turn.TheVariants as turn;
ghost use Rattle.lane_model.specs.Lanes.{holder};
ghost use Rattle.lane_model.specs.Links.{free_number};
ghost use Rattle.ring_core.specs.declared.states.RingState.{RingState};
ghost use Rattle.link_words.specs.Deeds.{Enlists, after_deed};
ghost use Rattle.link_words.specs.Passes.{with_new_caller};
ghost use Rattle.link_words.specs.PlacedDesks.{table_at};
ghost use Rattle.link_words.specs.Words.{lane_to};
ghost use Rattle.split_ring.specs.Callers.{IsManagerOf, IsStateOf};
ghost use Rattle.split_ring.specs.Carried.{CarriesIdle, IsNew, Keeps, carried_seat};
ghost use Rattle.split_ring.specs.Gathers.{IsHolderIn};
ghost use Rattle.split_ring.specs.declared.callers.CallerId.{CallerId};
ghost use Rattle.split_ring.specs.CallPhases.{Phase};
ghost use Rattle.split_ring.specs.CallPhases as phase;
ghost use Rattle.std.specs.Fn.{FnOnceReturnsAt};

use crate::callers::{Manager, least_free};
use crate::links::SharedLink;
use lane_model::Desk;
use link_words::laws::state_follows;
use link_words::{ReceiverState, enlist_carried};
use rp_base::{CallerNo, End};

impl<D: Desk> SharedLink<D> {
    /// A new caller on this end, which the manager carries, under the least number that is not in use. There is
    /// none exactly where all are in use.
    pub fn enlist(&self, manager: &mut Manager, end: End) -> Option<CallerNo>
        requires { IsManagerOf self.now manager.old }
        ensures manager { IsManagerOf self.now manager.new }
        ensures number { result ≡ free_number manager.old.users }
        ensures carried { IfSome result (λ number. (follows : ℕ) → let who : CallerId = record { number = number; end = end; follows = follows } in
            CarriesIdle self.now manager.new who × IsNew (carried_seat who phase.Ended manager.new)) }
        ensures others { (who : CallerId) (p : Phase) → Keeps self.now manager.old manager.new who p }
        ensures view { IfSome result (λ _. manager.new.seat.me ≡ (with_new_caller end manager.old.seat.me.0 manager.new.seat.me.0.copy, manager.old.seat.me.1)) }
        ensures users { IfSome result (λ number. manager.new.users ≡ slice_set manager.old.users number (Some end)) }
        ensures same { IfNone result (manager.new ≡ manager.old) }
        ensures state { (m : LaneLink (RingState D)) → IsStateOf D.row.coded manager.old m → IsStateOf D.row.coded manager.new (after_deed D.meaning m (Enlists end)) }
    {
        let number = least_free(&manager.users)?;
        enlist_carried(&self.table.shared, &mut manager.seat, end);
        state_follows::<D>();
        manager.users[number as usize] = Some(end);
        Some(number)
    }

    /// What is seen of the desk of an end, which stays as it is: the manager makes one attempt at the receiver's turn of
    /// that end, and leaves it.
    ///
    /// Errors: the holder of the turn, exactly where it was another's. Nothing is seen then.
    pub fn desk_by<T, F: FnOnce(&D) -> T>(
        &self,
        manager: &mut Manager,
        end: End,
        look: F,
    ) -> Result<T, CallerNo>
        requires manager { IsManagerOf self.now manager.old }
        requires look { F.IsAlwaysCallable look }
        ensures manager { IsManagerOf self.now manager.new }
        ensures users { manager.new.users ≡ manager.old.users }
        ensures others { (who : CallerId) (p : Phase) → Keeps self.now manager.old manager.new who p }
        ensures holder { IfErr result (λ holder. IsHolderIn manager.old.seat.me.0 holder) }
        ensures state { (m : LaneLink (RingState D)) → IsStateOf D.row.coded manager.old m → IsStateOf D.row.coded manager.new m }
        ensures seen { (m : LaneLink (RingState D)) → IsStateOf D.row.coded manager.old m → IfOk result (λ seen. ((lane_to m end).lane.receiver ≡ turn.Free) × FnOnceReturnsAt F.FnOnce look (lane_to m end).lane.desk seen) }
        ensures busy { (m : LaneLink (RingState D)) → IsStateOf D.row.coded manager.old m → IfErr result (λ found. holder (lane_to m end).lane.receiver ≡ Some found) }
    {
        let seat = &mut manager.seat;
        match self.take_receiver(seat, end) {
            Ok(mut side) => {
                let seen = self.look_in(&mut side, look);
                self.put_receiver(seat, end, side);
                Ok(seen)
            }
            Err(holder) => Err(holder),
        }
    }

    /// What is seen of the desk that this side state has the right to.
    fn look_in<T, F: FnOnce(&D) -> T>(&self, side: &mut ReceiverState, look: F) -> T
        requires right { side.old.desk.table ≡ table_at self.now.sizes.desks side.old.desk.end }
        requires look { F.IsAlwaysCallable look }
        ensures same { side.new ≡ side.old }
        ensures seen { (d : D) → side.old.desk.code ≡ D.row.coded.code d → FnOnceReturnsAt F.FnOnce look d result }
    {
        match side.end() {
            End::Host => side.look(&self.host.shared, look),
            End::Remote => side.look(&self.remote.shared, look),
        }
    }
}
