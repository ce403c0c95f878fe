//! The close of a link: one exchange, by a caller or by the manager.
ghost use Rattle.std.specs.Prelude.{◌≡◌, ◌∷◌, true};
ghost use Rattle.rp_base.specs.declared.kinds.Era.{Era};
ghost use Rattle.lane_model.specs.declared.lane_links.LaneLink.{LaneLink};
ghost use Rattle.ring_core.specs.declared.states.RingState.{RingState};
ghost use Rattle.link_words.specs.Deeds.{Closes, after_deed};
ghost use Rattle.link_words.specs.declared.rule.Event.TheVariants.{Step};
ghost use Rattle.link_words.specs.declared.rule.Made.TheVariants as made;
ghost use Rattle.link_words.specs.Passes.{Mover};
ghost use Rattle.split_ring.specs.Callers.{IsManagerOf, IsStateOf, IsUserOf, IsWhereItWas, MakesClose, ManagerCloses, own_of};
ghost use Rattle.split_ring.specs.Carried.{Keeps};
ghost use Rattle.split_ring.specs.Closes.{IsCloseAnswer, HasClosed};
ghost use Rattle.split_ring.specs.declared.callers.CallerId.{CallerId};
ghost use Rattle.split_ring.specs.CallPhases.{Phase};
ghost use Rattle.split_ring.specs.Seats.{IsSeatOf};
ghost use Rattle.link_words.specs.Orderly.{IsOrderly};

use crate::callers::{Caller, Manager};
use crate::links::SharedLink;
use crate::turns::{era_of, is_live_in};
use lane_model::{Already, Desk, MANAGER};
use link_words::{LinkSeat, close_era};
use rp_base::{CallerNo, Inc};

impl<D: Desk> SharedLink<D> {
    /// One attempt to close this incarnation, by a caller that may be in the middle of a call. It takes no memory and does not wait.
    ///
    /// Errors: the era that was found, exactly where it is not this incarnation, live.
    pub fn close(&self, caller: &mut Caller, inc: Inc) -> Result<(), Already>
        requires { IsUserOf self.now caller.old }
        ensures closed { MakesClose D.row.coded D.meaning caller.old inc result caller.new }
        ensures own { (era : Era) × IsCloseAnswer inc era result × (own_of caller.new ≡ Step (made.Close era) ∷ own_of caller.old) }
        ensures caller { IsWhereItWas self.now caller.old caller.new }
    {
        let closer = caller.id.number;
        self.close_once(&mut caller.seat, closer, inc)
    }

    /// The same by the manager, which knows then that the era is closed, where it asked for the incarnation that it knows. The callers that it carries are
    /// where they were.
    pub fn close_by(&self, manager: &mut Manager, inc: Inc) -> Result<(), Already>
        requires { IsManagerOf self.now manager.old }
        ensures closed { ManagerCloses D.row.coded D.meaning manager.old inc result manager.new }
        ensures known { inc ≡ manager.old.seat.me.0.inc → manager.new.seat.me.0.is_closed ≡ true }
        ensures manager { IsManagerOf self.now manager.new × (manager.new.users ≡ manager.old.users) }
        ensures others { (who : CallerId) (p : Phase) → Keeps self.now manager.old manager.new who p }
        ensures state { (m : LaneLink (RingState D)) → IsStateOf D.row.coded manager.old m → IsStateOf D.row.coded manager.new (after_deed D.meaning m (Closes inc)) × IsCloseAnswer inc m.era result }
    {
        self.close_once(&mut manager.seat, MANAGER, inc)
    }

    /// One attempt to close this incarnation, which the pass of this number notes.
    fn close_once(&self, seat: &mut LinkSeat, closer: CallerNo, inc: Inc) -> Result<(), Already>
        requires seat { IsSeatOf self.now.table.shared.table_id self.now.sizes seat.old.table_id seat.old.me }
        requires pass { Mover seat.old.me.0 }
        ensures same { (seat.new.table_id ≡ seat.old.table_id) × (seat.new.id ≡ seat.old.id) }
        ensures closed { HasClosed D.row.coded D.meaning closer inc result seat.old.me seat.new.me }
        ensures order { IsOrderly seat.new.me.0 }
    {
        let found = era_of(close_era(&self.table.shared, seat, closer, inc));
        if is_live_in(found, inc) {
            Ok(())
        } else {
            Err(Already(found))
        }
    }
}
