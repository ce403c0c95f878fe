//! A law of a manager that knows the state of its link. It is the contract of an empty function.
ghost use Rattle.std.specs.Prelude.{◌≡◌, ◌&&◌, not};
ghost use Rattle.lane_model.specs.declared.lane_links.LaneLink.{LaneLink};
ghost use Rattle.lane_model.specs.Lanes.{has_call};
ghost use Rattle.ring_core.specs.declared.states.RingState.{RingState};
ghost use Rattle.link_words.specs.Histories.{hands_of};
ghost use Rattle.link_words.specs.Words.{lane_to, other};
ghost use Rattle.split_ring.specs.declared.callers.CallerId.{CallerId};
ghost use Rattle.split_ring.specs.declared.callers.Manager.{Manager};
ghost use Rattle.split_ring.specs.CallPhases.{Phase};
ghost use Rattle.split_ring.specs.declared.links.SharedLink.{SharedLink};
ghost use Rattle.split_ring.specs.Callers.{IsManagerOf, IsStateOf};
ghost use Rattle.split_ring.specs.Carried.{Carries, carried_seat};
ghost use Rattle.split_ring.specs.Reclaims.{is_turn, lacks_receiver, turn_in};
ghost use Rattle.split_ring.specs.Seats.{pass_in};

use lane_model::Desk;

/// Where a manager knows the state of its link, each caller that it carries has a turn in that state exactly where its call has it, and
/// holds there what its pass has in hand, the oldest first.
pub fn carried_state<D: Desk>()
    ensures sends { (link : SharedLink D) (manager : Manager) (m : LaneLink (RingState D)) (who : CallerId) (p : Phase) → IsManagerOf link manager → IsStateOf D.row.coded manager m → Carries link manager who p
        → has_call (lane_to m (other who.end)).lane.sender who.number ≡ (is_turn (turn_in p) && lacks_receiver (turn_in p)) }
    ensures receives { (link : SharedLink D) (manager : Manager) (m : LaneLink (RingState D)) (who : CallerId) (p : Phase) → IsManagerOf link manager → IsStateOf D.row.coded manager m → Carries link manager who p
        → has_call (lane_to m who.end).lane.receiver who.number ≡ not (lacks_receiver (turn_in p)) }
    ensures hands { (link : SharedLink D) (manager : Manager) (m : LaneLink (RingState D)) (who : CallerId) (p : Phase) → IsManagerOf link manager → IsStateOf D.row.coded manager m → Carries link manager who p
        → hands_of who.number (lane_to m who.end).lane.lane.held ≡ (pass_in (carried_seat who p manager)).hands }
{}
