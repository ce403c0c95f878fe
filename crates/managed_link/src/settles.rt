//! What a call of a managed link takes from the buffers in hand and brings to them, and what is beside once its end is settled.
ghost use Rattle.std.specs.Prelude.{◌≡◌, ◌<◌, ◌^◌, map, Option, Some, MatchOption, vec_capacity};
ghost use Rattle.lane_model.specs.HeldBuffers.{HeldBuffer};
ghost use Rattle.managed_link.specs.Hands.{AreSome, IsTakenOut, holding_of};
ghost use Rattle.managed_link.specs.Steps.{IsAsking};
ghost use Rattle.managed_link.specs.Settles.{CanGive, HasRoomFor, held_behind, incoming_view, outgoing_view, with_new_hand};

use crate::call_slots::CallSlot;
use crate::hands::{Hand, HeldSlot, drop_hand, take_out};
use crate::views::LaneView;
use lane_model::{CallEnd, Wish};
use rp_base::{CallerNo, Inc};

/// A call of this caller begins in its slot, which asks for what is wished. The buffer that it gives back goes with it.
pub(crate) fn ask_for(
    hands: &mut Vec<Hand>,
    caller: CallerNo,
    follows: Inc,
    wished: &Wish,
    slot: &mut CallSlot,
)
    requires { CanGive hands.old.items caller wished.now }
    ensures asking { (given : Option HeldBuffer) × IsAsking follows wished.now given slot.new
        × MatchOption given (hands.new.items ≡ hands.old.items) (λ held. IsTakenOut held.number caller (Some held) hands.old.items hands.new.items) }
    ensures room { vec_capacity hands.new ≡ vec_capacity hands.old }
{
    match wished {
        Wish::Give(number) => take_out(hands, *number, caller, follows, slot),
        _ => slot.ask(follows, wished),
    }
}

/// A call of this caller has settled that it ends so: what is known beside the words of the lane that it takes from and of the other follows.
pub(crate) fn learn(
    caller: CallerNo,
    settled: &CallEnd,
    incoming: &mut LaneView,
    outgoing: &mut LaneView,
    hands: &mut Vec<Hand>,
)
    requires room { HasRoomFor settled.now hands.old }
    requires accepted { outgoing.old.accepted < 2 ^ 60 }
    requires handed { incoming.old.handed < 2 ^ 60 }
    requires returned { incoming.old.returned < 2 ^ 60 }
    ensures incoming { incoming.new ≡ incoming_view settled.now incoming.old }
    ensures outgoing { outgoing.new ≡ outgoing_view settled.now outgoing.old }
    ensures listed { map holding_of hands.new.items ≡ held_behind settled.now caller (map holding_of hands.old.items) }
    ensures some { AreSome (with_new_hand settled.now caller hands.old.items) hands.new.items }
    ensures room { vec_capacity hands.new ≡ vec_capacity hands.old }
{
    match settled {
        CallEnd::Sent(_) => outgoing.accepted += 1,
        CallEnd::Took(number, _) => {
            hands.push_reserved(Hand {
                caller,
                number: *number,
                held: HeldSlot::empty(),
            });
            incoming.handed += 1;
        }
        CallEnd::Gave(number) => {
            drop_hand(hands, *number, caller);
            incoming.returned += 1;
        }
        _ => {}
    }
}
