//! The buffers in the hands of the callers of an end.
ghost use Rattle.std.specs.Prelude.{◌≡◌, map, None, Some, option_copied, true, vec_capacity};
ghost use Rattle.lane_model.specs.declared.calls.Wish.TheVariants as wish;
ghost use Rattle.lane_model.specs.HeldBuffers.{HeldBuffer};
ghost use Rattle.lane_model.specs.Crashes.{has_held, held_by_others, least_held};
ghost use Rattle.lane_model.specs.Lanes.{holds, without};
ghost use Rattle.std.specs.Option.{option_map};
ghost use Rattle.managed_link.specs.Settles.{IsHere};
ghost use Rattle.managed_link.specs.Steps.{IsAsking};
ghost use Rattle.managed_link.specs.Hands.{AreOthers, AreSome, IsAtPlace, IsPutIn, IsTakenOut, holding_of};

use crate::call_slots::CallSlot;
use rp_base::{CallerNo, Inc};
use split_ring::HeldPlace;
use std::marker::Model;

/// The place for a buffer in hand. Contracts see the buffer that is there, if any.
#[derive(Drop)]
pub(crate) struct HeldSlot {
    is_here: bool,
    place: HeldPlace,
}

impl Model for HeldSlot {
    ghost use Rattle.std.specs.Prelude.{Option, Some, None, if◌then◌else◌};
    ghost use Rattle.lane_model.specs.HeldBuffers.{HeldBuffer};

    ghost Value = { Option HeldBuffer };

    ghost view = { λ s. if s.is_here then Some s.place else None };
}

impl HeldSlot {
    /// One without a buffer.
    pub fn empty() -> HeldSlot
        ensures { result ≡ None }
    {
        HeldSlot {
            is_here: false,
            place: HeldPlace::new(),
        }
    }

    /// One with the buffer in this place.
    pub fn of(place: HeldPlace) -> HeldSlot
        ensures { result ≡ Some place }
    {
        HeldSlot {
            is_here: true,
            place,
        }
    }

    /// The buffer that is there.
    pub fn place(&self) -> Option<&HeldPlace>
        ensures { option_copied result ≡ self.now }
    {
        if self.is_here {
            Some(&self.place)
        } else {
            None
        }
    }

    /// The buffer in this place is there.
    pub fn put(&mut self, held: &HeldPlace)
        ensures { self.new ≡ Some held.now }
    {
        self.place.set(held);
        self.is_here = true;
    }

    /// The buffer is not there any more.
    pub fn clear(&mut self)
        ensures { self.new ≡ None }
    {
        self.is_here = false;
    }
}

/// A buffer in the hands of a caller, by the number of its message. It is not here while a call of its caller has it, which gives it back or
/// was handed it.
#[derive(Drop)]
pub(crate) struct Hand {
    pub caller: CallerNo,
    pub number: u64,
    pub held: HeldSlot,
}

/// Whether this caller holds the buffer of the message of this number.
pub(crate) fn holds(hands: &[Hand], number: u64, caller: CallerNo) -> bool
    ensures { result ≡ holds (map holding_of hands.now) number caller }
{
    hands
        .iter()
        .any(|hand| hand.number == number && hand.caller == caller)
}

/// Whether this caller holds some buffer.
pub(crate) fn has_held(hands: &[Hand], caller: CallerNo) -> bool
    ensures { result ≡ has_held (map holding_of hands.now) caller }
{
    hands.iter().any(|hand| hand.caller == caller)
}

/// The caller and the number of the buffer in hand of the least number.
pub(crate) fn least_held(hands: &[Hand]) -> Option<(CallerNo, u64)>
    ensures { option_map (λ found. (found.caller, found.number)) (least_held (map holding_of hands.now)) ≡ result }
{
    let mut least: Option<(CallerNo, u64)> = None;
    for hand in hands {
        match least {
            Some((_, number)) if number <= hand.number => {}
            _ => least = Some((hand.caller, hand.number)),
        }
    }
    least
}

/// Where the buffer of the message of this number is, which this caller holds.
pub(crate) fn place_of(hands: &[Hand], number: u64, caller: CallerNo) -> usize
    requires { holds (map holding_of hands.now) number caller ≡ true }
    ensures { IsAtPlace hands.now number caller result }
{
    match hands
        .iter()
        .position(|hand| hand.number == number && hand.caller == caller)
    {
        Some(place) => place,
        None => unreachable!(),
    }
}

/// The buffer of the message of this number, which this caller holds, goes from here to a call that gives it back.
pub(crate) fn take_out(
    hands: &mut Vec<Hand>,
    number: u64,
    caller: CallerNo,
    follows: Inc,
    slot: &mut CallSlot,
)
    requires { IsHere hands.old.items number caller }
    ensures out { (held : HeldBuffer) × IsAsking follows (wish.Give number) (Some held) slot.new × IsTakenOut number caller (Some held) hands.old.items hands.new.items }
    ensures room { vec_capacity hands.new ≡ vec_capacity hands.old }
{
    let place = place_of(hands, number, caller);
    let found = &mut hands[place].held;
    match found.place() {
        Some(held) => slot.give(follows, held),
        None => unreachable!(),
    }
    found.clear();
}

/// The buffer of a message, which its caller holds, is here.
pub(crate) fn put_in(hands: &mut Vec<Hand>, held: &HeldPlace)
    requires { holds (map holding_of hands.old.items) held.now.number held.now.caller ≡ true }
    ensures here { IsPutIn held.now hands.old.items hands.new.items }
    ensures room { vec_capacity hands.new ≡ vec_capacity hands.old }
{
    let place = place_of(hands, held.number(), held.caller());
    hands[place].held.put(held);
}

/// The buffer of the message of this number is not in this caller's hands any more.
pub(crate) fn drop_hand(hands: &mut Vec<Hand>, number: u64, caller: CallerNo)
    ensures listed { map holding_of hands.new.items ≡ without (map holding_of hands.old.items) number caller }
    ensures some { AreSome hands.old.items hands.new.items }
    ensures room { vec_capacity hands.new ≡ vec_capacity hands.old }
{
    hands.retain(|hand| !(hand.number == number && hand.caller == caller));
}

/// This caller holds nothing any more.
pub(crate) fn drop_hands(hands: &mut Vec<Hand>, caller: CallerNo)
    ensures listed { map holding_of hands.new.items ≡ held_by_others (map holding_of hands.old.items) caller }
    ensures others { AreOthers caller hands.old.items hands.new.items }
    ensures room { vec_capacity hands.new ≡ vec_capacity hands.old }
{
    hands.retain(|hand| hand.caller != caller);
}
