//! The calls of the callers that the manager carries, each in its place.
ghost use Rattle.std.specs.Prelude.{◌≡◌, ◌≢◌, ℕ, None, Some, is_some, option_copied};
ghost use Rattle.lane_model.specs.declared.calls.Wish.TheVariants as wish;
ghost use Rattle.managed_link.specs.Steps.{IsAsking};

use channel_bus::Side;
use lane_model::Wish;
use rp_base::Inc;
use split_ring::{HeldPlace, RingCall};
use std::marker::Model;
use std::mem;

/// A call that a caller is in, which follows this incarnation.
#[derive(Drop)]
pub(crate) struct CarriedCall {
    pub follows: Inc,
    pub call: RingCall<Side>,
}

/// The call that a caller is in, if any. A call begins in the place of the one before, so that the room for its message isn't moved.
#[derive(Drop)]
pub(crate) struct CallSlot {
    pub is_used: bool,
    pub carried: CarriedCall,
}

impl Model for CallSlot {
    ghost use Rattle.std.specs.Prelude.{Option, Some, None, if◌then◌else◌};
    ghost use Rattle.managed_link.specs.declared.call_slots.CarriedCall.{CarriedCall};

    ghost Value = { Option CarriedCall };

    ghost view = { λ s. if s.is_used then Some s.carried else None };
}

impl CallSlot {
    /// No call.
    pub fn empty() -> CallSlot
        ensures { result ≡ None }
    {
        CallSlot {
            is_used: false,
            carried: CarriedCall {
                follows: 0,
                call: RingCall::ended(),
            },
        }
    }

    /// Whether there is a call.
    pub fn is_used(&self) -> bool
        ensures { result ≡ is_some self.now }
    {
        self.is_used
    }

    /// The call that is there.
    pub fn carried(&self) -> Option<&CarriedCall>
        ensures { option_copied result ≡ self.now }
    {
        if self.is_used {
            Some(&self.carried)
        } else {
            None
        }
    }

    /// A call begins that asks for what is wished, anything but to give a buffer back.
    pub fn ask(&mut self, follows: Inc, wished: &Wish)
        requires { (number : ℕ) → wished.now ≢ wish.Give number }
        ensures { IsAsking follows wished.now None self.new }
    {
        self.carried.follows = follows;
        self.carried.call.ask(wished);
        self.is_used = true;
    }

    /// A call begins that gives back the buffer in this place.
    pub fn give(&mut self, follows: Inc, held: &HeldPlace)
        ensures { IsAsking follows (wish.Give held.now.number) (Some held.now) self.new }
    {
        self.carried.follows = follows;
        self.carried.call.give(held);
        self.is_used = true;
    }

    /// The call is over.
    pub fn clear(&mut self)
        ensures { self.new ≡ None }
    {
        self.is_used = false;
    }

    /// The call goes out of its place.
    pub fn take(&mut self) -> Option<CarriedCall>
        ensures taken { result ≡ self.old }
        ensures left { self.new ≡ None }
    {
        match mem::replace(self, CallSlot::empty()) {
            CallSlot {
                is_used: true,
                carried,
            } => Some(carried),
            _ => None,
        }
    }
}
