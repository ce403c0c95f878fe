//! Laws of the fields of links and of cores. Each is the contract of an empty function, and speaks of definitions alone.

ghost use Rattle.std.specs.Prelude.{ℕ, Option, IfSome};
ghost use Rattle.lane_model.specs.declared.calls.Wish.{Wish};
ghost use Rattle.lane_model.specs.Links.{LinkState, caller_step};
ghost use Rattle.lane_model.specs.Soundness.{SoundLink};
ghost use Rattle.channel_bus.specs.Sides.{EndState, side_meaning};
ghost use Rattle.field_laws.specs.Fields.{IsFieldLink, IsFieldOutcome, IsFieldWish};

/// A step keeps the numbers and the bytes of a sound link within their types, where those of what its caller wishes are
/// within them, and what it tells is within them too.
pub fn steps_keep_fields()
    ensures kept { (link : LinkState EndState) (caller follows : ℕ) (wished : Option Wish) → SoundLink link
        → IsFieldLink link → IfSome wished IsFieldWish → IsFieldLink (caller_step side_meaning link caller follows wished).state }
    ensures told { (link : LinkState EndState) (caller follows : ℕ) (wished : Option Wish) → SoundLink link
        → IsFieldLink link → IfSome wished IsFieldWish → IsFieldOutcome (caller_step side_meaning link caller follows wished).outcome }
{}
