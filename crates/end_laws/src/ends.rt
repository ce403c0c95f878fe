//! Laws of one end of a link. Each is the contract of an empty function, and speaks of definitions alone.

ghost use Rattle.std.specs.Prelude.{◌≡◌, ◌⊎◌, ◌<◌, ℕ, List, []};
ghost use Rattle.std.specs.Result.{result_ok};
ghost use Rattle.rp_base.specs.declared.kinds.BoundEndpoint.{BoundEndpoint};
ghost use Rattle.endpoint_map.specs.Bindings.{no_bindings};
ghost use Rattle.lane_model.specs.Desks.{IsBound};
ghost use Rattle.channel_bus.specs.Sides.{EndState, side_meaning};
ghost use Rattle.end_laws.specs.Changes.{EndChange, end_after, end_after_all, AddsAtMost, RemovesAtMost, KeepsChannels, Leaves, AreCounted};

/// A binding adds at most one endpoint, the one that it answers, at an address that was free. A
/// refused one adds none. All else stays.
pub fn binding()
    ensures endpoints { (side : EndState) (address since : ℕ)
        → AddsAtMost side.bindings (side_meaning.bound side address since).bindings (result_ok (side_meaning.bind_answer side address since)) since }
    ensures rest { (side : EndState) (address since : ℕ) → KeepsChannels side (side_meaning.bound side address since) }
{}

/// An unbinding removes at most one endpoint, the one that it answers. A refused one removes none.
/// All else stays.
pub fn unbinding()
    ensures endpoints { (side : EndState) (address : ℕ)
        → RemovesAtMost side.bindings (side_meaning.unbound side address).bindings (result_ok (side_meaning.unbind_answer side address)) }
    ensures rest { (side : EndState) (address : ℕ) → KeepsChannels side (side_meaning.unbound side address) }
{}

/// A message that makes a channel adds at most one endpoint, at an address that was free. One that
/// removes a channel removes at most one, the channel's own. Any other message leaves the end as it
/// is. The verdict says which it was, with the channel and the endpoint.
pub fn delivery()
    ensures { (side : EndState) (number : ℕ) (message : List ℕ)
        → Leaves side (side_meaning.delivered side number message) number (side_meaning.verdict side number message) }
{}

/// A new endpoint has a generation above that of every endpoint that was bound before it in its
/// incarnation, at its address or another.
pub fn generations()
    ensures fresh { (side : EndState) → AreCounted (side_meaning.fresh side).bindings }
    ensures kept { (side : EndState) (change : EndChange) → AreCounted side.bindings → AreCounted (end_after side change).bindings }
    ensures rise { (side : EndState) (changes : List EndChange) (old new : BoundEndpoint) → AreCounted side.bindings → IsBound side_meaning side old
        → IsBound side_meaning (end_after_all side changes) new
        → IsBound side_meaning side new ⊎ (old.endpoint.generation < new.endpoint.generation) }
{}

/// At the start of an incarnation an end has no endpoint and no channel. Its service and its drivers
/// stay.
pub fn reset()
    ensures { (side : EndState) → side_meaning.fresh side ≡ record side { bindings = no_bindings; channels = [] } }
{}
