//! Laws of links over rings. Each is the contract of an empty function, and speaks of definitions alone.

ghost use Rattle.std.specs.Prelude.{◌≡◌, ℕ, ◌+◌, true, List, [], length, Option, Some, None};
ghost use Rattle.rp_base.specs.declared.kinds.End.{End};
ghost use Rattle.lane_model.specs.declared.recoveries.ReclaimPart.{ReclaimPart};
ghost use Rattle.lane_model.specs.declared.calls.LinkConfig.{LinkConfig};
ghost use Rattle.lane_model.specs.declared.calls.Wish.{Wish};
ghost use Rattle.lane_model.specs.declared.lane_links.LaneLink.{LaneLink};
ghost use Rattle.lane_model.specs.Links.{end_of, form_step, lanes_of, link_of};
ghost use Rattle.lane_model.specs.Recoveries.{link_after_close, link_after_reclaim, link_after_reopen, link_reclaim_refusal};
ghost use Rattle.lane_model.specs.Conditions.{IsConfig, MayStep};
ghost use Rattle.lane_model.specs.Soundness.{SoundLink};
ghost use Rattle.ring_core.specs.declared.states.RingState.{RingState};
ghost use Rattle.ring_core.specs.Owners.{owner, once_below};
ghost use Rattle.ring_core.specs.RingLinks.{opened_ring_link};
ghost use Rattle.lane_laws.specs.SoundRingLinks.{HasSoundRings};
ghost use Rattle.lane_laws.specs.Moves.{Move, MayMoves};
ghost use Rattle.lane_laws.specs.Ways.{AreWholeMoves};
ghost use Rattle.lane_laws.specs.FormMoves.{form_moves};
ghost use Rattle.lane_laws.specs.Parts.{part_done, reclaim_parts, MayPart};
ghost use Rattle.lane_laws.specs.RingParts.{ring_part_done, ring_parts_done};
ghost use Rattle.lane_laws.specs.RingWays.{RingWay, ring_link_of, IsRingWay};
ghost use Rattle.ring_core.specs.RingSteps.{ring_form};
ghost use Rattle.ring_core.specs.SoundRings.{IsSoundRings};

use lane_model::Desk;

/// Each buffer of a lane has exactly one place, and no other number has any: of sound rings, and so of each lane of a link, however it went on
/// from its making.
pub fn one_owner<D: Desk>()
    ensures rings { (s : RingState D) (id : ℕ) → IsSoundRings s → length (owner s id) ≡ once_below id s.rings.sizes.capacity }
    ensures way { (way : RingWay D) (end : End) (id : ℕ) → IsRingWay D.meaning way → let lane = (lanes_of (ring_link_of D.meaning way) end).incoming in
        length (owner lane id) ≡ once_below id lane.rings.sizes.capacity }
{}

/// While a link is live, no buffer of it is aside, however it went on from its making.
pub fn nothing_aside<D: Desk>()
    ensures rings { (link : LaneLink (RingState D)) → HasSoundRings link → SoundLink (link_of (ring_form D.meaning) link) → link.era.is_live ≡ true
        → (link.to_host.rings.aside ≡ []) × (link.to_remote.rings.aside ≡ []) }
    ensures way { (way : RingWay D) → IsRingWay D.meaning way → let link = ring_link_of D.meaning way in
        link.era.is_live ≡ true → (link.to_host.rings.aside ≡ []) × (link.to_remote.rings.aside ≡ []) }
{}

/// However a link went on from its making, over whole moves and reopenings, its rings are sound, and so are the lists that they stand for.
pub fn sound_ways<D: Desk>()
    ensures rings { (way : RingWay D) → IsRingWay D.meaning way → HasSoundRings (ring_link_of D.meaning way) }
    ensures lists { (way : RingWay D) → IsRingWay D.meaning way → SoundLink (link_of (ring_form D.meaning) (ring_link_of D.meaning way)) }
{}

/// The rings of a new link are sound.
pub fn opened_sound<D: Desk>()
    ensures { (config : LinkConfig) (host remote : D) → IsConfig config → HasSoundRings (opened_ring_link config host remote) }
{}

/// Each part of a reclaim on rings is that part on the lists that they stand for, and keeps the rings sound. Where nothing refuses the reclaim
/// of a caller, its parts in their order, with nothing between, leave what the whole reclaim leaves.
pub fn parts_make_reclaim<D: Desk>()
    ensures lists { (link : LaneLink (RingState D)) (end : End) (caller : ℕ) (which : ReclaimPart)
        → link_of (ring_form D.meaning) (ring_part_done D.meaning link end caller which) ≡ part_done (link_of (ring_form D.meaning) link) end caller which }
    ensures sound { (link : LaneLink (RingState D)) (end : End) (caller : ℕ) (which : ReclaimPart)
        → MayPart (lanes_of (link_of (ring_form D.meaning) link) end) caller which → HasSoundRings link
        → HasSoundRings (ring_part_done D.meaning link end caller which) }
    ensures whole { (link : LaneLink (RingState D)) (end : End) (caller : ℕ) → let lists = link_of (ring_form D.meaning) link in
        HasSoundRings link → end_of link.callers caller ≡ Some end → link_reclaim_refusal lists caller ≡ None
        → ring_parts_done D.meaning link end caller (reclaim_parts (lanes_of lists end) caller) ≡ link_after_reclaim (ring_form D.meaning) link caller }
{}

/// Every step of a call, a close, a reclaim, whole moves one after the other and a reopening keep the rings of a link sound, so that each
/// buffer has one owner still. A reopening leaves no buffer aside.
pub fn sound_kept<D: Desk>()
    ensures step { (caller follows : ℕ) (link : LaneLink (RingState D)) (wished : Option Wish) → HasSoundRings link
        → MayStep (link_of (ring_form D.meaning) link) caller wished
        → HasSoundRings (form_step (ring_form D.meaning) D.meaning link caller follows wished).state }
    ensures close { (link : LaneLink (RingState D)) (inc : ℕ) → HasSoundRings link → HasSoundRings (link_after_close link inc) }
    ensures reclaim { (link : LaneLink (RingState D)) (caller : ℕ) → HasSoundRings link
        → HasSoundRings (link_after_reclaim (ring_form D.meaning) link caller) }
    ensures moves { (link : LaneLink (RingState D)) (moves : List Move) → AreWholeMoves moves → HasSoundRings link
        → MayMoves D.meaning (link_of (ring_form D.meaning) link) moves → HasSoundRings (form_moves (ring_form D.meaning) D.meaning link moves) }
    ensures reopen { (link : LaneLink (RingState D)) → HasSoundRings link → HasSoundRings (link_after_reopen (ring_form D.meaning) link) }
    ensures aside { (link : LaneLink (RingState D)) → ((link_after_reopen (ring_form D.meaning) link).to_host.rings.aside ≡ [])
        × ((link_after_reopen (ring_form D.meaning) link).to_remote.rings.aside ≡ []) }
{}
