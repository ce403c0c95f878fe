//! Laws of the lane machine, step by step and move by move. Each is the contract of an empty function, and speaks of definitions alone.

ghost use Rattle.std.specs.Prelude.{◌≡◌, ◌≢◌, ℕ, ◌<◌, List, Option, Some, None, false};
ghost use Rattle.rp_base.specs.declared.kinds.End.{End};
ghost use Rattle.rp_base.specs.declared.kinds.BoundEndpoint.{BoundEndpoint};
ghost use Rattle.lane_model.specs.declared.calls.Wish.{Wish};
ghost use Rattle.lane_model.specs.declared.calls.LinkConfig.{LinkConfig};
ghost use Rattle.lane_model.specs.declared.recoveries.ReclaimPart.{ReclaimPart};
ghost use Rattle.lane_model.specs.declared.recoveries.LaneTurn.{LaneTurn};
ghost use Rattle.lane_laws.specs.Parts.{part_done, MayPart, with_manager, without_manager};
ghost use Rattle.lane_model.specs.Links.{lanes_of, end_of, LinkState, caller_step, opened_link, with_caller, free_number};
ghost use Rattle.lane_model.specs.Forms.{list_form};
ghost use Rattle.lane_model.specs.Recoveries.{link_after_close, link_after_reclaim, link_after_reopen, link_reopen_refusal, link_reclaim_refusal};
ghost use Rattle.lane_laws.specs.Moves.{IsEmptyLane, HandsNone, Move, MayMoves, reclaim_moves, Recorded, no_handings, after_moves, lane_to, handings_to, IsNewLink, WasBound};
ghost use Rattle.lane_laws.specs.Ways.{link_after_moves};
ghost use Rattle.lane_model.specs.Conditions.{MayStep};
ghost use Rattle.lane_model.specs.Soundness.{SoundLink};
ghost use Rattle.lane_model.specs.Desks.{IsFreshDesk, IsBound};
ghost use Rattle.lane_laws.specs.Handings.{with_numbers, handed_front, messages_of, due, got, IsPrefix};
ghost use Rattle.lane_model.specs.WholeCalls.{WhereOn, left_of, HasEnd, steps_to_end};

use lane_model::Desk;

/// After a step that leaves its call under way another step may follow, and fewer are left.
pub fn goes_on<D: Desk>()
    ensures { (link : LinkState D) (caller follows : ℕ) (wished : Option Wish) → MayStep link caller wished
        → let step = caller_step D.meaning link caller follows wished in
        WhereOn step.outcome (MayStep step.state caller None × (left_of step.state caller None < left_of link caller wished)) }
{}

/// A call ends within seven steps.
pub fn seven_suffice<D: Desk>()
    ensures { (link : LinkState D) (caller follows : ℕ) (wished : Option Wish) → MayStep link caller wished
        → HasEnd (steps_to_end 7 D.meaning link caller follows wished) }
{}

/// A step of one caller, and its reclaim, leave every other caller's next step possible. The making of a caller and a close leave every
/// caller's next step possible, and a reopening every first step.
pub fn others_may<D: Desk>()
    ensures step { (link : LinkState D) (caller other follows : ℕ) (wished next : Option Wish) → caller ≢ other
        → MayStep link caller wished → MayStep link other next → MayStep (caller_step D.meaning link caller follows wished).state other next }
    ensures caller { (link : LinkState D) (new : End) (other : ℕ) (next : Option Wish) → MayStep link other next
        → MayStep (record link { callers = with_caller link.callers new (free_number link.callers) }) other next }
    ensures close { (link : LinkState D) (inc other : ℕ) (next : Option Wish) → MayStep link other next → MayStep (link_after_close link inc) other next }
    ensures reclaim { (link : LinkState D) (caller other : ℕ) (next : Option Wish) → caller ≢ other → MayStep link other next
        → MayStep (link_after_reclaim (list_form D.meaning) link caller) other next }
    ensures reopen { (link : LinkState D) (other : ℕ) (next : Wish) → link_reopen_refusal link ≡ None → MayStep link other (Some next)
        → MayStep (link_after_reopen (list_form D.meaning) link) other (Some next) }
{}

/// Whatever befalls a sound link leaves it sound: every step of a call, the making of a caller, a close at any time, and in a closed era a
/// reclaim, whole or each of its parts, where it may be done; a turn, on either lane, that the manager takes or leaves; any of these one
/// after the other; and a reopening.
pub fn sound_kept<D: Desk>()
    ensures step { (link : LinkState D) (caller follows : ℕ) (wished : Option Wish) → SoundLink link → MayStep link caller wished
        → SoundLink (caller_step D.meaning link caller follows wished).state }
    ensures caller { (link : LinkState D) (new : End) → SoundLink link
        → SoundLink (record link { callers = with_caller link.callers new (free_number link.callers) }) }
    ensures close { (link : LinkState D) (inc : ℕ) → SoundLink link → SoundLink (link_after_close link inc) }
    ensures reclaim { (link : LinkState D) (caller : ℕ) → link.era.is_live ≡ false → SoundLink link
        → SoundLink (link_after_reclaim (list_form D.meaning) link caller) }
    ensures part { (link : LinkState D) (end : End) (caller : ℕ) (which : ReclaimPart) → link.era.is_live ≡ false
        → end_of link.callers caller ≡ Some end → MayPart (lanes_of link end) caller which → SoundLink link
        → SoundLink (part_done link end caller which) }
    ensures manager_takes { (link : LinkState D) (which : LaneTurn) → SoundLink link
        → SoundLink (record link { to_host = with_manager link.to_host which }) × SoundLink (record link { to_remote = with_manager link.to_remote which }) }
    ensures manager_leaves { (link : LinkState D) (which : LaneTurn) → SoundLink link
        → SoundLink (record link { to_host = without_manager link.to_host which }) × SoundLink (record link { to_remote = without_manager link.to_remote which }) }
    ensures moves { (start : Recorded D) (moves : List Move) → SoundLink start.link → MayMoves D.meaning start.link moves
        → SoundLink (after_moves D.meaning start moves).link }
    ensures reopen { (link : LinkState D) → SoundLink (link_after_reopen (list_form D.meaning) link) }
{}

/// Where nothing refuses the reclaim of a caller, its parts may be done in their order, and with nothing between they leave what the whole
/// reclaim leaves.
pub fn parts_make_reclaim<D: Desk>()
    ensures may { (link : LinkState D) (end : End) (caller : ℕ) → end_of link.callers caller ≡ Some end → link_reclaim_refusal link caller ≡ None
        → MayMoves D.meaning link (reclaim_moves link end caller) }
    ensures whole { (link : LinkState D) (end : End) (caller : ℕ) → end_of link.callers caller ≡ Some end → link_reclaim_refusal link caller ≡ None
        → link_after_moves D.meaning link (reclaim_moves link end caller) ≡ link_after_reclaim (list_form D.meaning) link caller }
{}

/// A new link is sound.
pub fn opened_sound<D: Desk>()
    ensures { (config : LinkConfig) (host remote : D) → SoundLink (opened_link config host remote) }
{}

/// What was accepted stays in the book under its number, and what was handed over stays so, whatever befalls the link in its incarnation.
pub fn book_grows<D: Desk>()
    ensures { (start : Recorded D) (moves : List Move) (end : End) → SoundLink start.link → MayMoves D.meaning start.link moves
        → let now = after_moves D.meaning start moves in
        IsPrefix (lane_to start.link end).lane.accepted (lane_to now.link end).lane.accepted × IsPrefix (handings_to start end) (handings_to now end) }
{}

/// What a link hands over to an end in an incarnation is, in order, the first messages of the book of that lane: each number once, with
/// its sender and its bytes, and as many as were handed over.
pub fn once<D: Desk>()
    ensures { (start : LinkState D) (moves : List Move) (end : End) → IsNewLink D.meaning start → MayMoves D.meaning start moves
        → let now = after_moves D.meaning (no_handings start) moves in
        messages_of (handings_to now end) ≡ with_numbers 0 (handed_front (lane_to now.link end).lane) }
{}

/// What an endpoint got from a sender, from its binding on, is a prefix of what is due to it. While it is bound, that is all that is due of
/// the messages that were handed over. Once it is bound no more it gets nothing more, and its address and generation name no other.
pub fn prefix<D: Desk>()
    ensures handed { (start : LinkState D) (before since : List Move) (end : End) (bound : BoundEndpoint) (sender : ℕ)
        → WasBound D.meaning start before since end bound
        → let now = after_moves D.meaning (after_moves D.meaning (no_handings start) before) since in
        let lane = lane_to now.link end in
        IsPrefix (got bound.endpoint sender (handings_to now end)) (due D.meaning lane.desk bound sender lane.lane.accepted) }
    ensures while_bound { (start : LinkState D) (before since : List Move) (end : End) (bound : BoundEndpoint) (sender : ℕ)
        → WasBound D.meaning start before since end bound
        → let now = after_moves D.meaning (after_moves D.meaning (no_handings start) before) since in
        let lane = lane_to now.link end in
        IsBound D.meaning lane.desk bound
        → got bound.endpoint sender (handings_to now end) ≡ due D.meaning lane.desk bound sender (handed_front lane.lane) }
    ensures unbound { (start : LinkState D) (before since later : List Move) (end : End) (bound : BoundEndpoint) (sender : ℕ)
        → WasBound D.meaning start before since end bound
        → let now = after_moves D.meaning (after_moves D.meaning (no_handings start) before) since in
        (IsBound D.meaning (lane_to now.link end).desk bound → ⊥) → MayMoves D.meaning now.link later
        → got bound.endpoint sender (handings_to (after_moves D.meaning now later) end) ≡ got bound.endpoint sender (handings_to now end) }
    ensures same { (start : LinkState D) (before since : List Move) (end : End) (bound other : BoundEndpoint)
        → WasBound D.meaning start before since end bound
        → let now = after_moves D.meaning (after_moves D.meaning (no_handings start) before) since in
        IsBound D.meaning (lane_to now.link end).desk other → other.endpoint ≡ bound.endpoint → other ≡ bound }
{}

/// In a closed era no step of a call and no reclaim hands a message over, and from a close on, whatever befalls the link in that incarnation,
/// nothing is handed over to either end.
pub fn closed<D: Desk>()
    ensures step { (link : LinkState D) (caller follows : ℕ) (wished : Option Wish) → link.era.is_live ≡ false
        → HandsNone link (caller_step D.meaning link caller follows wished).state }
    ensures reclaim { (link : LinkState D) (caller : ℕ) → HandsNone link (link_after_reclaim (list_form D.meaning) link caller) }
    ensures handings { (start : Recorded D) (moves : List Move) (end : End) → start.link.era.is_live ≡ false
        → handings_to (after_moves D.meaning start moves) end ≡ handings_to start end }
    ensures takers { (start : Recorded D) (moves : List Move) → start.link.era.is_live ≡ false
        → HandsNone start.link (after_moves D.meaning start moves).link }
{}
