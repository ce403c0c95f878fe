//! Laws of the way of a link, from its last opening on. Each is the contract of an empty function, and speaks of definitions alone.

ghost use Rattle.std.specs.Prelude.{◌≡◌, ◌≤◌, ◌+◌, ℕ, List, length, false};
ghost use Rattle.rp_base.specs.declared.kinds.End.{End};
ghost use Rattle.rp_base.specs.declared.kinds.BoundEndpoint.{BoundEndpoint};
ghost use Rattle.lane_model.specs.declared.calls.LinkConfig.{LinkConfig};
ghost use Rattle.lane_model.specs.declared.lane_links.LaneLink.{LaneLink};
ghost use Rattle.lane_model.specs.Desks.{IsFreshDesk};
ghost use Rattle.lane_model.specs.Forms.{list_form};
ghost use Rattle.lane_model.specs.Links.{LinkState, link_of, opened_link};
ghost use Rattle.lane_model.specs.Recoveries.{link_after_reopen};
ghost use Rattle.lane_laws.specs.Handings.{with_numbers, handed_front, messages_of, due, got, IsPrefix};
ghost use Rattle.lane_laws.specs.Moves.{Move, lane_to, handings_to};
ghost use Rattle.lane_laws.specs.Ways.{IsOpened, Way, way_on, link_after_moves, link_of_way, history, IsWay, WasBoundOnWay, AreWholeMoves};
ghost use Rattle.lane_laws.specs.Takes.{way_takes, IsTold};
ghost use Rattle.lane_laws.specs.FormMoves.{form_moves};

use lane_model::{Desk, LaneForm};

/// A new link and a reopened link are at the start of an incarnation, with empty lanes. So what is handed over in an incarnation was
/// accepted in it.
pub fn openings_are_new<D: Desk>()
    ensures new { (config : LinkConfig) (host remote : D) → IsFreshDesk D.meaning host → IsFreshDesk D.meaning remote
        → IsOpened D.meaning (opened_link config host remote) }
    ensures reopened { (link : LinkState D) → IsOpened D.meaning (link_after_reopen (list_form D.meaning) link) }
{}

/// A way leads to the link with its history, and what takers were told at an end on that way is what was handed over there: in order, with
/// number, sender, payload and verdict, all but what a taker is yet to tell, or the last one, whose taker was reclaimed.
pub fn takes_are_told<D: Desk>()
    ensures leads { (way : Way D) → (history D.meaning way).link ≡ link_of_way D.meaning way }
    ensures told { (way : Way D) (end : End) → IsWay D.meaning way → IsTold end (history D.meaning way) (way_takes D.meaning way end) }
{}

/// What takers were told at an end on a way is, in order, the first messages of the book, each number once; and what they were told that an
/// endpoint got from a sender is how that begins which is due to it.
pub fn takes_in_order<D: Desk>()
    ensures once { (way : Way D) (end : End) → IsWay D.meaning way
        → IsPrefix (messages_of (way_takes D.meaning way end)) (with_numbers 0 (handed_front (lane_to (link_of_way D.meaning way) end).lane)) }
    ensures due { (way : Way D) (end : End) (bound : BoundEndpoint) (sender : ℕ) → IsWay D.meaning way → WasBoundOnWay D.meaning way end bound
        → let lane = lane_to (link_of_way D.meaning way) end in
        IsPrefix (got bound.endpoint sender (way_takes D.meaning way end)) (due D.meaning lane.desk bound sender lane.lane.accepted) }
{}

/// Once a way has led to a closed incarnation nothing more is handed over on it. What takers are told from then on was handed over before,
/// and is one handing at each end at most.
pub fn takes_after_close<D: Desk>()
    ensures hands { (way : Way D) (since : List Move) (end : End) → (link_of_way D.meaning way).era.is_live ≡ false
        → handings_to (history D.meaning (way_on way since)) end ≡ handings_to (history D.meaning way) end }
    ensures front { (way : Way D) (since : List Move) (end : End) → (link_of_way D.meaning way).era.is_live ≡ false
        → IsWay D.meaning way → IsWay D.meaning (way_on way since)
        → IsPrefix (way_takes D.meaning (way_on way since) end) (handings_to (history D.meaning way) end) }
    ensures one { (way : Way D) (since : List Move) (end : End) → (link_of_way D.meaning way).era.is_live ≡ false
        → IsWay D.meaning way → IsWay D.meaning (way_on way since)
        → length (way_takes D.meaning (way_on way since) end) ≤ length (way_takes D.meaning way end) + 1 }
{}

/// Whole moves of a link whose lanes are kept in any form leave what they leave on the lists that the form stands for.
pub fn forms_agree<L: LaneForm>()
    ensures { (link : LaneLink L) (moves : List Move) → AreWholeMoves moves
        → link_of L.form (form_moves L.form L.Desk.meaning link moves) ≡ link_after_moves L.Desk.meaning (link_of L.form link) moves }
{}
