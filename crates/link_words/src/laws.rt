//! Laws of the rule. Each is the contract of an empty function, and speaks of definitions alone.
ghost use Rattle.std.specs.Prelude.{◌≡◌, ℕ, List, [], ◌∷◌, ◌++◌, ◌<◌, ◌≤◌, ◌^◌, map, length, true, false};
ghost use Rattle.atomic_table.specs.Table.{State, opening};
ghost use Rattle.rp_base.specs.declared.kinds.End.{End};
ghost use Rattle.rp_base.specs.Limits.{ring_capacity};
ghost use Rattle.lane_model.specs.declared.calls.LinkConfig.{LinkConfig};
ghost use Rattle.lane_model.specs.declared.lane_links.LaneLink.{LaneLink};
ghost use Rattle.lane_model.specs.Conditions.{IsConfig};
ghost use Rattle.lane_model.specs.Links.{link_of};
ghost use Rattle.lane_model.specs.Soundness.{SoundLink};
ghost use Rattle.ring_core.specs.declared.states.RingState.{RingState};
ghost use Rattle.ring_core.specs.Owners.{owner, once_below};
ghost use Rattle.ring_core.specs.RingLinks.{opened_ring_link};
ghost use Rattle.ring_core.specs.RingSteps.{ring_form};
ghost use Rattle.lane_model.specs.declared.TheConstants.{MANAGER};
ghost use Rattle.link_words.specs.declared.rule.LinkSizes.{LinkSizes};
ghost use Rattle.link_words.specs.declared.rule.Slot.{Slot};
ghost use Rattle.link_words.specs.declared.rule.View.{View};
ghost use Rattle.link_words.specs.DeskSeats.{code_in};
ghost use Rattle.link_words.specs.Fresh.{sizes_for, opened_slots};
ghost use Rattle.link_words.specs.Layouts.{layout};
ghost use Rattle.link_words.specs.PlacedDesks.{PlacedDesk, placed_coded, placed_meaning, right_at};
ghost use Rattle.link_words.specs.declared.codes.DeskTables.{DeskTables};
ghost use Rattle.rp_base.specs.declared.kinds.End.TheVariants as side;
ghost use Rattle.link_words.specs.Parts.{AreNear};
ghost use Rattle.link_words.specs.Rule.{Shows, LinkRule, first_view};
ghost use Rattle.link_words.specs.Words.{lane_to, sizes_at, words_of};
ghost use Rattle.std.specs.Prelude.{Some, None, slice_set};
ghost use Rattle.link_words.specs.declared.rule.Call.{Call};
ghost use Rattle.link_words.specs.Calls.{SeatState};
ghost use Rattle.link_words.specs.Codes.{copied};
ghost use Rattle.link_words.specs.Deeds.{Deed, Closes, Enlists, Opens, after_deed};
ghost use Rattle.link_words.specs.PlacedLinks.{KnowsState, IsSameCarrier};
ghost use Rattle.link_words.specs.Reopens.{OpensLink};
ghost use Rattle.link_words.specs.Passes.{EachPass, Manages};
ghost use Rattle.link_words.specs.declared.rule.Counted.{Counted};
ghost use Rattle.link_words.specs.declared.rule.Counted.TheVariants.{Room, Gave};
ghost use Rattle.link_words.specs.declared.rule.Event.{Event};
ghost use Rattle.link_words.specs.declared.rule.Event.TheVariants.{Count, Publish, Take};
ghost use Rattle.link_words.specs.Histories.{seen, counts_told, counts_published, counts_taken, counts_of, books_of, IsWithin, IsNotBelow, NeverBack};
ghost use Rattle.link_words.specs.Steps.{IsStepOf, IsCloseOf, ClosesLink, MakesCaller, FreesCaller, HasWord, StoresWord};

use lane_model::Desk;

/// The rule holds of the table of a new link, whatever is in its buffers: its words are those of a new link of the ring form, each
/// slot is at home, and the manager has the one seat, with the copy of that link, whose desks are those that the seats of their tables know.
pub fn opening_meets_rule<D: Desk>()
    ensures { (config : LinkConfig) (desks : DeskTables) (host remote : D) (to_host to_remote : List (List ℕ)) → IsConfig config → config.first < 2 ^ 32
        → length to_host ≡ ring_capacity config.num0 → length to_remote ≡ ring_capacity config.num1
        → code_in desks.host.value.views ≡ D.row.coded.code host → code_in desks.remote.value.views ≡ D.row.coded.code remote
        → LinkRule D.row.coded D.meaning (sizes_for config desks) (opening (layout (words_of 0 [] (opened_ring_link config host remote))) (opened_slots config.book (right_at D.row.coded desks side.Host host) (right_at D.row.coded desks side.Remote remote) to_host to_remote) (first_view (sizes_for config desks) MANAGER)) }
{}

/// The state that a table shows, between any two steps: it is sound, each buffer of a lane has exactly one place, and the two counts
/// of the indexes of a lane are at most its capacity apart.
pub fn shown_state<D: Desk>()
    ensures sound { (z : LinkSizes) (s : State Slot View) (m : LaneLink (RingState (PlacedDesk D.row.coded z.desks))) (p : ℕ) → Shows (placed_coded D.row.coded z.desks) (placed_meaning D.row.coded z.desks D.meaning) z s m p → SoundLink (link_of (ring_form (placed_meaning D.row.coded z.desks D.meaning)) m) }
    ensures owner { (z : LinkSizes) (s : State Slot View) (m : LaneLink (RingState (PlacedDesk D.row.coded z.desks))) (p : ℕ) → Shows (placed_coded D.row.coded z.desks) (placed_meaning D.row.coded z.desks D.meaning) z s m p
        → (e : End) (id : ℕ) → length (owner (lane_to m e) id) ≡ once_below id (lane_to m e).rings.sizes.capacity }
    ensures near { (z : LinkSizes) (s : State Slot View) (m : LaneLink (RingState (PlacedDesk D.row.coded z.desks))) (p : ℕ) → Shows (placed_coded D.row.coded z.desks) (placed_meaning D.row.coded z.desks D.meaning) z s m p
        → (e : End) → AreNear (sizes_at z e).capacity (length (lane_to m e).lane.lane.accepted) (lane_to m e).lane.lane.returned }
    ensures seen { (z : LinkSizes) (s : State Slot View) (m : LaneLink (RingState (PlacedDesk D.row.coded z.desks))) (p : ℕ) → Shows (placed_coded D.row.coded z.desks) (placed_meaning D.row.coded z.desks D.meaning) z s m p
        → EachPass (λ q. (e : End) → IsWithin (seen e m.era.inc q.own) (counts_of (books_of (lane_to m e)))) s.views }
{}

/// The counts of a lane never go back for a caller. Where a look or a give comes after a list and no count that it says is below what
/// was seen (`NeverBack`), it says no count of that lane and incarnation that is below one that a step of the list told: a look or
/// a give, the acceptance of a message, or a handing. So a caller reads its own give back: a look for room finds at least as many
/// buffers back, and its next give makes more.
pub fn never_back()
    ensures counts { (lane : End) (inc : ℕ) (later earlier : Counted) (between before : List Event) → NeverBack lane inc later (between ++ Count lane inc earlier ∷ before) → IsNotBelow (counts_told earlier) later }
    ensures published { (lane : End) (inc number : ℕ) (message : List ℕ) (later : Counted) (between before : List Event) → NeverBack lane inc later (between ++ Publish lane inc number message ∷ before) → IsNotBelow (counts_published number) later }
    ensures taken { (lane : End) (inc number : ℕ) (message : List ℕ) (later : Counted) (between before : List Event) → NeverBack lane inc later (between ++ Take lane inc number message ∷ before) → IsNotBelow (counts_taken number) later }
    ensures given { (lane : End) (inc returned again accepted : ℕ) (between before : List Event) → (NeverBack lane inc (Room accepted again) (between ++ Count lane inc (Gave returned) ∷ before) → returned ≤ again)
        × (NeverBack lane inc (Gave again) (between ++ Count lane inc (Gave returned) ∷ before) → returned < again) }
{}

/// A manager that carries all its callers and knows the state by its copy knows the state after a step of one of them, and after a close.
pub fn copy_follows<D: Desk>()
    ensures found { (desks : DeskTables) (place n : ℕ) (d : Deed) (number : ℕ) (call next : Call) (me me' : SeatState)
        → IsStepOf (placed_coded D.row.coded desks) (placed_meaning D.row.coded desks D.meaning) (HasWord place n) d number call next me me' → (known : LaneLink (RingState (PlacedDesk D.row.coded desks))) → Manages me.0 → me.0.out ≡ []
        → me.0.copy ≡ Some (copied (placed_coded D.row.coded desks) known) → me'.0.copy ≡ Some (copied (placed_coded D.row.coded desks) (after_deed (placed_meaning D.row.coded desks D.meaning) known d)) }
    ensures stored { (desks : DeskTables) (place n : ℕ) (d : Deed) (number : ℕ) (call next : Call) (me me' : SeatState)
        → IsStepOf (placed_coded D.row.coded desks) (placed_meaning D.row.coded desks D.meaning) (StoresWord place n) d number call next me me' → (known : LaneLink (RingState (PlacedDesk D.row.coded desks))) → Manages me.0 → me.0.out ≡ []
        → me.0.copy ≡ Some (copied (placed_coded D.row.coded desks) known) → me'.0.copy ≡ Some (copied (placed_coded D.row.coded desks) (after_deed (placed_meaning D.row.coded desks D.meaning) known d)) }
    ensures closed { (desks : DeskTables) (inc n : ℕ) (me me' : SeatState) → IsCloseOf (placed_coded D.row.coded desks) (placed_meaning D.row.coded desks D.meaning) inc n me me' → (known : LaneLink (RingState (PlacedDesk D.row.coded desks))) → Manages me.0 → me.0.out ≡ []
        → me.0.copy ≡ Some (copied (placed_coded D.row.coded desks) known) → me'.0.copy ≡ Some (copied (placed_coded D.row.coded desks) (after_deed (placed_meaning D.row.coded desks D.meaning) known (Closes inc))) }
{}

/// A manager that carries all its callers and knows the state of its link knows the state after a step of a caller that it carries or of its
/// own, after a close, after the making and the end of a caller and after an opening: it is the state by the deed.
pub fn state_follows<D: Desk>()
    ensures found { (place n : ℕ) (d : Deed) (number : ℕ) (call next : Call) (me me' : SeatState) → IsStepOf (placed_coded D.row.coded me.0.sizes.desks) (placed_meaning D.row.coded me.0.sizes.desks D.meaning) (HasWord place n) d number call next me me'
        → (known : LaneLink (RingState D)) → KnowsState D.row.coded me.0 known → IsSameCarrier me.0 me'.0 → KnowsState D.row.coded me'.0 (after_deed D.meaning known d) }
    ensures stored { (place n : ℕ) (d : Deed) (number : ℕ) (call next : Call) (me me' : SeatState) → IsStepOf (placed_coded D.row.coded me.0.sizes.desks) (placed_meaning D.row.coded me.0.sizes.desks D.meaning) (StoresWord place n) d number call next me me'
        → (known : LaneLink (RingState D)) → KnowsState D.row.coded me.0 known → IsSameCarrier me.0 me'.0 → KnowsState D.row.coded me'.0 (after_deed D.meaning known d) }
    ensures closed { (inc n : ℕ) (me me' : SeatState) → ClosesLink D.row.coded D.meaning inc n me me' → (known : LaneLink (RingState D)) → KnowsState D.row.coded me.0 known → IsSameCarrier me.0 me'.0 → KnowsState D.row.coded me'.0 (after_deed D.meaning known (Closes inc)) }
    ensures made { (e : End) (me me' : SeatState) → MakesCaller D.row.coded D.meaning e me me' → (known : LaneLink (RingState D)) → KnowsState D.row.coded me.0 known → IsSameCarrier me.0 me'.0 → KnowsState D.row.coded me'.0 (after_deed D.meaning known (Enlists e)) }
    ensures ended { (number : ℕ) (me me' : SeatState) → FreesCaller D.row.coded D.meaning number me me' → (known : LaneLink (RingState D)) → KnowsState D.row.coded me.0 known → IsSameCarrier me.0 me'.0
        → KnowsState D.row.coded me'.0 (record known { callers = slice_set known.callers number None }) }
    ensures opened { (me me' : SeatState) → OpensLink D.row.coded D.meaning me me' → (known : LaneLink (RingState D)) → KnowsState D.row.coded me.0 known → IsSameCarrier me.0 me'.0 → KnowsState D.row.coded me'.0 (after_deed D.meaning known Opens) }
{}
