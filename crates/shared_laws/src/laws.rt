//! Laws of the rule of a shared link. Each is the contract of an empty function, and speaks of definitions alone.
ghost use Rattle.std.specs.Prelude.{◌≡◌, ◌≤◌, ℕ};
ghost use Rattle.std.specs.List.{Contains};
ghost use Rattle.atomic_table.specs.Table.{State};
ghost use Rattle.rp_base.specs.declared.kinds.End.{End};
ghost use Rattle.lane_model.specs.declared.lane_links.LaneLink.{LaneLink};
ghost use Rattle.ring_core.specs.declared.states.RingState.{RingState};
ghost use Rattle.link_words.specs.declared.rule.LinkSizes.{LinkSizes};
ghost use Rattle.link_words.specs.declared.rule.Pass.{Pass};
ghost use Rattle.link_words.specs.declared.rule.Slot.{Slot};
ghost use Rattle.link_words.specs.declared.rule.View.{View};
ghost use Rattle.link_words.specs.Histories.{ReadsIn, books_of, entries_by, sends_in, takes_in};
ghost use Rattle.link_words.specs.Passes.{EachPass, PassAt};
ghost use Rattle.link_words.specs.PlacedDesks.{PlacedDesk, placed_coded, placed_meaning};
ghost use Rattle.link_words.specs.Rule.{Shows};
ghost use Rattle.link_words.specs.Words.{lane_to};
ghost use Rattle.shared_laws.specs.Taken.{Ascends};

use lane_model::Desk;

/// Between any two steps, of the callers whose number was not freed in this incarnation: the messages that a caller sent on a lane, by its own list,
/// are the entries of the book with its number, each under the number that its send told (`sent`); the numbers that it took ascend, each once
/// (`ascending`), and no number of a lane was taken by two callers (`one_taker`); and of every caller each message that it took is the
/// book's entry of that number (`read`).
pub fn each_number_once<D: Desk>()
    ensures sent { (z : LinkSizes) (s : State Slot View) (m : LaneLink (RingState (PlacedDesk D.row.coded z.desks))) (p : ℕ) → Shows (placed_coded D.row.coded z.desks) (placed_meaning D.row.coded z.desks D.meaning) z s m p
        → EachPass (λ q. q.first ≤ m.era.inc → (e : End) → entries_by q.number 0 (books_of (lane_to m e)).accepted ≡ sends_in e m.era.inc q.own) s.views }
    ensures ascending { (z : LinkSizes) (s : State Slot View) (m : LaneLink (RingState (PlacedDesk D.row.coded z.desks))) (p : ℕ) → Shows (placed_coded D.row.coded z.desks) (placed_meaning D.row.coded z.desks D.meaning) z s m p
        → EachPass (λ q. q.first ≤ m.era.inc → (e : End) → Ascends (takes_in e m.era.inc q.own)) s.views }
    ensures one_taker { (z : LinkSizes) (s : State Slot View) (m : LaneLink (RingState (PlacedDesk D.row.coded z.desks))) (p : ℕ) → Shows (placed_coded D.row.coded z.desks) (placed_meaning D.row.coded z.desks D.meaning) z s m p
        → (i k j l : ℕ) (q r : Pass) → PassAt s.views i k q → PassAt s.views j l r → q.first ≤ m.era.inc → r.first ≤ m.era.inc → (e : End) (number : ℕ)
        → Contains (takes_in e m.era.inc q.own) number → Contains (takes_in e m.era.inc r.own) number → (i ≡ j) × (k ≡ l) }
    ensures read { (z : LinkSizes) (s : State Slot View) (m : LaneLink (RingState (PlacedDesk D.row.coded z.desks))) (p : ℕ) → Shows (placed_coded D.row.coded z.desks) (placed_meaning D.row.coded z.desks D.meaning) z s m p
        → EachPass (λ q. (e : End) → ReadsIn e m.era.inc (books_of (lane_to m e)).accepted q.own) s.views }
{}
