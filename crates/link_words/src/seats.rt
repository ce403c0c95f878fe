//! Seats: callers that are made and end, and what the manager learns.
ghost use Rattle.std.specs.Prelude.{◌≡◌, ◌≢◌, ℕ, ◌-◌, ◌<◌, ◌≤◌, true, length, List, [], ◌∷◌, Some};
ghost use Rattle.lane_model.specs.declared.TheConstants.{MANAGER};
ghost use Rattle.rp_base.specs.declared.limits.TheConstants.{CALLERS_MOST};
ghost use mathlib.Core.Option.{some};
ghost use lib.ListN.{get_elem?};
ghost use Rattle.rp_base.specs.declared.kinds.End.{End};
ghost use Rattle.lane_model.specs.Links.{free_number};
ghost use Rattle.link_words.specs.declared.rule.Pass.{Pass};
ghost use Rattle.link_words.specs.declared.rule.Call.TheVariants.{Rests};
ghost use Rattle.link_words.specs.Orderly.{IsOrderly};
ghost use Rattle.link_words.specs.Passes.{HasNumber, numbers_of, Manages, Mover, without_last, only_last, with_passes_from, after_end_with, place_of_number, without_new, only_new};
ghost use Rattle.link_words.specs.Seats.{Settles, EnlistsCaller, EndsCaller, LearnsEra, ClosesEra};
ghost use Rattle.link_words.specs.Steps.{MakesCaller, FreesCaller, ClosesLink, LooksAtLink};
ghost use Rattle.link_words.specs.Words.{words_in};

use crate::moves::{
    ComesBack, EndsReturned, EnlistsHost, EnlistsRemote, GoesOut, TellsClosesEra, TellsEndsCaller,
    TellsLearnsEra, TellsSettles,
};
use crate::places::ERA_PLACE;
use crate::rule::{LinkSeat, LinkTable, Slot};
use lane_model::Desk;
use rp_base::{CallerNo, End, Inc};

/// A caller of this end is made under the least number that is free, and goes out to a seat of its own. It loads the idle word twice.
pub fn split<D: Desk>(table: &LinkTable<D>, manager: &mut LinkSeat, end: End) -> LinkSeat
    requires table { (manager.old.table_id ≡ table.now.table_id) × (words_in table.now.key ≤ table.now.table_id.words) × (manager.old.me.0.sizes ≡ table.now.key) }
    requires manager { Manages manager.old.me.0 × ((n : ℕ) × (free_number manager.old.me.0.users ≡ Some n) × (n < CALLERS_MOST)) }
    ensures manager { (manager.new.table_id ≡ manager.old.table_id) × (manager.new.id ≡ manager.old.id) × (manager.new.me ≡ (without_new end manager.old.me.0 manager.new.me.0.copy, manager.old.me.1)) }
    ensures caller { (result.table_id ≡ manager.old.table_id) × (result.me ≡ (only_new end manager.old.me.0, [])) }
    ensures step { MakesCaller D.row.coded D.meaning end manager.old.me manager.new.me }
    ensures order { IsOrderly manager.new.me.0 }
{
    enlist_carried(table, manager, end);
    let_go(table, manager)
}

/// The last caller that the manager carries goes out, to a seat of its own.
pub fn let_go<D: Desk>(table: &LinkTable<D>, manager: &mut LinkSeat) -> LinkSeat
    requires table { (manager.old.table_id ≡ table.now.table_id) × (words_in table.now.key ≤ table.now.table_id.words) }
    requires manager { Manages manager.old.me.0 × ((p : Pass) → get_elem? manager.old.me.0.passes (length manager.old.me.0.passes - 1) ≡ some p → p.number ≢ MANAGER) }
    ensures manager { (manager.new.table_id ≡ manager.old.table_id) × (manager.new.id ≡ manager.old.id) × (manager.new.me ≡ (without_last manager.old.me.0, manager.old.me.1)) }
    ensures caller { (result.table_id ≡ manager.old.table_id) × (result.me ≡ (only_last manager.old.me.0, [])) }
{
    table.split_seat::<GoesOut>(manager)
}

/// A caller of this end is made under the least number that is free, and the manager carries it.
pub fn enlist_carried<D: Desk>(table: &LinkTable<D>, manager: &mut LinkSeat, end: End)
    requires table { (manager.old.table_id ≡ table.now.table_id) × (words_in table.now.key ≤ table.now.table_id.words) × (manager.old.me.0.sizes ≡ table.now.key) }
    requires manager { Manages manager.old.me.0 × ((n : ℕ) × (free_number manager.old.me.0.users ≡ Some n)) }
    ensures same { (manager.new.table_id ≡ manager.old.table_id) × (manager.new.id ≡ manager.old.id) }
    ensures told { EnlistsCaller end manager.old.me manager.new.me }
    ensures step { MakesCaller D.row.coded D.meaning end manager.old.me manager.new.me }
    ensures order { IsOrderly manager.new.me.0 }
{
    match end {
        End::Host => table.load::<EnlistsHost<D>>(manager, 0),
        End::Remote => table.load::<EnlistsRemote<D>>(manager, 0),
    };
}

/// A caller comes back, and the manager carries it.
pub fn take_in<D: Desk>(table: &LinkTable<D>, manager: &mut LinkSeat, caller: LinkSeat)
    requires table { (manager.old.table_id ≡ table.now.table_id) × (caller.table_id ≡ table.now.table_id) × (caller.me.1 ≡ []) × (words_in table.now.key ≤ table.now.table_id.words) }
    requires manager { Manages manager.old.me.0 }
    ensures manager { (manager.new.table_id ≡ manager.old.table_id) × (manager.new.id ≡ manager.old.id) × (manager.new.me ≡ (with_passes_from manager.old.me.0 caller.me.0, manager.old.me.1)) }
{
    table.join_seat::<ComesBack>(manager, caller);
}

/// A caller comes back, in no call and holding nothing, and its number is free.
pub fn join<D: Desk>(table: &LinkTable<D>, manager: &mut LinkSeat, caller: LinkSeat)
    requires table { (manager.old.table_id ≡ table.now.table_id) × (caller.table_id ≡ table.now.table_id) × (caller.me.1 ≡ []) × (words_in table.now.key ≤ table.now.table_id.words) }
    requires manager { Manages manager.old.me.0 × (manager.old.me.0.is_closed ≡ true) }
    requires caller { (q : Pass) × (e : End) × (caller.me.0.passes ≡ q ∷ []) × (q.call ≡ Rests e) × (q.hands ≡ []) }
    ensures manager { (manager.new.table_id ≡ manager.old.table_id) × (manager.new.id ≡ manager.old.id) × (manager.new.me ≡ (after_end_with manager.old.me.0 caller.me.0, manager.old.me.1)) }
{
    table.join_seat::<EndsReturned>(manager, caller);
}

/// The number of a caller that the manager carries, in no call and holding nothing, is free.
pub fn end_carried<D: Desk>(table: &LinkTable<D>, manager: &mut LinkSeat, caller: CallerNo)
    requires table { (manager.old.table_id ≡ table.now.table_id) × (words_in table.now.key ≤ table.now.table_id.words) × (manager.old.me.0.sizes ≡ table.now.key) }
    requires manager { Manages manager.old.me.0 × (manager.old.me.0.is_closed ≡ true) }
    requires caller { (o : Mover manager.old.me.0) × (e : End) × (o.pass.number ≡ caller) × (o.place ≡ place_of_number caller manager.old.me.0.passes) × (o.pass.call ≡ Rests e) × (o.pass.hands ≡ []) }
    ensures same { (manager.new.table_id ≡ manager.old.table_id) × (manager.new.id ≡ manager.old.id) }
    ensures told { EndsCaller caller manager.old.me manager.new.me }
    ensures step { FreesCaller D.row.coded D.meaning caller manager.old.me manager.new.me }
    ensures order { IsOrderly manager.new.me.0 }
{
    table.compare_exchange_with::<TellsEndsCaller<D>>(manager, 0, 0, 0, &Slot::Caller(caller));
}

/// The manager loads the era, and knows from then on that it is closed, if it found it so.
pub fn learn_era<D: Desk>(table: &LinkTable<D>, manager: &mut LinkSeat) -> u64
    requires table { (manager.old.table_id ≡ table.now.table_id) × (words_in table.now.key ≤ table.now.table_id.words) × (manager.old.me.0.sizes ≡ table.now.key) }
    requires manager { Manages manager.old.me.0 }
    ensures same { (manager.new.table_id ≡ manager.old.table_id) × (manager.new.id ≡ manager.old.id) }
    ensures told { LearnsEra manager.old.me result manager.new.me }
    ensures found { LooksAtLink D.row.coded D.meaning result manager.old.me }
    ensures order { IsOrderly manager.new.me.0 }
{
    table.load::<TellsLearnsEra<D>>(manager, ERA_PLACE)
}

/// All callers that were out have come back: the manager's copy is the state again.
pub fn settle<D: Desk>(table: &LinkTable<D>, manager: &mut LinkSeat)
    requires table { (manager.old.table_id ≡ table.now.table_id) × (words_in table.now.key ≤ table.now.table_id.words) }
    requires manager { Manages manager.old.me.0 }
    requires back { (n : ℕ) → HasNumber manager.old.me.0.out n → HasNumber (numbers_of manager.old.me.0.passes) n }
    ensures same { (manager.new.table_id ≡ manager.old.table_id) × (manager.new.id ≡ manager.old.id) }
    ensures told { Settles manager.old.me manager.new.me }
    ensures order { IsOrderly manager.new.me.0 }
{
    table.load::<TellsSettles>(manager, 0);
}

/// One attempt to close this incarnation, by the caller of this number, or by the manager under the number 64, who notes it and knows then
/// whether the era is closed. The answer is the word of the era that was found.
pub fn close_era<D: Desk>(
    table: &LinkTable<D>,
    seat: &mut LinkSeat,
    closer: CallerNo,
    inc: Inc,
) -> u64
    requires table { (seat.old.table_id ≡ table.now.table_id) × (words_in table.now.key ≤ table.now.table_id.words) × (seat.old.me.0.sizes ≡ table.now.key) }
    requires pass { Mover seat.old.me.0 }
    ensures same { (seat.new.table_id ≡ seat.old.table_id) × (seat.new.id ≡ seat.old.id) }
    ensures told { ClosesEra closer inc seat.old.me result seat.new.me }
    ensures step { ClosesLink D.row.coded D.meaning inc result seat.old.me seat.new.me }
    ensures order { IsOrderly seat.new.me.0 }
{
    let live = inc as u64 * 2 + 1;
    let closed = inc as u64 * 2;
    table.compare_exchange_with::<TellsClosesEra<D>>(
        seat,
        ERA_PLACE,
        live,
        closed,
        &Slot::Caller(closer),
    )
}
