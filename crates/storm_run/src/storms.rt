//! A whole storm, from a new link to the report that is made from its books.
ghost use Rattle.std.specs.Prelude.{◌≡◌, ℕ, true, length, slice_set, IfOk, None};
ghost use Rattle.lane_model.specs.Links.{end_of};
ghost use Rattle.link_words.specs.Histories.{LaneBooks};
ghost use Rattle.link_words.specs.Reopens.{AreBooksOf};
ghost use Rattle.rp_base.specs.declared.kinds.End.{End};
ghost use Rattle.split_ring.specs.Callers.{IsManagerOf};
ghost use Rattle.split_ring.specs.Reclaims.{HasRetired};
ghost use Rattle.split_ring.specs.Reopens.{AreTold};
ghost use Rattle.split_ring.specs.Seats.{pass_in};
ghost use Rattle.storm_run.specs.Counts.{AreStormBooks};
ghost use Rattle.storm_run.specs.Managers.{AreNumbered, HasReclaimed};
ghost use Rattle.storm_run.specs.Rounds.{IsFree};
ghost use Rattle.storm_run.specs.Storms.{IsPlan, storm_text};

use crate::gates::Gate;
use crate::plans::{FIRST, Plan};
use crate::reports::report;
use crate::rounds::round;
use channel_bus::Side;
use lane_model::{Books, ReopenFault};
use rp_base::NoMemory;
use split_ring::{Caller, Manager, Parts, SharedLink};
use std::alloc::Global;
use std::sync::Wait;
use std::thread::Threads;

/// Makes a link, has its callers make a round, closes the link, reclaims every caller and opens the next incarnation. The
/// report is made from the books that this hands back: a line for each lane, and one for each caller. The storm may wait.
///
/// Errors: only if memory runs out.
pub fn storm<R: Threads + Wait + Sync, G: Gate + Sync>(
    rt: &R,
    alloc: Global,
    plan: &Plan,
    gate: &G,
) -> Result<Vec<u8>, NoMemory>
    requires { IsPlan plan.now }
    ensures { IfOk result (λ text. text.items ≡ storm_text plan.now) }
{
    let books = storm_books(rt, alloc, plan, gate)?;
    report(alloc, plan, &books)
}

/// The books of a storm over a new link.
fn storm_books<R: Threads + Wait + Sync, G: Gate + Sync>(
    rt: &R,
    alloc: Global,
    plan: &Plan,
    gate: &G,
) -> Result<Books, NoMemory>
    requires { IsPlan plan.now }
    ensures { IfOk result (λ books. AreStormBooks plan.now books) }
{
    let host = Side::new(alloc, false, Vec::new(alloc))?;
    let remote = Side::new(alloc, false, Vec::new(alloc))?;
    let (link, mut manager) = SharedLink::make(alloc, plan.config(), host, remote)?;
    let callers = plan.callers(alloc, &link, &mut manager)?;
    let Ok(round) = round(rt, alloc, &link, callers, plan.count, gate) else {
        return Err(NoMemory);
    };
    // Either way the link is closed then.
    let _ = link.close_by(&mut manager, FIRST);
    reclaim_all(alloc, &link, &mut manager, round.callers);
    next_incarnation(alloc, &link, &mut manager)
}

/// Reclaims all callers of a closed link, of which none is in a call or holds anything.
fn reclaim_all(alloc: Global, link: &SharedLink<Side>, manager: &mut Manager, callers: Vec<Caller>)
    requires manager { IsManagerOf link.now manager.old }
    requires none { HasReclaimed callers.items 0 manager.old }
    requires callers { AreNumbered link.now callers.items }
    ensures manager { IsManagerOf link.now manager.new }
    ensures all { HasReclaimed callers.items (length callers.items) manager.new }
{
    for caller in callers {
        reclaim_free(alloc, link, manager, caller);
    }
}

/// Reclaims a caller of a closed link that is in no call and holds nothing.
fn reclaim_free(alloc: Global, link: &SharedLink<Side>, manager: &mut Manager, caller: Caller)
    requires manager { IsManagerOf link.now manager.old }
    requires closed { manager.old.seat.me.0.is_closed ≡ true }
    requires free { IsFree link.now caller }
    ensures manager { IsManagerOf link.now manager.new }
    ensures retired { HasRetired caller.id (pass_in caller.seat.me) manager.old.seat.me manager.new.seat.me }
    ensures users { manager.new.users ≡ slice_set manager.old.users caller.id.number None }
{
    let parts = Parts {
        caller,
        call: None,
        held: Vec::new(alloc),
    };
    match link.reclaim(manager, parts) {
        Ok(()) => (),
        Err(_) => unreachable!(),
    }
}

/// Opens the next incarnation of a closed link that has no caller: the books of the one that was closed.
fn next_incarnation(
    alloc: Global,
    link: &SharedLink<Side>,
    manager: &mut Manager,
) -> Result<Books, NoMemory>
    requires manager { IsManagerOf link.now manager.old }
    requires closed { (manager.old.seat.me.0.is_closed ≡ true) × (manager.old.seat.me.0.inc ≡ FIRST) }
    requires unused { (number : ℕ) → end_of manager.old.users number ≡ None }
    ensures { IfOk result (λ books. (told : End → LaneBooks) × AreBooksOf manager.old.seat.me.0 told × AreTold books told) }
{
    match link.reopen(alloc, manager) {
        Ok(books) => Ok(books),
        Err(ReopenFault::NoMemory) => Err(NoMemory),
        Err(_) => unreachable!(),
    }
}
