ghost use Rattle.std.specs.Prelude.{◌≡◌, ◌++◌, filter, IfOk, OnOk};
ghost use Rattle.std.specs.List.{flat_map};
ghost use Rattle.chart.specs.Keys.{is_same_side};
ghost use Rattle.chart.specs.Rows.{own};
ghost use Rattle.chart.specs.Orders.{distinct, in_order, is_own, lifelines_in, seats_of, stands};

use crate::keys::{Lifeline, Side};
use crate::rows::{Row, Stand};
use indexmap::IndexSet;
use rp_base::{Name, NoMemory};
use std::alloc::Global;

/// The lifelines that rows are on, each once.
pub(crate) fn seats_of(alloc: Global, rows: &[Row]) -> Result<IndexSet<Lifeline>, NoMemory>
    ensures { IfOk result (λ seats. seats.keys ≡ seats_of rows.now) }
{
    let needed = needed(alloc, rows)?;
    distinct(alloc, &needed)
}

/// Lifelines from left to right.
pub(crate) fn from_left(
    alloc: Global,
    seats: &IndexSet<Lifeline>,
) -> Result<IndexSet<Lifeline>, NoMemory>
    ensures { IfOk result (λ lifelines. lifelines.keys ≡ distinct (in_order seats.now.keys)) }
{
    let order = order_of(alloc, seats.as_slice())?;
    distinct(alloc, &order)
}

/// The lifelines that rows need, in the order of the rows.
fn needed(alloc: Global, rows: &[Row]) -> Result<Vec<Lifeline>, NoMemory>
    ensures { IfOk result (λ needed. needed.items ≡ flat_map lifelines_in rows.now) }
{
    let mut needed = Vec::new(alloc);
    for row in rows {
        if let Stand::At(lifeline, _) = row.stand {
            needed.push(own(lifeline.name))?;
            needed.push(lifeline)?;
        }
    }
    Ok(needed)
}

/// The lifeline of a link or a core itself.
fn own(name: Name) -> Lifeline
    ensures { result ≡ own name }
{
    Lifeline {
        name,
        side: Side::Own,
        caller: 0,
    }
}

/// Lifelines in the order in which they first come in a list, each once.
fn distinct(alloc: Global, lifelines: &[Lifeline]) -> Result<IndexSet<Lifeline>, NoMemory>
    ensures { IfOk result (λ set. set.keys ≡ distinct lifelines.now) }
{
    let mut set = IndexSet::new(alloc);
    for lifeline in lifelines {
        set.insert(*lifeline)?;
    }
    Ok(set)
}

/// Lifelines by their links and cores, and in each from the host to the remote.
fn order_of(alloc: Global, seats: &[Lifeline]) -> Result<Vec<Lifeline>, NoMemory>
    ensures { IfOk result (λ order. order.items ≡ in_order seats.now) }
{
    let mut order = Vec::new(alloc);
    for seat in seats {
        if is_own(seat.side) {
            push_side(&mut order, seats, seat.name, Side::Host)?;
            push_side(&mut order, seats, seat.name, Side::Own)?;
            push_side(&mut order, seats, seat.name, Side::Remote)?;
        }
    }
    Ok(order)
}

/// Whether a side is that of links and cores themselves.
fn is_own(side: Side) -> bool
    ensures { result ≡ is_own side }
{
    match side {
        Side::Own => true,
        Side::Host | Side::Remote => false,
    }
}

/// Appends the lifelines of a link or a core that are on a side.
fn push_side(
    order: &mut Vec<Lifeline>,
    seats: &[Lifeline],
    name: Name,
    side: Side,
) -> Result<(), NoMemory>
    ensures { OnOk result (order.new.items ≡ order.old.items ++ filter (stands name side) seats.now) }
{
    for seat in seats {
        if stands(name, side, seat) {
            order.push(*seat)?;
        }
    }
    Ok(())
}

/// Whether a lifeline is that of a link or a core and is on a side.
fn stands(name: Name, side: Side, seat: &Lifeline) -> bool
    ensures { result ≡ stands name side seat.now }
{
    seat.name == name && is_same_side(seat.side, side)
}

/// Whether sides are one.
fn is_same_side(one: Side, other: Side) -> bool
    ensures { result ≡ is_same_side one other }
{
    match (one, other) {
        (Side::Host, Side::Host) | (Side::Own, Side::Own) | (Side::Remote, Side::Remote) => true,
        _ => false,
    }
}
