//! A link that threads share, and its making.
ghost use Rattle.std.specs.Prelude.{◌≡◌, ◌+◌, ◌<◌, ◌≤◌, [], IfOk, IfSome, IfNone, Some, None, slice_set};
ghost use Rattle.lane_model.specs.declared.TheConstants.{MANAGER};
ghost use Rattle.lane_model.specs.Conditions.{IsConfig};
ghost use Rattle.lane_model.specs.Desks.{IsFreshDesk};
ghost use Rattle.lane_model.specs.Links.{free_number};
ghost use Rattle.rp_base.specs.declared.limits.TheConstants.{BOOK_MOST, CAPACITY_MOST};
ghost use Rattle.ring_core.specs.RingLinks.{opened_ring_link};
ghost use Rattle.ring_core.specs.Rings.{return_count};
ghost use Rattle.link_words.specs.Fresh.{sizes_for};
ghost use Rattle.link_words.specs.Passes.{only_new, without_new};
ghost use Rattle.link_words.specs.Rule.{first_view};
ghost use Rattle.link_words.specs.Words.{sizes_at, buffer_slot};
ghost use Rattle.split_ring.specs.Links.{IsFitLink, HasDeskSeat};
ghost use Rattle.split_ring.specs.Seats.{pass_in};

use crate::callers::{Caller, CallerId, Manager, least_free};
use crate::layouts::{new_slots, new_words, ring_sizes};
use atomic_table::{Seat, Table};
use lane_model::{Desk, LinkConfig};
use link_words::laws::opening_meets_rule;
use link_words::{
    DeskRule, DeskTables, DeskView, LinkSeat, LinkSizes, LinkWords, Slot, View, split,
};
use ring_core::RingSizes;
use rp_base::{CALLERS_MOST, End, Inc, NoMemory};
use std::alloc::Global;
use std::snapshot::Snapshot;

/// The table of a desk, with its memory.
pub(crate) type OwnedDesk<D> = Table<D, DeskView, Snapshot<D>, DeskRule<D>, Global>;

/// The table of the words, with its memory.
pub(crate) type OwnedTable<D> = Table<Slot, View, LinkSizes, LinkWords<D>, Global>;

/// A link that threads share, through a `&`.
#[derive(Drop)]
pub struct SharedLink<D: Desk> {
    pub(crate) table: OwnedTable<D>,
    pub(crate) host: OwnedDesk<D>,
    pub(crate) remote: OwnedDesk<D>,
    pub(crate) sizes: LinkSizes,
    ghost fits: { IsFitLink sizes table.shared.key table.shared.table_id host.shared.table_id remote.shared.table_id },
}

/// The table of a desk, and its one seat.
fn desk_table<D: Desk>(
    alloc: Global,
    desk: D,
) -> Result<(OwnedDesk<D>, Seat<D, DeskView>), NoMemory>
    ensures { IfOk result (λ made. HasDeskSeat (D.row.coded.code desk) made.0.shared.table_id made.1.table_id made.1.me) }
{
    let key = Snapshot::of(&desk);
    let mut slots = Vec::new(alloc);
    slots.push(desk)?;
    match Table::new(alloc, &[0], slots, &key) {
        Ok(made) => Ok(made),
        Err(_) => Err(NoMemory),
    }
}

/// The first incarnation.
fn first_of(config: &LinkConfig) -> Inc
    ensures { result ≡ config.now.first }
{
    config.first
}

impl<D: Desk> SharedLink<D> {
    ghost use Rattle.split_ring.specs.Callers.{IsCallerOf, IsManagerOf, IsStateOf};
    ghost use Rattle.split_ring.specs.Carried.{Keeps};
    ghost use Rattle.split_ring.specs.declared.callers.CallerId.{CallerId};
    ghost use Rattle.split_ring.specs.CallPhases.{Phase};

    /// A new link, live in its first incarnation, and the one who makes its callers.
    ///
    /// Errors: only if memory runs out.
    pub fn make(
        alloc: Global,
        config: LinkConfig,
        host: D,
        remote: D,
    ) -> Result<(SharedLink<D>, Manager), NoMemory>
        requires config { IsConfig config }
        requires desks { IsFreshDesk D.meaning host × IsFreshDesk D.meaning remote }
        ensures sizes { IfOk result (λ made. made.0.sizes ≡ sizes_for config made.0.sizes.desks) }
        ensures manager { IfOk result (λ made. IsManagerOf made.0 made.1) }
        ensures view { IfOk result (λ made. made.1.seat.me ≡ (first_view made.0.sizes MANAGER, [])) }
        ensures state { IfOk result (λ made. IsStateOf D.row.coded made.1 (opened_ring_link config host remote)) }
    {
        let (host, host_seat) = desk_table(alloc, host)?;
        let (remote, remote_seat) = desk_table(alloc, remote)?;
        let host_badge = host_seat.into_badge();
        let remote_badge = remote_seat.into_badge();
        let sizes = LinkSizes {
            to_host: ring_sizes(config.num0, true),
            to_remote: ring_sizes(config.num1, false),
            book: config.book,
            first: first_of(&config),
            desks: DeskTables {
                host: Snapshot::of(&host_badge),
                remote: Snapshot::of(&remote_badge),
            },
        };
        let words = new_words(alloc, &sizes)?;
        let slots = new_slots(alloc, &sizes, host_badge, remote_badge)?;
        opening_meets_rule::<D>();
        match Table::new(alloc, &words, slots, &sizes) {
            Ok((table, seat)) => Ok((
                SharedLink {
                    table,
                    host,
                    remote,
                    sizes,
                },
                Manager {
                    seat,
                    users: [None; CALLERS_MOST],
                    out: [0; 4],
                },
            )),
            Err(_) => Err(NoMemory),
        }
    }

    /// A new caller on this end, under the least number that is not in use. There is none exactly
    /// where all are in use.
    pub fn caller(&self, manager: &mut Manager, end: End) -> Option<Caller>
        requires { IsManagerOf self.now manager.old }
        ensures manager { IsManagerOf self.now manager.new }
        ensures others { (who : CallerId) (p : Phase) → Keeps self.now manager.old manager.new who p }
        ensures some { IfSome result (λ caller. (free_number manager.old.users ≡ Some caller.id.number) × (caller.id.end ≡ end) × (caller.id.follows ≡ self.now.sizes.first)
            × IsCallerOf self.now caller × ((pass_in caller.seat.me).own ≡ []) × ((pass_in caller.seat.me).hands ≡ [])) }
        ensures views { IfSome result (λ caller. (manager.new.seat.me ≡ (without_new end manager.old.seat.me.0 manager.new.seat.me.0.copy, manager.old.seat.me.1)) × (caller.seat.me ≡ (only_new end manager.old.seat.me.0, []))) }
        ensures users { IfSome result (λ caller. manager.new.users ≡ slice_set manager.old.users caller.id.number (Some end)) }
        ensures none { IfNone result (free_number manager.old.users ≡ None) }
        ensures same { IfNone result (manager.new ≡ manager.old) }
    {
        let number = least_free(&manager.users)?;
        let seat = split(&self.table.shared, &mut manager.seat, end);
        manager.users[number as usize] = Some(end);
        Some(Caller {
            id: CallerId {
                number,
                end,
                follows: self.sizes.first,
            },
            seat,
        })
    }
}

impl<D: Desk> SharedLink<D> {
    /// The sizes of the lane to an end.
    pub(crate) fn sizes_of(&self, lane: End) -> RingSizes
        ensures sizes { result ≡ sizes_at self.now.sizes lane }
        ensures fit { (result.own ≤ result.capacity) × (result.capacity ≤ CAPACITY_MOST) }
    {
        match lane {
            End::Host => self.sizes.to_host,
            End::Remote => self.sizes.to_remote,
        }
    }

    /// How many entries of the return ring of the lane to an end were published when so many buffers
    /// are back.
    pub(crate) fn return_count(&self, lane: End, returned: u64) -> u64
        requires { returned ≤ BOOK_MOST }
        ensures count { result ≡ return_count (sizes_at self.now.sizes lane) returned }
        ensures most { result ≤ BOOK_MOST + CAPACITY_MOST }
    {
        let sizes = self.sizes_of(lane);
        u64::from(sizes.capacity - sizes.own) + returned
    }

    /// The slot of a buffer of the lane to an end.
    pub(crate) fn buffer_slot(&self, lane: End, buffer: u32) -> usize
        ensures { result ≡ buffer_slot self.now.sizes.to_host.capacity lane buffer }
    {
        match lane {
            End::Host => 4 + buffer as usize,
            End::Remote => 4 + self.sizes.to_host.capacity as usize + buffer as usize,
        }
    }
}
