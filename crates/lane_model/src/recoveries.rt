ghost use Rattle.std.specs.Prelude.{◌≡◌, ◌≤◌, [], length, vec_capacity, IfOk};
ghost use Rattle.rp_base.specs.declared.limits.TheConstants.{BOOK_MOST};

use crate::books::Book;
use crate::helds::Held;
use rp_base::{CallerNo, Era, Inc, NoMemory};
use std::alloc::Global;
use std::marker::Model;

/// An incarnation was not closed, since the era is this one.
#[derive(Debug, Drop)]
pub struct Already(pub Era);

/// Why a caller is not reclaimed.
#[derive(Clone, Copy)]
pub enum ReclaimRefusal {
    /// The era is live.
    StillOpen(Era),
    /// Another has the receiver's turn, which is needed for what the caller holds.
    Busy(CallerNo),
}

/// Why a caller is not reclaimed, with its call and the buffers that it holds, which are handed back.
#[derive(Drop)]
pub enum ReclaimByFault<C> {
    /// The era is live.
    StillOpen(Era, Option<C>, Vec<Held>),
    /// Another has the receiver's turn, which is needed for what the caller holds.
    Busy(CallerNo, Option<C>, Vec<Held>),
}

/// A part of a reclaim, in the order in which a manager does them, with steps of others between.
/// Contracts speak of it; no code makes one.
pub enum ReclaimPart {
    /// The manager takes the receiver's turn.
    TakesTurn,
    /// The call of the caller is gone, and its turn is free. Where that is the receiver's turn, what
    /// the caller held is back.
    EndsCall,
    /// What the caller held is back, and the manager leaves the receiver's turn.
    LeavesTurn,
    /// The number of the caller is free.
    FreesNumber,
}

/// One of the two turns of a lane, which the manager may take or leave. Contracts speak of it; no
/// code makes one.
pub enum LaneTurn {
    Sender,
    Receiver,
}

/// Why a link is not reopened.
#[derive(Debug, Drop)]
pub enum ReopenFault {
    /// The era is live.
    StillOpen(Era),
    /// This caller has a turn.
    StillTurn(CallerNo),
    /// This caller holds the buffer of the message of this number.
    StillHeld(CallerNo, u64),
    /// There is no next incarnation.
    IncarnationsSpent,
    NoMemory,
}

/// What a lane accepted and handed over in one incarnation.
#[derive(Drop)]
pub struct LaneBook {
    /// The messages, by number.
    pub accepted: Book,
    /// To whom each message was handed, by number.
    pub takers: Vec<CallerNo>,
}

/// What both lanes of a link accepted and handed over in one incarnation.
#[derive(Drop)]
pub struct Books {
    pub inc: Inc,
    pub to_host: Book,
    pub to_host_handed: u64,
    pub to_host_takers: Vec<CallerNo>,
    pub to_remote: Book,
    pub to_remote_handed: u64,
    pub to_remote_takers: Vec<CallerNo>,
}

/// The room of a lane's next incarnation. Contracts see it as the most messages that it is for.
#[derive(Drop)]
pub struct LaneRoom {
    accepted: Book,
    takers: Vec<CallerNo>,
}

impl Model for LaneRoom {
    ghost use Rattle.std.specs.Prelude.{ℕ, ◌≡◌, ◌≤◌, [], vec_capacity};

    ghost Value = { ℕ };

    ghost view = { λ a. a.accepted.room };

    ghost invariant = { λ a. (a.accepted.entries ≡ []) × (a.takers.items ≡ []) × (a.accepted.room ≤ vec_capacity a.takers) };
}

impl LaneRoom {
    /// Room for so many messages.
    pub fn make(alloc: Global, book: u32) -> Result<LaneRoom, NoMemory>
        requires { book ≤ BOOK_MOST }
        ensures { IfOk result (λ room. room ≡ book) }
    {
        Ok(LaneRoom {
            accepted: Book::with_room(alloc, book)?,
            takers: Vec::with_capacity(alloc, book as usize)?,
        })
    }

    /// An empty book, and room for its takers.
    pub(crate) fn into_parts(self) -> (Book, Vec<CallerNo>)
        ensures book { result.0 ≡ record { entries = []; room = self } }
        ensures takers { result.1.items ≡ [] }
        ensures room { self ≤ vec_capacity result.1 }
    {
        let LaneRoom { accepted, takers } = self;
        (accepted, takers)
    }
}
