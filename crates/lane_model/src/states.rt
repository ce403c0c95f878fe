use crate::lane_links::LaneLink;
use crate::stages::{Receiving, Sending, Turn};
use rp_base::{CallerNo, Message};
use std::collections::LinkedList;

/// One message of a book: who sent it, and its bytes. Contracts speak of it; no code makes one.
pub struct BookEntry {
    pub caller: CallerNo,
    pub message: Message,
}

/// A message that was handed over and whose buffer is not back: its number, and who has it.
#[derive(Clone, Copy)]
pub struct Holding {
    pub number: u64,
    pub caller: CallerNo,
}

/// What one direction of a link is to its users: lists and counts. Contracts speak of it; no code
/// makes one.
pub struct Lane {
    /// How many buffers it has.
    pub capacity: u64,
    /// How many messages it accepts in one incarnation.
    pub book: u64,
    /// The messages that were accepted, by number.
    pub accepted: LinkedList<BookEntry>,
    /// To whom each message was handed, by number.
    pub takers: LinkedList<CallerNo>,
    /// The messages whose buffers are out.
    pub held: LinkedList<Holding>,
    /// How many buffers were given back.
    pub returned: u64,
}

/// A lane with the turns of its two ends, each with the call that has it, and the desk of the
/// receiver's turn. Contracts speak of it; no code makes one.
pub struct LaneState<D> {
    pub lane: Lane,
    pub sender: Turn<Sending>,
    pub receiver: Turn<Receiving>,
    pub desk: D,
}

/// The state of a link: its era, both lanes, and for each number the end of the caller that has it.
/// Contracts speak of it; no code makes one.
pub type LinkState<D> = LaneLink<LaneState<D>>;
