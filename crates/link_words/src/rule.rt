//! The words, the slots, what a seat knows, and the rule.
use crate::codes::{DeskRight, DeskTables};
use crate::copies::LinkCopy;
use crate::intents::Intent;
use crate::sides::{ReceiverState, SenderState};
use atomic_table::{Seat, Shared, TableRule};
use lane_model::{BookEntry, Desk, Receiving, Sending, Turn};
use ring_core::{Hand, RingSizes};
use rp_base::{CallerNo, End, Era, Inc, Message};
use std::collections::LinkedList;
use std::marker::PhantomData;

/// The sizes of a link, which its table is given once, when it is made.
#[derive(Drop)]
pub struct LinkSizes {
    pub to_host: RingSizes,
    pub to_remote: RingSizes,
    /// How many messages each lane accepts in one incarnation.
    pub book: u32,
    /// The first incarnation.
    pub first: Inc,
    /// Where the desks lie.
    pub desks: DeskTables,
}

/// What goes with the sender's turn of a lane, as contracts see it: a [`SenderState`] in its slot.
/// No value of it is made.
pub struct SenderSide {
    /// How many messages were accepted.
    pub accepted: u64,
    /// The messages, by number.
    pub entries: LinkedList<BookEntry>,
    /// For how many messages the book has room.
    pub room: u64,
}

/// What goes with the receiver's turn of a lane, as contracts see it: a [`ReceiverState`] in its slot.
/// No value of it is made.
pub struct ReceiverSide {
    /// How many messages were handed over.
    pub handed: u64,
    /// To whom each was handed, by number.
    pub takers: LinkedList<CallerNo>,
    /// For how many takers there is room.
    pub room: u64,
    /// How many buffers were given back.
    pub returned: u64,
    /// The buffers that are in hand, with the messages' numbers.
    pub hands: LinkedList<Hand>,
    /// The right to the desk of this end.
    pub desk: DeskRight,
}

/// The side states of a lane that the manager has, each with its turn, as contracts see them. No value of
/// it is made.
pub struct LaneSides {
    pub sender: Option<SenderSide>,
    pub receiver: Option<ReceiverSide>,
}

/// What a caller begins.
#[derive(Drop)]
pub struct CallStart {
    pub caller: CallerNo,
    /// The end that the caller is on.
    pub end: End,
    /// The incarnation that the call follows.
    pub follows: Inc,
    pub wish: Intent,
}

/// What a slot holds.
#[derive(Drop)]
pub enum Slot {
    Empty,
    Sender(SenderState),
    Receiver(ReceiverState),
    Buffer(Message),
    /// In no slot: the caller that a step names to the proofs.
    Caller(CallerNo),
    /// In no slot: what a first step tells the proofs of its call.
    Start(CallStart),
}

/// One of the two rings of a lane.
#[derive(Clone, Copy)]
pub enum Ring {
    /// The sender publishes messages in it.
    Forward,
    /// The receiver gives buffers back in it.
    Return,
}

/// The call that a seat is in: the lane by the end that it leads to, the turn as the ring form has it, the side, and the buffer
/// that is out, where one is.
pub enum Call {
    Idle,
    /// A caller of this end between its calls.
    Rests(End),
    Sends(End, Turn<Sending>, SenderSide, u64),
    /// With the message of the buffer that is out.
    Receives(End, Turn<Receiving>, ReceiverSide, u64, Message),
    /// A call with the receiver's turn that a reclaim ends.
    EndsReceive(End, Turn<Receiving>, ReceiverSide, u64, Message),
    /// A send that a reclaim ends: its seat has found the era closed while it had the turn.
    EndsSend(End, Turn<Sending>, SenderSide, u64),
    /// The same of a caller that holds buffers: its seat has its receiver's turn for the manager too, with this side.
    EndsBoth(End, Turn<Sending>, SenderSide, u64, ReceiverSide),
    /// A caller between its calls that a reclaim ends: its seat has its receiver's turn for the manager.
    Reclaims(End, ReceiverSide),
    /// The same, and its seat has found the era closed since.
    EndsHeld(End, ReceiverSide),
    /// The manager outside a reopening, in any era, with the side states that it has of the lane to the host and of the one to the
    /// remote.
    Gathers(LaneSides, LaneSides),
    /// The manager in a reopening, with its side states: it has the four turns, this incarnation is closed, nothing is held, and so many
    /// words are reset.
    Reopens(u64, Inc, LaneSides, LaneSides),
}

/// A caller, or the manager under the number 64, as the proofs know it. No value of it is made.
pub struct Pass {
    pub number: CallerNo,
    pub call: Call,
    /// The first incarnation of which the books say all that it sent.
    pub first: Inc,
    /// What it has done, the newest first.
    pub own: LinkedList<Event>,
    /// The numbers of what it holds, the oldest first.
    pub hands: LinkedList<u64>,
}

/// What a seat knows. No value of it is made.
pub struct View {
    /// A caller's seat has one pass, the manager's its own and those of the callers that it carries, a spent one none.
    pub passes: LinkedList<Pass>,
    /// In the manager's view: the numbers of the passes that other seats have, and maybe of some that came back.
    pub out: LinkedList<CallerNo>,
    /// In the manager's view: the callers in use, by number.
    pub users: LinkedList<Option<End>>,
    /// In the manager's view: the current incarnation.
    pub inc: Inc,
    /// In the manager's view: the numbers that were freed in this incarnation.
    pub reclaims: LinkedList<CallerNo>,
    /// In the manager's view: the passes that were reclaimed in this incarnation, the latest first.
    pub ended_passes: LinkedList<Pass>,
    /// In the manager's view: it has found this incarnation closed.
    pub is_closed: bool,
    /// The manager's copy of the state.
    pub copy: Option<LinkCopy>,
    /// The sizes of the link.
    pub sizes: LinkSizes,
}

/// What a step read or made.
pub enum Made {
    /// The word of a turn: 0 where it was free and this caller has it, else the holder's number and 1.
    Turn(u64),
    Era(Era),
    /// This buffer is out.
    Buffer(u64),
    /// An entry is stored.
    Entry,
    /// The turn is free.
    Left,
    /// An attempt to close found this era.
    Close(Era),
}

/// What a step read or made of the counts of a lane.
pub enum Counted {
    /// A look for room: how many messages were accepted, and how many buffers are back.
    Room(u64, u64),
    /// A look for a message: how many were handed over, and how many are accepted.
    Waiting(u64, u64),
    /// A buffer was given back: how many are back now.
    Gave(u64),
}

/// A step of a seat, with what it read or made. The acceptance of a message has one entry, and so has each other step, but that a handing
/// has two: the message, and the era that was read.
pub enum Event {
    Step(Made),
    /// Of the lane to this end, in this incarnation: its counts.
    Count(End, Inc, Counted),
    /// Of the lane to this end, in this incarnation: the message of this number was accepted.
    Publish(End, Inc, u64, Message),
    /// Of the lane to this end, in this incarnation: the message of this number was handed to it.
    Take(End, Inc, u64, Message),
}

/// The rule of the table of a link. It is for the proofs alone.
pub struct LinkWords<D> {
    marker: PhantomData<D>,
}

impl<D: Desk> TableRule<Slot, View, LinkSizes> for LinkWords<D> {
    ghost use Rattle.lane_model.specs.declared.TheConstants.{MANAGER};
    ghost use Rattle.link_words.specs.Rule.{LinkRule, first_view};

    ghost holds = { LinkRule D.row.coded D.meaning };

    ghost first = { λ key. first_view key MANAGER };
}

/// The table of a link, as threads share it.
pub type LinkTable<D> = Shared<Slot, View, LinkSizes, LinkWords<D>>;

/// What a caller or the manager steps with.
pub type LinkSeat = Seat<Slot, View>;
