use crate::helds::Held;
use rp_base::{BindFault, CallerNo, Da, Endpoint, Era, Inc, Message, Verdict};

/// What a caller wants of a link.
#[derive(Drop)]
pub enum Wish {
    /// To send a message to the other end.
    Send(Message),
    /// To be handed the next message of the other end.
    Take,
    /// To give back the buffer of the message of this number, which the caller holds.
    Give(u64),
    /// To bind an endpoint at an address of this end. 0xFFFFFFFF asks for the least free one from 1024.
    Bind(u32),
    /// To unbind the endpoint at an address of this end.
    Unbind(u32),
}

/// How a call ended.
#[derive(Clone, Copy)]
pub enum CallEnd {
    /// The message was accepted under this number.
    Sent(u64),
    /// The message of this number was handed over, with this verdict.
    Took(u64, Verdict),
    /// The buffer of the message of this number is back.
    Gave(u64),
    Bound(Endpoint),
    Unbound(Endpoint),
    /// Another had the turn.
    Busy(CallerNo),
    /// The era is not the one that the call follows, live.
    Dead(Era),
    /// Each buffer is out: how many messages were accepted, and how many buffers were given back.
    NoBuffer(u64, u64),
    /// The book of this incarnation is full: how many messages were accepted.
    BookFull(u64),
    /// Each accepted message was handed over: how many there are.
    Empty(u64),
    Refused(BindFault),
}

/// What a step does to its call. Contracts speak of it; no code makes one.
pub enum Outcome {
    /// The step of this number is done, and the call goes on.
    At(u8),
    /// The call has ended.
    Ended(CallEnd),
}

/// What a step answers, which writes the end of the call beside it.
#[derive(Clone, Copy)]
pub enum Step {
    /// The step of this number is done, and the call goes on.
    At(u8),
    /// The call has ended.
    Ended,
}

/// What a caller asks of a link, with the buffer that it gives back.
#[derive(Drop)]
pub enum Ask {
    /// To send a message to the other end.
    Send(Message),
    /// To be handed the next message of the other end.
    Take,
    /// To give a held buffer back.
    Give(Held),
    /// To bind an endpoint at an address of this end. 0xFFFFFFFF asks for the least free one from 1024.
    Bind(u32),
    /// To unbind the endpoint at an address of this end.
    Unbind(u32),
}

/// The answer to what a caller asked, with the buffer that it was handed.
#[derive(Drop)]
pub enum Answer {
    /// The message was accepted under this number.
    Sent(u64),
    /// A message was handed over, with this verdict.
    Took(Held, Verdict),
    /// The buffer of the message of this number is back.
    Gave(u64),
    Bound(Endpoint),
    Unbound(Endpoint),
    /// Another had the turn.
    Busy(CallerNo),
    /// Another had the turn of a give, which hands its buffer back.
    GiveBusy(CallerNo, Held),
    /// The era is not the one that the call follows, live.
    Dead(Era),
    /// Each buffer is out: how many messages were accepted, and how many buffers were given back.
    NoBuffer(u64, u64),
    /// The book of this incarnation is full: how many messages were accepted.
    BookFull(u64),
    /// Each accepted message was handed over: how many there are.
    Empty(u64),
    Refused(BindFault),
}

/// What one step of a call says to its caller.
#[derive(Drop)]
pub enum Progress {
    /// The step of this number is done, and the call goes on.
    At(u8),
    /// The call has ended.
    Done(Answer),
}

/// What a link is made of.
#[derive(Clone, Copy)]
pub struct LinkConfig {
    /// The entries of the ring to the host, a power of two from 1 to 32,768.
    pub num0: u32,
    /// The entries of the ring to the remote, likewise.
    pub num1: u32,
    /// How many messages each lane accepts in one incarnation, from 1 to 262,144.
    pub book: u32,
    /// The first incarnation, from 1.
    pub first: Inc,
    /// The device address of the buffers.
    pub base: Da,
}
