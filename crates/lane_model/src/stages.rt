use crate::calls::CallEnd;
use rp_base::{CallerNo, Inc, Message};

/// The right to use the private state of one end of a lane.
#[derive(Clone, Copy, Drop)]
pub enum Turn<C> {
    Free,
    /// A caller has it, for the call that is under way.
    Taken(CallerNo, C),
    /// A caller has it. The end of its call is settled, and what is left is to leave the turn.
    Leaving(CallerNo, CallEnd),
    /// The manager of the link has it.
    Manager,
}

/// The step that a send has done last.
#[derive(Clone, Copy)]
pub enum SendStage {
    /// It has the sender's turn.
    Turn,
    /// It has found its incarnation live.
    Era,
    /// It has found room.
    Look,
    /// It has a buffer.
    Buffer,
    /// The message is in the buffer, and the buffer in the ring.
    Entry,
}

/// A send that is under way. Contracts speak of it; no code makes one.
pub struct Sending {
    pub follows: Inc,
    pub message: Message,
    pub stage: SendStage,
}

/// The step that a take has done last.
#[derive(Clone, Copy)]
pub enum TakeStage {
    /// It has the receiver's turn.
    Turn,
    /// It has found its incarnation live.
    Era,
    /// It has found a message.
    Look,
    /// It has the buffer of the message.
    Buffer,
}

/// The step that a give has done last.
#[derive(Clone, Copy)]
pub enum GiveStage {
    /// It has the receiver's turn.
    Turn,
    /// The buffer is in the ring.
    Entry,
}

/// What a call that needs the receiver's turn is about, with the step that it has done last. A
/// binding and an unbinding have one step after their turn, so they have no stage.
#[derive(Clone, Copy)]
pub enum Work {
    Take(TakeStage),
    /// A give of the buffer of the message of this number.
    Give(u64, GiveStage),
    Bind(u32),
    Unbind(u32),
}

/// A call under way that has the receiver's turn.
#[derive(Clone, Copy)]
pub struct Receiving {
    pub follows: Inc,
    pub work: Work,
}
