use lane_model::LaneState;
use rp_base::{CallerNo, Message};
use std::collections::LinkedList;
use vring_layout::UsedWord;

/// How large the two rings of a lane are, and which processor sends on it.
#[derive(Clone, Copy)]
pub struct RingSizes {
    /// How many entries each ring has, a power of two from 1 to 32,768.
    pub entries: u32,
    /// How many buffers there are: one for each entry, at most 256.
    pub capacity: u16,
    /// How many of the first sends take a buffer of the sender's own list: none where the device
    /// sends, whose first buffers come from the available ring, and as many as there are buffers where
    /// the driver sends.
    pub own: u16,
}

/// A buffer in the hands of a caller, by the number of the message in it.
#[derive(Clone, Copy)]
pub struct Hand {
    pub number: u64,
    pub caller: CallerNo,
    pub buffer: u32,
}

/// The rings and the buffers of a lane. The sender publishes buffers in the forward ring, and the
/// receiver gives them back in the return ring. Contracts speak of it; no code makes one.
pub struct Rings {
    pub sizes: RingSizes,
    /// How many entries of the forward ring were published, modulo 65,536.
    pub forward_index: u16,
    /// How many entries of the return ring were published, modulo 65,536.
    pub return_index: u16,
    /// The entries of the forward ring. Where it is an available ring, each length is 0.
    pub forward: LinkedList<UsedWord>,
    /// The entries of the return ring. Each length is 0.
    pub returns: LinkedList<UsedWord>,
    /// The buffer that the send under way has out, between its steps 4 and 6.
    pub sending: u32,
    /// The buffer that the take under way has out, between its steps 4 and 5.
    pub taking: u32,
    /// The buffers that were handed to callers and not given back.
    pub hands: LinkedList<Hand>,
    /// The buffers that were in the hands of callers who were reclaimed.
    pub aside: LinkedList<u32>,
    /// What is in each buffer, by its number.
    pub buffers: LinkedList<Message>,
}

/// A lane with its rings: what it is to its users, and how it is kept. Contracts speak of it; no code
/// makes one.
pub struct RingState<D> {
    pub lane: LaneState<D>,
    pub rings: Rings,
}
