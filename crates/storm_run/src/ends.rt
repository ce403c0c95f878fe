//! What a round gives back.
use split_ring::Caller;

/// The callers of a round that has ended, in the order in which they were given.
#[derive(Drop)]
pub struct Round {
    pub callers: Vec<Caller>,
}

/// There was no memory for a round, and its callers are as they were.
#[derive(Drop)]
pub struct RoundNoMemory {
    pub callers: Vec<Caller>,
}
