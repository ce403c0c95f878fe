// A list of the free buffers of a link, which takes its memory when it is made.
#![tactic(auto)]

ghost use Rattle.std.specs.Prelude.{◌≡◌, ◌<◌, ◌≤◌, ◌∷◌, [], ◌++◌, IfOk, IfSome, IfNone, length};
ghost use Rattle.buffer_pool.specs.Pools.{empty_buffer, buffers_from};

use rp_base::{Buffer, Message, NoMemory};
use std::alloc::Global;
use std::collections::VecDeque;
use std::marker::Model;

#[cfg(test)]
mod tests;

/// The free buffers of a link, in the order in which they are used. Contracts see them as a list,
/// with the number of buffers that there is room for.
///
/// No call but `new` takes memory, and each of the others takes the same time whatever the number
/// of buffers.
#[derive(Debug, Drop)]
pub struct FreeList {
    buffers: VecDeque<Buffer>,
    count: u16,
}

impl Model for FreeList {
    ghost use Rattle.std.specs.Prelude.{◌<◌, ◌≤◌, ◌^◌, length};
    ghost use Rattle.std.specs.VecDeque.{deque_capacity};
    ghost use Rattle.buffer_pool.specs.Pools.{Pool};

    ghost Value = { Pool };

    ghost view = { λ a. record { buffers = a.buffers.items; count = a.count } };

    ghost invariant = { λ a. (length a.buffers.items ≤ a.count) × (a.count ≤ deque_capacity a.buffers) × (a.count < 2 ^ 16) };
}

impl FreeList {
    /// The buffers 0 to `count - 1` in order, with an empty message in each.
    ///
    /// Errors: only if memory runs out.
    #[tactic(auto, using(crate::proofs::Numbered::numbered))]
    pub fn new(alloc: Global, count: u16) -> Result<FreeList, NoMemory>
        ensures buffers { IfOk result (λ pool. pool.buffers ≡ buffers_from 0 count) }
        ensures count { IfOk result (λ pool. pool.count ≡ count) }
    {
        let mut buffers = VecDeque::with_capacity(alloc, usize::from(count))?;
        for id in 0..count {
            buffers.push_back(buffer_numbered(id))?;
        }
        Ok(FreeList { buffers, count })
    }

    /// Takes the first buffer. There is none exactly where the list is empty.
    pub fn pop(&mut self) -> Option<Buffer>
        ensures some { IfSome result (λ buffer. self.old.buffers ≡ buffer ∷ self.new.buffers) }
        ensures none { IfNone result ((self.old.buffers ≡ []) × (self.new.buffers ≡ [])) }
        ensures count { self.new.count ≡ self.old.count }
    {
        self.buffers.pop_front()
    }

    /// Puts a buffer after the others.
    pub fn push(&mut self, buffer: Buffer)
        requires { length self.old.buffers < self.old.count }
        ensures buffers { self.new.buffers ≡ self.old.buffers ++ buffer ∷ [] }
        ensures count { self.new.count ≡ self.old.count }
    {
        self.buffers.push_back(buffer).unwrap();
    }

    /// Puts a buffer back in front of the others.
    pub fn unpop(&mut self, buffer: Buffer)
        requires { length self.old.buffers < self.old.count }
        ensures buffers { self.new.buffers ≡ buffer ∷ self.old.buffers }
        ensures count { self.new.count ≡ self.old.count }
    {
        self.buffers.push_front(buffer).unwrap();
    }

    /// How many buffers are in the list.
    pub fn left(&self) -> u16
        ensures left { result ≡ length self.now.buffers }
        ensures most { length self.now.buffers ≤ self.now.count }
    {
        self.buffers.len() as u16
    }
}

/// The buffer of this number, with an empty message.
fn buffer_numbered(id: u16) -> Buffer
    ensures { result ≡ empty_buffer id }
{
    Buffer {
        id,
        message: Message::of(&[]).unwrap(),
    }
}
