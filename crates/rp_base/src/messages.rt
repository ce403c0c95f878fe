ghost use Rattle.std.specs.Prelude.{◌≡◌, ℕ, ◌+◌, ◌≤◌, ◌<◌, ◌++◌, [], length, IfSome, IfNone};

use crate::limits::MESSAGE_MOST;
use std::marker::Model;

/// The bytes of one message, at most [`MESSAGE_MOST`]. Contracts see it as the list of its bytes.
#[derive(Debug, Drop)]
pub struct Message {
    bytes: [u8; MESSAGE_MOST],
    len: u16,
}

impl Model for Message {
    ghost use Rattle.std.specs.Prelude.{ℕ, List, take, ◌≤◌};
    ghost use Rattle.rp_base.specs.declared.limits.TheConstants.{MESSAGE_MOST};

    ghost Value = { List ℕ };

    ghost view = { λ m. take m.len m.bytes };

    ghost invariant = { λ m. m.len ≤ MESSAGE_MOST };
}

impl Message {
    /// The message of no bytes.
    pub fn empty() -> Message
        ensures { result ≡ [] }
    {
        Message {
            bytes: [0; MESSAGE_MOST],
            len: 0,
        }
    }

    /// The message of these bytes. There is none exactly where there are more than
    /// [`MESSAGE_MOST`].
    pub fn of(bytes: &[u8]) -> Option<Message>
        ensures some { IfSome result (λ message. message ≡ bytes.now) }
        ensures fits { IfSome result (λ message. length bytes.now ≤ MESSAGE_MOST) }
        ensures none { IfNone result (MESSAGE_MOST < length bytes.now) }
    {
        if bytes.len() > MESSAGE_MOST {
            return None;
        }
        let mut filled = [0; MESSAGE_MOST];
        filled[..bytes.len()].copy_from_slice(bytes);
        Some(Message {
            bytes: filled,
            len: bytes.len() as u16,
        })
    }

    /// Makes it the message of these bytes, those of `head` before those of `body`. It writes as
    /// many bytes as these have.
    pub fn set(&mut self, head: &[u8], body: &[u8])
        requires { length head.now + length body.now ≤ MESSAGE_MOST }
        ensures { self.new ≡ head.now ++ body.now }
    {
        let len = head.len() + body.len();
        self.bytes[..head.len()].copy_from_slice(head);
        self.bytes[head.len()..len].copy_from_slice(body);
        self.len = len as u16;
    }

    /// The bytes of the message.
    pub fn bytes(&self) -> &[u8]
        ensures bytes { result.now ≡ self.now }
        ensures short { length self.now ≤ MESSAGE_MOST }
    {
        &self.bytes[..self.len as usize]
    }

    /// A second message of the same bytes.
    pub fn copy(&self) -> Message
        ensures copied { result ≡ self.now }
        ensures short { length self.now ≤ MESSAGE_MOST }
    {
        Message {
            bytes: self.bytes,
            len: self.len,
        }
    }
}

/// A buffer of a link's pool: its number, and the message in it.
#[derive(Debug, Drop)]
pub struct Buffer {
    pub id: u16,
    pub message: Message,
}
