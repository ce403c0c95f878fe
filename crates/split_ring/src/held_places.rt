//! Where a held buffer is.
ghost use Rattle.std.specs.Prelude.{◌≡◌, []};
ghost use Rattle.split_ring.specs.Receives.{taken_of};

use crate::callers::CallerId;
use crate::takes::{Handing, lane_number};
use lane_model::Held;
use rp_base::{Buffer, CallerNo, Message};
use std::marker::Model;

/// Where a buffer is that its caller has taken and not yet given back: another comes to be in its place without
/// a move of the room for its message. Contracts see the held buffer, as they see [`Held`].
#[derive(Drop)]
pub struct HeldPlace {
    pub(crate) lane: u8,
    pub(crate) caller: CallerNo,
    pub(crate) number: u64,
    pub(crate) buffer: u16,
    pub(crate) message: Message,
}

impl Model for HeldPlace {
    ghost use Rattle.lane_model.specs.HeldBuffers.{HeldBuffer};

    ghost Value = { HeldBuffer };

    ghost view = { λ p. record {
      lane = p.lane;
      caller = p.caller;
      number = p.number;
      buffer = p.buffer;
      message = p.message;
    } };
}

impl HeldPlace {
    /// A place for a buffer, as if there was buffer 0 of lane 0 with message 0, of no bytes, in the hands of caller 0.
    pub fn new() -> HeldPlace
        ensures { result ≡ record { lane = 0; caller = 0; number = 0; buffer = 0; message = [] } }
    {
        HeldPlace::with(Message::empty())
    }

    /// The same with this message.
    pub(crate) fn with(message: Message) -> HeldPlace
        ensures { result ≡ record { lane = 0; caller = 0; number = 0; buffer = 0; message = message } }
    {
        HeldPlace {
            lane: 0,
            caller: 0,
            number: 0,
            buffer: 0,
            message,
        }
    }

    /// The place where this buffer is.
    pub fn of(held: Held) -> HeldPlace
        ensures { result ≡ held }
    {
        let (lane, caller, number, buffer) = held.into_parts();
        let Buffer { id, message } = buffer;
        HeldPlace {
            lane,
            caller,
            number,
            buffer: id,
            message,
        }
    }

    /// The place of the buffer that was handed to this caller, with this message.
    pub fn handed(who: CallerId, handing: Handing, message: Message) -> HeldPlace
        ensures { result ≡ (taken_of who handing message).held }
    {
        let mut place = HeldPlace::with(message);
        place.hold(who, handing);
        place
    }

    /// The buffer that is there, out of its place.
    pub fn held(&self) -> Held
        ensures { result ≡ self.now }
    {
        Held::of(
            self.lane,
            self.caller,
            self.number,
            Buffer {
                id: self.buffer,
                message: self.message.copy(),
            },
        )
    }

    /// The buffer that is in the other place is here. It writes as many bytes as its message has.
    pub fn set(&mut self, other: &HeldPlace)
        ensures { self.new ≡ other.now }
    {
        self.lane = other.lane;
        self.caller = other.caller;
        self.number = other.number;
        self.buffer = other.buffer;
        self.message.set(other.message.bytes(), &[]);
    }

    /// The buffer is there that was handed to this caller, with the message that is there.
    pub(crate) fn hold(&mut self, who: CallerId, handing: Handing)
        ensures { self.new ≡ (taken_of who handing self.old.message).held }
    {
        self.lane = lane_number(who.end);
        self.caller = who.number;
        self.number = handing.number;
        self.buffer = handing.buffer;
    }

    /// The number of the message.
    pub fn number(&self) -> u64
        ensures { result ≡ self.now.number }
    {
        self.number
    }

    /// The caller to whom the message was handed.
    pub fn caller(&self) -> CallerNo
        ensures { result ≡ self.now.caller }
    {
        self.caller
    }

    /// The message in the buffer.
    pub fn message(&self) -> &Message
        ensures { result.now ≡ self.now.message }
    {
        &self.message
    }
}
