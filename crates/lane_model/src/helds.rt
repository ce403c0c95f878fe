ghost use Rattle.std.specs.Prelude.{◌≡◌};

use rp_base::{Buffer, CallerNo, Message};
use std::marker::Model;

/// A buffer that a caller has taken and not yet given back. It has to be given back or reclaimed:
/// one that is dropped stays held, and its link cannot be reopened any more. Contracts see its lane,
/// its caller, the number of its message, and the number of the buffer and the bytes in it.
#[derive(Drop)]
pub struct Held {
    lane: u8,
    caller: CallerNo,
    number: u64,
    buffer: Buffer,
}

impl Model for Held {
    ghost use Rattle.lane_model.specs.HeldBuffers.{HeldBuffer};

    ghost Value = { HeldBuffer };

    ghost view = { λ h. record {
      lane = h.lane;
      caller = h.caller;
      number = h.number;
      buffer = h.buffer.id;
      message = h.buffer.message;
    } };
}

impl Held {
    /// The buffer of message `number` of `lane`, in the hands of `caller`.
    pub fn of(lane: u8, caller: CallerNo, number: u64, buffer: Buffer) -> Held
        ensures { result ≡ record { lane = lane; caller = caller; number = number; buffer = buffer.id; message = buffer.message } }
    {
        Held {
            lane,
            caller,
            number,
            buffer,
        }
    }

    /// The lane, the caller, the number of the message, and the buffer with the message in it.
    pub fn into_parts(self) -> (u8, CallerNo, u64, Buffer)
        ensures { self ≡ record { lane = result.0; caller = result.1; number = result.2; buffer = result.3.id; message = result.3.message } }
    {
        let Held {
            lane,
            caller,
            number,
            buffer,
        } = self;
        (lane, caller, number, buffer)
    }

    /// The lane that the message came on: 0 to the host, 1 to the remote.
    pub fn lane(&self) -> u8
        ensures { result ≡ self.now.lane }
    {
        self.lane
    }

    /// The caller to whom the message was handed.
    pub fn caller(&self) -> CallerNo
        ensures { result ≡ self.now.caller }
    {
        self.caller
    }

    /// The number of the message in its lane and incarnation, from 0.
    pub fn number(&self) -> u64
        ensures { result ≡ self.now.number }
    {
        self.number
    }

    /// The message.
    pub fn message(&self) -> &Message
        ensures { result.now ≡ self.now.message }
    {
        &self.buffer.message
    }
}
