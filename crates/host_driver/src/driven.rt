ghost use Rattle.std.specs.Prelude.{◌≡◌, ◌≤◌, None, Some, if◌then◌else◌, length};
ghost use Rattle.rp_base.specs.declared.limits.TheConstants.{MESSAGE_MOST, PAYLOAD_MOST};
ghost use Rattle.host_driver.specs.Drivers.{probe_message, reply_to, message_from};

use rp_base::{DriverKind, Endpoint, Message};
use rpmsg_header::{fields, head};

/// The payload that a sample driver sends (`MSG` of Linux `rpmsg_client_sample.c`).
const SAMPLE_TEXT: [u8; 12] = *b"hello world!";

/// How many messages a sample driver sends (`count` of Linux `rpmsg_client_sample.c`).
const SAMPLE_COUNT: u64 = 100;

/// An endpoint that is driven (`struct rpmsg_device` of Linux `rpmsg.h`). Contracts speak of it.
#[derive(Clone, Copy)]
pub struct DrivenEndpoint {
    pub endpoint: Endpoint,
    /// The kind of its driver.
    pub kind: DriverKind,
    /// The address of its channel on the remote core.
    pub channel: u32,
    /// How many messages have been delivered to it.
    pub deliveries: u64,
}

impl DrivenEndpoint {
    /// What the driver sends as it is bound to the channel. There is nothing exactly where it is
    /// no sample.
    pub(crate) fn probe(&self) -> Option<Message>
        ensures { result ≡ probe_message self.now.kind self.now }
    {
        match self.kind {
            DriverKind::Sink | DriverKind::Echo => None,
            DriverKind::Sample => {
                let mut message = Message::empty();
                self.write(self.channel, &SAMPLE_TEXT, &mut message);
                Some(message)
            }
        }
    }

    /// Whether the driver sends something for a message that was delivered and is counted. The answer
    /// is what it sends then.
    pub(crate) fn reply(&self, message: &[u8], answer: &mut Message) -> bool
        requires { length message.now ≤ MESSAGE_MOST }
        ensures { (if result then Some answer.new else None) ≡ reply_to self.now.kind self.now message.now }
    {
        match self.kind {
            DriverKind::Sink => false,
            DriverKind::Echo => {
                let header = fields(message);
                self.write(header.src, header.payload, answer);
                true
            }
            DriverKind::Sample => {
                let goes_on = self.deliveries < SAMPLE_COUNT;
                if goes_on {
                    self.write(self.channel, &SAMPLE_TEXT, answer);
                }
                goes_on
            }
        }
    }

    // Makes it a message from the endpoint, whose payload fits.
    fn write(&self, to: u32, payload: &[u8], message: &mut Message)
        requires { length payload.now ≤ PAYLOAD_MOST }
        ensures { message.new ≡ message_from self.now to payload.now }
    {
        message.set(
            &head(self.endpoint.address, to, payload.len() as u16),
            payload,
        );
    }
}
