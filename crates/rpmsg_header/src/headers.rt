ghost use Rattle.std.specs.Prelude.{◌≡◌, ℕ, ◌≤◌, ◌<◌, ◌↔◌, length, slice_index, IsOk, IfOk, IfErr, is_ok};
ghost use Rattle.rp_base.specs.Fields.{number_at};
ghost use Rattle.rpmsg_header.specs.Headers.{header_bytes, head_bytes, is_whole, source_of, destination_of, payload_of};

use crate::faults::HeaderFault;
use rp_base::{Message, PAYLOAD_MOST, put_u16, put_u32, u16_at, u32_at};

const HEADER_SIZE: usize = 16;

/// What the header of a message says, and its payload.
#[derive(Clone, Copy, Debug, PartialEq, Eq)]
pub struct Header<'a> {
    /// The address of the endpoint that sent the message.
    pub src: u32,
    /// The address of the endpoint that the message is for.
    pub dst: u32,
    pub payload: &'a [u8],
}

/// The message with this payload from the address `src` to the address `dst`. There is none, and
/// the fault holds the length of the payload, exactly where that is above 496 bytes.
pub fn write(src: u32, dst: u32, payload: &[u8]) -> Result<Message, HeaderFault>
    ensures fits { IsOk result ↔ (length payload.now ≤ PAYLOAD_MOST) }
    ensures written { IfOk result (λ message. message ≡ header_bytes src dst payload.now) }
    ensures too_long { IfErr result (λ fault. fault ≡ HeaderFault.TooLong (length payload.now)) }
{
    let len = payload.len();
    if len > PAYLOAD_MOST {
        return Err(HeaderFault::TooLong(len));
    }
    let mut message = Message::empty();
    message.set(&head(src, dst, len as u16), payload);
    Ok(message)
}

/// The header of a message whose payload has `len` bytes.
pub fn head(src: u32, dst: u32, len: u16) -> [u8; 16]
    ensures { result ≡ head_bytes src dst len }
{
    let mut bytes = [0; 16];
    put_u32(&mut bytes, 0, src);
    put_u32(&mut bytes, 4, dst);
    put_u16(&mut bytes, 12, len);
    bytes
}

/// The fields of a message. Its reserved word, its flags and the bytes after the payload may be
/// anything. The message is malformed exactly where it has fewer than 16 bytes, or its length
/// field is above the number of bytes after the header.
pub fn read(message: &Message) -> Result<Header<'_>, HeaderFault>
    ensures whole { is_ok result ≡ is_whole message.now }
    ensures source { IfOk result (λ header. header.src ≡ source_of message.now) }
    ensures destination { IfOk result (λ header. header.dst ≡ destination_of message.now) }
    ensures payload { IfOk result (λ header. header.payload.now ≡ payload_of message.now) }
    ensures malformed { IfErr result (λ fault. fault ≡ HeaderFault.Malformed) }
{
    let bytes = message.bytes();
    if bytes.len() < HEADER_SIZE {
        return Err(HeaderFault::Malformed);
    }
    let len = u16_at(bytes, 12) as usize;
    if len > bytes.len() - HEADER_SIZE {
        return Err(HeaderFault::Malformed);
    }
    Ok(Header {
        src: u32_at(bytes, 0),
        dst: u32_at(bytes, 4),
        payload: &bytes[HEADER_SIZE..HEADER_SIZE + len],
    })
}

/// The fields of a message as they are, whole or not: a byte of the header that isn't there counts
/// as 0, and the payload ends where the message does.
pub fn fields(message: &[u8]) -> Header<'_>
    ensures source { result.src ≡ source_of message.now }
    ensures destination { result.dst ≡ destination_of message.now }
    ensures payload { result.payload.now ≡ payload_of message.now }
{
    if message.len() < HEADER_SIZE {
        return Header {
            src: short_number(message, 0),
            dst: short_number(message, 4),
            payload: &[],
        };
    }
    let rest = &message[HEADER_SIZE..];
    let len = usize::from(u16_at(message, 12));
    Header {
        src: u32_at(message, 0),
        dst: u32_at(message, 4),
        payload: &rest[..len.min(rest.len())],
    }
}

// The number in the four bytes from place `at`, of which those past the end count as 0.
fn short_number(bytes: &[u8], at: usize) -> u32
    requires { at < 16 }
    ensures { result ≡ number_at 4 at bytes.now }
{
    let (first, second) = (byte_at(bytes, at), byte_at(bytes, at + 1));
    let (third, fourth) = (byte_at(bytes, at + 2), byte_at(bytes, at + 3));
    first + 256 * (second + 256 * (third + 256 * fourth))
}

// The byte at a place, or 0 past the end.
fn byte_at(bytes: &[u8], at: usize) -> u32
    ensures byte { result ≡ slice_index bytes.now at }
    ensures small { result < 256 }
{
    if at < bytes.len() {
        u32::from(bytes[at])
    } else {
        0
    }
}
