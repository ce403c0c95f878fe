ghost use Rattle.std.specs.Prelude.{◌≡◌, ◌≤◌, length};
ghost use Rattle.rp_base.specs.Texts.{text_before_zero};
ghost use Rattle.rpmsg_header.specs.Headers.{is_whole};
ghost use Rattle.rpmsg_header.specs.Services.{service_of};
ghost use Rattle.c_forms.specs.Messages.{head_status, read_status, service_given, service_room, service_status, service_told, told_head, with_head, with_service};
ghost use Rattle.rp_base.specs.declared.limits.TheConstants.{NAME_MOST};

use crate::names::padded;
use crate::{DONE, WRONG_LENGTH};
use rp_base::{NAME_MOST, Name, PAYLOAD_MOST, u16_at, u32_at};
use rpmsg_header::{HeaderFault, NsMessage, head, ns_read, ns_write};

/// The bytes of a header.
const HEADER_SIZE: usize = 16;

/// The bytes of a message to the name service.
const SERVICE_SIZE: usize = 40;

/// What the header of a message says. Its payload comes after the 16 bytes of the header.
#[repr(C)]
#[derive(Clone, Copy)]
pub struct CHeader {
    /// The address of the endpoint that sent the message.
    pub src: u32,
    /// The address of the endpoint that the message is for.
    pub dst: u32,
    /// How many bytes the payload has.
    pub len: u32,
}

/// A message to the name service.
#[repr(C)]
#[derive(Clone, Copy)]
pub struct CService {
    /// The name of the channel, up to the first zero; its last byte counts as zero.
    pub name: [u8; 32],
    /// The address of the channel on the remote core.
    pub address: u32,
    /// 0 where the channel comes. Otherwise it goes away.
    pub destroy: u32,
}

/// Reads the header of a message.
///
/// The status is 0, or 61 where the message has no whole header or its header claims more bytes than
/// there are; then nothing is given.
pub fn read_head(message: &[u8], told: &mut CHeader) -> u32
    ensures status { result ≡ read_status (is_whole message.now) }
    ensures told { told.new ≡ told_head (is_whole message.now) message.now told.old }
{
    if message.len() < HEADER_SIZE {
        return u32::from(HeaderFault::Malformed.number());
    }
    let len = u16_at(message, 12);
    if usize::from(len) > message.len() - HEADER_SIZE {
        return u32::from(HeaderFault::Malformed.number());
    }
    *told = CHeader {
        src: u32_at(message, 0),
        dst: u32_at(message, 4),
        len: u32::from(len),
    };
    DONE
}

/// Writes the header of a message to the start of its buffer, for a payload of `len` bytes that is
/// after it.
///
/// The status is 0; 60 where the payload is longer than 496 bytes; or [`WRONG_LENGTH`] where the buffer
/// has no room for the header and the payload. The buffer is as it was where it isn't 0.
pub fn write_head(buffer: &mut [u8], src: u32, dst: u32, len: u32) -> u32
    ensures status { result ≡ head_status len (length buffer.old) }
    ensures written { buffer.new ≡ with_head (head_status len (length buffer.old)) src dst len buffer.old }
{
    if len as usize > PAYLOAD_MOST {
        return u32::from(HeaderFault::TooLong(len as usize).number());
    }
    if buffer.len() < HEADER_SIZE + len as usize {
        return WRONG_LENGTH;
    }
    buffer[..HEADER_SIZE].copy_from_slice(&head(src, dst, len as u16));
    DONE
}

/// Reads the payload of a message to the name service.
///
/// The status is 0, or [`WRONG_LENGTH`] where it doesn't have 40 bytes; then nothing is given.
pub fn read_service(payload: &[u8], told: &mut CService) -> u32
    ensures status { result ≡ service_status (service_of payload.now) }
    ensures told { told.new ≡ service_told (service_of payload.now) told.old }
{
    match ns_read(payload) {
        Some(service) => {
            *told = CService {
                name: padded(&service.name),
                address: service.address,
                destroy: u32::from(service.destroy),
            };
            DONE
        }
        None => WRONG_LENGTH,
    }
}

/// Writes the payload of a message to the name service, 40 bytes, to the start of a buffer.
///
/// The status is 0, or [`WRONG_LENGTH`] where the buffer has no room; then it is as it was.
pub fn write_service(given: &CService, buffer: &mut [u8]) -> u32
    ensures status { result ≡ service_room (length buffer.old) }
    ensures written { buffer.new ≡ with_service (service_room (length buffer.old)) given.now buffer.old }
{
    if buffer.len() < SERVICE_SIZE {
        return WRONG_LENGTH;
    }
    let service = NsMessage {
        name: name_in(&given.name[..NAME_MOST]),
        address: given.address,
        destroy: given.destroy != 0,
    };
    buffer[..SERVICE_SIZE].copy_from_slice(&ns_write(&service));
    DONE
}

/// The name in a field of at most [`NAME_MOST`] bytes, up to the first zero.
fn name_in(field: &[u8]) -> Name
    requires { length field.now ≤ NAME_MOST }
    ensures text { result ≡ text_before_zero field.now }
    ensures short { length result ≤ NAME_MOST }
{
    let len = field.iter().take_while(|byte| **byte != 0).count();
    match Name::of(&field[..len]) {
        Some(name) => name,
        None => unreachable!(),
    }
}
