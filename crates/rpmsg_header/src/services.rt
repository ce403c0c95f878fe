ghost use Rattle.std.specs.Prelude.{◌≡◌, ℕ, ◌≤◌, length};
ghost use Rattle.rp_base.specs.Texts.{text_before_zero};
ghost use Rattle.rpmsg_header.specs.Services.{service_bytes, service_of};
ghost use Rattle.rp_base.specs.declared.limits.TheConstants.{NAME_MOST};

use rp_base::{NAME_MOST, Name, put_u32, u32_at};

const PAYLOAD_SIZE: usize = 40;

/// What a remote core tells the name service of the host (`struct rpmsg_ns_msg` of Linux
/// `rpmsg/ns.h`).
#[derive(Clone, Copy, Debug, PartialEq, Eq)]
pub struct NsMessage {
    /// The name of the channel.
    pub name: Name,
    /// The address of the channel on the remote core.
    pub address: u32,
    /// Whether the channel goes away. Otherwise it comes.
    pub destroy: bool,
}

/// The payload of a message to the name service: a name of 32 bytes, an address and the flags.
pub fn ns_write(ns: &NsMessage) -> [u8; 40]
    ensures { result ≡ service_bytes ns.now }
{
    let mut bytes = [0; PAYLOAD_SIZE];
    put_u32(&mut bytes, 32, ns.address);
    put_u32(&mut bytes, 36, u32::from(ns.destroy));
    let name = ns.name.bytes();
    bytes[..name.len()].copy_from_slice(name);
    bytes
}

/// What a payload tells the name service. There is nothing exactly where it does not have 40
/// bytes. The name ends at its first zero, and its last byte counts as zero; of the flags the
/// lowest bit counts alone.
pub fn ns_read(payload: &[u8]) -> Option<NsMessage>
    ensures { result ≡ service_of payload.now }
{
    if payload.len() != PAYLOAD_SIZE {
        return None;
    }
    Some(NsMessage {
        name: name_in(&payload[..NAME_MOST]),
        address: u32_at(payload, 32),
        destroy: u32_at(payload, 36) & 1 == 1,
    })
}

// The name in a field of at most as many bytes as a name may have, up to the first zero.
fn name_in(field: &[u8]) -> Name
    requires { length field.now ≤ NAME_MOST }
    ensures { result ≡ text_before_zero field.now }
{
    let len = field.iter().take_while(|byte| **byte != 0).count();
    match Name::of(&field[..len]) {
        Some(name) => name,
        None => unreachable!(),
    }
}
