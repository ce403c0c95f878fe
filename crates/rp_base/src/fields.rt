ghost use Rattle.std.specs.Prelude.{◌≡◌, ℕ, ◌+◌, ◌≤◌, length};
ghost use Rattle.rp_base.specs.Fields.{number_at, with_number};

use byteorder::{ByteOrder, LittleEndian};

/// The little-endian number in the two bytes from place `at`.
pub fn u16_at(bytes: &[u8], at: usize) -> u16
    requires { at + 2 ≤ length bytes.now }
    ensures { result ≡ number_at 2 at bytes.now }
{
    LittleEndian::read_u16(&bytes[at..at + 2])
}

/// The little-endian number in the four bytes from place `at`.
pub fn u32_at(bytes: &[u8], at: usize) -> u32
    requires { at + 4 ≤ length bytes.now }
    ensures { result ≡ number_at 4 at bytes.now }
{
    LittleEndian::read_u32(&bytes[at..at + 4])
}

/// The little-endian number in the eight bytes from place `at`.
pub fn u64_at(bytes: &[u8], at: usize) -> u64
    requires { at + 8 ≤ length bytes.now }
    ensures { result ≡ number_at 8 at bytes.now }
{
    LittleEndian::read_u64(&bytes[at..at + 8])
}

/// Writes a number into the two bytes from place `at`, the lowest byte first.
pub fn put_u16(bytes: &mut [u8], at: usize, value: u16)
    requires { at + 2 ≤ length bytes.old }
    ensures { bytes.new ≡ with_number 2 at value bytes.old }
{
    LittleEndian::write_u16(&mut bytes[at..at + 2], value);
}

/// Writes a number into the four bytes from place `at`, the lowest byte first.
pub fn put_u32(bytes: &mut [u8], at: usize, value: u32)
    requires { at + 4 ≤ length bytes.old }
    ensures { bytes.new ≡ with_number 4 at value bytes.old }
{
    LittleEndian::write_u32(&mut bytes[at..at + 4], value);
}
