ghost use Rattle.std.specs.Prelude.{◌≡◌, ℕ, ◌+◌, ◌*◌, ◌≤◌, ◌<◌, ◌^◌, ◌++◌, IfOk, OnOk, length};
ghost use Rattle.elf_writer.specs.Loads.{load_headers};
ghost use Rattle.core_dump.specs.Parts.{AreParts, data_len};
ghost use Rattle.core_dump.specs.Dumps.{IsReadBack, dump_of, loads_from, part_bytes};

use elf_writer::{put_file_header, put_load_header};
use rp_base::{Da, NoMemory};
use std::alloc::{AllocError, Global};
use std::marker::Model;

/// The type of a file that is a core's memory, `ET_CORE`.
const ET_CORE: u64 = 4;

/// The bytes of an ELF header.
const FILE_HEADER_LEN: usize = 52;

/// The bytes of a program header.
const PROGRAM_HEADER_LEN: usize = 32;

/// A part of a core's memory.
#[derive(Drop)]
pub struct Part<'a> {
    /// The device address of its first byte.
    pub da: Da,
    /// Its bytes.
    pub bytes: &'a [u8],
}

impl<'a> Model for Part<'a> {
    ghost use Rattle.core_dump.specs.Parts.{MemoryPart};

    ghost Value = { MemoryPart };

    ghost view = { λ part. record { da = part.da; bytes = part.bytes.now } };
}

/// How many bytes the dump of parts has, of which there are at most 1,024 with 16,777,216 bytes
/// together.
pub fn dump_len(parts: &[Part<'_>]) -> usize
    requires { AreParts parts.now }
    ensures { (entry : ℕ) → result ≡ length (dump_of entry parts.now) }
{
    data_start(parts.len()) + data_len(parts)
}

/// Where the bytes of so many parts begin: after the ELF header and the program headers.
fn data_start(count: usize) -> usize
    requires { count ≤ 1024 }
    ensures { result ≡ 52 + 32 * count }
{
    FILE_HEADER_LEN + PROGRAM_HEADER_LEN * count
}

/// The dump of a core's memory: a core image of the format ELF32 that has a loaded segment for each
/// part. A reader of images finds the entry and the parts in it. There are 1 to 1,024 parts, of
/// 16,777,216 bytes at most together; none is empty, and none passes the last address.
///
/// Errors: only if memory runs out.
#[tactic(auto, using(crate::proofs::ReadBack::read_back))]
pub fn write_dump(alloc: Global, entry: Da, parts: &[Part<'_>]) -> Result<Vec<u8>, NoMemory>
    requires { AreParts parts.now }
    ensures bytes { IfOk result (λ dump. dump.items ≡ dump_of entry parts.now) }
    ensures read_back { IfOk result (λ dump. IsReadBack entry parts.now dump.items) }
{
    dump_of(alloc, entry, parts)
}

/// The bytes of the dump: the ELF header, the program headers, and the bytes of the parts.
#[tactic(auto, unfolding(crate::specs::Dumps::dump_of))]
fn dump_of(alloc: Global, entry: Da, parts: &[Part<'_>]) -> Result<Vec<u8>, NoMemory>
    requires { AreParts parts.now }
    ensures { IfOk result (λ dump. dump.items ≡ dump_of entry parts.now) }
{
    let start = data_start(parts.len());
    let mut dump = Vec::with_capacity(alloc, start + data_len(parts))?;
    let count = parts.len() as u64;
    put_file_header(&mut dump, ET_CORE, u64::from(entry), count, 0, 0, 0, 0)?;
    put_program_headers(&mut dump, parts, start as u64)?;
    put_bytes(&mut dump, parts)?;
    Ok(dump)
}

/// How many bytes parts have.
fn data_len(parts: &[Part<'_>]) -> usize
    requires { data_len parts.now < 2 ^ 64 }
    ensures { result ≡ data_len parts.now }
{
    parts.iter().map(|part| part.bytes.len()).sum()
}

/// Appends a program header for each part, whose bytes lie from a place of the image on.
fn put_program_headers(dump: &mut Vec<u8>, parts: &[Part<'_>], start: u64) -> Result<(), AllocError>
    requires { start + data_len parts.now < 2 ^ 64 }
    ensures { OnOk result (dump.new.items ≡ dump.old.items ++ load_headers (loads_from start parts.now)) }
{
    let mut offset = start;
    for part in parts {
        let len = part.bytes.len() as u64;
        put_load_header(dump, offset, u64::from(part.da), len, len)?;
        offset += len;
    }
    Ok(())
}

/// Appends the bytes of the parts.
fn put_bytes(dump: &mut Vec<u8>, parts: &[Part<'_>]) -> Result<(), AllocError>
    ensures { OnOk result (dump.new.items ≡ dump.old.items ++ part_bytes parts.now) }
{
    for part in parts {
        dump.extend_from_slice(part.bytes)?;
    }
    Ok(())
}
