ghost use Rattle.std.specs.Prelude.{◌≡◌, ◌++◌, OnOk};
ghost use Rattle.elf_writer.specs.Headers.{file_header, load_header};

use crate::fields::{put_half, put_words};
use std::alloc::AllocError;

/// The identification of an ELF32 image, the lowest byte of a number first.
const IDENTIFICATION: [u8; 16] = [0x7f, 0x45, 0x4c, 0x46, 1, 1, 1, 0, 0, 0, 0, 0, 0, 0, 0, 0];

/// Appends the ELF header: the type of the file, the entry, the number of program headers, which
/// follow this header, and the place, the size, the number and the number of the names of the section
/// headers.
#[tactic(auto, unfolding(crate::specs::Headers::file_header))]
pub fn put_file_header(
    out: &mut Vec<u8>,
    kind: u64,
    entry: u64,
    segments: u64,
    place: u64,
    size: u64,
    sections: u64,
    names: u64,
) -> Result<(), AllocError>
    ensures { OnOk result (out.new.items ≡ out.old.items ++ file_header kind entry segments place size sections names) }
{
    out.extend_from_slice(&IDENTIFICATION)?;
    put_half(out, kind)?;
    put_half(out, 40)?;
    put_words(out, &[1, entry, 52, place, 0])?;
    put_half(out, 52)?;
    put_half(out, 32)?;
    put_half(out, segments)?;
    put_half(out, size)?;
    put_half(out, sections)?;
    put_half(out, names)
}

/// Appends the program header of a loaded segment: where its bytes are in the image, its address,
/// how many bytes it has there, and how many in memory.
pub fn put_load_header(
    out: &mut Vec<u8>,
    offset: u64,
    da: u64,
    len: u64,
    memory_len: u64,
) -> Result<(), AllocError>
    ensures { OnOk result (out.new.items ≡ out.old.items ++ load_header offset da len memory_len) }
{
    put_words(out, &[1, offset, da, da, len, memory_len, 7, 4])
}
