ghost use Rattle.std.specs.Prelude.{◌≡◌, ◌++◌, None, Some, IfOk, OnOk, length};
ghost use Rattle.image_maker.specs.Segments.{code_of, program_header, program_headers, segment_bytes};
ghost use Rattle.image_maker.specs.Images.{image_of, image_with, data_start, segments_part, section_headers};
ghost use Rattle.image_maker.specs.Tables.{table_len};

use crate::codes::{code_len, put_line_data};
use crate::sizes::{
    data_len, data_len_of, entries_len, entry_address, entry_count, plus, segment_count,
    table_address, times,
};
use crate::tables::put_table;
use elf_writer::{put_file_header, put_load_header, put_words};
use rp_base::NoMemory;
use script_lang::{Recipe, RecipeLine};
use std::alloc::{AllocError, Global};

/// The type of a file that is executed, `ET_EXEC`.
const ET_EXEC: u64 = 2;

/// The image that a recipe says.
///
/// Errors: only if memory runs out; no length of a recipe of a script passes 64 bits, see
/// [`laws::lengths_fit`].
///
/// [`laws::lengths_fit`]: crate::laws::lengths_fit
#[tactic(auto, unfolding(crate::specs::Images::image_of))]
pub fn build(alloc: Global, recipe: &Recipe) -> Result<Vec<u8>, NoMemory>
    ensures { IfOk result (λ image. image.items ≡ image_of recipe.now) }
{
    let lines = recipe.lines();
    let mut out = Vec::new(alloc);
    match table_address(lines) {
        None => put_plain(&mut out, lines)?,
        Some(da) => put_with_table(&mut out, lines, da)?,
    }
    Ok(out)
}

/// Appends an image without a table.
fn put_plain(out: &mut Vec<u8>, lines: &[RecipeLine]) -> Result<(), NoMemory>
    ensures { OnOk result (out.new.items ≡ out.old.items ++ image_with lines.now None) }
{
    let segments = segment_count(lines)?;
    put_file_header(out, ET_EXEC, entry_address(lines), segments, 0, 0, 0, 0)?;
    put_segments(out, lines)?;
    Ok(())
}

/// Appends an image with a table for this device address.
fn put_with_table(out: &mut Vec<u8>, lines: &[RecipeLine], da: u64) -> Result<(), NoMemory>
    ensures { OnOk result (out.new.items ≡ out.old.items ++ image_with lines.now (Some da)) }
{
    let segments = segment_count(lines)?;
    let start = plus(data_start(lines)?, data_len(lines)?)?;
    let len = table_len(lines)?;
    let place = plus(plus(start, len)?, 27)?;
    put_file_header(
        out,
        ET_EXEC,
        entry_address(lines),
        segments,
        place,
        40,
        3,
        2,
    )?;
    put_segments(out, lines)?;
    put_table(out, lines)?;
    out.extend_from_slice(b"\0.resource_table\0.shstrtab\0")?;
    put_section_headers(out, da, start, len)?;
    Ok(())
}

/// Where the bytes of the segments begin.
fn data_start(lines: &[RecipeLine]) -> Result<u64, NoMemory>
    ensures { IfOk result (λ start. start ≡ data_start lines.now) }
{
    let count = segment_count(lines)?;
    plus(52, times(32, count)?)
}

/// How many bytes the table has.
fn table_len(lines: &[RecipeLine]) -> Result<u64, NoMemory>
    ensures { IfOk result (λ len. len ≡ table_len lines.now) }
{
    let count = entry_count(lines)?;
    let offsets = plus(16, times(4, count)?)?;
    plus(offsets, entries_len(lines)?)
}

/// Appends the program headers and the bytes of the segments.
#[tactic(auto, unfolding(crate::specs::Images::segments_part))]
fn put_segments(out: &mut Vec<u8>, lines: &[RecipeLine]) -> Result<(), NoMemory>
    ensures { OnOk result (out.new.items ≡ out.old.items ++ segments_part lines.now) }
{
    let start = data_start(lines)?;
    put_program_headers(out, lines, start)?;
    put_data(out, lines)?;
    Ok(())
}

/// Appends the program headers of these lines, whose bytes lie from a place of the image on.
fn put_program_headers(out: &mut Vec<u8>, lines: &[RecipeLine], start: u64) -> Result<(), NoMemory>
    ensures { OnOk result (out.new.items ≡ out.old.items ++ program_headers start lines.now) }
{
    let mut offset = start;
    let mut rest = lines;
    while let [line, more @ ..] = rest {
        put_program_header(out, line, more, offset)?;
        offset = plus(offset, data_len_of(line))?;
        rest = more;
    }
    Ok(())
}

/// Appends the program header of a line, which these lines follow.
fn put_program_header(
    out: &mut Vec<u8>,
    line: &RecipeLine,
    more: &[RecipeLine],
    offset: u64,
) -> Result<(), NoMemory>
    ensures { OnOk result (out.new.items ≡ out.old.items ++ program_header (length (code_of more.now)) offset line.now) }
{
    match line {
        RecipeLine::Load(da, bytes, memory_len) => {
            let len = bytes.bytes().len() as u64;
            put_load_header(out, offset, *da, len, *memory_len)?;
        }
        RecipeLine::Code(da) => {
            let len = code_len(more)?;
            put_load_header(out, offset, *da, len, len)?;
        }
        _ => {}
    }
    Ok(())
}

/// Appends the bytes of the segments.
fn put_data(out: &mut Vec<u8>, lines: &[RecipeLine]) -> Result<(), AllocError>
    ensures { OnOk result (out.new.items ≡ out.old.items ++ segment_bytes lines.now) }
{
    for line in lines {
        put_line_data(out, line)?;
    }
    Ok(())
}

/// Appends three section headers: none, the table's, and that of the names after the table.
fn put_section_headers(out: &mut Vec<u8>, da: u64, start: u64, len: u64) -> Result<(), NoMemory>
    ensures { OnOk result (out.new.items ≡ out.old.items ++ section_headers da start len) }
{
    let names = plus(start, len)?;
    put_words(out, &[0, 0, 0, 0, 0, 0, 0, 0, 0, 0])?;
    put_words(out, &[1, 1, 2, da, start, len, 0, 0, 4, 0])?;
    put_words(out, &[17, 3, 0, 0, names, 27, 0, 0, 1, 0])?;
    Ok(())
}
