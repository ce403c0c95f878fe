ghost use Rattle.std.specs.Prelude.{◌≡◌, ◌+◌, ◌++◌, OnOk};
ghost use Rattle.rp_base.specs.Texts.{padded_name};
ghost use Rattle.image_maker.specs.Tables.{entry_bytes, rings_in_front, entries, offset_of, offsets, table_bytes};

use crate::sizes::{entries_of, entry_count, entry_len, plus, rings_in_front, times};
use elf_writer::{put_byte, put_word, put_words};
use rp_base::{Name, NoMemory};
use script_lang::RecipeLine;
use std::alloc::AllocError;

/// Appends the resource table of these lines.
pub(crate) fn put_table(out: &mut Vec<u8>, lines: &[RecipeLine]) -> Result<(), NoMemory>
    ensures { OnOk result (out.new.items ≡ out.old.items ++ table_bytes lines.now) }
{
    let count = entry_count(lines)?;
    let start = plus(16, times(4, count)?)?;
    put_words(out, &[1, count, 0, 0])?;
    put_offsets(out, lines, start)?;
    put_entries(out, lines)?;
    Ok(())
}

/// Appends the offsets of the entries, which lie from a place of the table on.
fn put_offsets(out: &mut Vec<u8>, lines: &[RecipeLine], start: u64) -> Result<(), NoMemory>
    ensures { OnOk result (out.new.items ≡ out.old.items ++ offsets start lines.now) }
{
    let mut offset = start;
    for line in lines {
        put_offset(out, line, offset)?;
        offset = plus(offset, entry_len(line))?;
    }
    Ok(())
}

fn put_offset(out: &mut Vec<u8>, line: &RecipeLine, offset: u64) -> Result<(), AllocError>
    ensures { OnOk result (out.new.items ≡ out.old.items ++ offset_of offset line.now) }
{
    if entries_of(line) == 1 {
        put_word(out, offset)
    } else {
        Ok(())
    }
}

/// Appends the entries.
fn put_entries(out: &mut Vec<u8>, lines: &[RecipeLine]) -> Result<(), AllocError>
    ensures { OnOk result (out.new.items ≡ out.old.items ++ entries lines.now) }
{
    let mut rest = lines;
    while let [line, more @ ..] = rest {
        put_entry(out, line, more)?;
        rest = more;
    }
    Ok(())
}

/// Appends the bytes of a line in the table, which these lines follow.
fn put_entry(out: &mut Vec<u8>, line: &RecipeLine, more: &[RecipeLine]) -> Result<(), AllocError>
    ensures { OnOk result (out.new.items ≡ out.old.items ++ entry_bytes (rings_in_front more.now) line.now) }
{
    match line {
        RecipeLine::Carveout(da, len, name) => {
            put_words(out, &[0, *da, 0, *len, 0, 0])?;
            put_name(out, name)
        }
        RecipeLine::Devmem(da, pa, len, name) => {
            put_words(out, &[1, *da, *pa, *len, 0, 0])?;
            put_name(out, name)
        }
        RecipeLine::Trace(da, len, name) => {
            put_words(out, &[2, *da, *len, 0])?;
            put_name(out, name)
        }
        RecipeLine::Vdev(id, features) => {
            put_words(out, &[3, *id, 0, *features, 0, 0])?;
            out.push(0)?;
            put_byte(out, rings_in_front(more) as u64)?;
            out.extend_from_slice(&[0, 0])
        }
        RecipeLine::Vring(da, align, entries) => put_words(out, &[*da, *align, *entries, 0, 0]),
        RecipeLine::Vendor(kind) => put_words(out, &[*kind]),
        _ => Ok(()),
    }
}

/// Appends a name with zeros after it, 32 bytes in all.
fn put_name(out: &mut Vec<u8>, name: &Name) -> Result<(), AllocError>
    ensures { OnOk result (out.new.items ≡ out.old.items ++ padded_name name.now) }
{
    let bytes = name.bytes();
    out.extend_from_slice(bytes)?;
    let zeros = [0; 32];
    out.extend_from_slice(&zeros[..32 - bytes.len()])?;
    Ok(())
}
