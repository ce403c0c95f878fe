ghost use Rattle.std.specs.Prelude.{◌≡◌, ◌+◌, ◌*◌, IfOk, length, sum_by};
ghost use Rattle.image_maker.specs.Segments.{data_of, segments_of, segment_count, data_len};
ghost use Rattle.image_maker.specs.Tables.{entries_of, entry_len, entry_count, is_vring, rings_in_front};
ghost use Rattle.image_maker.specs.Images.{entry_address, table_address};

use crate::codes::is_record;
use rp_base::NoMemory;
use script_lang::RecipeLine;

/// A sum of lengths. One past 64 bits is refused, as no recipe of a script makes.
pub(crate) fn plus(left: u64, right: u64) -> Result<u64, NoMemory>
    ensures { IfOk result (λ sum. sum ≡ left + right) }
{
    left.checked_add(right).ok_or(NoMemory)
}

/// A product of lengths. One past 64 bits is refused, as no recipe of a script makes.
pub(crate) fn times(left: u64, right: u64) -> Result<u64, NoMemory>
    ensures { IfOk result (λ product. product ≡ left * right) }
{
    left.checked_mul(right).ok_or(NoMemory)
}

/// How many segments a line is.
fn segments_of(line: &RecipeLine) -> u64
    ensures { result ≡ segments_of line.now }
{
    match line {
        RecipeLine::Load(..) | RecipeLine::Code(_) => 1,
        _ => 0,
    }
}

/// How many bytes of segments a line has.
pub(crate) fn data_len_of(line: &RecipeLine) -> u64
    ensures { result ≡ length (data_of line.now) }
{
    match line {
        RecipeLine::Load(_, bytes, _) => bytes.bytes().len() as u64,
        _ => if is_record(line) { 16 } else { 0 },
    }
}

/// How many entries of the table a line is.
pub(crate) fn entries_of(line: &RecipeLine) -> u64
    ensures { result ≡ entries_of line.now }
{
    match line {
        RecipeLine::Carveout(..)
        | RecipeLine::Devmem(..)
        | RecipeLine::Trace(..)
        | RecipeLine::Vdev(..)
        | RecipeLine::Vendor(_) => 1,
        _ => 0,
    }
}

/// How many bytes of the table a line is.
pub(crate) fn entry_len(line: &RecipeLine) -> u64
    ensures { result ≡ entry_len line.now }
{
    match line {
        RecipeLine::Carveout(..) | RecipeLine::Devmem(..) => 56,
        RecipeLine::Trace(..) => 48,
        RecipeLine::Vdev(..) => 28,
        RecipeLine::Vring(..) => 20,
        RecipeLine::Vendor(_) => 4,
        _ => 0,
    }
}

/// How many segments there are.
pub(crate) fn segment_count(lines: &[RecipeLine]) -> Result<u64, NoMemory>
    ensures { IfOk result (λ count. count ≡ segment_count lines.now) }
{
    let mut count = 0;
    for line in lines {
        count = plus(count, segments_of(line))?;
    }
    Ok(count)
}

/// How many bytes the segments have.
pub(crate) fn data_len(lines: &[RecipeLine]) -> Result<u64, NoMemory>
    ensures { IfOk result (λ len. len ≡ data_len lines.now) }
{
    let mut len = 0;
    for line in lines {
        len = plus(len, data_len_of(line))?;
    }
    Ok(len)
}

/// How many entries the table has.
pub(crate) fn entry_count(lines: &[RecipeLine]) -> Result<u64, NoMemory>
    ensures { IfOk result (λ count. count ≡ entry_count lines.now) }
{
    let mut count = 0;
    for line in lines {
        count = plus(count, entries_of(line))?;
    }
    Ok(count)
}

/// How many bytes the entries have.
pub(crate) fn entries_len(lines: &[RecipeLine]) -> Result<u64, NoMemory>
    ensures { IfOk result (λ len. len ≡ sum_by entry_len lines.now) }
{
    let mut len = 0;
    for line in lines {
        len = plus(len, entry_len(line))?;
    }
    Ok(len)
}

/// How many vrings are at the start.
pub(crate) fn rings_in_front(lines: &[RecipeLine]) -> usize
    ensures { result ≡ rings_in_front lines.now }
{
    lines
        .iter()
        .take_while(|line| matches!(line, RecipeLine::Vring(..)))
        .count()
}

/// The address of the first instruction.
pub(crate) fn entry_address(lines: &[RecipeLine]) -> u64
    ensures { result ≡ entry_address lines.now }
{
    let mut entry = 0;
    for line in lines {
        if let RecipeLine::Entry(da) = line {
            entry = *da;
        }
    }
    entry
}

/// The device address of the table.
pub(crate) fn table_address(lines: &[RecipeLine]) -> Option<u64>
    ensures { result ≡ table_address lines.now }
{
    let mut table = None;
    for line in lines {
        if let RecipeLine::Table(da) = line {
            table = Some(*da);
        }
    }
    table
}
