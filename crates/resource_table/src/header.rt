ghost use Rattle.std.specs.Prelude.{◌≡◌, ◌+◌, ◌*◌, ◌≤◌, ◌<◌, ◌^◌, length};
ghost use Rattle.std.specs.List.{range_with_len, list_any};
ghost use Rattle.std.specs.Result.{result_err};
ghost use Rattle.resource_table.specs.Entries.{entry_count, start_of};
ghost use Rattle.resource_table.specs.Tables.{header_fault, is_past_end, offsets_end};

use crate::ENTRIES_MOST;
use crate::faults::TableFault;
use rp_base::{u32_at, u64_at};

/// The bytes of the header, after which the offsets are.
const HEADER_SIZE: usize = 16;

/// The version of tables that are read.
const VERSION: u32 = 1;

/// How many entries a table says that it has.
pub(crate) fn entry_count(bytes: &[u8]) -> u32
    requires { 16 ≤ length bytes.now }
    ensures { result ≡ entry_count bytes.now }
{
    u32_at(bytes, 4)
}

/// Where the offsets end.
pub(crate) fn offsets_end(bytes: &[u8]) -> usize
    requires { 16 ≤ length bytes.now }
    ensures { result ≡ offsets_end bytes.now }
{
    HEADER_SIZE + 4 * entry_count(bytes) as usize
}

/// Where the entry of a number begins.
pub(crate) fn entry_start(bytes: &[u8], index: u16) -> usize
    requires { 16 + 4 * (index + 1) ≤ length bytes.now }
    ensures start { result ≡ start_of bytes.now index }
    ensures small { result < 2 ^ 32 }
{
    u32_at(bytes, HEADER_SIZE + 4 * usize::from(index)) as usize
}

/// Tests the header of a table, and its offsets.
pub(crate) fn test_header(bytes: &[u8]) -> Result<(), TableFault>
    ensures { result_err result ≡ header_fault bytes.now }
{
    if bytes.len() < HEADER_SIZE {
        return Err(TableFault::TableShort);
    }
    if u32_at(bytes, 0) != VERSION {
        return Err(TableFault::Version);
    }
    if u64_at(bytes, 8) != 0 {
        return Err(TableFault::Reserved);
    }
    let count = entry_count(bytes);
    if count > ENTRIES_MOST
        || offsets_end(bytes) > bytes.len()
        || has_offset_past_end(bytes, count as u16)
    {
        return Err(TableFault::Offsets);
    }
    Ok(())
}

#[tactic(auto, using(crate::proofs::Ranges::any_more))]
/// Whether one of the offsets names a place past the end.
fn has_offset_past_end(bytes: &[u8], count: u16) -> bool
    requires { 16 + 4 * count ≤ length bytes.now }
    ensures { result ≡ list_any (is_past_end bytes.now) (range_with_len 0 count) }
{
    for index in 0..count {
        if entry_start(bytes, index) > bytes.len() {
            return true;
        }
    }
    false
}
