ghost use Rattle.std.specs.Prelude.{◌≡◌, ◌<◌, ◌≤◌, IfOk, IfSome, All, length, slice_index};
ghost use Rattle.resource_table.specs.Entries.{entries_of};
ghost use Rattle.resource_table.specs.PatchedEntries.{patched_entries};
ghost use Rattle.fw_load.specs.Tables.{entries_in, fix_for, fixes_of, patched_in, rings_before, rings_of};
ghost use Rattle.fw_load.specs.Uses.{IsNumbersOf, IsUseOf, IsUseWithin};

use crate::patched::PatchedTable;
use memory_pool::{Block, Use};
use resource_table::{Entry, Fix, Table};
use rp_base::NoMemory;
use std::alloc::Global;

/// A table with the places of blocks, and nothing where there is no table.
pub(crate) fn patched_table(
    alloc: Global,
    table: &Option<Table<'_>>,
    blocks: &[Block],
) -> Result<PatchedTable, NoMemory>
    requires { All (λ block. IsUseOf (entries_in table.now) block.what) blocks.now }
    ensures patched { IfOk result (λ patched. patched ≡ patched_in table.now blocks.now) }
    ensures entries { IfOk result (λ patched. entries_of patched ≡ patched_entries (fixes_of (entries_in table.now) blocks.now) (entries_in table.now)) }
    ensures length { IfOk result (λ patched. IfSome table.now (λ table. length patched ≡ length table)) }
{
    match table {
        Some(table) => {
            let fixes = fixes_of(alloc, table, blocks)?;
            Ok(PatchedTable::of(table.patched(alloc, &fixes)?))
        }
        None => Ok(PatchedTable::none(alloc)),
    }
}

/// What is written into a table for blocks.
fn fixes_of(alloc: Global, table: &Table<'_>, blocks: &[Block]) -> Result<Vec<Fix>, NoMemory>
    requires { All (λ block. IsUseOf (entries_of table.now) block.what) blocks.now }
    ensures { IfOk result (λ fixes. fixes.items ≡ fixes_of (entries_of table.now) blocks.now) }
{
    let numbers = ring_numbers(alloc, table)?;
    let mut fixes = Vec::with_capacity(alloc, blocks.len())?;
    for block in blocks {
        if let Some(fix) = fix_for(&numbers, block) {
            fixes.push(fix)?;
        }
    }
    Ok(fixes)
}

/// What is written into a table for a block.
fn fix_for(numbers: &[u32], block: &Block) -> Option<Fix>
    requires within { IsUseWithin (length numbers.now) block.now.what }
    requires small { All (λ number. number ≤ 65536) numbers.now }
    ensures { result ≡ fix_for (slice_index numbers.now) block.now.what block.now.da block.now.pa }
{
    match block.what {
        Use::Carveout(entry) => Some(Fix {
            entry,
            rings: false,
            ring: 0,
            da: block.da,
            pa: block.pa,
            notify: 0,
        }),
        Use::Ring(entry, ring) => Some(Fix {
            entry,
            rings: true,
            ring,
            da: block.da,
            pa: block.pa,
            notify: numbers[usize::from(entry)] + u32::from(ring),
        }),
        Use::Window(_) | Use::Buffers(_) => None,
    }
}

/// How many rings the entries of a table have before each.
fn ring_numbers(alloc: Global, table: &Table<'_>) -> Result<Vec<u32>, NoMemory>
    ensures numbers { IfOk result (λ numbers. IsNumbersOf (entries_of table.now) numbers.items) }
    ensures small { IfOk result (λ numbers. All (λ number. number ≤ 65536) numbers.items) }
{
    let mut numbers = Vec::with_capacity(alloc, usize::from(table.len()))?;
    let mut next = 0;
    for index in 0..table.len() {
        numbers.push(next)?;
        next += ring_count(&table.entry(index));
    }
    Ok(numbers)
}

/// How many rings an entry has.
fn ring_count(entry: &Entry) -> u32
    ensures rings { result ≡ rings_of entry.now }
    ensures few { result ≤ 255 }
{
    match entry {
        Entry::Device(device) => u32::from(device.count),
        _ => 0,
    }
}
