ghost use Rattle.std.specs.Prelude.{◌≡◌, ◌≢◌};
ghost use Rattle.c_forms.specs.Arrays.{told_array, told_count, told_status};
ghost use Rattle.c_forms.specs.Faults.{told_fault};
ghost use Rattle.c_forms.specs.Tables.{patch_refusal, patched_unless, table_entries_told, table_refusal, table_told};

use c_forms::{CEntry, CFault, CFix, CTable, NO_MEMORY};
use std::alloc::Global;

/// Says whether bytes are a resource table.
#[unsafe(no_mangle)]
pub extern "C" fn rproc_check_table(table: &[u8], told: &mut CTable) -> u32
    ensures status { result ≡ told.new.fault.number }
    ensures told { told.new ≡ table_told table.now }
{
    c_forms::check_table(table, told)
}

/// Writes the entries of a resource table into an array.
#[unsafe(no_mangle)]
pub extern "C" fn rproc_table_entries(table: &[u8], array: &mut [CEntry], count: &mut usize) -> u32
    ensures status { result ≡ told_status (table_refusal table.now) (table_entries_told table.now) array.old }
    ensures entries { array.new ≡ told_array (table_refusal table.now) (table_entries_told table.now) array.old }
    ensures count { count.new ≡ told_count (table_refusal table.now) (table_entries_told table.now) array.old }
{
    c_forms::table_entries(table, array, count)
}

/// Writes fixes into a resource table, and sets its device for RPMsg up.
#[unsafe(no_mangle)]
pub extern "C" fn rproc_patch_table(
    alloc: Global,
    table: &mut [u8],
    fixes: &[CFix],
    fault: &mut CFault,
) -> u32
    ensures status { result ≡ fault.new.number }
    ensures fault { result ≢ NO_MEMORY → fault.new ≡ told_fault (patch_refusal table.old fixes.now) }
    ensures patched { result ≢ NO_MEMORY → table.new ≡ patched_unless (patch_refusal table.old fixes.now) table.old fixes.now }
    ensures kept { result ≡ NO_MEMORY → table.new ≡ table.old }
{
    c_forms::patch_table(alloc, table, fixes, fault)
}
