ghost use Rattle.std.specs.Prelude.{◌≡◌, ◌≢◌, None, Some, All, IfOk, IfErr, IsTrue, OnOk, length, map};
ghost use Rattle.resource_table.specs.Entries.{entries_of};
ghost use Rattle.resource_table.specs.Patches.{is_fix_of, patched_of};
ghost use Rattle.c_forms.specs.Arrays.{told_array, told_count, told_status};
ghost use Rattle.c_forms.specs.Faults.{told_fault};
ghost use Rattle.c_forms.specs.Forms.{entry_form};
ghost use Rattle.c_forms.specs.Tables.{fix_of, patch_refusal, patched_unless, table_entries_told, table_refusal, table_told, wrong_fix};

use crate::entries::CEntry;
use crate::faults::{CFault, NO_FAULT};
use crate::fixes::{CFix, fix_of, is_fix_of};
use crate::{DONE, NO_MEMORY, NOTHING, WRONG_FIX, WRONG_LENGTH};
use resource_table::{Fix, Table};
use std::alloc::Global;

/// What is given of bytes that may be a resource table.
#[repr(C)]
#[derive(Clone, Copy)]
pub struct CTable {
    /// Why they are none; the number is 0 where they are one.
    pub fault: CFault,
    /// How many entries the table has, at most 256.
    pub entries: u32,
}

/// Says whether bytes are a resource table.
///
/// The status is 0 where they are one, and otherwise the number of the first fault.
pub fn check_table(table: &[u8], told: &mut CTable) -> u32
    ensures status { result ≡ told.new.fault.number }
    ensures told { told.new ≡ table_told table.now }
{
    *told = match Table::read(table) {
        Ok(table) => CTable {
            fault: NO_FAULT,
            entries: u32::from(table.len()),
        },
        Err(why) => CTable {
            fault: CFault::of_table(why),
            entries: 0,
        },
    };
    told.fault.number
}

/// Writes the entries of a resource table into an array, in order, and counts those that were written.
/// No place is known of its traces.
///
/// The status is 0, the number of the first fault of the table, which leaves the array as it was, or
/// [`WRONG_LENGTH`] where the array has no room for all: it is full then.
pub fn table_entries(table: &[u8], array: &mut [CEntry], count: &mut usize) -> u32
    ensures status { result ≡ told_status (table_refusal table.now) (table_entries_told table.now) array.old }
    ensures entries { array.new ≡ told_array (table_refusal table.now) (table_entries_told table.now) array.old }
    ensures count { count.new ≡ told_count (table_refusal table.now) (table_entries_told table.now) array.old }
{
    match Table::read(table) {
        Ok(table) => put_entries(&table, array, count),
        Err(why) => {
            *count = 0;
            CFault::of_table(why).number
        }
    }
}

/// Writes the entries of a table over the start of an array.
fn put_entries(table: &Table<'_>, array: &mut [CEntry], count: &mut usize) -> u32
    ensures status { result ≡ told_status None (map (entry_form None) (entries_of table.now)) array.old }
    ensures entries { array.new ≡ told_array None (map (entry_form None) (entries_of table.now)) array.old }
    ensures count { count.new ≡ told_count None (map (entry_form None) (entries_of table.now)) array.old }
{
    for index in 0..table.len() {
        let place = usize::from(index);
        if place == array.len() {
            *count = place;
            return WRONG_LENGTH;
        }
        array[place] = CEntry::of(&table.entry(index), None);
    }
    *count = usize::from(table.len());
    DONE
}

/// Writes fixes into a resource table, each in turn, and sets its device for RPMsg up. Every other byte
/// stays as it is.
///
/// The status is 0 where they are written. Otherwise it is the number of what refuses them, and the
/// table is as it was: the first fault of the table, or [`WRONG_FIX`] for the first fix that no entry
/// takes.
pub fn patch_table(alloc: Global, table: &mut [u8], fixes: &[CFix], fault: &mut CFault) -> u32
    ensures status { result ≡ fault.new.number }
    ensures fault { result ≢ NO_MEMORY → fault.new ≡ told_fault (patch_refusal table.old fixes.now) }
    ensures patched { result ≢ NO_MEMORY → table.new ≡ patched_unless (patch_refusal table.old fixes.now) table.old fixes.now }
    ensures kept { result ≡ NO_MEMORY → table.new ≡ table.old }
{
    match patched(alloc, table, fixes) {
        Ok(bytes) => {
            table.copy_from_slice(&bytes);
            *fault = NO_FAULT;
        }
        Err(why) => *fault = why,
    }
    fault.number
}

/// The bytes of a table with fixes.
fn patched(alloc: Global, table: &[u8], fixes: &[CFix]) -> Result<Vec<u8>, CFault>
    ensures patched { IfOk result (λ bytes. bytes.items ≡ patched_of table.now (map fix_of fixes.now)) }
    ensures length { IfOk result (λ bytes. length bytes.items ≡ length table.now) }
    ensures good { OnOk result (patch_refusal table.now fixes.now ≡ None) }
    ensures refused { IfErr result (λ why. why.number ≢ NO_MEMORY → patch_refusal table.now fixes.now ≡ Some why) }
{
    let read = match Table::read(table) {
        Ok(read) => read,
        Err(why) => return Err(CFault::of_table(why)),
    };
    let fixes = fixes_of(alloc, &read, fixes)?;
    match read.patched(alloc, &fixes) {
        Ok(bytes) => Ok(bytes),
        Err(_) => Err(CFault::no_memory()),
    }
}

/// Fixes of a table. The error is about the first that no entry of it takes.
fn fixes_of(alloc: Global, table: &Table<'_>, given: &[CFix]) -> Result<Vec<Fix>, CFault>
    ensures fixes { IfOk result (λ fixes. fixes.items ≡ map fix_of given.now) }
    ensures fit { IfOk result (λ fixes. All (λ fix. IsTrue (is_fix_of (entries_of table.now) fix)) fixes.items) }
    ensures good { OnOk result (wrong_fix (entries_of table.now) 0 given.now ≡ None) }
    ensures refused { IfErr result (λ why. why.number ≢ NO_MEMORY → wrong_fix (entries_of table.now) 0 given.now ≡ Some why) }
{
    let mut fixes = Vec::new(alloc);
    for (index, one) in given.iter().enumerate() {
        let fix = fix_of(one);
        if !is_fix_of(table, &fix) {
            return Err(CFault {
                number: WRONG_FIX,
                about: index.min(NOTHING as usize) as u32,
            });
        }
        if fixes.push(fix).is_err() {
            return Err(CFault::no_memory());
        }
    }
    Ok(fixes)
}
