use crate::entries::{Entry, read_entry};
use crate::faults::TableFault;
use crate::fixes::{Fix, patch};
use crate::header::{entry_count, entry_start, test_header};
use crate::testing::test_entries;
use rp_base::NoMemory;
use std::alloc::Global;
use std::marker::Model;

/// A resource table that passed all tests: the section `.resource_table` of a firmware image, which
/// says what memory and devices the firmware wants (`remoteproc.h` of Linux). Contracts see it as
/// the list of its bytes.
#[derive(Drop)]
pub struct Table<'a> {
    bytes: &'a [u8],
}

impl<'a> Model for Table<'a> {
    ghost use Rattle.std.specs.Prelude.{ℕ, List};
    ghost use Rattle.resource_table.specs.Tables.{GoodTable};

    ghost Value = { List ℕ };

    ghost view = { λ t. t.bytes.now };

    ghost invariant = { λ t. GoodTable t.bytes.now };
}

impl<'a> Table<'a> {
    ghost use Rattle.std.specs.Prelude.{◌≡◌, ℕ, ◌<◌, ◌≤◌, Some, IsTrue, All, IfOk, OnOk, length, slice_get, slice_index};
    ghost use Rattle.std.specs.Result.{result_err};
    ghost use Rattle.resource_table.specs.Entries.{entries_of};
    ghost use Rattle.resource_table.specs.Tables.{GoodTable, IsSoundEntry, table_fault};
    ghost use Rattle.resource_table.specs.Patches.{is_fix_of, patched_of, patch_writes, LeavesPlace};
    ghost use Rattle.resource_table.specs.PatchedEntries.{patched_entries};
    ghost use Rattle.resource_table.specs.declared.TheConstants.{ENTRIES_MOST};

    #[tactic(auto, using(crate::proofs::Sound::sound_header))]
    /// Reads a table. The error is the first of the tests that fails.
    pub fn read(bytes: &'a [u8]) -> Result<Table<'a>, TableFault>
        ensures fault { result_err result ≡ table_fault bytes.now }
        ensures table { IfOk result (λ table. table ≡ bytes.now) }
        ensures good { OnOk result (GoodTable bytes.now) }
    {
        test_header(bytes)?;
        test_entries(bytes)?;
        Ok(Table { bytes })
    }

    /// How many entries the table has, at most [`ENTRIES_MOST`](crate::ENTRIES_MOST).
    pub fn len(&self) -> u16
        ensures entries { result ≡ length (entries_of self.now) }
        ensures most { result ≤ ENTRIES_MOST }
        ensures good { GoodTable self.now }
    {
        entry_count(self.bytes) as u16
    }

    /// The entry of a number, from 0. A device has at most two rings, one for RPMsg exactly two, and
    /// their sizes and alignments are ones that rings may have.
    pub fn entry(&self, index: u16) -> Entry
        requires { index < length (entries_of self.now) }
        ensures entry { slice_get (entries_of self.now) index ≡ Some result }
        ensures sound { IsSoundEntry result }
        ensures good { GoodTable self.now }
    {
        read_entry(self.bytes, entry_start(self.bytes, index))
    }

    /// The bytes of the table with the places of carveouts and rings written into them, each fix in
    /// turn, and with the device for RPMsg set up: it agrees to the name service where the firmware
    /// offers it, and its driver is ready. Every other byte is as it was. It is a good table, whose
    /// entries are those of the table with the fixes in their fields and that device set up.
    pub fn patched(&self, alloc: Global, fixes: &[Fix]) -> Result<Vec<u8>, NoMemory>
        requires { All (λ fix. IsTrue (is_fix_of (entries_of self.now) fix)) fixes.now }
        ensures patched { IfOk result (λ patched. patched.items ≡ patched_of self.now fixes.now) }
        ensures good { IfOk result (λ patched. GoodTable patched.items) }
        ensures entries { IfOk result (λ patched. entries_of patched.items ≡ patched_entries fixes.now (entries_of self.now)) }
        ensures length { IfOk result (λ patched. length patched.items ≡ length self.now) }
        ensures others { IfOk result (λ patched. (place : ℕ) → All (LeavesPlace place) (patch_writes self.now fixes.now)
            → slice_index patched.items place ≡ slice_index self.now place) }
    {
        let mut patched = Vec::from_slice(alloc, self.bytes)?;
        patch(self.bytes, &mut patched, fixes);
        Ok(patched)
    }
}
