ghost use Rattle.std.specs.Prelude.{◌≡◌, [], IfSome};
ghost use Rattle.resource_table.specs.Entries.{entries_of};
ghost use Rattle.resource_table.specs.Tables.{GoodTable};
ghost use Rattle.fw_load.specs.Tables.{entries_in};

use resource_table::Table;
use std::alloc::Global;
use std::marker::Model;

/// The patched resource table of an image: a good table, or no byte where the image has none.
/// Contracts see it as the list of its bytes.
#[derive(Drop)]
pub struct PatchedTable {
    bytes: Vec<u8>,
}

impl Model for PatchedTable {
    ghost use Rattle.std.specs.Prelude.{ℕ, List};
    ghost use Rattle.fw_load.specs.Tables.{IsPatched};

    ghost Value = { List ℕ };

    ghost view = { λ t. t.bytes.items };

    ghost invariant = { λ t. IsPatched t.bytes.items };
}

impl PatchedTable {
    /// What an image has that has no table.
    pub(crate) fn none(alloc: Global) -> PatchedTable
        ensures { result ≡ [] }
    {
        PatchedTable {
            bytes: Vec::new(alloc),
        }
    }

    /// These bytes, which are a good table.
    pub(crate) fn of(bytes: Vec<u8>) -> PatchedTable
        requires { GoodTable bytes.items }
        ensures { result ≡ bytes.items }
    {
        PatchedTable { bytes }
    }

    /// Its bytes.
    pub fn bytes(&self) -> &[u8]
        ensures { result.now ≡ self.now }
    {
        self.bytes.as_slice()
    }

    /// The table, where the image has one.
    pub fn table(&self) -> Option<Table<'_>>
        ensures table { IfSome result (λ table. table ≡ self.now) }
        ensures entries { entries_in result ≡ entries_of self.now }
    {
        if self.bytes.is_empty() {
            return None;
        }
        match Table::read(self.bytes.as_slice()) {
            Ok(table) => Some(table),
            Err(_) => unreachable!(),
        }
    }
}
