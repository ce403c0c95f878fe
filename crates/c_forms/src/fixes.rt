ghost use Rattle.std.specs.Prelude.{◌≡◌};
ghost use Rattle.resource_table.specs.Entries.{entries_of};
ghost use Rattle.resource_table.specs.Patches.{is_fix_of};
ghost use Rattle.c_forms.specs.Tables.{fix_of};

use resource_table::{Entry, Fix, Table};

/// Where a carveout or a ring was placed, to be written into a table.
#[repr(C)]
#[derive(Clone, Copy)]
pub struct CFix {
    /// The number of the entry, from 0.
    pub entry: u16,
    /// 0 where it is for a carveout. Otherwise it is for a ring of the entry, which is a device then.
    pub rings: u8,
    /// The number of the ring, where it is for one.
    pub ring: u8,
    /// The device address.
    pub da: u32,
    /// The physical address.
    pub pa: u32,
    /// The ring's number among all rings of the table, where it is for one.
    pub notify: u32,
}

/// A fix as it is written.
pub(crate) fn fix_of(given: &CFix) -> Fix
    ensures { result ≡ fix_of given.now }
{
    Fix {
        entry: given.entry,
        rings: given.rings != 0,
        ring: given.ring,
        da: given.da,
        pa: given.pa,
        notify: given.notify,
    }
}

/// Whether a fix names an entry of a table, which takes it.
pub(crate) fn is_fix_of(table: &Table<'_>, fix: &Fix) -> bool
    ensures { result ≡ is_fix_of (entries_of table.now) fix.now }
{
    if fix.entry >= table.len() {
        return false;
    }
    match table.entry(fix.entry) {
        Entry::Carveout(_, _, _, _) => !fix.rings,
        Entry::Device(device) => fix.rings && fix.ring < device.count,
        _ => false,
    }
}
