ghost use Rattle.std.specs.Prelude.{◌≡◌, ◌≤◌};
ghost use Rattle.c_forms.specs.Faults.{elf_fault, fault_of, load_fault_form, no_memory, region_fault_form, table_fault_form};

use crate::{NO_MEMORY, NOTHING};
use elf_image::ElfFault;
use fw_load::LoadFault;
use memory_pool::RegionFault;
use resource_table::TableFault;

/// Why something is refused, and what the refusal is about.
#[repr(C)]
#[derive(Clone, Copy)]
pub struct CFault {
    /// The number of the fault, from 1 to 41, or [`NO_MEMORY`] or another status; 0 for none.
    ///
    /// [`NO_MEMORY`]: crate::NO_MEMORY
    pub number: u32,
    /// The number of the program header, the entry, the region or the fix that it is about, from 0,
    /// and [`NOTHING`] where it is about none.
    ///
    /// [`NOTHING`]: crate::NOTHING
    pub about: u32,
}

/// No fault.
pub(crate) const NO_FAULT: CFault = CFault {
    number: 0,
    about: NOTHING,
};

impl CFault {
    /// The fault of this number, where it has one, about something of a number.
    fn of(number: Option<u8>, about: Option<u16>) -> CFault
        ensures { result ≡ fault_of number about }
    {
        CFault {
            number: number.map_or(NO_MEMORY, u32::from),
            about: about.map_or(NOTHING, u32::from),
        }
    }

    /// Memory ran out.
    pub(crate) fn no_memory() -> CFault
        ensures { result ≡ no_memory }
    {
        CFault {
            number: NO_MEMORY,
            about: NOTHING,
        }
    }

    /// The fault of a load.
    pub(crate) fn of_load(fault: LoadFault) -> CFault
        ensures form { result ≡ load_fault_form fault }
        ensures number { 1 ≤ result.number }
    {
        CFault::of(fault.number(), fault.index())
    }

    /// The fault of an image.
    pub(crate) fn of_image(fault: ElfFault) -> CFault
        ensures { result ≡ elf_fault fault }
    {
        CFault::of(Some(fault.number()), fault.index())
    }

    /// The fault of a resource table.
    pub(crate) fn of_table(fault: TableFault) -> CFault
        ensures { result ≡ table_fault_form fault }
    {
        CFault::of(Some(fault.number()), fault.index())
    }

    /// The fault of the region of a number.
    pub(crate) fn of_region(index: u16, fault: RegionFault) -> CFault
        ensures form { result ≡ region_fault_form index fault }
        ensures number { 1 ≤ result.number }
    {
        CFault::of(fault.number(), Some(index))
    }
}
