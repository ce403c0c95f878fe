ghost use Rattle.std.specs.Prelude.{◌≡◌};
ghost use Rattle.fw_load.specs.Faults.{load_fault_index, load_fault_number};

use elf_image::ElfFault;
use memory_pool::PlaceFault;
use resource_table::TableFault;
use rp_base::NoMemory;
use thiserror::Error;

/// Why an image is not loaded. Each but out of memory is written as the word `fault`, a space and its
/// number.
#[derive(Clone, Copy, Debug, PartialEq, Eq, Error)]
pub enum LoadFault {
    /// The image is not a good one.
    #[error("{0}")]
    Elf(ElfFault),
    /// Its resource table is not a good one, or ends past the image.
    #[error("{0}")]
    Table(TableFault),
    /// What its resource table asks for is not placed.
    #[error("{0}")]
    Place(PlaceFault),
    /// No block of memory holds the segment with the program header of this number, from 0.
    #[error("fault 40")]
    SegmentUnmapped(u16),
    /// No block of memory holds the 16 bytes at the entry.
    #[error("fault 41")]
    EntryUnmapped,
    /// Memory ran out.
    #[error("out of memory")]
    NoMemory,
}

impl LoadFault {
    /// The number of the fault, from 1 to 41, and none for out of memory.
    pub fn number(self) -> Option<u8>
        ensures { result ≡ load_fault_number self }
    {
        match self {
            LoadFault::Elf(fault) => Some(fault.number()),
            LoadFault::Table(fault) => Some(fault.number()),
            LoadFault::Place(fault) => fault.number(),
            LoadFault::SegmentUnmapped(_) => Some(40),
            LoadFault::EntryUnmapped => Some(41),
            LoadFault::NoMemory => None,
        }
    }

    /// The number of the program header or of the entry of the table that the fault is about, from 0,
    /// where it is about one.
    pub fn index(self) -> Option<u16>
        ensures { result ≡ load_fault_index self }
    {
        match self {
            LoadFault::Elf(fault) => fault.index(),
            LoadFault::Table(fault) => fault.index(),
            LoadFault::Place(fault) => fault.index(),
            LoadFault::SegmentUnmapped(index) => Some(index),
            LoadFault::EntryUnmapped | LoadFault::NoMemory => None,
        }
    }
}

impl From<NoMemory> for LoadFault {
    ghost use Rattle.std.specs.Prelude.{◌≡◌};
    ghost use Rattle.fw_load.specs.declared.faults.LoadFault.TheVariants as fault;

    ghost from_gives = { λ _ e. e ≡ fault.NoMemory };

    fn from(_error: NoMemory) -> LoadFault {
        LoadFault::NoMemory
    }
}

impl From<ElfFault> for LoadFault {
    ghost use Rattle.std.specs.Prelude.{◌≡◌};
    ghost use Rattle.fw_load.specs.declared.faults.LoadFault.TheVariants as fault;

    ghost from_gives = { λ refused e. e ≡ fault.Elf refused };

    fn from(refused: ElfFault) -> LoadFault {
        LoadFault::Elf(refused)
    }
}

impl From<TableFault> for LoadFault {
    ghost use Rattle.std.specs.Prelude.{◌≡◌};
    ghost use Rattle.fw_load.specs.declared.faults.LoadFault.TheVariants as fault;

    ghost from_gives = { λ refused e. e ≡ fault.Table refused };

    fn from(refused: TableFault) -> LoadFault {
        LoadFault::Table(refused)
    }
}

impl From<PlaceFault> for LoadFault {
    ghost use Rattle.std.specs.Prelude.{◌≡◌};
    ghost use Rattle.fw_load.specs.Faults.{of_place};

    ghost from_gives = { λ refused e. e ≡ of_place refused };

    fn from(refused: PlaceFault) -> LoadFault {
        match refused {
            PlaceFault::NoMemory => LoadFault::NoMemory,
            _ => LoadFault::Place(refused),
        }
    }
}
