ghost use Rattle.std.specs.Prelude.{◌≡◌};
ghost use Rattle.memory_pool.specs.Faults.{place_fault_index, place_fault_number, region_fault_number};

use rp_base::NoMemory;
use thiserror::Error;

/// Why a region is not added. Each but out of memory is written as the word `fault`, a space and its
/// number.
#[derive(Clone, Copy, Debug, PartialEq, Eq, Error)]
pub enum RegionFault {
    /// Its device or its physical addresses meet those of a region.
    #[error("fault 30")]
    RegionOverlap,
    /// It is empty, ends past the addresses, or makes the memory of all regions larger than 16 MiB.
    #[error("fault 31")]
    RegionRange,
    /// There are sixteen regions already.
    #[error("fault 32")]
    RegionsFull,
    /// Memory ran out.
    #[error("out of memory")]
    NoMemory,
}

impl RegionFault {
    /// The number of the fault, from 30 to 32, and none for out of memory.
    pub fn number(self) -> Option<u8>
        ensures { result ≡ region_fault_number self }
    {
        match self {
            RegionFault::RegionOverlap => Some(30),
            RegionFault::RegionRange => Some(31),
            RegionFault::RegionsFull => Some(32),
            RegionFault::NoMemory => None,
        }
    }
}

/// Why what a resource table asks for is not placed, with the number of the entry, from 0. Each but
/// out of memory is written as the word `fault`, a space and its number.
#[derive(Clone, Copy, Debug, PartialEq, Eq, Error)]
pub enum PlaceFault {
    /// No pool holds a block at its given address.
    #[error("fault 33")]
    FixedOutside(u16),
    /// A block at its given address meets one that was placed before.
    #[error("fault 34")]
    FixedOverlap(u16),
    /// No pool has room for a block.
    #[error("fault 35")]
    NoRoom(u16),
    /// The device addresses of a window meet those of a region or of an earlier window.
    #[error("fault 36")]
    WindowOverlap(u16),
    /// The device or the physical addresses of a window end past 2^32.
    #[error("fault 37")]
    WindowPastEnd(u16),
    /// Memory ran out.
    #[error("out of memory")]
    NoMemory,
}

impl PlaceFault {
    /// The number of the fault, from 33 to 37, and none for out of memory.
    pub fn number(self) -> Option<u8>
        ensures { result ≡ place_fault_number self }
    {
        match self {
            PlaceFault::FixedOutside(_) => Some(33),
            PlaceFault::FixedOverlap(_) => Some(34),
            PlaceFault::NoRoom(_) => Some(35),
            PlaceFault::WindowOverlap(_) => Some(36),
            PlaceFault::WindowPastEnd(_) => Some(37),
            PlaceFault::NoMemory => None,
        }
    }

    /// The number of the entry that the fault is about, from 0, and none for out of memory.
    pub fn index(self) -> Option<u16>
        ensures { result ≡ place_fault_index self }
    {
        match self {
            PlaceFault::FixedOutside(index)
            | PlaceFault::FixedOverlap(index)
            | PlaceFault::NoRoom(index)
            | PlaceFault::WindowOverlap(index)
            | PlaceFault::WindowPastEnd(index) => Some(index),
            PlaceFault::NoMemory => None,
        }
    }
}

impl From<NoMemory> for PlaceFault {
    ghost use Rattle.std.specs.Prelude.{◌≡◌};
    ghost use Rattle.memory_pool.specs.declared.faults.PlaceFault.TheVariants as fault;

    ghost from_gives = { λ _ e. e ≡ fault.NoMemory };

    fn from(_error: NoMemory) -> PlaceFault {
        PlaceFault::NoMemory
    }
}
