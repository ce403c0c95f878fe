use fw_load::LoadFault;
use host_driver::DriverFault;
use lane_model::ReopenFault;
use memory_pool::RegionFault;
use proc_state::LifeFault;
use rp_base::{CallerNo, NoMemory};
use rp_io::{FetchFault, NoImage, StoreFault};

/// Why a region or a driver is not added to a core.
#[derive(Debug, Drop)]
pub enum AddFault {
    /// The core is not offline.
    NotOffline,
    /// The region doesn't fit beside the others. It is never out of memory.
    Region(RegionFault),
    /// A driver of this name is declared.
    DriverTaken,
    /// There are sixteen drivers.
    DriversFull,
    /// Memory ran out.
    NoMemory,
}

impl From<RegionFault> for AddFault {
    ghost use Rattle.std.specs.Prelude.{◌≡◌};
    ghost use Rattle.crash_recover.specs.Cores.{add_fault_of};

    ghost from_gives = { λ refused e. e ≡ add_fault_of refused };

    fn from(refused: RegionFault) -> AddFault {
        match refused {
            RegionFault::NoMemory => AddFault::NoMemory,
            _ => AddFault::Region(refused),
        }
    }
}

impl From<DriverFault> for AddFault {
    ghost use Rattle.std.specs.Prelude.{◌≡◌};
    ghost use Rattle.crash_recover.specs.Cores.{add_fault_of_driver};

    ghost from_gives = { λ refused e. e ≡ add_fault_of_driver refused };

    fn from(refused: DriverFault) -> AddFault {
        match refused {
            DriverFault::DriverTaken => AddFault::DriverTaken,
            DriverFault::DriversFull => AddFault::DriversFull,
            DriverFault::NoMemory => AddFault::NoMemory,
        }
    }
}

/// The number of the fault of a recovery whose image has other rings than the one before.
pub const RINGS_CHANGED: u8 = 42;

/// The number of the fault of a host caller that keeps a core from being shut down or detached.
pub const CALLER_OUT: u8 = 54;

/// Why a core is not booted, handed over or recovered. A fault inside another is never out of memory.
#[derive(Debug, Drop)]
pub enum StartFault {
    /// There is no image.
    NoImage(NoImage),
    /// The image is not loaded.
    Load(LoadFault),
    /// The life of the core refuses it.
    Life(LifeFault),
    /// The image of a recovery has other rings than the one before.
    RingsChanged,
    /// The link is not reopened.
    Reopen(ReopenFault),
}

/// Why a core is not shut down or detached.
#[derive(Debug, Drop)]
pub enum LeaveFault {
    /// The life of the core refuses it.
    Life(LifeFault),
    /// This host caller is in a call or holds a buffer.
    CallerOut(CallerNo),
}

impl From<LifeFault> for LeaveFault {
    ghost use Rattle.std.specs.Prelude.{◌≡◌};
    ghost use Rattle.crash_recover.specs.declared.core_faults.LeaveFault.TheVariants as fault;

    ghost from_gives = { λ refused e. e ≡ fault.Life refused };

    fn from(refused: LifeFault) -> LeaveFault {
        LeaveFault::Life(refused)
    }
}

/// Why a core is not booted, handed over or recovered over a store, shut down or detached. A fault inside
/// another is never out of memory.
#[derive(Debug, Drop)]
pub enum CoreFault {
    /// The store gives no image.
    Fetch(FetchFault),
    /// The image is not loaded.
    Load(LoadFault),
    /// The life of the core refuses it.
    Life(LifeFault),
    /// The image of a recovery has other rings than the one before.
    RingsChanged,
    /// This host caller is in a call or holds a buffer.
    CallerOut(CallerNo),
    /// The link is not reopened.
    Reopen(ReopenFault),
    /// Memory ran out.
    NoMemory,
}

impl From<NoMemory> for CoreFault {
    ghost use Rattle.std.specs.Prelude.{◌≡◌};
    ghost use Rattle.crash_recover.specs.declared.core_faults.CoreFault.TheVariants as fault;

    ghost from_gives = { λ _ e. e ≡ fault.NoMemory };

    fn from(_error: NoMemory) -> CoreFault {
        CoreFault::NoMemory
    }
}

impl From<LifeFault> for CoreFault {
    ghost use Rattle.std.specs.Prelude.{◌≡◌};
    ghost use Rattle.crash_recover.specs.declared.core_faults.CoreFault.TheVariants as fault;

    ghost from_gives = { λ refused e. e ≡ fault.Life refused };

    fn from(refused: LifeFault) -> CoreFault {
        CoreFault::Life(refused)
    }
}

impl From<StartFault> for CoreFault {
    ghost use Rattle.std.specs.Prelude.{◌≡◌};
    ghost use Rattle.crash_recover.specs.CoreBoots.{core_fault_of_start};

    ghost from_gives = { λ refused e. e ≡ core_fault_of_start refused };

    fn from(refused: StartFault) -> CoreFault {
        match refused {
            StartFault::NoImage(NoImage::Missing) => CoreFault::Fetch(FetchFault::Missing),
            StartFault::NoImage(NoImage::TooLarge(bytes)) => {
                CoreFault::Fetch(FetchFault::TooLarge(bytes))
            }
            StartFault::Load(fault) => CoreFault::Load(fault),
            StartFault::Life(fault) => CoreFault::Life(fault),
            StartFault::RingsChanged => CoreFault::RingsChanged,
            StartFault::Reopen(fault) => CoreFault::Reopen(fault),
        }
    }
}

impl From<LeaveFault> for CoreFault {
    ghost use Rattle.std.specs.Prelude.{◌≡◌};
    ghost use Rattle.crash_recover.specs.CoreLeaves.{core_fault_of_leave};

    ghost from_gives = { λ refused e. e ≡ core_fault_of_leave refused };

    fn from(refused: LeaveFault) -> CoreFault {
        match refused {
            LeaveFault::Life(fault) => CoreFault::Life(fault),
            LeaveFault::CallerOut(caller) => CoreFault::CallerOut(caller),
        }
    }
}

impl From<StoreFault> for CoreFault {
    ghost use Rattle.std.specs.Prelude.{◌≡◌};
    ghost use Rattle.crash_recover.specs.CoreBoots.{core_fault_of_store};

    ghost from_gives = { λ failed e. e ≡ core_fault_of_store failed };

    fn from(failed: StoreFault) -> CoreFault {
        match failed {
            StoreFault::Failed => CoreFault::Fetch(FetchFault::Failed),
            StoreFault::NoMemory => CoreFault::NoMemory,
        }
    }
}
