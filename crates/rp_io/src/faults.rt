use rp_base::NoMemory;
use std::alloc::AllocError;

/// The device failed. Its count of faults rose.
#[derive(Debug, Drop, PartialEq)]
pub struct Failed;

/// Why a fetch has no image.
#[derive(Debug, Drop, PartialEq)]
pub enum FetchFault {
    /// There is no image of this name.
    Missing,
    /// The device failed. Its count of faults rose.
    Failed,
    /// The image is longer than [`IMAGE_MOST`](rp_base::IMAGE_MOST): its length in bytes.
    TooLarge(u64),
    /// Memory ran out.
    NoMemory,
}

/// Why a store has no image of a name.
#[derive(Clone, Copy, Debug, PartialEq)]
pub enum NoImage {
    /// There is no image of this name.
    Missing,
    /// The image is longer than [`IMAGE_MOST`](rp_base::IMAGE_MOST): its length in bytes.
    TooLarge(u64),
}

/// Why a store doesn't say what it has under a name.
#[derive(Clone, Copy, Debug, PartialEq)]
pub enum StoreFault {
    /// The store failed. Its count of faults rose.
    Failed,
    /// Memory ran out.
    NoMemory,
}

/// Why a source was not read.
#[derive(Debug, Drop, PartialEq)]
pub enum ReadFault {
    /// The source failed. Its count of faults rose.
    Failed,
    /// Memory ran out.
    NoMemory,
}

impl From<Failed> for ReadFault {
    ghost use Rattle.std.specs.Prelude.{◌≡◌};
    ghost use Rattle.rp_io.specs.declared.faults.ReadFault.TheVariants as fault;

    ghost from_gives = { λ _ e. e ≡ fault.Failed };

    fn from(_failed: Failed) -> ReadFault {
        ReadFault::Failed
    }
}

impl From<AllocError> for ReadFault {
    ghost use Rattle.std.specs.Prelude.{◌≡◌};
    ghost use Rattle.rp_io.specs.declared.faults.ReadFault.TheVariants as fault;

    ghost from_gives = { λ _ e. e ≡ fault.NoMemory };

    fn from(_error: AllocError) -> ReadFault {
        ReadFault::NoMemory
    }
}

impl From<AllocError> for FetchFault {
    ghost use Rattle.std.specs.Prelude.{◌≡◌};
    ghost use Rattle.rp_io.specs.declared.faults.FetchFault.TheVariants as fault;

    ghost from_gives = { λ _ e. e ≡ fault.NoMemory };

    fn from(_error: AllocError) -> FetchFault {
        FetchFault::NoMemory
    }
}

impl From<NoMemory> for StoreFault {
    ghost use Rattle.std.specs.Prelude.{◌≡◌};
    ghost use Rattle.rp_io.specs.declared.faults.StoreFault.TheVariants as fault;

    ghost from_gives = { λ _ e. e ≡ fault.NoMemory };

    fn from(_error: NoMemory) -> StoreFault {
        StoreFault::NoMemory
    }
}
