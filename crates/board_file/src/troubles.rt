use std::alloc::{AllocError, AllocFailed};

/// What is wrong with a line of a board file.
#[derive(Clone, Copy, Debug, PartialEq, Eq)]
pub enum Why {
    /// The text has more than 65,536 bytes.
    Size,
    /// The first word begins no line of a board file.
    Keyword,
    /// There are more or fewer words than the line has.
    Words,
    /// The word is no number from 0 to 2^32 - 1.
    Number,
    /// The word is neither `tcm` nor `pool`.
    RegionKind,
    /// The word is no machine: none of the names, and no number from 0 to 65,535.
    Machine,
    /// There is such a line already.
    Repeated,
    /// There are 64 regions, or 64 aliases, already.
    Full,
    /// It is empty, or ends past 2^32.
    Range,
    /// Its device addresses meet those of an earlier region or alias.
    DeviceMeets,
    /// Its physical addresses meet those of an earlier region.
    PhysicalMeets,
    /// The text has no region.
    NoRegion,
}

/// The word of a line that is wrong, by its place from 0, and why.
#[derive(Clone, Copy, Debug, PartialEq, Eq)]
pub struct Trouble {
    pub word: u8,
    pub why: Why,
}

/// Why a text is no board file.
#[derive(Clone, Copy, Debug, PartialEq, Eq)]
pub enum BoardFault {
    /// The line of this number, from 1, is bad; 0 is the text as a whole.
    Refused(u32, Trouble),
    /// Memory ran out.
    NoMemory,
}

/// Why a line is not taken.
#[derive(Clone, Copy)]
pub(crate) enum LineFault {
    /// It is bad.
    Bad(Trouble),
    /// Memory ran out.
    NoMemory,
}

impl From<Trouble> for LineFault {
    ghost use Rattle.std.specs.Prelude.{◌≡◌};
    ghost use Rattle.board_file.specs.declared.troubles.LineFault.TheVariants as fault;

    ghost from_gives = { λ trouble e. e ≡ fault.Bad trouble };

    fn from(trouble: Trouble) -> LineFault {
        LineFault::Bad(trouble)
    }
}

impl From<AllocError> for LineFault {
    ghost use Rattle.std.specs.Prelude.{◌≡◌};
    ghost use Rattle.board_file.specs.declared.troubles.LineFault.TheVariants as fault;

    ghost from_gives = { λ _ e. e ≡ fault.NoMemory };

    fn from(_error: AllocError) -> LineFault {
        LineFault::NoMemory
    }
}

impl<T: Drop> From<AllocFailed<T>> for LineFault {
    ghost use Rattle.std.specs.Prelude.{◌≡◌};
    ghost use Rattle.board_file.specs.declared.troubles.LineFault.TheVariants as fault;

    ghost from_gives = { λ _ e. e ≡ fault.NoMemory };

    fn from(_error: AllocFailed<T>) -> LineFault {
        LineFault::NoMemory
    }
}
