ghost use Rattle.std.specs.Prelude.{◌≡◌};
ghost use Rattle.rpmsg_header.specs.Faults.{number_of};

use thiserror::Error;

/// Why a message was not written or not read.
#[derive(Clone, Copy, Debug, PartialEq, Eq, Error)]
pub enum HeaderFault {
    /// A payload of this many bytes does not fit into a buffer after the header.
    #[error("fault {}", self.number())]
    TooLong(usize),
    /// A message has no whole header, or its header claims more bytes than there are.
    #[error("fault {}", self.number())]
    Malformed,
}

impl HeaderFault {
    /// The number by which the fault is reported, 60 or 61.
    pub fn number(&self) -> u8
        ensures { result ≡ number_of self.now }
    {
        match self {
            HeaderFault::TooLong(_) => 60,
            HeaderFault::Malformed => 61,
        }
    }
}
