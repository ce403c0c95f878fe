ghost use Rattle.std.specs.Prelude.{◌≡◌};
ghost use Rattle.remote_code.specs.Faults.{fault_number};

use thiserror::Error;

/// Why a worker can't run a record. Each fault has a number, and its text is `fault` with the
/// number.
#[derive(Clone, Copy, Debug, PartialEq, Eq, Error)]
#[error("fault {}", self.number())]
pub enum WorkerFault {
    /// No record has this operation.
    UnknownOp,
    /// The record, or bytes that it names, aren't in one block of memory.
    CodeUnmapped,
    /// An operand is larger than the operation takes.
    BadOperand,
    /// The operation needs a link, and the core has none.
    NoLink,
}

impl WorkerFault {
    /// The number of the fault, 90 to 93.
    pub fn number(self) -> u8
        ensures { result ≡ fault_number self }
    {
        match self {
            WorkerFault::UnknownOp => 90,
            WorkerFault::CodeUnmapped => 91,
            WorkerFault::BadOperand => 92,
            WorkerFault::NoLink => 93,
        }
    }
}
