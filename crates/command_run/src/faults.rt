//! Why a command was not run to its end.
ghost use Rattle.std.specs.Prelude.{◌≡◌};
ghost use Rattle.command_run.specs.declared.faults.CommandFault.TheVariants as command_fault;
ghost use Rattle.command_run.specs.declared.faults.OutputFault.TheVariants as output_fault;
ghost use Rattle.command_run.specs.Faults.{output_command_fault, store_command_fault};

use rp_base::NoMemory;
use rp_io::{Failed, StoreFault};

/// Why lines were not written to their end.
#[derive(Clone, Copy)]
pub enum OutputFault {
    /// The sink failed. Its count of faults rose.
    Failed,
    /// Memory ran out.
    NoMemory,
}

/// Why a command was not run to its end.
#[derive(Clone, Copy)]
pub enum CommandFault {
    /// The store of images failed. Its count of faults rose.
    Store,
    /// The sink failed. Its count of faults rose.
    Write,
    /// Memory ran out.
    NoMemory,
}

impl From<NoMemory> for OutputFault {
    ghost from_gives = { λ _ e. e ≡ output_fault.NoMemory };

    fn from(_error: NoMemory) -> OutputFault {
        OutputFault::NoMemory
    }
}

impl From<Failed> for OutputFault {
    ghost from_gives = { λ _ e. e ≡ output_fault.Failed };

    fn from(_failed: Failed) -> OutputFault {
        OutputFault::Failed
    }
}

impl From<NoMemory> for CommandFault {
    ghost from_gives = { λ _ e. e ≡ command_fault.NoMemory };

    fn from(_error: NoMemory) -> CommandFault {
        CommandFault::NoMemory
    }
}

impl From<StoreFault> for CommandFault {
    ghost from_gives = { λ why e. e ≡ store_command_fault why };

    fn from(why: StoreFault) -> CommandFault {
        match why {
            StoreFault::Failed => CommandFault::Store,
            StoreFault::NoMemory => CommandFault::NoMemory,
        }
    }
}

impl From<OutputFault> for CommandFault {
    ghost from_gives = { λ why e. e ≡ output_command_fault why };

    fn from(why: OutputFault) -> CommandFault {
        match why {
            OutputFault::Failed => CommandFault::Write,
            OutputFault::NoMemory => CommandFault::NoMemory,
        }
    }
}
