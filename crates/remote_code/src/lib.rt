// The records of a worker's code, as they are in the memory of a remote core.
#![tactic(auto)]

mod faults;
mod laws;
mod records;

pub use faults::WorkerFault;
pub use laws::records_read_back;
pub use records::Record;
