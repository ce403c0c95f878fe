// A storm: the callers of a shared link send and take at the same time, each on a thread of its own, until each message of a round was handed over; and the
// report that is made of its books.
#![tactic(auto)]

mod counts;
mod ends;
mod gates;
mod messages;
mod plans;
mod reports;
mod rounds;
mod storms;
mod tasks;
mod workers;

pub use ends::{Round, RoundNoMemory};
pub use gates::{FreeGate, Gate};
pub use plans::{COUNT_MOST, END_CALLERS_MOST, Plan};
pub use rounds::round;
pub use storms::storm;
