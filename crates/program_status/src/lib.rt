// The exit statuses of the program and their numbers.
#![tactic(auto)]

mod statuses;

pub use statuses::Status;
