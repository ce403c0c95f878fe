// A link whose callers one manager carries: its calls by steps and whole, its close, reclaims and reopening, over the words of a shared link.
#![tactic(auto)]

mod call_slots;
mod callers;
mod ends;
mod hands;
mod links;
mod looks;
mod settles;
mod steps;
mod views;
mod whole_calls;

pub use links::ManagedLink;
