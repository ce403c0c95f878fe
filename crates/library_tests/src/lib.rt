// Tests of calls that no worked case reaches: the adapters, texts of faults, links over lists and through the trait.
#![tactic(auto)]

pub mod desks;
#[cfg(test)]
mod links;
#[cfg(test)]
mod outside;
#[cfg(test)]
mod texts;
pub mod trait_calls;
