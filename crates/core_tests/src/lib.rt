// Tests of calls that the program doesn't make: a bench step by step, the calls of a caller on a core's link, single steps
// of its actors and a handover over a store of images, and a run of a script that was read before.
#![tactic(auto)]

#[cfg(test)]
mod benches;
#[cfg(test)]
mod callers;
#[cfg(test)]
mod drives;
#[cfg(test)]
mod handovers;
#[cfg(test)]
mod scripts;
#[cfg(test)]
mod stores;
