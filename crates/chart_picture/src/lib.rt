// The picture of a chart: where each of its parts is.
#![tactic(auto)]

mod drawings;
mod heads;
mod marks;
mod measures;

pub use drawings::draw;
