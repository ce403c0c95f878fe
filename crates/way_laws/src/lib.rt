// Laws of the own ways of links: what a run does on each of its links and tells of takes there.
#![tactic(auto)]

mod runs;

pub use runs::{
    cores_are_told, lines_have_takes, links_are_told, links_own, takes_are_worded, takes_have_lines,
};
