// Laws of the lines of runs: each event of a run is read back from its line. And what a text shows that is sound by an audit.
#![tactic(auto)]

mod laws;

pub use laws::{lines_read_back, sound_audit};
