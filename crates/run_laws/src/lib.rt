// Laws of runs of scripts: over a store of images, and of the links and cores that they leave.
#![tactic(auto)]

mod drives;
mod laws;

pub use drives::script_drive;
pub use laws::{
    calls_of_cores, closed_hands_none, cores_are_kept, cores_ready, crashed_hands_none,
    faults_alone, images_and_commands, links_are_reached, links_in_order, links_reopen_next,
    links_sound, lives_begin_next, regions_sound, starts_just_where,
};
