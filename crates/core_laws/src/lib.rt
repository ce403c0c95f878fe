// Laws of the links of benches and of cores: where they come from, and what stays whatever is done with them.
#![tactic(auto)]

mod laws;

pub use laws::{
    actors_begin, bench_is_reached, core_is_kept, core_is_reached, core_ready, crash_reclaims,
    handed_due, handed_once, link_is_kept, link_ready, lives_begin_empty, moves_on, named_starts,
    reached_sound, reopens_next, starts_just_where,
};
