// Laws of the fields of links and of cores: their numbers and their bytes are within their types.
#![tactic(auto)]

mod laws;

pub use laws::steps_keep_fields;
