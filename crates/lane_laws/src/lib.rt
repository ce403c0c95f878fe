// Laws of links: of their steps, their closes and recoveries, of what they hand over, and of links over rings. No code of the program calls them.
#![tactic(auto)]

pub mod links;
pub mod rings;
pub mod ways;
