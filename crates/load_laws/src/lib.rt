// Laws of loads: which images load, by their parts, and what is at each address of a memory into which one was loaded. No code of the program calls them.
#![tactic(auto)]

pub mod laws;
