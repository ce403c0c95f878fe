// Laws of one end of a link: what bindings, unbindings and messages change of its endpoints and channels. No code of the program calls them.
#![tactic(auto)]

pub mod ends;
