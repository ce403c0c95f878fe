// Laws of the actors of a core: whose turn it is, in which order their calls and the worker's records are done, and what so many steps are. No code of the program calls them.
#![tactic(auto)]

pub mod drives;
