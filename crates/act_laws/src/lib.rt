// Laws of acts on links: the moves that each makes of its link, what it tells of takes, and the account that goes on with them.
#![tactic(auto)]

mod acts;

pub use acts::{acts_are_moves, acts_do, cores_do, lists_alone};
