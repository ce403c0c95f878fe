// Laws of the link that threads share, over the rule of its words: what the callers sent and took, by their own lists.
#![tactic(auto)]

mod laws;

pub use laws::each_number_once;
