// The life of a remote core: its states, its users, and the number of the life that it is in.
#![tactic(auto)]

mod answers;
mod laws;
mod life;

pub use answers::{Left, LifeFault, Power, Report};
pub use laws::{calls_keep_lives, crashes_keep_users, refusals_keep_lives};
pub use life::Life;
pub use rp_base::LifeState;
