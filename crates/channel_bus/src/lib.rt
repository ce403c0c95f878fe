// One end of a link: its endpoints, the channels of the name service, and the drivers that are bound to them.
#![tactic(auto)]

mod sides;

pub use sides::{NAME_SERVICE, Side};
