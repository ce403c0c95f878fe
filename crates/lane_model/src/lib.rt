// The lane machine: what a link between two processors does, step by step, on lists; and a link over any form of its lanes.
#![tactic(auto)]

mod books;
mod calls;
mod desks;
mod helds;
mod lane_forms;
mod lane_links;
mod link_calls;
mod link_recoveries;
mod links;
mod list_lanes;
mod list_links;
mod recoveries;
mod stages;
mod states;

pub use books::Book;
pub use calls::{Answer, Ask, CallEnd, LinkConfig, Outcome, Progress, Step, Wish};
pub use desks::Desk;
pub use helds::Held;
pub use lane_forms::LaneForm;
pub use lane_links::LaneLink;
pub use link_calls::LinkCall;
pub use links::{Link, make_call};
pub use list_lanes::ListLane;
pub use list_links::ListLink;
pub use recoveries::{
    Already, Books, LaneBook, LaneRoom, LaneTurn, ReclaimByFault, ReclaimPart, ReclaimRefusal,
    ReopenFault,
};
pub use stages::{GiveStage, Receiving, SendStage, Sending, TakeStage, Turn, Work};
pub use states::{BookEntry, Holding, Lane, LaneState, LinkState};

/// The number under which the manager of a link holds a turn. Callers have the numbers below it.
pub const MANAGER: u8 = 64;
