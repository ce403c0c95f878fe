// The words of a link that threads share: the layout of its table, the rule that they keep, and a function for each kind of step on a word.
#![tactic(auto)]

mod codes;
mod copies;
mod desks;
mod intents;
pub mod laws;
mod loads;
mod manages;
mod moves;
mod places;
mod plays;
mod reclaims;
mod reopens;
mod rule;
mod seats;
mod sides;
mod stores;
mod turns;

pub use codes::{DeskCode, DeskRight, DeskTables, DeskView};
pub use copies::LinkCopy;
pub use desks::{DeskRule, DeskTable};
pub use intents::Intent;
pub use loads::{EraUse, IndexUse, load_entry, load_era, load_index};
pub use places::{ERA_PLACE, entry_place, forward_place, return_place};
pub use reclaims::{claim_turn, find_closed, leave_ended};
pub use reopens::{
    begin_reopening, leave_for_manager, look_for_manager, open_era, reset_index, reset_place,
    take_for_manager,
};
pub use rule::{
    Call, CallStart, Counted, Event, LaneSides, LinkSeat, LinkSizes, LinkTable, LinkWords, Made,
    Pass, ReceiverSide, Ring, SenderSide, Slot, View,
};
pub use seats::{
    close_era, end_carried, enlist_carried, join, learn_era, let_go, settle, split, take_in,
};
pub use sides::{ReceiverState, SenderState};
pub use stores::{publish_index, store_entry};
pub use turns::{leave_turn, take_turn};
