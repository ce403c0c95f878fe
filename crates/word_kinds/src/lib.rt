// The kinds of words that scripts and transcript lines are made of: how each is spelled, read and written.
#![tactic(auto)]

mod causes;
mod cuts;
mod digits;
mod kinds;
pub mod laws;
mod payloads;
mod pieces;
mod places;
mod readings;
mod slots;
mod words;

pub use causes::Cause;
pub use cuts::cut_at;
pub use digits::{is_name, name, number_to_base};
pub use kinds::{Kind, are_of};
pub use pieces::{Piece, push_form, push_line};
pub use places::{
    address_at, bytes_at, crash_kind_at, destination_at, end_at, name_at, no_name, number_at,
    region_kind_at, word_at,
};
pub use readings::{
    channel_at, decimal_at, dotted_at, driver_at, endpoint_at, hex_at, lane_at, offset_at, open_at,
    row_at, service_at, state_at, switch_at, trace_at,
};
pub use slots::{Slot, fit};
pub use words::{WORDS_MOST, first_words};
