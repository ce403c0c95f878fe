// A chart of a run: its lifelines, what is at each line of its transcript, and the arrow of each message.
#![tactic(auto)]

mod charts;
mod joins;
mod keys;
pub mod laws;
mod limits;
mod marks;
mod orders;
mod readings;
mod rows;

pub use charts::{Chart, ChartFault, chart_of};
pub use joins::{Partner, Place};
pub use keys::{ArrowEnd, Lifeline, Message, Side};
pub use limits::{LIFELINES_MOST, LINES_MOST};
pub use readings::{EventsFault, read_events};
pub use rows::{Mark, Row, Stand};
