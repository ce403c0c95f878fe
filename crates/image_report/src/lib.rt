// What is reported of an image: whether it loads, its segments and the lines of its resource table.
#![tactic(auto)]

mod reports;
mod tables;

pub use reports::{ImageReport, refuse, report_image};
pub use tables::table_rows;
