// Pictures of lines, boxes and texts, and the text of the SVG of each.
#![tactic(auto)]

mod escapes;
pub mod laws;
mod pictures;
mod printing;

pub use escapes::push_escaped;
pub use pictures::{Picture, Shape, Style};
pub use printing::{number_text, svg};
