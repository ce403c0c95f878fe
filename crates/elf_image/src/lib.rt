// Reads firmware images in the formats ELF32 and ELF64, little-endian: their loaded segments, sections and entry.
#![tactic(auto)]

mod faults;
mod headers;
mod layouts;
mod loaded;
mod program;
mod reader;
mod sections;

pub use faults::ElfFault;
pub use program::{Segment, Segments};
pub use reader::Image;
pub use sections::Section;
