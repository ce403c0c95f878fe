// The dump of a core's memory: an image of the format ELF32 that a reader of images reads back as the parts of the memory.
#![tactic(auto)]

mod dumps;
pub mod laws;
#[cfg(test)]
mod tests;

pub use dumps::{Part, dump_len, write_dump};
