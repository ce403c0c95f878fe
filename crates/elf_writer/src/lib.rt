// Writes the headers of ELF32 images: the ELF header, and the program headers of loaded segments.
#![tactic(auto)]

mod fields;
mod headers;

pub use fields::{put_byte, put_half, put_word, put_words};
pub use headers::{put_file_header, put_load_header};
