// The outside of rproc: sources and sinks of bytes and stores of firmware images, each with a count of its faults.
#![tactic(auto)]

mod adapters;
mod calls;
mod faults;
mod folder;
mod images;
mod look_ups;
mod memory_sink;
mod memory_source;
mod memory_store;
mod plain;
mod sinks;
mod sources;
mod stores;

pub use adapters::{ReaderSource, StdinSource, StdoutSink, WriterSink};
pub use faults::{Failed, FetchFault, NoImage, ReadFault, StoreFault};
pub use folder::{FIRMWARE_FOLDER, FolderStore};
pub use look_ups::{bytes_of, look_up, look_up_bytes};
pub use memory_sink::MemorySink;
pub use memory_source::MemorySource;
pub use memory_store::MemoryStore;
pub use plain::{PlainSink, PlainSource, PlainStore};
pub use sinks::{Sink, write_whole};
pub use sources::{Source, read_front, read_image};
pub use stores::FirmwareStore;
