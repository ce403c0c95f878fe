// What the readers answer, in plain numbers and structs that C can take: the load of an image over regions, resource tables, and the headers of messages.
#![tactic(auto)]

mod entries;
mod faults;
mod fixes;
mod images;
mod loads;
mod messages;
mod names;
mod regions;
mod rings;
mod segments;
mod tables;

pub use entries::CEntry;
pub use faults::CFault;
pub use fixes::CFix;
pub use images::{load_memory, patched_entries};
pub use loads::{CLoad, check_image};
pub use messages::{CHeader, CService, read_head, read_service, write_head, write_service};
pub use regions::CRegion;
pub use rings::CRing;
pub use segments::{CSegment, image_segments};
pub use tables::{CTable, check_table, patch_table, table_entries};

/// The status of a call that is refused nothing.
pub const DONE: u32 = 0;

/// The status where memory ran out.
pub const NO_MEMORY: u32 = 100;

/// The status where a buffer or a payload has another length than the call needs.
pub const WRONG_LENGTH: u32 = 101;

/// The status where a fix is not one of the table.
pub const WRONG_FIX: u32 = 102;

/// What stands for no number.
pub const NOTHING: u32 = 4_294_967_295;
