use crate::tables::TableLine;
use rp_base::{Da, Name};
use word_kinds::Cause;

/// A line that the program writes and that is no event of a run.
#[derive(Clone, Copy, Drop)]
pub enum Notice {
    /// The words that the program takes.
    Usage,
    /// The source of the script failed.
    ReadFault,
    /// The store of images failed.
    StoreFault,
    /// The run took as many steps as it may.
    StepLimit,
    /// The script is refused: the number of the line, and why.
    Refused(u32, Cause),
    /// There is no image of this name.
    Missing(Name),
    /// The image is longer than it may be.
    TooLarge(Name),
    /// The image doesn't load: the number of the fault, and of the program header or the entry of the
    /// resource table that it is about.
    Fault(u8, Option<u16>),
    /// The address of the first instruction.
    Start(Da),
    /// A loaded segment: its number, its device address, its bytes in the image and in memory.
    Segment(u16, Da, u64, u32),
    /// A line about the resource table.
    Table(TableLine),
    /// The image loads.
    Loads,
    /// What a demo did: how many sessions it had, and how many messages their links accepted to the
    /// host and to the remote.
    Demo(u32, u64, u64),
    /// No line of a transcript breaks a rule: how many lines it has.
    Sound(u64),
    /// The first line of a transcript that breaks a rule, from 1, and the least rule that it breaks.
    Broken(u64, u8),
}
