//! What is sent.
/// How many messages each end may send in all.
pub const MESSAGES_MOST: u32 = 262_144;

/// How many threads there are on each end, and how many messages each of them sends.
#[derive(Clone, Copy)]
pub struct Work {
    pub each: u8,
    pub count: u32,
}

impl Work {
    /// So many threads on each end, which send so many messages together, or a few less.
    pub fn of(each: u8, all: u32) -> Work {
        Work {
            each,
            count: all.min(MESSAGES_MOST) / u32::from(each.max(1)),
        }
    }

    /// How many messages the threads of an end send.
    pub fn all(&self) -> u64 {
        u64::from(self.each) * u64::from(self.count)
    }
}
