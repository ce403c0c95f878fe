//! A gate at which two callers meet.
use rp_base::CallerNo;
use std::sync::atomic::{AtomicBool, Ordering};
use std::thread::yield_now;
use storm_run::Gate;

/// How often a caller looks for the other one.
const LOOKS: u32 = 100_000_000;

/// At its call 1 each of the callers 0 and 1 raises its flag, and goes on when it sees the other's, or when it has looked for it
/// often enough.
#[derive(Drop)]
pub struct Meeting {
    first: AtomicBool,
    second: AtomicBool,
    missed: AtomicBool,
}

impl Meeting {
    pub fn new() -> Meeting {
        Meeting {
            first: AtomicBool::new(false),
            second: AtomicBool::new(false),
            missed: AtomicBool::new(false),
        }
    }

    /// Whether both raised their flags, and neither looked in vain.
    pub fn has_met(&self) -> bool {
        self.first.load(Ordering::SeqCst)
            && self.second.load(Ordering::SeqCst)
            && !self.missed.load(Ordering::SeqCst)
    }

    /// Raises a flag, and looks for the other.
    fn meet(&self, mine: &AtomicBool, other: &AtomicBool) {
        mine.store(true, Ordering::SeqCst);
        for _ in 0..LOOKS {
            if other.load(Ordering::SeqCst) {
                return;
            }
            yield_now();
        }
        self.missed.store(true, Ordering::SeqCst);
    }
}

impl Gate for Meeting {
    fn pass(&self, caller: CallerNo, call: u64) {
        match (caller, call) {
            (0, 1) => self.meet(&self.first, &self.second),
            (1, 1) => self.meet(&self.second, &self.first),
            _ => (),
        }
    }
}
