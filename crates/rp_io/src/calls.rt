ghost use Rattle.std.specs.Prelude.{◌≡◌, ◌≤◌, IsTrue};
ghost use Rattle.rp_io.specs.Calls.{Calls, ascends, fails_next, no_calls, with_call};

use std::marker::Model;

/// The calls of a device in memory: the numbers of those that fail, from 0 and ascending, the
/// number of the next call, and the count of the faults. Either stays at 2^64 - 1 once it is there.
#[derive(Drop)]
pub struct CallPlan {
    fails: Vec<u64>,
    next: u64,
    faults: u64,
}

impl Model for CallPlan {
    ghost use Rattle.std.specs.Prelude.{IsTrue};
    ghost use Rattle.rp_io.specs.Calls.{Calls, ascends};

    ghost Value = { Calls };

    ghost view = { λ plan. record { fails = plan.fails.items; next = plan.next; faults = plan.faults } };

    ghost invariant = { λ plan. IsTrue (ascends plan.fails.items) };
}

impl CallPlan {
    /// No call was made.
    pub fn new(fails: Vec<u64>) -> CallPlan
        requires { IsTrue (ascends fails.items) }
        ensures { result ≡ no_calls fails.items }
    {
        CallPlan {
            fails,
            next: 0,
            faults: 0,
        }
    }

    /// Whether the next call is one of those that fail.
    pub fn fails_next(&self) -> bool
        ensures { result ≡ fails_next self.now }
    {
        self.fails.binary_search(&self.next).is_ok()
    }

    /// Counts a call, and a fault where it failed.
    pub fn count(&mut self, failed: bool)
        ensures counted { self.new ≡ with_call self.old failed }
        ensures later { self.old.faults ≤ self.new.faults }
    {
        self.next = self.next.saturating_add(1);
        if failed {
            self.faults = self.faults.saturating_add(1);
        }
    }

    /// How many calls failed.
    pub fn faults(&self) -> u64
        ensures { result ≡ self.now.faults }
    {
        self.faults
    }
}
