ghost use Rattle.std.specs.Prelude.{◌≡◌, ◌+◌, ◌==◌, ◌≤◌, not, if◌then◌else◌};
ghost use Rattle.rp_base.specs.declared.limits.TheConstants.{STEPS_MOST};

use rp_base::STEPS_MOST;
use std::marker::Model;

/// How many steps a run has done, at most [`STEPS_MOST`].
#[derive(Drop)]
pub struct StepCount {
    steps: u64,
}

impl Model for StepCount {
    ghost use Rattle.std.specs.Prelude.{◌≤◌, ℕ};
    ghost use Rattle.rp_base.specs.declared.limits.TheConstants.{STEPS_MOST};

    ghost Value = { ℕ };

    ghost view = { λ c. c.steps };

    ghost invariant = { λ c. c.steps ≤ STEPS_MOST };
}

impl StepCount {
    /// No step.
    pub fn new() -> StepCount
        ensures { result ≡ 0 }
    {
        StepCount { steps: 0 }
    }

    /// How many steps are done.
    pub fn steps(&self) -> u64
        ensures steps { result ≡ self.now }
        ensures within { result ≤ STEPS_MOST }
    {
        self.steps
    }

    /// Whether the run has no step left.
    pub fn is_spent(&self) -> bool
        ensures { result ≡ (self.now == STEPS_MOST) }
    {
        self.steps == STEPS_MOST
    }

    /// Counts one step more, where the run has one left, and answers whether it has.
    #[inline(always)]
    pub fn count(&mut self) -> bool
        ensures spent { (self.old == STEPS_MOST) ≡ not result }
        ensures counted { self.new ≡ (if result then self.old + 1 else self.old) }
    {
        if self.steps == STEPS_MOST {
            return false;
        }
        self.steps += 1;
        true
    }

    /// So many steps are done, as one who counted them says.
    pub fn set(&mut self, steps: u64)
        requires { steps ≤ STEPS_MOST }
        ensures { self.new ≡ steps }
    {
        self.steps = steps;
    }
}
