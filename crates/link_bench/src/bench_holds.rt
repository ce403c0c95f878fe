ghost use Rattle.std.specs.Prelude.{◌≡◌};
ghost use Rattle.link_bench.specs.BenchHolds.{caller_out, holds, is_out};

use crate::benches::Bench;
use rp_base::{CALLERS_MOST, CallerNo, End};

impl Bench {
    /// Whether a caller is in use and in no call, and holds some buffer.
    pub fn holds(&self, caller: CallerNo) -> bool
        ensures { result ≡ holds self.now caller }
    {
        self.end_of(caller).is_some() && !self.is_in_call(caller) && self.link.has_held(caller)
    }

    /// Whether a caller of the host end is in a call or holds a buffer.
    fn is_out(&self, caller: CallerNo) -> bool
        ensures { result ≡ is_out self.now caller }
    {
        matches!(self.end_of(caller), Some(End::Host))
            && (self.is_in_call(caller) || self.holds(caller))
    }

    /// The least caller of the host end other than 0 that is in a call or holds a buffer.
    pub fn caller_out(&self) -> Option<CallerNo>
        ensures { result ≡ caller_out self.now }
    {
        for caller in 1..CALLERS_MOST as CallerNo {
            if self.is_out(caller) {
                return Some(caller);
            }
        }
        None
    }
}
