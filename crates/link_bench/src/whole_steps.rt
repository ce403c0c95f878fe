ghost use Rattle.std.specs.Prelude.{◌≡◌, Some};
ghost use Rattle.lane_model.specs.Conditions.{MayStep};
ghost use Rattle.link_bench.specs.Benches.{HoldsReachTaken, OthersMay, call_steps, lists_of, on_rings};

use crate::benches::Reach;
use crate::step_counts::StepCount;
use crate::steps::call_steps;
use lane_model::{CallEnd, Wish};
use managed_link::ManagedLink;
use rp_base::{CallerNo, Inc, STEPS_MOST};

/// A whole call of a caller. It is made in one run where the run has the steps of any call left, and
/// else step by step; `reach` says how far it came.
pub(crate) fn whole_steps(
    link: &mut ManagedLink,
    caller: CallerNo,
    follows: Inc,
    wished: &Wish,
    steps: &mut StepCount,
    reach: &mut Reach,
)
    requires may { MayStep (lists_of link.old) caller (Some wished.now) }
    ensures link { link.new ≡ (call_steps on_rings 6 steps.old link.old caller follows wished.now).link }
    ensures steps { steps.new ≡ (call_steps on_rings 6 steps.old link.old caller follows wished.now).steps }
    ensures reach { reach.new ≡ (call_steps on_rings 6 steps.old link.old caller follows wished.now).reach }
    ensures taken { HoldsReachTaken (lists_of link.new) caller reach.new }
    ensures others { OthersMay (lists_of link.old) (lists_of link.new) caller }
{
    let mut done = steps.steps();
    if done <= STEPS_MOST - 7 {
        let mut end = CallEnd::Gave(0);
        link.call(caller, follows, wished, &mut done, &mut end);
        steps.set(done);
        *reach = Reach::Ended(end);
        return;
    }
    call_steps(link, caller, follows, wished, 6, steps, reach);
}
