ghost use Rattle.std.specs.Prelude.{◌≡◌, Some, None};
ghost use Rattle.lane_model.specs.Conditions.{MayStep};
ghost use Rattle.link_bench.specs.Benches.{HoldsReachTaken, OthersMay, call_steps, later_steps, lists_of, on_rings};

use crate::benches::Reach;
use crate::step_counts::StepCount;
use lane_model::{CallEnd, Step, Wish};
use managed_link::ManagedLink;
use rp_base::{CallerNo, Inc};

/// The later steps of the call that a caller has under way: at most `more`, up to its end or to the
/// most steps of a run; `reach` says how far. `last` is the step that was done last.
#[inline(always)]
#[tactic(auto, unfolding(crate::specs::Benches::later_steps))]
pub(crate) fn later_steps(
    link: &mut ManagedLink,
    caller: CallerNo,
    more: u64,
    last: u8,
    steps: &mut StepCount,
    reach: &mut Reach,
)
    requires may { MayStep (lists_of link.old) caller None }
    ensures link { link.new ≡ (later_steps on_rings more last steps.old link.old caller).link }
    ensures steps { steps.new ≡ (later_steps on_rings more last steps.old link.old caller).steps }
    ensures reach { reach.new ≡ (later_steps on_rings more last steps.old link.old caller).reach }
    ensures taken { HoldsReachTaken (lists_of link.new) caller reach.new }
    ensures others { OthersMay (lists_of link.old) (lists_of link.new) caller }
{
    let mut last = last;
    let mut end = CallEnd::Gave(0);
    for _ in 0..more {
        if !steps.count() {
            *reach = Reach::Limit;
            return;
        }
        match link.next_step(caller, &mut end) {
            Step::At(step) => last = step,
            Step::Ended => {
                *reach = Reach::Ended(end);
                return;
            }
        }
    }
    *reach = Reach::At(last);
}

/// The next step of the call that a caller has under way; `reach` says how far it came.
pub(crate) fn later_step(link: &mut ManagedLink, caller: CallerNo, reach: &mut Reach)
    requires may { MayStep (lists_of link.old) caller None }
    ensures link { link.new ≡ (later_steps on_rings 1 0 0 link.old caller).link }
    ensures reach { reach.new ≡ (later_steps on_rings 1 0 0 link.old caller).reach }
    ensures taken { HoldsReachTaken (lists_of link.new) caller reach.new }
    ensures others { OthersMay (lists_of link.old) (lists_of link.new) caller }
{
    let mut end = CallEnd::Gave(0);
    match link.next_step(caller, &mut end) {
        Step::At(step) => *reach = Reach::At(step),
        Step::Ended => *reach = Reach::Ended(end),
    }
}

/// A call of a caller from its first step on, with at most `more` steps after it; `reach` says how far.
#[tactic(auto, unfolding(crate::specs::Benches::call_steps))]
pub(crate) fn call_steps(
    link: &mut ManagedLink,
    caller: CallerNo,
    follows: Inc,
    wished: &Wish,
    more: u64,
    steps: &mut StepCount,
    reach: &mut Reach,
)
    requires may { MayStep (lists_of link.old) caller (Some wished.now) }
    ensures link { link.new ≡ (call_steps on_rings more steps.old link.old caller follows wished.now).link }
    ensures steps { steps.new ≡ (call_steps on_rings more steps.old link.old caller follows wished.now).steps }
    ensures reach { reach.new ≡ (call_steps on_rings more steps.old link.old caller follows wished.now).reach }
    ensures taken { HoldsReachTaken (lists_of link.new) caller reach.new }
    ensures others { OthersMay (lists_of link.old) (lists_of link.new) caller }
{
    if !steps.count() {
        *reach = Reach::Limit;
        return;
    }
    let mut end = CallEnd::Gave(0);
    match link.first_step(caller, follows, wished, &mut end) {
        Step::At(step) => later_steps(link, caller, more, step, steps, reach),
        Step::Ended => *reach = Reach::Ended(end),
    }
}
