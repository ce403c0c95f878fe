ghost use Rattle.std.specs.Bool.{OnTrue};
ghost use Rattle.lane_model.specs.Conditions.{MayStep};
ghost use Rattle.lane_model.specs.Links.{link_of};

use lane_model::{Answer, Ask, Held, LaneForm, LaneLink, Wish, make_call};
use rp_base::{CallerNo, End, MESSAGE_MOST};

/// Whether this is the next step of a call of this caller.
pub fn may_step<L: LaneForm>(link: &LaneLink<L>, caller: CallerNo, wished: &Option<Wish>) -> bool
    ensures { OnTrue result (MayStep (link_of L.form link.now) caller wished.now) }
{
    if link.end_of(u64::from(caller)).is_none() {
        return false;
    }
    let is_calling = link.is_calling(caller);
    match wished {
        None => is_calling,
        Some(Wish::Send(message)) => !is_calling && message.bytes().len() <= MESSAGE_MOST,
        Some(Wish::Give(number)) => !is_calling && link.is_holding(caller, *number),
        Some(Wish::Take) | Some(Wish::Bind(_)) | Some(Wish::Unbind(_)) => !is_calling,
    }
}

/// A take of caller 1 through the trait of links, where it may make one and is handed a message.
pub fn take<L: LaneForm>(link: &mut LaneLink<L>) -> Option<Held> {
    if !may_step(link, 1, &Some(Wish::Take)) {
        return None;
    }
    let mut pass: CallerNo = 1;
    match make_call(link, &mut pass, Ask::Take) {
        Answer::Took(held, _) => Some(held),
        _ => None,
    }
}

/// Whether caller 1, who is on the host, gives this buffer of the lane to the host back through the
/// trait of links.
pub fn give<L: LaneForm>(link: &mut LaneLink<L>, held: Held) -> bool {
    let number = held.number();
    if held.lane() != 0 || held.caller() != 1 {
        return false;
    }
    match link.end_of(1) {
        Some(End::Host) => {}
        Some(End::Remote) | None => return false,
    }
    if !may_step(link, 1, &Some(Wish::Give(number))) {
        return false;
    }
    let mut pass: CallerNo = 1;
    matches!(make_call(link, &mut pass, Ask::Give(held)), Answer::Gave(given) if given == number)
}
