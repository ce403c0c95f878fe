//! Who steps on a link: its callers and its manager.
ghost use Rattle.std.specs.Prelude.{◌≡◌, ◌<◌, Some, None, IfSome};
ghost use Rattle.rp_base.specs.declared.limits.TheConstants.{CALLERS_MOST};
ghost use Rattle.lane_model.specs.Links.{free_number};

use link_words::LinkSeat;
use rp_base::{CALLERS_MOST, CallerNo, End, Inc};

/// A caller's number and end, and the incarnation that its calls follow.
#[derive(Clone, Copy)]
pub struct CallerId {
    pub number: CallerNo,
    pub end: End,
    pub follows: Inc,
}

/// One user of a link, on one end of it. It may go to another thread.
#[derive(Drop)]
pub struct Caller {
    pub(crate) id: CallerId,
    pub(crate) seat: LinkSeat,
}

impl Caller {
    ghost use Rattle.std.specs.Prelude.{[]};
    ghost use Rattle.link_words.specs.declared.rule.Call.TheVariants.{Rests};
    ghost use Rattle.split_ring.specs.Seats.{IsAt};

    /// Its number, under which the turns that it has are marked.
    pub fn number(&self) -> CallerNo
        ensures { result ≡ self.now.id.number }
    {
        self.id.number
    }

    /// The end that it is on.
    pub fn end(&self) -> End
        ensures { result ≡ self.now.id.end }
    {
        self.id.end
    }

    /// Its next calls follow this incarnation. It has to be in no call.
    pub fn follow(&mut self, inc: Inc)
        requires { IsAt self.old.seat.me (Rests self.old.id.end) [] }
        ensures { self.new ≡ record self.old { id = record self.old.id { follows = inc } } }
    {
        self.id.follows = inc;
    }

    /// The incarnation that its calls follow.
    pub fn followed(&self) -> Inc
        ensures { result ≡ self.now.id.follows }
    {
        self.id.follows
    }
}

/// The one who makes callers. Its own number is [`MANAGER`](lane_model::MANAGER).
#[derive(Drop)]
pub struct Manager {
    pub(crate) seat: LinkSeat,
    /// The callers in use, by number.
    pub(crate) users: [Option<End>; CALLERS_MOST],
    /// How many slots are out with the calls that it carries, by the slot of the side state.
    pub(crate) out: [u8; 4],
}

impl Manager {
    ghost use Rattle.lane_model.specs.Links.{end_of};

    /// The end of the caller of this number, where it is in use.
    pub fn end_of(&self, caller: CallerNo) -> Option<End>
        ensures end { result ≡ end_of self.now.users caller }
        ensures within { IfSome result (λ _. caller < CALLERS_MOST) }
    {
        match self.users.get(usize::from(caller)) {
            Some(found) => *found,
            None => None,
        }
    }
}

/// The least number that is not in use.
pub(crate) fn least_free(users: &[Option<End>; CALLERS_MOST]) -> Option<CallerNo>
    ensures number { result ≡ free_number users.now }
    ensures within { IfSome result (λ number. number < CALLERS_MOST) }
{
    match users.iter().position(|found| found.is_none()) {
        None => None,
        Some(place) => Some(place as CallerNo),
    }
}
