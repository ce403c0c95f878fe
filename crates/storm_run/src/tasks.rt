//! What the callers of a round are to do.
ghost use Rattle.std.specs.Prelude.{◌≡◌};
ghost use Rattle.link_words.specs.Histories.{same_end};
ghost use Rattle.storm_run.specs.Rounds.{count_on};
ghost use Rattle.storm_run.specs.Tasks.{IsTaskOf, least_in};

use rp_base::End;
use split_ring::Caller;

/// How many messages each caller sends, and how many the callers of each end send in all.
#[derive(Clone, Copy)]
pub(crate) struct Task {
    pub count: u32,
    pub by_host: u128,
    pub by_remote: u128,
}

impl Task {
    /// The task of a round of these callers.
    pub fn of(callers: &[Caller], count: u32) -> Task
        ensures count { result.count ≡ count }
        ensures task { IsTaskOf result callers.now }
    {
        let each = u128::from(count);
        Task {
            count,
            by_host: each * count_on(callers, End::Host) as u128,
            by_remote: each * count_on(callers, End::Remote) as u128,
        }
    }

    /// How many messages are sent to this end in all.
    pub fn least(&self, end: End) -> u128
        ensures { result ≡ least_in self.now end }
    {
        match end {
            End::Host => self.by_remote,
            End::Remote => self.by_host,
        }
    }
}

/// How many of the callers are on this end.
fn count_on(callers: &[Caller], end: End) -> usize
    ensures { result ≡ count_on end callers.now }
{
    let mut found = 0;
    for caller in callers {
        if is_on(caller, end) {
            found += 1;
        }
    }
    found
}

/// Whether a caller is on this end.
fn is_on(caller: &Caller, end: End) -> bool
    ensures { result ≡ same_end caller.now.id.end end }
{
    match (caller.end(), end) {
        (End::Host, End::Host) | (End::Remote, End::Remote) => true,
        (End::Host, End::Remote) | (End::Remote, End::Host) => false,
    }
}
