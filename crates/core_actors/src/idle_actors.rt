ghost use Rattle.std.specs.Prelude.{◌≡◌, ◌<◌, not};
ghost use Rattle.core_actors.specs.Actors.{actors_view};
ghost use Rattle.core_actors.specs.ActorSteps.{begins_with_take, host_is_idle, host_waits, is_drained, is_empty, worker_is_idle, worker_waits};

use crate::actors::{Actors, HOST_CALLER, WORKER_CALLER};
use lane_model::Wish;
use link_bench::Bench;
use std::collections::VecDeque;

impl Actors {
    /// Whether the host actor has nothing to do on the link of its core: it is in no call, and begins
    /// none, as [`Actors::host_waits`] says. Without a link there is no host actor.
    pub fn is_host_idle(&self, bench: &Option<Bench>) -> bool
        ensures { result ≡ host_is_idle bench.now (actors_view self.now) }
    {
        match bench {
            Some(bench) => !bench.is_caller_busy(HOST_CALLER) && self.host_waits(bench),
            None => true,
        }
    }

    /// Whether the host actor, where it is in no call, begins none: it has none to make and no message
    /// waits for it.
    #[inline(always)]
    pub fn host_waits(&self, bench: &Bench) -> bool
        ensures { result ≡ host_waits bench.now (actors_view self.now) }
    {
        self.host_calls.is_empty() && is_drained(bench, 0)
    }

    /// Whether the worker has nothing to do: it is in no call, and begins none and runs no record, as
    /// [`Actors::worker_waits`] says.
    pub fn is_worker_idle(&self, bench: &Option<Bench>) -> bool
        ensures { result ≡ worker_is_idle bench.now (actors_view self.now) }
    {
        match bench {
            Some(bench) => !bench.is_caller_busy(WORKER_CALLER) && self.worker_waits(bench),
            None => self.is_halted(),
        }
    }

    /// Whether the worker has ended.
    #[inline(always)]
    pub fn is_halted(&self) -> bool
        ensures { result ≡ (actors_view self.now).worker.is_halted }
    {
        self.worker.is_halted()
    }

    /// Whether the worker, where it is in no call, begins none and runs no record: it has ended, or its
    /// first call is a take of which there is no message.
    #[inline(always)]
    pub fn worker_waits(&self, bench: &Bench) -> bool
        ensures { result ≡ worker_waits bench.now (actors_view self.now) }
    {
        self.worker.is_halted() || begins_with_take(&self.worker_calls) && is_drained(bench, 1)
    }

    /// Whether the worker has a call to make.
    #[inline(always)]
    pub fn has_worker_calls(&self) -> bool
        ensures { result ≡ not (is_empty (actors_view self.now).worker_calls) }
    {
        !self.worker_calls.is_empty()
    }
}

/// Whether the first of these calls is a take.
fn begins_with_take(calls: &VecDeque<Wish>) -> bool
    ensures { result ≡ begins_with_take calls.now.items }
{
    match calls.front() {
        Some(Wish::Take) => true,
        Some(_) | None => false,
    }
}

/// Whether each message of a lane was handed over.
fn is_drained(bench: &Bench, lane: u8) -> bool
    requires { lane < 2 }
    ensures { result ≡ is_drained bench.now lane }
{
    let (accepted, handed, _) = bench.counts(lane);
    accepted == handed
}
