//! A round: all callers at work, each on a thread of its own.
ghost use Rattle.std.specs.Prelude.{◌≡◌, All, IfOk, IfErr};
ghost use Rattle.storm_run.specs.Rounds.{HasWorked, IsFree, IsWholeRound, MayBegin};
ghost use Rattle.storm_run.specs.Tasks.{HaveWorked, least_in};

use crate::ends::{Round, RoundNoMemory};
use crate::gates::Gate;
use crate::tasks::Task;
use crate::workers::work;
use channel_bus::Side;
use split_ring::{Caller, SharedLink};
use std::alloc::Global;
use std::sync::Wait;
use std::thread;
use std::thread::Threads;

/// Each caller sends `count` messages, from its number to 1024 with its count as 32 bits, and takes messages and gives
/// them back, until its take has found that all messages of the other end were accepted and handed over. Each works on
/// a thread of its own, and passes the gate before each call. The round may wait, and for ever where a book is too
/// small or the link is closed.
///
/// Errors: only if memory runs out, before any caller has begun.
pub fn round<R: Threads + Wait + Sync, G: Gate + Sync>(
    rt: &R,
    _alloc: Global,
    link: &SharedLink<Side>,
    callers: Vec<Caller>,
    count: u32,
    gate: &G,
) -> Result<Round, RoundNoMemory>
    requires { MayBegin link.now callers.items }
    ensures whole { IfOk result (λ round. IsWholeRound link.now count callers.items round.callers.items) }
    ensures as_they_were { IfErr result (λ want. want.callers.items ≡ callers.items) }
{
    let mut callers = callers;
    let task = Task::of(&callers, count);
    work_all(rt, link, task, gate, &mut callers);
    Ok(Round { callers })
}

/// Has each caller do its work on a thread of its own.
fn work_all<R: Threads + Wait + Sync, G: Gate + Sync>(
    rt: &R,
    link: &SharedLink<Side>,
    task: Task,
    gate: &G,
    callers: &mut [Caller],
)
    requires { All (λ caller. IsFree link.now caller) callers.old }
    ensures { HaveWorked link.now task callers.old callers.new }
{
    let threads = callers.len().max(1);
    thread::for_each_mut(
        rt,
        callers,
        threads,
        &|_, caller: &mut Caller|
            requires { IsFree link.now caller.now }
            ensures { HasWorked link.entry.now task.count (least_in task caller.entry.now.id.end) caller.entry.now caller.exit.now }
        { work(rt, link, caller, task, gate) },
    );
}
