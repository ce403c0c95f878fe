//! Two storms: one whose two callers have to be at work at once, since each waits for the other in the middle of its work, and one of more
//! callers over small rings.
ghost use Rattle.storm_run.specs.Storms.{IsPlan};

use crate::meetings::Meeting;
use rp_io::StdoutSink;
use script_run::run_storm;
use std::io::{self, Write};
use std::sync::Wait;
use std::thread::Threads;
use storm_run::{FreeGate, Gate, Plan};

/// Runs both storms, and writes their reports.
pub(crate) fn run_storms<R: AllocGlobal + Threads + Wait + Sync, W: Write>(
    rt: &R,
    out: &mut W,
) -> io::Result<()> {
    let meeting = Meeting::new();
    let pair = Plan {
        hosts: 1,
        remotes: 1,
        count: 2,
        num: 4,
    };
    run(rt, &pair, &meeting, out)?;
    let met = format!(in rt.alloc(); "met: {}\n", meeting.has_met())?;
    out.write_all(met.as_bytes())?;
    let many = Plan {
        hosts: 3,
        remotes: 5,
        count: 500,
        num: 8,
    };
    run(rt, &many, &FreeGate, out)
}

/// Runs a storm with this gate, which writes its report, and writes with which status it ended.
fn run<R: AllocGlobal + Threads + Wait + Sync, W: Write, G: Gate + Sync>(
    rt: &R,
    plan: &Plan,
    gate: &G,
    out: &mut W,
) -> io::Result<()>
    requires { IsPlan plan.now }
{
    let mut sink = StdoutSink::new(&mut *out);
    let status = run_storm(rt, rt.alloc(), plan, gate, &mut sink);
    let ended = format!(in rt.alloc(); "status: {status}\n")?;
    out.write_all(ended.as_bytes())
}
