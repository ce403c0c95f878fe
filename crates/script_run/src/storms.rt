ghost use Rattle.storm_run.specs.Storms.{IsPlan};
ghost use Rattle.script_run.specs.Outputs.{storm_output};
ghost use Rattle.program_status.specs.Statuses.{status_of};
ghost use Rattle.script_run.specs.Endings.{StormAnswersAs, Writes};

use crate::endings::end_with_text;
use program_status::Status;
use rp_base::NoMemory;
use rp_io::Sink;
use std::alloc::Global;
use std::sync::Wait;
use std::thread::Threads;
use storm_run::{Gate, Plan, storm};

/// Runs a storm over a new link, each caller on a thread of its own, and writes its report: a line for
/// each lane and one for each caller. Each call of a caller is preceded by the gate. It may wait. It
/// answers the number with which the process ends: 0, 4 or 5, each where
/// [`run_program`](crate::run_program) answers it.
pub fn run_storm<R: Threads + Wait + Sync, K: Sink, G: Gate + Sync>(
    rt: &R,
    alloc: Global,
    plan: &Plan,
    gate: &G,
    out: &mut K,
) -> u8
    requires { IsPlan plan.now }
    ensures { StormAnswersAs (status_of result) plan.now (K.written out.old) (K.written out.new) (K.faults out.old) (K.faults out.new) }
{
    run_plan(rt, alloc, plan, gate, out).number()
}

/// Runs a storm over a new link, and writes its report.
pub(crate) fn run_plan<R: Threads + Wait + Sync, K: Sink, G: Gate + Sync>(
    rt: &R,
    alloc: Global,
    plan: &Plan,
    gate: &G,
    out: &mut K,
) -> Status
    requires { IsPlan plan.now }
    ensures { Writes result (storm_output plan.now) (K.written out.old) (K.written out.new) (K.faults out.old) (K.faults out.new) }
{
    match storm(rt, alloc, plan, gate) {
        Ok(text) => end_with_text(&text, Status::Done, out),
        Err(NoMemory) => Status::NoMemory,
    }
}
