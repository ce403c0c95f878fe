ghost use Rattle.std.specs.Prelude.{◌≡◌, ◌+◌, ◌-◌, ◌^◌, ◌≤◌, length};
ghost use Rattle.rp_base.specs.declared.limits.TheConstants.{BOOK_MOST, SCRIPT_LINES_MOST};
ghost use Rattle.script_lang.specs.Runnable.{AreRunnable};
ghost use Rattle.script_run.specs.declared.demos.DemoFault.TheVariants as fault;
ghost use Rattle.script_run.specs.Demos.{accepted_sum, demo_output, drive_counts, no_counts};
ghost use Rattle.script_run.specs.DemoRuns.{IsCounted, IsDemoCount};
ghost use Rattle.script_run.specs.Endings.{Writes};

use crate::endings::end_with;
use command_run::Objects;
use image_maker::{SESSIONS_MOST, demo_script};
use journal::Notice;
use link_commands::Stop;
use program_status::Status;
use rp_base::NoMemory;
use rp_io::Sink;
use run_log::RunLog;
use script_lang::{Command, ParseFault, parse};
use std::alloc::Global;

/// How many messages links accepted to the host and to the remote.
#[derive(Clone, Copy)]
pub struct AcceptedCounts {
    pub to_host: u64,
    pub to_remote: u64,
}

impl AcceptedCounts {
    /// No message.
    fn none() -> AcceptedCounts
        ensures { result ≡ no_counts }
    {
        AcceptedCounts {
            to_host: 0,
            to_remote: 0,
        }
    }

    /// These messages and more, where a number of 64 bits holds each sum.
    fn and(self, more: AcceptedCounts) -> AcceptedCounts
        requires to_host { self.to_host + more.to_host ≤ 2 ^ 64 - 1 }
        requires to_remote { self.to_remote + more.to_remote ≤ 2 ^ 64 - 1 }
        ensures { result ≡ accepted_sum self more }
    {
        AcceptedCounts {
            to_host: self.to_host + more.to_host,
            to_remote: self.to_remote + more.to_remote,
        }
    }
}

/// Why the messages of a demo were not counted.
#[derive(Clone, Copy)]
pub enum DemoFault {
    /// The run stopped in its midst.
    Stopped(Stop),
    /// Memory ran out.
    NoMemory,
}

impl From<NoMemory> for DemoFault {
    ghost from_gives = { λ _ e. e ≡ fault.NoMemory };

    fn from(_error: NoMemory) -> DemoFault {
        DemoFault::NoMemory
    }
}

/// Runs the script of a demo over an empty store, and writes how many messages its links accepted.
pub(crate) fn demo<K: Sink>(alloc: Global, sessions: u32, out: &mut K) -> Status
    requires some { 1 ≤ sessions }
    requires most { sessions ≤ SESSIONS_MOST }
    ensures { Writes result (demo_output sessions) (K.written out.old) (K.written out.new) (K.faults out.old) (K.faults out.new) }
{
    match count_demo(alloc, sessions) {
        Ok(accepted) => {
            let counts = Notice::Demo(sessions, accepted.to_host, accepted.to_remote);
            end_with(alloc, &[counts], Status::Done, out)
        }
        Err(DemoFault::Stopped(Stop::StepLimit)) => {
            end_with(alloc, &[Notice::StepLimit], Status::StepLimit, out)
        }
        Err(DemoFault::NoMemory) => Status::NoMemory,
    }
}

/// Runs the script of a demo over an empty store, and counts the messages that its links accepted.
fn count_demo(alloc: Global, sessions: u32) -> Result<AcceptedCounts, DemoFault>
    requires some { 1 ≤ sessions }
    requires most { sessions ≤ SESSIONS_MOST }
    ensures { IsDemoCount sessions result }
{
    let text = demo_script(alloc, sessions)?;
    match parse(alloc, text.as_slice()) {
        Ok(script) => count_messages(alloc, script.commands.as_slice()),
        Err(ParseFault::Refused(_, _)) => unreachable!(),
        Err(ParseFault::NoMemory) => Err(DemoFault::NoMemory),
    }
}

/// Runs commands in order from nothing over an empty store, and sums up the messages that the links
/// of their cores accepted, each at the end of a drive.
fn count_messages(alloc: Global, commands: &[Command]) -> Result<AcceptedCounts, DemoFault>
    requires runnable { AreRunnable commands.now }
    requires few { length commands.now ≤ SCRIPT_LINES_MOST }
    ensures { IsCounted commands.now result }
{
    let mut objects = Objects::new(alloc);
    let mut log = RunLog::new(alloc);
    let mut accepted = AcceptedCounts::none();
    for command in commands {
        let stop = objects.run(command, &mut log)?;
        if let Some(stop) = stop {
            return Err(DemoFault::Stopped(stop));
        }
        log.clear();
        accepted = accepted.and(drive_counts(&objects, command));
    }
    Ok(accepted)
}

/// How many messages the link of the core that a command drives accepted; none for another command.
fn drive_counts(objects: &Objects, command: &Command) -> AcceptedCounts
    ensures accepted { result ≡ drive_counts objects.now command.now }
    ensures to_host { result.to_host ≤ BOOK_MOST }
    ensures to_remote { result.to_remote ≤ BOOK_MOST }
{
    let Command::Drive { name, .. } = command else {
        return AcceptedCounts::none();
    };
    let Some(named) = objects.core_under(name.bytes()) else {
        return AcceptedCounts::none();
    };
    let Some(bench) = named.core.link() else {
        return AcceptedCounts::none();
    };
    AcceptedCounts {
        to_host: bench.counts(0).0,
        to_remote: bench.counts(1).0,
    }
}
