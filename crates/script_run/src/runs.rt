ghost use Rattle.std.specs.Prelude.{◌≡◌, ◌≢◌, Err};
ghost use Rattle.script_lang.specs.Runnable.{AreRunnable};
ghost use Rattle.command_run.specs.Runs.{AsksNone, new_run};
ghost use Rattle.command_run.specs.declared.faults.OutputFault.TheVariants as fault;
ghost use Rattle.script_run.specs.Outputs.{stop_output, store_fault_output};
ghost use Rattle.script_run.specs.Yards.{RunLeaves};
ghost use Rattle.script_run.specs.Delivery.{EndsRun, RunWrites};

use command_run::{CommandFault, Objects, OutputFault, run_command};
use journal::Notice;
use link_commands::Stop;
use program_status::Status;
use rp_io::{FirmwareStore, Sink, write_whole};
use run_log::RunLog;
use script_lang::Command;
use std::alloc::Global;

/// Runs commands in order from nothing over what the store says, writes their events and the last
/// line of the run, and answers how the program ends.
pub(crate) fn run_commands<F: FirmwareStore, K: Sink>(
    alloc: Global,
    objects: &mut Objects,
    commands: &[Command],
    store: &mut F,
    out: &mut K,
) -> Status
    requires runnable { AreRunnable commands.now }
    requires new { objects.old ≡ new_run.objects }
    ensures leaves { RunLeaves result (F.images store.old) commands.now objects.new (K.written out.old) (K.written out.new) (K.faults out.old) (K.faults out.new) (F.faults store.old) (F.faults store.new) }
    ensures unasked { AsksNone new_run commands.now → store.new ≡ store.old }
{
    match tell_commands(alloc, objects, commands, store, out) {
        Ok(status) => status,
        Err(OutputFault::Failed) => Status::WriteFault,
        Err(OutputFault::NoMemory) => Status::NoMemory,
    }
}

/// Runs commands in order from nothing over what the store says, and writes their events.
fn tell_commands<F: FirmwareStore, K: Sink>(
    alloc: Global,
    objects: &mut Objects,
    commands: &[Command],
    store: &mut F,
    out: &mut K,
) -> Result<Status, OutputFault>
    requires runnable { AreRunnable commands.now }
    requires new { objects.old ≡ new_run.objects }
    ensures written { RunWrites (F.images store.old) commands.now objects.new result (K.written out.old) (K.written out.new) (K.faults out.old) (K.faults out.new) (F.faults store.old) (F.faults store.new) }
    ensures unasked { AsksNone new_run commands.now → store.new ≡ store.old }
{
    let mut log = RunLog::new(alloc);
    for command in commands {
        match run_command(objects, command, store, &mut log, out) {
            Ok(None) => log.hand_on(out)?,
            Ok(Some(stop)) => return end_run(Some(stop), &mut log, out),
            Err(CommandFault::Store) => return end_with_fault(&mut log, out),
            Err(CommandFault::Write) => return Err(OutputFault::Failed),
            Err(CommandFault::NoMemory) => return Err(OutputFault::NoMemory),
        }
    }
    end_run(None, &mut log, out)
}

/// Hands on what a run told, with the line of why it stopped, if it did.
fn end_run<K: Sink>(
    stop: Option<Stop>,
    log: &mut RunLog,
    out: &mut K,
) -> Result<Status, OutputFault>
    ensures { EndsRun result (stop_output stop) log.old.lines (K.written out.old) (K.written out.new) (K.faults out.old) (K.faults out.new) }
{
    let status = match stop {
        None => Status::Done,
        Some(Stop::StepLimit) => {
            log.note(&Notice::StepLimit)?;
            Status::StepLimit
        }
    };
    log.flush(out)?;
    Ok(status)
}

/// Hands on what a run told whose store failed, with the line that says so. That needs no memory.
fn end_with_fault<K: Sink>(log: &mut RunLog, out: &mut K) -> Result<Status, OutputFault>
    ensures written { EndsRun result store_fault_output log.old.lines (K.written out.old) (K.written out.new) (K.faults out.old) (K.faults out.new) }
    ensures found { result ≢ Err fault.NoMemory }
{
    log.flush(out)?;
    write_whole(out, b"* store fault\n")?;
    Ok(Status::StoreFault)
}
