ghost use Rattle.std.specs.Prelude.{◌≢◌};
ghost use Rattle.journal.specs.Notices.{report_text};
ghost use Rattle.program_status.specs.declared.statuses.Status.TheVariants as ended;
ghost use Rattle.script_run.specs.Endings.{IsFinal, Writes};
ghost use Rattle.script_run.specs.Delivery.{Tells};

use command_run::OutputFault;
use journal::Notice;
use program_status::Status;
use rp_io::{Sink, write_whole};
use run_log::RunLog;
use std::alloc::Global;

/// Writes these lines, and ends so where all was written.
pub(crate) fn end_with<K: Sink>(
    alloc: Global,
    notices: &[Notice],
    status: Status,
    out: &mut K,
) -> Status
    requires { IsFinal status }
    ensures { Writes result (record { status = status; text = report_text notices.now }) (K.written out.old) (K.written out.new) (K.faults out.old) (K.faults out.new) }
{
    match write_notices(alloc, notices, out) {
        Ok(()) => status,
        Err(OutputFault::Failed) => Status::WriteFault,
        Err(OutputFault::NoMemory) => Status::NoMemory,
    }
}

/// Writes a text, which needs no memory, and ends so where all was written.
pub(crate) fn end_with_text<K: Sink>(text: &[u8], status: Status, out: &mut K) -> Status
    requires { IsFinal status }
    ensures written { Writes result (record { status = status; text = text.now }) (K.written out.old) (K.written out.new) (K.faults out.old) (K.faults out.new) }
    ensures found { result ≢ ended.NoMemory }
{
    match write_whole(out, text) {
        Ok(()) => status,
        Err(_) => Status::WriteFault,
    }
}

/// Writes these lines.
fn write_notices<K: Sink>(alloc: Global, notices: &[Notice], out: &mut K) -> Result<(), OutputFault>
    ensures { Tells result (report_text notices.now) (K.written out.old) (K.written out.new) (K.faults out.old) (K.faults out.new) }
{
    let mut log = RunLog::new(alloc);
    for notice in notices {
        log.note(notice)?;
    }
    log.flush(out)?;
    Ok(())
}
