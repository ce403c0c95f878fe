ghost use Rattle.std.specs.Prelude.{◌≡◌, ◌≢◌, ◌≤◌, ◌+◌, ℕ, List, length, IfOk};
ghost use Rattle.std.specs.declared.option.Option.{Option};
ghost use Rattle.std.specs.Io.KnownBytes.{Appends};
ghost use Rattle.rp_io.specs.Causes.{Rose};
ghost use Rattle.rp_io.specs.Contents.{IsFrontOf, LosesFront};
ghost use Rattle.chart.specs.declared.limits.TheConstants.{LINES_MOST};
ghost use Rattle.rproc_chart.specs.declared.statuses.Status.TheVariants as ended;
ghost use Rattle.rproc_chart.specs.Outputs.{IsChartOutput, IsFinal, IsOutput, IsTold, WritesOutput, refusal_line};

use crate::statuses::Status;
use chart::{ChartFault, EventsFault, chart_of, read_events};
use chart_picture::draw;
use journal::Event;
use journal_check::TRANSCRIPT_MOST;
use rp_base::NoMemory;
use rp_io::{ReadFault, Sink, Source, read_front, write_whole};
use std::alloc::Global;
use svg_text::{number_text, svg};

/// What the program writes, and how it ends where that is written.
#[derive(Drop)]
pub(crate) struct Output {
    pub(crate) text: Vec<u8>,
    pub(crate) status: Status,
}

/// Reads a transcript and writes its chart, or why there is none.
pub(crate) fn run_chart<S: Source, K: Sink>(
    alloc: Global,
    transcript: &mut S,
    out: &mut K,
) -> Status
    ensures written { WritesOutput result (S.left transcript.old) (K.written out.old) (K.written out.new) }
    ensures source { result ≡ ended.ReadFault → Rose (S.faults transcript.old) (S.faults transcript.new) }
    ensures sink { result ≡ ended.WriteFault → Rose (K.faults out.old) (K.faults out.new) }
    ensures taken { LosesFront (S.left transcript.old) (S.left transcript.new) (TRANSCRIPT_MOST + 1) }
{
    match read_front(alloc, transcript, TRANSCRIPT_MOST) {
        Ok(bytes) => write_chart(alloc, &bytes, out),
        Err(ReadFault::Failed) => match write_whole(out, b"* read fault\n") {
            Ok(()) => Status::ReadFault,
            Err(_) => Status::WriteFault,
        },
        Err(ReadFault::NoMemory) => Status::NoMemory,
    }
}

/// Writes the chart of a transcript of these bytes, or why there is none.
fn write_chart<K: Sink>(alloc: Global, bytes: &[u8], out: &mut K) -> Status
    ensures written { (left : Option (List ℕ)) → IsFrontOf left (TRANSCRIPT_MOST + 1) bytes.now
        → WritesOutput result left (K.written out.old) (K.written out.new) }
    ensures source { result ≢ ended.ReadFault }
    ensures sink { result ≡ ended.WriteFault → Rose (K.faults out.old) (K.faults out.new) }
{
    match output_of(alloc, bytes) {
        Ok(output) => write_output(&output, out),
        Err(NoMemory) => Status::NoMemory,
    }
}

/// Writes an output.
fn write_output<K: Sink>(output: &Output, out: &mut K) -> Status
    requires { IsFinal output.now.status }
    ensures whole { result ≢ ended.WriteFault → (result ≡ output.now.status) × Appends (K.written out.old) (K.written out.new) output.now.text.items }
    ensures source { result ≢ ended.ReadFault }
    ensures sink { result ≡ ended.WriteFault → Rose (K.faults out.old) (K.faults out.new) }
{
    match write_whole(out, &output.text) {
        Ok(()) => output.status,
        Err(_) => Status::WriteFault,
    }
}

/// What is to be written of a transcript of these bytes.
fn output_of(alloc: Global, bytes: &[u8]) -> Result<Output, NoMemory>
    ensures output { IfOk result (λ output. IsOutput bytes.now output.text.items output.status) }
{
    if bytes.len() > TRANSCRIPT_MOST {
        return refusal(alloc, "* refused 0 size\n");
    }
    match read_events(alloc, bytes) {
        Ok(events) => chart_output(alloc, &events),
        Err(EventsFault::NotALine(line)) => refused_line(alloc, line),
        Err(EventsFault::TooLong) => refusal(alloc, "* refused 0 lines\n"),
        Err(EventsFault::NoMemory) => Err(NoMemory),
    }
}

/// What is to be written of the events of a run.
fn chart_output(alloc: Global, events: &[Event]) -> Result<Output, NoMemory>
    requires { length events.now ≤ LINES_MOST }
    ensures { IfOk result (λ output. IsChartOutput events.now output.text.items output.status) }
{
    match chart_of(alloc, events) {
        Ok(chart) => {
            let picture = draw(alloc, &chart)?;
            Ok(Output {
                text: svg(alloc, &picture)?,
                status: Status::Done,
            })
        }
        Err(ChartFault::TooWide) => refusal(alloc, "* refused 0 lifelines\n"),
        Err(ChartFault::NoMemory) => Err(NoMemory),
    }
}

/// A refusal of the whole transcript.
fn refusal(alloc: Global, line: &str) -> Result<Output, NoMemory>
    ensures { IfOk result (λ output. IsTold output line.now ended.Refused) }
{
    Ok(Output {
        text: Vec::from_slice(alloc, line.as_bytes())?,
        status: Status::Refused,
    })
}

/// The refusal of a line.
fn refused_line(alloc: Global, line: u64) -> Result<Output, NoMemory>
    ensures { IfOk result (λ output. IsTold output (refusal_line line) ended.Unsound) }
{
    let mut text = Vec::new(alloc);
    text.extend_from_slice(number_text(alloc, "* no line of a transcript: ", line)?.bytes())?;
    text.push(b'\n')?;
    Ok(Output {
        text,
        status: Status::Unsound,
    })
}
