// The program rproc-chart: it reads a transcript from standard input and writes the SVG of its chart to standard output.
#![tactic(auto)]

mod program;
mod statuses;

use program::run_chart;
use rp_io::{StdinSource, StdoutSink};
use std::io;
use std::process::ExitCode;

fn main(rt: HostRuntime) -> ExitCode {
    let mut transcript = StdinSource::new(rt.reader());
    let mut out = StdoutSink::new(io::writer(&rt));
    ExitCode::from(run_chart(rt.alloc(), &mut transcript, &mut out).number())
}
