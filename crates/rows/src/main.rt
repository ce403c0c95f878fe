// Runs each row of the folder `rows` over devices in memory, and writes its name, its status and its output. Then two threads go on over the
// link that a script leaves, and two storms run, each caller on a thread of its own.
#![tactic(auto)]

mod devices;
mod goes_on;
mod meetings;
mod rows;
mod storms;
mod threads;

use crate::devices::calls;
use crate::rows::{Row, names_in, runs_of};
use crate::storms::run_storms;
use crate::threads::run_threads;
use rp_io::{MemorySink, MemorySource, MemoryStore};
use script_run::{Yard, run_program};
use std::alloc::{AllocError, Global};
use std::fs;
use std::io::{self, Write};
use std::sync::Wait;
use std::thread::Threads;

fn main(rt: HostRuntime) -> io::Result<()> {
    let mut out = io::writer(&rt);
    for name in names_in(&rt, "rows")?.iter() {
        for (title, row) in runs_of(&rt, name.as_str())? {
            run_row(&rt, title.as_str(), row, &mut out)?;
        }
    }
    run_threads(&rt, fs::read(&rt, "threads/script")?, &mut out)?;
    run_storms(&rt, &mut out)
}

/// Runs the program over what a row has.
fn run_row<R: AllocGlobal + Threads + Wait + Sync, W: Write>(
    rt: &R,
    name: &str,
    row: Row,
    out: &mut W,
) -> io::Result<()> {
    let alloc = rt.alloc();
    let Row {
        words: lines,
        script,
        images,
        devices,
    } = row;
    let words: Vec<&str> = lines.lines().collect(alloc)?;
    let source_fails = calls(alloc, devices.source_fails)?;
    let mut source = MemorySource::new(script, devices.source_most.max(1), source_fails);
    let mut store = MemoryStore::new(images, calls(alloc, devices.store_fails)?);
    let sink_fails = calls(alloc, devices.sink_fails)?;
    let sink = MemorySink::new(
        alloc,
        devices.sink_room,
        devices.sink_most.max(1),
        sink_fails,
    );
    let mut sink = sink.map_err(|_| AllocError)?;
    let mut yard = Yard::new(alloc).map_err(|_| AllocError)?;
    let status = run_program(
        rt,
        alloc,
        words.as_slice(),
        &mut source,
        &mut store,
        &mut yard,
        &mut sink,
    );
    write_row(alloc, name, status, sink.bytes(), out)
}

/// Writes the name and the status of a row, and its output. An output whose last line has no line
/// feed is followed by a line that says so.
fn write_row<W: Write>(
    alloc: Global,
    name: &str,
    status: u8,
    output: &[u8],
    out: &mut W,
) -> io::Result<()> {
    let head = format!(in alloc; "# {name}: {status}\n")?;
    out.write_all(head.as_bytes())?;
    out.write_all(output)?;
    if !output.is_empty() && !output.ends_with(b"\n") {
        out.write_all(b"\n\\ no line feed\n")?;
    }
    Ok(())
}
