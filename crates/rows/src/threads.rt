//! A script makes a link, and its transcript is written as rproc writes it. Then two threads go on over the link `L` that it leaves, each with
//! a caller of its own: the remote's sends a message, and the host's takes until it was handed two.
use crate::goes_on::go_on;
use link_bench::Bench;
use rp_io::{MemorySource, MemoryStore, StdoutSink};
use script_run::{Yard, run_program};
use std::io::{self, Write};
use std::sync::Wait;
use std::thread::Threads;

/// Runs this script and the two threads, and writes the transcript and what the host's thread was handed.
pub(crate) fn run_threads<R: AllocGlobal + Threads + Wait + Sync, W: Write>(
    rt: &R,
    script: Vec<u8>,
    out: &mut W,
) -> io::Result<()> {
    let alloc = rt.alloc();
    let Some(bench) = link_of(rt, script, &mut *out) else {
        return out.write_all(b"no link\n");
    };
    let Ok(handed) = go_on(rt, alloc, bench) else {
        return out.write_all(b"no memory\n");
    };
    for message in &handed {
        let line = format!(in alloc; "the host's thread: {message}\n")?;
        out.write_all(line.as_bytes())?;
    }
    Ok(())
}

/// The link `L` of a script, as its run leaves it. There is none where the run makes none, or where
/// there is no memory for its yard.
fn link_of<R: AllocGlobal + Threads + Wait + Sync, W: Write>(
    rt: &R,
    script: Vec<u8>,
    out: &mut W,
) -> Option<Bench> {
    let alloc = rt.alloc();
    let Ok(mut yard) = Yard::new(alloc) else {
        return None;
    };
    let mut source = MemorySource::new(script, 4096, Vec::new(alloc));
    let mut store = MemoryStore::new(Vec::new(alloc), Vec::new(alloc));
    let mut sink = StdoutSink::new(out);
    run_program(
        rt,
        alloc,
        &["run"],
        &mut source,
        &mut store,
        &mut yard,
        &mut sink,
    );
    yard.take_link("L")
}
