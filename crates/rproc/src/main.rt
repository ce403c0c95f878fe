// The program rproc: it makes the real source, store and sink, calls the top call, and ends with its answer.
#![tactic(auto)]

use rp_io::{FolderStore, StdinSource, StdoutSink};
use script_run::{Status, Yard, run_program};
use std::alloc::{AllocError, Global};
use std::io::ErrorKind;
use std::process::ExitCode;
use std::rt::{Env, Files};
use std::sync::Wait;
use std::thread::Threads;
use std::{env, io};

fn main(rt: HostRuntime) -> ExitCode {
    ExitCode::from(run(&rt))
}

/// Runs the program over standard input, the folder of images and standard output.
fn run<R: AllocGlobal + Env + Files + Input + Print + Threads + Wait + Sync>(rt: &R) -> u8 {
    let alloc = rt.alloc();
    let Ok(given) = words(rt) else {
        return Status::NoMemory.number();
    };
    let Ok(words) = behind_name(alloc, &given) else {
        return Status::NoMemory.number();
    };
    let Ok(mut yard) = Yard::new(alloc) else {
        return Status::NoMemory.number();
    };
    let mut script = StdinSource::new(rt.reader());
    let mut store = FolderStore::new(rt);
    let mut out = StdoutSink::new(io::writer(rt));
    run_program(
        rt,
        alloc,
        words.as_slice(),
        &mut script,
        &mut store,
        &mut yard,
        &mut out,
    )
}

/// The words of the command line, with the program's name. Where one is no UTF-8 there are none,
/// which are words that the program doesn't take.
fn words<R: AllocGlobal + Env>(rt: &R) -> Result<Vec<String>, AllocError> {
    match env::args(rt) {
        Ok(args) => args.collect(rt.alloc()),
        Err(error) if error.kind() == ErrorKind::OutOfMemory => Err(AllocError),
        Err(_) => Ok(Vec::new(rt.alloc())),
    }
}

/// The words after the program's name.
fn behind_name(alloc: Global, words: &[String]) -> Result<Vec<&str>, AllocError> {
    words
        .iter()
        .skip(1)
        .map(|word| word.as_str())
        .collect(alloc)
}
