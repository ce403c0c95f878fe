// The program rproc-dump: it runs the script of standard input, and writes the image that this leaves under a name to standard output.
#![tactic(auto)]

mod endings;
mod program;
mod wishes;

use endings::Ending;
use program::run_dump;
use rp_io::{FolderStore, StdinSource, StdoutSink};
use script_run::Yard;
use std::alloc::{AllocError, Global};
use std::io::ErrorKind;
use std::process::ExitCode;
use std::rt::{Env, Files};
use std::sync::Wait;
use std::thread::Threads;
use std::{env, io};

fn main(rt: HostRuntime) -> ExitCode {
    let told = rt.stderr();
    let ended = run(&rt, &told);
    if let Some(line) = ended.line() {
        // There is nowhere else to say that this fails.
        let _ = eprintln!(rt; "{line}");
    }
    ExitCode::from(ended.number())
}

/// Runs the program over standard input, the folder of images, standard error and standard output.
fn run<R: AllocGlobal + Env + Files + Input + Print + Threads + Wait + Sync, E: Print>(
    rt: &R,
    told: &E,
) -> Ending {
    let alloc = rt.alloc();
    let Ok(given) = words(rt) else {
        return Ending::NoMemory;
    };
    let Ok(words) = after_name(alloc, &given) else {
        return Ending::NoMemory;
    };
    let Ok(mut yard) = Yard::new(alloc) else {
        return Ending::NoMemory;
    };
    let mut script = StdinSource::new(rt.reader());
    let mut store = FolderStore::new(rt);
    let mut transcript = StdoutSink::new(io::writer(told));
    let mut out = StdoutSink::new(io::writer(rt));
    run_dump(
        rt,
        alloc,
        words.as_slice(),
        &mut script,
        &mut store,
        &mut yard,
        &mut transcript,
        &mut out,
    )
}

/// The words of the command line, with the program's name. Where one is no UTF-8 there are none,
/// which are words that the program doesn't take.
fn words<R: AllocGlobal + Env>(rt: &R) -> Result<Vec<String>, AllocError> {
    match env::args(rt) {
        Ok(args) => args.collect(rt.alloc()),
        Err(error) if error.kind() == ErrorKind::OutOfMemory => Err(AllocError),
        Err(_) => Ok(Vec::new(rt.alloc())),
    }
}

/// The words after the program's name.
fn after_name(alloc: Global, words: &[String]) -> Result<Vec<&str>, AllocError> {
    words
        .iter()
        .skip(1)
        .map(|word| word.as_str())
        .collect(alloc)
}
