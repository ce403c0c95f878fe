// The program rproc-lint: it says whether firmware images load on a board, and why not.
#![tactic(auto)]

mod advice;
mod files;
mod lint;
mod objects;
mod options;
mod texts;

use std::alloc::AllocError;
use std::env;
use std::io::ErrorKind;
use std::process::ExitCode;
use std::rt::{Env, Files};

fn main(rt: HostRuntime) -> ExitCode {
    ExitCode::from(run(&rt))
}

/// Runs the program with the words of its command line.
fn run<R: AllocGlobal + Env + Files + Print>(rt: &R) -> u8 {
    match words(rt) {
        Ok(given) => lint::run_words(rt, &given),
        Err(AllocError) => lint::NO_MEMORY,
    }
}

/// The words of the command line, with the program's name. Where one is no UTF-8 there are none,
/// which are words that the program does not take.
fn words<R: AllocGlobal + Env>(rt: &R) -> Result<Vec<String>, AllocError> {
    match env::args(rt) {
        Ok(args) => args.collect(rt.alloc()),
        Err(error) if error.kind() == ErrorKind::OutOfMemory => Err(AllocError),
        Err(_) => Ok(Vec::new(rt.alloc())),
    }
}
