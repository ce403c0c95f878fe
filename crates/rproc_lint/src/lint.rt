use crate::files::{FileFault, read_file};
use crate::options::matches_of;
use crate::texts::{push_fault, push_layout, refusal_text};
use board_file::{Board, BoardFault, read_board};
use load_findings::load_faults;
use rp_base::NoMemory;
use std::alloc::{AllocError, Global};
use std::rt::{Env, Files};

/// Each image loads.
const DONE: u8 = 0;
/// Some image has a finding.
const FOUND: u8 = 1;
/// The words of the command line are none that the program takes.
const WORDS: u8 = 2;
/// A file is not read.
const READ_FAULT: u8 = 3;
/// Standard output is not written.
const WRITE_FAULT: u8 = 4;
/// Memory ran out.
pub(crate) const NO_MEMORY: u8 = 5;
/// The board file is refused.
const REFUSED: u8 = 6;

/// What is to be written, and the status after it.
#[derive(Drop)]
pub(crate) struct Output {
    text: String,
    status: u8,
}

/// Runs the program with these words, of which the first is its name.
pub(crate) fn run_words<R: AllocGlobal + Files + Print>(rt: &R, given: &[String]) -> u8 {
    let output = match output_of(rt, given) {
        Ok(output) => output,
        Err(AllocError) => return NO_MEMORY,
    };
    match rt.print(output.text.as_str()) {
        Ok(()) => output.status,
        Err(_) => WRITE_FAULT,
    }
}

/// An output of a text and a status.
fn told(alloc: Global, text: &str, status: u8) -> Result<Output, AllocError> {
    Ok(Output {
        text: String::from_str(alloc, text)?,
        status,
    })
}

/// What the program says to these words.
fn output_of<R: AllocGlobal + Files>(rt: &R, given: &[String]) -> Result<Output, AllocError> {
    let alloc = rt.alloc();
    let words: Vec<&str> = given.iter().map(|word| word.as_str()).collect(alloc)?;
    let matches = match matches_of(alloc, &words) {
        Ok(matches) => matches,
        Err(error) => {
            let status = if error.use_stderr() { WORDS } else { DONE };
            return told(alloc, format!(in alloc; "{error}")?.as_str(), status);
        }
    };
    let board_path = matches.get_str("BOARD").unwrap_or("");
    let images = matches.get_strs("IMAGE").unwrap_or(&[]);
    let quiet = matches.get_flag("quiet");
    let text = match read_file(rt, board_path) {
        Ok(text) => text,
        Err(fault) => return unread(alloc, board_path, fault),
    };
    match read_board(alloc, &text) {
        Ok(board) => lint_all(rt, &board, images, quiet),
        Err(BoardFault::Refused(line, trouble)) => Ok(Output {
            text: refusal_text(alloc, board_path, &text, line, trouble)?,
            status: REFUSED,
        }),
        Err(BoardFault::NoMemory) => Err(AllocError),
    }
}

/// The output for a file that is not read.
fn unread(alloc: Global, path: &str, fault: FileFault) -> Result<Output, AllocError> {
    let text = match fault {
        FileFault::Missing => format!(in alloc; "{path}: there is no such file\n")?,
        FileFault::Failed => format!(in alloc; "{path}: it cannot be read\n")?,
        FileFault::NoMemory => return Err(AllocError),
    };
    Ok(Output {
        text,
        status: READ_FAULT,
    })
}

/// What is said of all images.
fn lint_all<R: AllocGlobal + Files>(
    rt: &R,
    board: &Board,
    images: &[&str],
    quiet: bool,
) -> Result<Output, AllocError> {
    let alloc = rt.alloc();
    let mut text = String::new(alloc);
    let mut status = DONE;
    for path in images {
        match read_file(rt, path) {
            Ok(bytes) => {
                if lint_image(alloc, &mut text, board, path, &bytes, quiet)? && status == DONE {
                    status = FOUND;
                }
            }
            Err(fault) => {
                let output = unread(alloc, path, fault)?;
                text.push_str(output.text.as_str())?;
                status = READ_FAULT;
            }
        }
    }
    Ok(Output { text, status })
}

/// Appends what is said of an image, and answers whether something was found.
fn lint_image(
    alloc: Global,
    text: &mut String,
    board: &Board,
    path: &str,
    bytes: &[u8],
    quiet: bool,
) -> Result<bool, AllocError> {
    let Ok(faults) = load_faults(alloc, bytes, board.regions(), board.aliases()) else {
        return Err(AllocError);
    };
    if !quiet {
        push_layout(alloc, text, path, bytes, board)?;
    }
    for fault in &faults {
        push_fault(alloc, text, path, bytes, fault)?;
    }
    if faults.is_empty() && !quiet {
        text.push_str(format!(in alloc; "{path}: ok\n")?.as_str())?;
    }
    Ok(!faults.is_empty())
}
