use std::alloc::AllocError;
use std::fs;
use std::io::{self, ErrorKind};
use std::rt::Files;

/// Why a file is not read.
#[derive(Clone, Copy)]
pub(crate) enum FileFault {
    /// There is no such file.
    Missing,
    /// It cannot be read.
    Failed,
    /// Memory ran out.
    NoMemory,
}

/// The bytes of a file.
pub(crate) fn read_file<R: AllocGlobal + Files>(rt: &R, path: &str) -> Result<Vec<u8>, FileFault> {
    match fs::read(rt, path) {
        Ok(bytes) => Ok(bytes),
        Err(error) => Err(match error.kind() {
            ErrorKind::NotFound => FileFault::Missing,
            ErrorKind::OutOfMemory => FileFault::NoMemory,
            _ => FileFault::Failed,
        }),
    }
}
