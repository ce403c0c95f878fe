ghost use Rattle.std.specs.Prelude.{◌≡◌, ◌≢◌, ◌≤◌, length, IfOk, IsErrOf, Err};
ghost use Rattle.rp_io.specs.Causes.{Rose};

use crate::adapters::ReaderSource;
use crate::faults::FetchFault;
use crate::sources::read_image;
use crate::stores::FirmwareStore;
use rp_base::IMAGE_MOST;
use std::alloc::Global;
use std::fs;
use std::io::{self, ErrorKind, Read};
use std::marker::Model;
use std::rt::Files;

/// The images are the plain files of this folder under the current one.
pub const FIRMWARE_FOLDER: &str = "firmware";

/// The images in the folder [`FIRMWARE_FOLDER`], each in a plain file of its name. A call that the
/// system interrupted is made again, and is no fault. What is no plain file is a fault, and so is
/// each other error, except that there is no such file or folder.
///
/// Contracts see it as the count of its faults, which stays at 2^64 - 1 once it is there. It says
/// nothing of the images.
#[derive(Drop)]
pub struct FolderStore<R: Files + Drop> {
    files: R,
    faults: u64,
}

impl<R: Files + Drop> Model for FolderStore<R> {
    ghost use Rattle.std.specs.Prelude.{ℕ};

    ghost Value = { ℕ };

    ghost view = { λ store. store.faults };
}

/// What is under a path.
#[derive(Drop)]
enum Entry<F: Drop> {
    /// A plain file of so many bytes, opened.
    Plain(F, u64),
    /// Something else.
    Other,
}

/// Looks what is under a path, and opens it where it is a plain file.
fn look<R: Files>(files: &R, path: &str) -> io::Result<Entry<R::File>> {
    let metadata = fs::metadata(files, path)?;
    if !metadata.is_file() {
        return Ok(Entry::Other);
    }
    Ok(Entry::Plain(fs::open(files, path)?, metadata.len()))
}

/// The same, and again as long as the system interrupts it.
fn look_whole<R: Files>(files: &R, path: &str) -> io::Result<Entry<R::File>> {
    for _ in 0..u64::MAX {
        match look(files, path) {
            Err(error) if error.kind() == ErrorKind::Interrupted => {}
            entry => return entry,
        }
    }
    Err(ErrorKind::Interrupted.into())
}

impl<R: Files + Drop> FolderStore<R> {
    /// A store over the files of this runtime, as `FolderStore::new(&rt)`.
    pub fn new(files: R) -> FolderStore<R>
        ensures { result ≡ 0 }
    {
        FolderStore { files, faults: 0 }
    }

    /// How many faults were counted.
    pub fn faults(&self) -> u64
        ensures { result ≡ self.now }
    {
        self.faults
    }

    /// Counts a fault, and answers it.
    fn fail(&mut self) -> Result<Vec<u8>, FetchFault>
        ensures later { self.old ≤ self.new }
        ensures failed { Rose self.old self.new }
        ensures fault { result ≡ Err FetchFault.Failed }
    {
        self.faults = self.faults.saturating_add(1);
        Err(FetchFault::Failed)
    }

    /// The bytes of a file that was opened. Its faults are the store's.
    fn load<F: Read + Drop>(&mut self, alloc: Global, file: F) -> Result<Vec<u8>, FetchFault>
        ensures bound { IfOk result (λ image. length image.items ≤ IMAGE_MOST) }
        ensures later { self.old ≤ self.new }
        ensures failed { IsErrOf result FetchFault.Failed → Rose self.old self.new }
        ensures same { result ≢ Err FetchFault.Failed → self.new ≡ self.old }
    {
        let mut source = ReaderSource::after(file, self.faults);
        let image = read_image(alloc, &mut source);
        self.faults = source.faults();
        image
    }
}

impl<R: Files + Drop> FirmwareStore for FolderStore<R> {
    ghost use Rattle.std.specs.Prelude.{None};

    ghost images = { λ _. None };

    ghost faults = { λ store. store };

    fn fetch(&mut self, alloc: Global, name: &str) -> Result<Vec<u8>, FetchFault> {
        if name.as_bytes().contains(&b'/') {
            return Err(FetchFault::Missing);
        }
        let path = format!(in alloc; "{FIRMWARE_FOLDER}/{name}")?;
        match look_whole(&self.files, path.as_str()) {
            Ok(Entry::Plain(_, length)) if length > IMAGE_MOST as u64 => {
                Err(FetchFault::TooLarge(length))
            }
            Ok(Entry::Plain(file, _)) => self.load(alloc, file),
            Ok(Entry::Other) => self.fail(),
            Err(error) => match error.kind() {
                ErrorKind::NotFound | ErrorKind::NotADirectory => Err(FetchFault::Missing),
                _ => self.fail(),
            },
        }
    }
}
