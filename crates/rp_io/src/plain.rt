ghost use Rattle.std.specs.Prelude.{◌≡◌, ℕ, ◌+◌, ◌-◌, ◌^◌, ◌<◌, ◌≤◌, ◌++◌, min, [], length, take, drop, Ok, IfOk};
ghost use Rattle.std.specs.Io.{ReadsAtMost, WritesAtMost};
ghost use Rattle.std.specs.Io.KnownBytes.{ReadConsumes};
ghost use Rattle.rp_io.specs.Causes.{HasCause};
ghost use Rattle.rp_io.specs.Contents.{EndsWhereEmpty};
ghost use Rattle.rp_io.specs.Images.{named_images};

use crate::faults::{Failed, FetchFault};
use crate::images::ImageList;
use crate::sinks::Sink;
use crate::sources::Source;
use crate::stores::FirmwareStore;
use rp_base::Name;
use std::alloc::Global;
use std::marker::Model;

/// A source of the bytes of a list that never fails. Contracts see it as what is left.
#[derive(Drop)]
pub struct PlainSource {
    bytes: Vec<u8>,
    read: usize,
}

impl Model for PlainSource {
    ghost use Rattle.std.specs.Prelude.{ℕ, List, drop, length, ◌≤◌};

    ghost Value = { List ℕ };

    ghost view = { λ source. drop source.read source.bytes.items };

    ghost invariant = { λ source. source.read ≤ length source.bytes.items };
}

impl PlainSource {
    /// A source of these bytes.
    pub fn new(bytes: Vec<u8>) -> PlainSource
        ensures { result ≡ bytes.items }
    {
        PlainSource { bytes, read: 0 }
    }

    /// Moves at most `most` of the bytes that are left to the start of `into`, and says how many.
    pub(crate) fn move_front(&mut self, into: &mut [u8], most: usize) -> usize
        ensures count { result ≡ min most (min (length into.old) (length self.old)) }
        ensures moved { into.new ≡ take result self.old ++ drop result into.old }
        ensures left { self.new ≡ drop result self.old }
    {
        let left = &self.bytes[self.read..];
        let count = most.min(into.len()).min(left.len());
        into[..count].copy_from_slice(&left[..count]);
        self.read += count;
        count
    }
}

impl Source for PlainSource {
    ghost use Rattle.std.specs.Prelude.{Some};

    ghost left = { λ source. Some source };

    ghost faults = { λ _. 0 };

    fn read(&mut self, into: &mut [u8]) -> Result<usize, Failed>
        requires { 0 < length into.old }
        ensures answer { result ≡ Ok (min (length into.old) (length self.old)) }
        ensures moved { into.new ≡ take (length into.old) self.old ++ drop (length self.old) into.old }
        ensures after { self.new ≡ drop (length into.old) self.old }

        ensures bound { ReadsAtMost result into.new }
        ensures bytes { ReadConsumes (Some self.old) (Some self.new) result into.new }
        ensures end { IfOk result (EndsWhereEmpty (Some self.old)) }
        ensures cause { HasCause 0 0 result }
    {
        let room = into.len();
        Ok(self.move_front(into, room))
    }
}

/// A sink that takes everything, counts the bytes and never fails. Contracts see it as the count,
/// which stays at 2^64 - 1 once it is there.
#[derive(Drop)]
pub struct PlainSink {
    count: u64,
}

impl Model for PlainSink {
    ghost use Rattle.std.specs.Prelude.{ℕ};

    ghost Value = { ℕ };

    ghost view = { λ sink. sink.count };
}

impl PlainSink {
    /// A sink to which nothing was written.
    pub fn new() -> PlainSink
        ensures { result ≡ 0 }
    {
        PlainSink { count: 0 }
    }

    /// How many bytes were written.
    pub fn count(&self) -> u64
        ensures { result ≡ self.now }
    {
        self.count
    }
}

impl Sink for PlainSink {
    ghost use Rattle.std.specs.Prelude.{None};

    ghost written = { λ _. None };

    ghost faults = { λ _. 0 };

    fn write(&mut self, bytes: &[u8]) -> Result<usize, Failed>
        requires { 0 < length bytes.now }
        ensures answer { result ≡ Ok (length bytes.now) }
        ensures after { self.new ≡ min (self.old + length bytes.now) (2 ^ 64 - 1) }

        ensures bound { WritesAtMost result bytes.now }
        ensures some { IfOk result (λ count. 0 < count) }
        ensures cause { HasCause 0 0 result }
    {
        self.count = self.count.saturating_add(bytes.len() as u64);
        Ok(bytes.len())
    }
}

/// A store of images that never fails. Contracts see it as the list of the names and the bytes.
#[derive(Drop)]
pub struct PlainStore {
    images: ImageList,
}

impl Model for PlainStore {
    ghost use Rattle.std.specs.Prelude.{ℕ, List};

    ghost Value = { List (List ℕ × List ℕ) };

    ghost view = { λ store. store.images };
}

impl PlainStore {
    /// A store of these images. Of two images of one name the first is found.
    pub fn new(images: Vec<(Name, Vec<u8>)>) -> PlainStore
        ensures { result ≡ named_images images.items }
    {
        PlainStore {
            images: ImageList::new(images),
        }
    }
}

impl FirmwareStore for PlainStore {
    ghost use Rattle.std.specs.Prelude.{Some};

    ghost images = { λ store. Some store };

    ghost faults = { λ _. 0 };

    fn fetch(&mut self, alloc: Global, name: &str) -> Result<Vec<u8>, FetchFault> {
        self.images.fetch(alloc, name)
    }
}
