use rp_base::{IMAGE_MOST, Name};
use rp_io::{
    FetchFault, FirmwareStore, FolderStore, PlainSink, PlainSource, PlainStore, ReadFault, Sink,
    Source, StdinSource, StdoutSink, read_front, write_whole,
};
use std::alloc::Global;
use std::fs;
use std::io::{self, ErrorKind, Read, Write};
use std::os::unix::fs::symlink;
use std::test::Fail;

/// A reader and writer of the bytes of a list, whose first calls fail with these kinds, the last
/// one first.
#[derive(Drop)]
struct FailsFirst {
    kinds: Vec<ErrorKind>,
    bytes: Vec<u8>,
    calls: u64,
}

impl FailsFirst {
    fn new(alloc: Global, kinds: &[ErrorKind], bytes: &[u8]) -> Result<FailsFirst, Fail> {
        Ok(FailsFirst {
            kinds: kinds.to_vec(alloc)?,
            bytes: bytes.to_vec(alloc)?,
            calls: 0,
        })
    }
}

impl Read for FailsFirst {
    fn read(&mut self, into: &mut [u8]) -> io::Result<usize> {
        self.calls = self.calls.wrapping_add(1);
        if let Some(kind) = self.kinds.pop() {
            return Err(kind.into());
        }
        match (into.first_mut(), self.bytes.pop()) {
            (Some(first), Some(byte)) => {
                *first = byte;
                Ok(1)
            }
            _ => Ok(0),
        }
    }
}

impl Write for FailsFirst {
    fn write(&mut self, bytes: &[u8]) -> io::Result<usize> {
        self.calls = self.calls.wrapping_add(1);
        if let Some(kind) = self.kinds.pop() {
            return Err(kind.into());
        }
        match bytes.first() {
            Some(byte) if *byte != b'!' && self.bytes.push(*byte).is_ok() => Ok(1),
            _ => Ok(0),
        }
    }

    fn flush(&mut self) -> io::Result<()> {
        Ok(())
    }
}

// The calls under test, without what their contracts say, for which a test has no use.

/// How many bytes the next read gives, or none where it failed.
fn next_read<S: Source>(source: &mut S) -> Option<usize> {
    let mut into = [0; 8];
    source.read(&mut into).ok()
}

fn front<S: Source>(alloc: Global, source: &mut S, limit: u16) -> Result<Vec<u8>, ReadFault> {
    read_front(alloc, source, limit as usize)
}

/// Whether all was written.
fn is_written<K: Sink>(sink: &mut K, bytes: &[u8]) -> bool {
    write_whole(sink, bytes).is_ok()
}

/// What the store answers for an image that is to be the first `length` bytes of the pattern.
fn fetch<F: FirmwareStore>(
    alloc: Global,
    store: &mut F,
    name: &str,
    length: usize,
) -> Result<&'static str, Fail> {
    match store.fetch(alloc, name) {
        Ok(image) => {
            let is_whole = image.as_slice() == pattern(alloc, length)?.as_slice();
            Ok(if is_whole { "whole" } else { "wrong" })
        }
        Err(fault) => Ok(fault_word(&fault)),
    }
}

fn fault_word(fault: &FetchFault) -> &'static str {
    match fault {
        FetchFault::Missing => "missing",
        FetchFault::Failed => "failed",
        FetchFault::TooLarge(4_194_305) => "too large",
        FetchFault::TooLarge(_) => "wrongly too large",
        FetchFault::NoMemory => "no memory",
    }
}

/// So many bytes, which repeat themselves nowhere in one image.
fn pattern(alloc: Global, length: usize) -> Result<Vec<u8>, Fail> {
    let mut bytes = vec![in alloc; 0u8; length]?;
    for (place, byte) in bytes.iter_mut().enumerate() {
        *byte = ((place ^ (place >> 8) ^ (place >> 16)) % 251) as u8;
    }
    Ok(bytes)
}

// The devices that keep no list of failing calls.
#[test]
fn plain_devices(rt: HostRuntime) -> Result<(), Fail> {
    let alloc = rt.alloc();
    let bytes = front(alloc, &mut PlainSource::new(pattern(alloc, 10_000)?), 9000)?;
    assert_eq!(rt; bytes.as_slice(), pattern(alloc, 9001)?.as_slice());
    let mut counter = PlainSink::new();
    assert!(rt; is_written(&mut counter, b"remoteproc"));
    assert_eq!(rt; counter.count(), 10);
    let name = Name::of(b"fw").ok_or("no name")?;
    let mut store = PlainStore::new(vec![in alloc; (name, pattern(alloc, 5)?)]?);
    assert_eq!(rt; fetch(alloc, &mut store, "fw", 5)?, "whole");
    assert_eq!(rt; fetch(alloc, &mut store, "f", 5)?, "missing");
    Ok(())
}

#[test]
fn a_reader_whose_first_calls_fail(rt: HostRuntime) -> Result<(), Fail> {
    let alloc = rt.alloc();
    let again = ErrorKind::Interrupted;
    let mut source = StdinSource::new(FailsFirst::new(alloc, &[again, again], b"ba")?);
    for count in [Some(1), Some(1), Some(0)] {
        assert_eq!(rt; next_read(&mut source), count);
        assert_eq!(rt; source.faults(), 0);
    }
    let kinds = [again, ErrorKind::TimedOut, again, ErrorKind::Other];
    let mut source = StdinSource::new(FailsFirst::new(alloc, &kinds, b"ba")?);
    for (count, faults) in [(None, 1), (None, 2), (Some(1), 2), (Some(1), 2)] {
        assert_eq!(rt; next_read(&mut source), count);
        assert_eq!(rt; source.faults(), faults);
    }
    Ok(())
}

#[test]
fn a_writer_whose_first_calls_fail(rt: HostRuntime) -> Result<(), Fail> {
    let alloc = rt.alloc();
    let again = ErrorKind::Interrupted;
    let mut writer = FailsFirst::new(alloc, &[again, again], b"")?;
    let mut sink = StdoutSink::new(&mut writer);
    assert!(rt; is_written(&mut sink, b"abc"));
    assert_eq!(rt; sink.faults(), 0);
    assert_eq!(rt; writer.bytes.as_slice(), b"abc".as_slice());
    assert_eq!(rt; writer.calls, 5);
    let kinds = [again, ErrorKind::TimedOut, again, ErrorKind::Other];
    let mut writer = FailsFirst::new(alloc, &kinds, b"")?;
    let mut sink = StdoutSink::new(&mut writer);
    for (text, faults) in [("abc", 1), ("abc", 2), ("ab!c", 3)] {
        assert!(rt; !is_written(&mut sink, text.as_bytes()));
        assert_eq!(rt; sink.faults(), faults);
    }
    assert_eq!(rt; writer.bytes.as_slice(), b"ab".as_slice());
    assert_eq!(rt; writer.calls, 7);
    Ok(())
}

#[test]
fn standard_streams(rt: HostRuntime) {
    let _reader = StdinSource::new(rt.reader());
    let mut sink = StdoutSink::new(io::writer(&rt));
    assert!(rt; is_written(&mut sink, b"h took 0\n"));
}

/// The files of the folder of images.
fn make_images(rt: &HostRuntime) -> Result<(), Fail> {
    let alloc = rt.alloc();
    fs::create_dir_all(rt, "firmware/folder")?;
    fs::write(rt, "firmware/empty", b"")?;
    fs::write(rt, "firmware/fw", pattern(alloc, 100_000)?.as_slice())?;
    fs::write(rt, "firmware/most", pattern(alloc, IMAGE_MOST)?.as_slice())?;
    fs::create(rt, "firmware/large")?.set_len(IMAGE_MOST as u64 + 1)?;
    symlink(rt, "/dev/zero", "firmware/device")?;
    symlink(rt, "circle", "firmware/circle")?;
    symlink(rt, "/proc/self/mem", "firmware/unreadable")?;
    Ok(())
}

#[test]
fn a_folder_of_images(rt: HostRuntime) -> Result<(), Fail> {
    let alloc = rt.alloc();
    let _ = fs::remove_dir_all(&rt, "firmware");
    let mut store = FolderStore::new(&rt);
    assert_eq!(rt; fetch(alloc, &mut store, "fw", 0)?, "missing");
    fs::write(&rt, "firmware", b"a file in place of the folder")?;
    assert_eq!(rt; fetch(alloc, &mut store, "fw", 0)?, "missing");
    fs::remove_file(&rt, "firmware")?;
    make_images(&rt)?;
    for (name, length, word, faults) in [
        ("empty", 0, "whole", 0),
        ("fw", 100_000, "whole", 0),
        ("most", IMAGE_MOST, "whole", 0),
        ("large", 0, "too large", 0),
        ("none", 0, "missing", 0),
        ("../firmware/fw", 0, "missing", 0),
        ("folder", 0, "failed", 1),
        ("..", 0, "failed", 2),
        ("device", 0, "failed", 3),
        ("circle", 0, "failed", 4),
        ("unreadable", 0, "failed", 5),
        ("fw", 100_000, "whole", 5),
    ] {
        assert_eq!(rt; fetch(alloc, &mut store, name, length)?, word);
        assert_eq!(rt; store.faults(), faults);
    }
    fs::remove_dir_all(&rt, "firmware")?;
    Ok(())
}
