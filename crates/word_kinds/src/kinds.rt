ghost use Rattle.std.specs.Prelude.{◌≡◌, map};
ghost use Rattle.word_kinds.specs.Kinds.{is_either, is_of, are_of};
ghost use Rattle.word_kinds.specs.Spellings.{is_number_within};

use crate::digits::{NUMBER_MOST, is_name, number};
use crate::payloads::is_payload;
use rp_base::{BOOK_MOST, CALLERS_MOST, RING_MOST, STEPS_MOST};

/// A kind of word of a script.
#[derive(Clone, Copy, Drop)]
pub enum Kind {
    /// The word by which the form of the line was found.
    Keyword,
    /// A name: 1 to 31 letters, digits, `.`, `_` and `-`, the first a letter or a digit.
    Name,
    /// A number up to 2^32 - 1: decimal without a leading zero, or `0x` and hexadecimal digits.
    Number,
    /// A number, or `any` for 2^32 - 1.
    Address,
    /// The type of a vendor's entry: a number from 4.
    Vendor,
    /// A payload: `-` for none, 1 to 512 bytes as pairs of hexadecimal digits, or one byte and how
    /// many times it is there, as `00*512`.
    Payload,
    /// The number of a caller, less than [`CALLERS_MOST`].
    Caller,
    /// A count of steps or turns, from 1 to 4,000,000.
    Count,
    /// The entries of a ring: a power of two up to 32,768.
    Ring,
    /// How many messages a lane accepts, from 1 to 262,144.
    Book,
    /// A lane of a link: `0` or `1`.
    Lane,
    /// The end of a link: `host` or `remote`.
    End,
    /// How many bytes of memory are shown, from 1 to 256.
    Length,
    /// The regions that a core begins with: `std` or `bare`.
    RegionSet,
    /// What a region serves for: `tcm` or `pool`.
    RegionKind,
    /// What a crash report says: `mmufault`, `watchdog` or `fatal`.
    CrashKind,
    /// What a driver does: `sink`, `echo` or `sample`.
    DriverKind,
    /// `on` or `off`.
    Switch,
    /// A destination of a worker's send: a number, or `last` for 2^32 - 1.
    Destination,
    /// The length that a worker's record names: a number to 65,535.
    RecordLength,
}

fn is_number_within(least: u64, most: u64, word: &[u8]) -> bool
    ensures { result ≡ is_number_within least most word.now }
{
    match number(word) {
        Some(number) => least <= number && number <= most,
        None => false,
    }
}

fn is_ring(word: &[u8]) -> bool
    ensures { result ≡ is_of Kind.Ring word.now }
{
    match number(word) {
        Some(number) => number.is_power_of_two() && number <= u64::from(RING_MOST),
        None => false,
    }
}

fn is_either(first: &str, second: &str, word: &[u8]) -> bool
    ensures { result ≡ is_either first.now second.now word.now }
{
    word == first.as_bytes() || word == second.as_bytes()
}

/// Whether a word is of this kind.
pub fn is_of(kind: Kind, word: &[u8]) -> bool
    ensures { result ≡ is_of kind word.now }
{
    match kind {
        Kind::Keyword => true,
        Kind::Name => is_name(word),
        Kind::Number => number(word).is_some(),
        Kind::Address => word == b"any".as_slice() || number(word).is_some(),
        Kind::Vendor => is_number_within(4, NUMBER_MOST, word),
        Kind::Payload => is_payload(word),
        Kind::Caller => is_number_within(0, CALLERS_MOST as u64 - 1, word),
        Kind::Count => is_number_within(1, STEPS_MOST, word),
        Kind::Ring => is_ring(word),
        Kind::Book => is_number_within(1, u64::from(BOOK_MOST), word),
        Kind::Lane => is_either("0", "1", word),
        Kind::End => is_either("host", "remote", word),
        Kind::Length => is_number_within(1, 256, word),
        Kind::RegionSet => is_either("std", "bare", word),
        Kind::RegionKind => is_either("tcm", "pool", word),
        Kind::CrashKind => word == b"mmufault".as_slice() || is_either("watchdog", "fatal", word),
        Kind::DriverKind => word == b"sink".as_slice() || is_either("echo", "sample", word),
        Kind::Switch => is_either("on", "off", word),
        Kind::Destination => word == b"last".as_slice() || number(word).is_some(),
        Kind::RecordLength => is_number_within(0, 65_535, word),
    }
}

/// Whether each word is of the kind in its place, and there are as many.
pub fn are_of(kinds: &[Kind], words: &[&[u8]]) -> bool
    ensures { result ≡ are_of kinds.now (map (λ word. word.now) words.now) }
{
    if kinds.len() != words.len() {
        return false;
    }
    for (place, kind) in kinds.iter().enumerate() {
        if !is_of(*kind, words[place]) {
            return false;
        }
    }
    true
}
