ghost use Rattle.std.specs.Prelude.{◌≡◌, [], IfOk, map};
ghost use Rattle.word_kinds.specs.Places.{word_at, name_at, number_at, address_at, destination_at, bytes_at, end_at, region_kind_at, crash_kind_at};

use crate::digits::{NUMBER_MOST, name, number};
use crate::payloads::payload;
use rp_base::{CrashKind, Data, End, Name, RegionKind};
use std::alloc::{AllocError, Global};

/// The word in a place, from 0; an empty one where there is none.
pub fn word_at<'a>(words: &[&'a [u8]], place: usize) -> &'a [u8]
    ensures { result.now ≡ word_at (map (λ word. word.now) words.now) place }
{
    match words.get(place) {
        Some(word) => word,
        None => &[],
    }
}

/// The number in a place, or 0 where the word there is none.
pub fn number_at(words: &[&[u8]], place: usize) -> u64
    ensures { result ≡ number_at (map (λ word. word.now) words.now) place }
{
    number(word_at(words, place)).unwrap_or(0)
}

/// The address in a place: 2^32 - 1 for `any`, and 0 where the word there is none.
pub fn address_at(words: &[&[u8]], place: usize) -> u64
    ensures { result ≡ address_at (map (λ word. word.now) words.now) place }
{
    if word_at(words, place) == b"any".as_slice() {
        NUMBER_MOST
    } else {
        number_at(words, place)
    }
}

/// The destination in a place: 2^32 - 1 for `last`, and 0 where the word there is none.
pub fn destination_at(words: &[&[u8]], place: usize) -> u64
    ensures { result ≡ destination_at (map (λ word. word.now) words.now) place }
{
    if word_at(words, place) == b"last".as_slice() {
        NUMBER_MOST
    } else {
        number_at(words, place)
    }
}

/// The end in a place, or the remote where the word there is none.
pub fn end_at(words: &[&[u8]], place: usize) -> End
    ensures { result ≡ end_at (map (λ word. word.now) words.now) place }
{
    if word_at(words, place) == b"host".as_slice() {
        End::Host
    } else {
        End::Remote
    }
}

/// The kind of a region in a place, or a pool's where the word there is none.
pub fn region_kind_at(words: &[&[u8]], place: usize) -> RegionKind
    ensures { result ≡ region_kind_at (map (λ word. word.now) words.now) place }
{
    if word_at(words, place) == b"tcm".as_slice() {
        RegionKind::Tcm
    } else {
        RegionKind::Pool
    }
}

/// The kind of a crash in a place, or a fatal error where the word there is none.
pub fn crash_kind_at(words: &[&[u8]], place: usize) -> CrashKind
    ensures { result ≡ crash_kind_at (map (λ word. word.now) words.now) place }
{
    let word = word_at(words, place);
    if word == b"mmufault".as_slice() {
        CrashKind::Mmufault
    } else if word == b"watchdog".as_slice() {
        CrashKind::Watchdog
    } else {
        CrashKind::Fatal
    }
}

/// The name in a place, or the empty one where the word there is none.
pub fn name_at(words: &[&[u8]], place: usize) -> Name
    ensures { result ≡ name_at (map (λ word. word.now) words.now) place }
{
    match name(word_at(words, place)) {
        Some(name) => name,
        None => no_name(),
    }
}

/// The bytes of the payload in a place.
pub fn bytes_at(alloc: Global, words: &[&[u8]], place: usize) -> Result<Data, AllocError>
    ensures { IfOk result (λ bytes. bytes ≡ bytes_at (map (λ word. word.now) words.now) place) }
{
    Ok(Data::of(payload(alloc, word_at(words, place))?))
}

/// The empty name.
pub fn no_name() -> Name
    ensures { result ≡ [] }
{
    match Name::of(b"") {
        Some(name) => name,
        None => unreachable!(),
    }
}
