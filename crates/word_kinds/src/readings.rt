ghost use Rattle.std.specs.Prelude.{◌≡◌, ◌∷◌, ◌<◌, ◌%◌, ◌^◌, [], length, map, IfSome, IfNone, IfOk, Some, None, if◌then◌else◌, bytes_eq, codes};
ghost use Rattle.word_kinds.specs.Readings.{number_read, hex_read, first_part, other_parts, dot_parts, first_number, second_number, endpoint_read, without_escapes, is_zeroless, is_channel, channel_read, service_read, state_read, driver_read, switch_read, lane_read};
ghost use Rattle.word_kinds.specs.Payloads.{bytes_of_pairs};
ghost use Rattle.word_kinds.specs.Rows.{text_at};

use crate::cuts::cut_at;
use crate::digits::hex_value;
use crate::payloads::{byte_of, pairs};
use crate::places::{no_name, word_at};
use rp_base::{Data, DriverKind, Endpoint, LifeState, NAME_MOST, Name, NsKind, Switch};
use std::alloc::{AllocError, Global};

/// The number of decimal digits.
fn number_read(word: &[u8]) -> u64
    ensures { result ≡ number_read word.now }
{
    word.iter().fold(0u64, |value, byte| {
        value
            .wrapping_mul(10)
            .wrapping_add(u64::from(byte.wrapping_sub(b'0')))
    })
}

/// The number in a place, modulo 2^64; 0 where there is no word.
pub fn decimal_at(words: &[&[u8]], place: usize) -> u64
    ensures { result ≡ number_read (text_at (map (λ word. word.now) words.now) place) }
{
    number_read(word_at(words, place))
}

/// The number of hexadecimal digits in a place, modulo 2^64; 0 where there is no word.
pub fn offset_at(words: &[&[u8]], place: usize) -> u64
    ensures { result ≡ hex_read (text_at (map (λ word. word.now) words.now) place) }
{
    word_at(words, place).iter().fold(0u64, |value, byte| {
        value
            .wrapping_mul(16)
            .wrapping_add(u64::from(hex_value(*byte)))
    })
}

/// The number of hexadecimal digits in a place, modulo 2^32; 0 where there is no word.
pub fn hex_at(words: &[&[u8]], place: usize) -> u32
    ensures { result ≡ hex_read (text_at (map (λ word. word.now) words.now) place) % 2 ^ 32 }
{
    (offset_at(words, place) % 4_294_967_296) as u32
}

/// The bytes of the pairs of hexadecimal digits in a place.
pub fn row_at(alloc: Global, words: &[&[u8]], place: usize) -> Result<Data, AllocError>
    ensures { IfOk result (λ bytes. bytes ≡ bytes_of_pairs (text_at (map (λ word. word.now) words.now) place)) }
{
    Ok(Data::of(pairs(alloc, word_at(words, place))?))
}

/// The part before the first dot, and what comes after it.
fn front_and_rest(text: &[u8]) -> (&[u8], &[u8])
    ensures front { result.0.now ≡ first_part (dot_parts text.now) }
    ensures rest { first_part (dot_parts result.1.now) ≡ first_part (other_parts (dot_parts text.now)) }
{
    match cut_at(text, b'.') {
        Some(parts) => parts,
        None => (text, &[]),
    }
}

/// The two numbers with a dot between them in a place.
pub fn dotted_at(words: &[&[u8]], place: usize) -> (u64, u64)
    ensures first { result.0 ≡ first_number (text_at (map (λ word. word.now) words.now) place) }
    ensures second { result.1 ≡ second_number (text_at (map (λ word. word.now) words.now) place) }
{
    let (first, rest) = front_and_rest(word_at(words, place));
    let (second, _more) = front_and_rest(rest);
    (number_read(first), number_read(second))
}

/// The endpoint in a place.
pub fn endpoint_at(words: &[&[u8]], place: usize) -> Endpoint
    ensures { result ≡ endpoint_read (text_at (map (λ word. word.now) words.now) place) }
{
    let (address, generation) = dotted_at(words, place);
    Endpoint {
        address: (address % 4_294_967_296) as u32,
        generation,
    }
}

/// The first byte of a text with escapes, and the text after it.
fn first_unescaped(text: &[u8]) -> Option<(u8, &[u8])>
    ensures some { IfSome result (λ found. without_escapes text.now ≡ found.0 ∷ without_escapes found.1.now) }
    ensures shorter { IfSome result (λ found. length found.1.now < length text.now) }
    ensures none { IfNone result (without_escapes text.now ≡ []) }
{
    match text {
        [] => None,
        [b'%', high, low, more @ ..] => Some((byte_of(*high, *low), more)),
        [b'%', ..] => None,
        [first, more @ ..] => Some((*first, more)),
    }
}

/// The name of a channel that a text with escapes is.
pub(crate) fn channel(word: &[u8]) -> Option<Name>
    ensures { result ≡ (if is_channel (without_escapes word.now) then Some (without_escapes word.now) else None) }
{
    let mut bytes = [0u8; NAME_MOST];
    let mut count = 0;
    let mut rest = word;
    while let Some((byte, more)) = first_unescaped(rest) {
        if count == NAME_MOST {
            return None;
        }
        bytes[count] = byte;
        count += 1;
        rest = more;
    }
    Name::of(&bytes[..count])
}

/// The name of the channel in a place, or the empty one where there is none.
pub fn channel_at(words: &[&[u8]], place: usize) -> Name
    ensures { result ≡ channel_read (text_at (map (λ word. word.now) words.now) place) }
{
    match channel(word_at(words, place)) {
        Some(name) => name,
        None => no_name(),
    }
}

/// Whether a text with escapes has no zero.
pub(crate) fn is_zeroless(word: &[u8]) -> bool
    ensures { result ≡ is_zeroless (without_escapes word.now) }
{
    let mut rest = word;
    while let Some((byte, more)) = first_unescaped(rest) {
        if byte == 0 {
            return false;
        }
        rest = more;
    }
    true
}

/// The bytes of the text with escapes in a place.
pub fn trace_at(alloc: Global, words: &[&[u8]], place: usize) -> Result<Data, AllocError>
    ensures { IfOk result (λ bytes. bytes ≡ without_escapes (text_at (map (λ word. word.now) words.now) place)) }
{
    Ok(Data::of(unescaped_bytes(alloc, word_at(words, place))?))
}

fn unescaped_bytes(alloc: Global, word: &[u8]) -> Result<Vec<u8>, AllocError>
    ensures { IfOk result (λ bytes. bytes.items ≡ without_escapes word.now) }
{
    let mut bytes = Vec::new(alloc);
    let mut rest = word;
    while let Some((byte, more)) = first_unescaped(rest) {
        bytes.push(byte)?;
        rest = more;
    }
    Ok(bytes)
}

/// Whether the word in a place is `open`.
pub fn open_at(words: &[&[u8]], place: usize) -> bool
    ensures { result ≡ bytes_eq (text_at (map (λ word. word.now) words.now) place) (codes "open") }
{
    word_at(words, place) == b"open".as_slice()
}

/// What the name service made of a message, in a place.
pub fn service_at(words: &[&[u8]], place: usize) -> NsKind
    ensures { result ≡ service_read (text_at (map (λ word. word.now) words.now) place) }
{
    let word = word_at(words, place);
    if word == b"created".as_slice() {
        NsKind::Created
    } else if word == b"duplicate".as_slice() {
        NsKind::Duplicate
    } else if word == b"destroyed".as_slice() {
        NsKind::Destroyed
    } else if word == b"unknown".as_slice() {
        NsKind::Unknown
    } else {
        NsKind::ChannelsFull
    }
}

/// The state of a core, in a place.
pub fn state_at(words: &[&[u8]], place: usize) -> LifeState
    ensures { result ≡ state_read (text_at (map (λ word. word.now) words.now) place) }
{
    let word = word_at(words, place);
    if word == b"offline".as_slice() {
        LifeState::Offline
    } else if word == b"running".as_slice() {
        LifeState::Running
    } else if word == b"crashed".as_slice() {
        LifeState::Crashed
    } else if word == b"attached".as_slice() {
        LifeState::Attached
    } else {
        LifeState::Detached
    }
}

/// What a driver does, in a place.
pub fn driver_at(words: &[&[u8]], place: usize) -> DriverKind
    ensures { result ≡ driver_read (text_at (map (λ word. word.now) words.now) place) }
{
    let word = word_at(words, place);
    if word == b"sink".as_slice() {
        DriverKind::Sink
    } else if word == b"echo".as_slice() {
        DriverKind::Echo
    } else {
        DriverKind::Sample
    }
}

/// Whether something is on, in a place.
pub fn switch_at(words: &[&[u8]], place: usize) -> Switch
    ensures { result ≡ switch_read (text_at (map (λ word. word.now) words.now) place) }
{
    if word_at(words, place) == b"on".as_slice() {
        Switch::On
    } else {
        Switch::Off
    }
}

/// The lane in a place.
pub fn lane_at(words: &[&[u8]], place: usize) -> u64
    ensures { result ≡ lane_read (text_at (map (λ word. word.now) words.now) place) }
{
    decimal_at(words, place) % 2
}
