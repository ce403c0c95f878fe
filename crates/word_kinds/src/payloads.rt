ghost use Rattle.std.specs.Prelude.{◌≡◌, IfOk, IfSome, ◌≤◌};
ghost use Rattle.word_kinds.specs.Payloads.{byte_of, is_pairs, bytes_of_pairs, is_count, is_repeated, repeated_bytes, is_payload, bytes_in};
ghost use Rattle.std.specs.List.{list_all};
ghost use Rattle.word_kinds.specs.Spellings.{is_hex_digit};

use crate::digits::{decimal, hex_value, is_hex_digit};
use rp_base::MESSAGE_MOST;
use std::alloc::{AllocError, Global};

/// The byte of two hexadecimal digits.
pub(crate) fn byte_of(high: u8, low: u8) -> u8
    ensures { result ≡ byte_of high low }
{
    16 * hex_value(high) + hex_value(low)
}

/// Whether a word is 1 to 512 bytes as pairs of hexadecimal digits.
fn is_pairs(word: &[u8]) -> bool
    ensures { result ≡ is_pairs word.now }
{
    word.len() % 2 == 0 && 2 <= word.len() && word.len() <= 2 * MESSAGE_MOST && are_hex_digits(word)
}

fn are_hex_digits(word: &[u8]) -> bool
    ensures { result ≡ list_all is_hex_digit word.now }
{
    word.iter().all(|byte| is_hex_digit(*byte))
}

/// Whether a word is a count of bytes: decimal, from 1 to 512.
fn is_count(word: &[u8]) -> bool
    ensures { result ≡ is_count word.now }
{
    match decimal(word) {
        Some(count) => 1 <= count && count as usize <= MESSAGE_MOST,
        None => false,
    }
}

/// Whether a word is a byte as two digits, `*`, and how many times it is there.
fn is_repeated(word: &[u8]) -> bool
    ensures { result ≡ is_repeated word.now }
{
    match word {
        [high, low, star, count @ ..] => {
            is_hex_digit(*high) && is_hex_digit(*low) && *star == b'*' && is_count(count)
        }
        _ => false,
    }
}

/// Whether a word is a payload: `-` for none, 1 to 512 bytes as pairs of digits, or one byte
/// repeated.
pub(crate) fn is_payload(word: &[u8]) -> bool
    ensures { result ≡ is_payload word.now }
{
    word == b"-".as_slice() || is_pairs(word) || is_repeated(word)
}

/// The bytes of a payload.
pub(crate) fn payload(alloc: Global, word: &[u8]) -> Result<Vec<u8>, AllocError>
    ensures { IfOk result (λ bytes. bytes.items ≡ bytes_in word.now) }
{
    if is_repeated(word) {
        return repeated_bytes(alloc, word);
    }
    pairs(alloc, word)
}

fn repeated_bytes(alloc: Global, word: &[u8]) -> Result<Vec<u8>, AllocError>
    ensures { IfOk result (λ bytes. bytes.items ≡ repeated_bytes word.now) }
{
    match word {
        [high, low, _, count @ ..] => {
            let count = decimal(count).unwrap_or(0) as usize;
            vec![in alloc; byte_of(*high, *low); count]
        }
        _ => Ok(Vec::new(alloc)),
    }
}

/// The bytes of pairs of digits.
pub(crate) fn pairs(alloc: Global, word: &[u8]) -> Result<Vec<u8>, AllocError>
    ensures { IfOk result (λ bytes. bytes.items ≡ bytes_of_pairs word.now) }
{
    let mut bytes = Vec::with_capacity(alloc, word.len() / 2)?;
    let mut rest = word;
    while let [high, low, more @ ..] = rest {
        bytes.push(byte_of(*high, *low))?;
        rest = more;
    }
    Ok(bytes)
}
