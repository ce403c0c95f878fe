ghost use Rattle.std.specs.Prelude.{◌≡◌, ◌≤◌, ◌<◌, IfSome};
ghost use Rattle.std.specs.List.{list_all};
ghost use Rattle.word_kinds.specs.Spellings.{is_digit, is_letter, is_name_byte, is_name, name_of, is_hex_digit, hex_value, is_digit_to, digits_from, decimal_of, hexadecimal_of, number_of};

use rp_base::Name;

/// The most that a number of a script may be: 2^32 - 1.
pub(crate) const NUMBER_MOST: u64 = 4_294_967_295;

fn is_letter(byte: u8) -> bool
    ensures { result ≡ is_letter byte }
{
    matches!(byte, b'A'..=b'Z' | b'a'..=b'z')
}

fn is_digit(byte: u8) -> bool
    ensures { result ≡ is_digit byte }
{
    matches!(byte, b'0'..=b'9')
}

fn is_name_byte(byte: u8) -> bool
    ensures { result ≡ is_name_byte byte }
{
    is_letter(byte) || is_digit(byte) || byte == b'.' || byte == b'_' || byte == b'-'
}

/// Whether a name may hold all of these.
fn are_name_bytes(bytes: &[u8]) -> bool
    ensures { result ≡ list_all is_name_byte bytes.now }
{
    bytes.iter().all(|byte| is_name_byte(*byte))
}

/// Whether a word is a name: 1 to 31 letters, digits, `.`, `_` and `-`, the first a letter or a
/// digit.
#[tactic(auto, using(crate::proofs::Parts::is_name_read))]
pub fn is_name(word: &[u8]) -> bool
    ensures { result ≡ is_name word.now }
{
    match word {
        [] => false,
        [first, more @ ..] => {
            (is_letter(*first) || is_digit(*first)) && are_name_bytes(more) && more.len() <= 30
        }
    }
}

/// A name of 1 to 31 letters, digits, `.`, `_` and `-`, the first a letter or a digit.
pub fn name(word: &[u8]) -> Option<Name>
    ensures { result ≡ name_of word.now }
{
    if !is_name(word) {
        return None;
    }
    Name::of(word)
}

/// Whether a byte is a hexadecimal digit of either case.
pub(crate) fn is_hex_digit(byte: u8) -> bool
    ensures { result ≡ is_hex_digit byte }
{
    matches!(byte, b'0'..=b'9' | b'a'..=b'f' | b'A'..=b'F')
}

/// The value of a hexadecimal digit, and 0 for any other byte.
pub(crate) fn hex_value(byte: u8) -> u8
    ensures value { result ≡ hex_value byte }
    ensures small { result < 16 }
{
    match byte {
        b'0'..=b'9' => byte - b'0',
        b'a'..=b'f' => byte - b'a' + 10,
        b'A'..=b'F' => byte - b'A' + 10,
        _ => 0,
    }
}

fn is_digit_to(base: u8, byte: u8) -> bool
    ensures { result ≡ is_digit_to base byte }
{
    is_hex_digit(byte) && hex_value(byte) < base
}

/// The number of these digits to a base of at most 16, and 0 for none of them. There is none above
/// 2^32 - 1, or where a byte is no digit.
pub fn number_to_base(base: u8, word: &[u8]) -> Option<u64>
    requires { base ≤ 16 }
    ensures value { result ≡ digits_from base 0 word.now }
    ensures small { IfSome result (λ number. number ≤ 4294967295) }
{
    let mut value = 0u64;
    for byte in word {
        if !is_digit_to(base, *byte) {
            return None;
        }
        value = u64::from(base) * value + u64::from(hex_value(*byte));
        if value > NUMBER_MOST {
            return None;
        }
    }
    Some(value)
}

/// One or more decimal digits without a leading zero.
pub(crate) fn decimal(word: &[u8]) -> Option<u64>
    ensures value { result ≡ decimal_of word.now }
    ensures small { IfSome result (λ number. number ≤ 4294967295) }
{
    match word {
        [] => None,
        [b'0', _, ..] => None,
        _ => number_to_base(10, word),
    }
}

fn hexadecimal(word: &[u8]) -> Option<u64>
    ensures value { result ≡ hexadecimal_of word.now }
    ensures small { IfSome result (λ number. number ≤ 4294967295) }
{
    if word.is_empty() {
        return None;
    }
    number_to_base(16, word)
}

/// The number that a word is: decimal, or `0x` and hexadecimal digits, at most 2^32 - 1.
#[tactic(auto, using(crate::proofs::Parts::is_name_read))]
pub(crate) fn number(word: &[u8]) -> Option<u64>
    ensures value { result ≡ number_of word.now }
    ensures small { IfSome result (λ number. number ≤ 4294967295) }
{
    match word {
        [b'0', b'x', digits @ ..] => hexadecimal(digits),
        _ => decimal(word),
    }
}
