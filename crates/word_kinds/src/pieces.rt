ghost use Rattle.std.specs.Prelude.{◌≡◌, ◌++◌, ◌∷◌, ◌<◌, [], OnOk, OnErr, false, map};
ghost use Rattle.std.specs.Fmt.{decimal, digits};
ghost use Rattle.std.specs.List.{flat_map, join_with_byte};
ghost use Rattle.word_kinds.specs.Texts.{hex_digit, hex_byte, eight_digits, four_digits, hex_bytes, with_escapes, is_plain, dotted_text, end_text, service_text, state_text, driver_text, switch_text, text};
ghost use Rattle.word_kinds.specs.Lines.{line_of, word_of};
ghost use Rattle.word_kinds.specs.Rows.{kind_in, word_for, left_by, filled};
ghost use Rattle.word_kinds.specs.Fronts.{IsFront};

use crate::slots::Slot;
use rp_base::{Data, DriverKind, End, Endpoint, LifeState, Name, NoMemory, NsKind, Switch};
use std::alloc::AllocError;

/// A word of a line, with what is written there.
#[derive(Clone, Copy, Drop)]
pub enum Piece<'a> {
    /// A fixed word, or several.
    Fixed(&'a str),
    /// A name as it is.
    Name(&'a Name),
    /// A number in decimal.
    Number(&'a u64),
    /// A number of 32 bits in decimal.
    Short(&'a u32),
    /// A number as eight lower-case hexadecimal digits.
    Digits(&'a u32),
    /// A number as four lower-case hexadecimal digits, and more without a leading zero where it
    /// needs them.
    Offset(&'a u64),
    /// Bytes as pairs of lower-case hexadecimal digits, or `-` where there is none.
    Bytes(&'a Data),
    /// From one to so many bytes as pairs of lower-case hexadecimal digits.
    Row(usize, &'a Data),
    /// A name with `%` and two digits for each byte that doesn't print as it is, or `%` where it is
    /// empty.
    Escaped(&'a Name),
    /// A text of any length, written as a name with escapes is.
    Trace(&'a Data),
    /// A lane: 0 or 1.
    Lane(&'a u64),
    /// An address and the number of its binding.
    Bound(&'a Endpoint),
    /// Two numbers with a dot between them.
    Dotted(&'a u64, &'a u64),
    /// The end of a link.
    Side(&'a End),
    /// Whether an incarnation is open.
    Open(&'a bool),
    /// What the name service made of a message.
    Service(&'a NsKind),
    /// The state of a core.
    State(&'a LifeState),
    /// What a driver does.
    Driver(&'a DriverKind),
    /// Whether something is on.
    Switch(&'a Switch),
}

/// Appends the line of these words: a space between two, and a line feed at the end. Where memory
/// is wanting, the text stays as it was.
pub fn push_line(out: &mut Vec<u8>, words: &[Piece]) -> Result<(), NoMemory>
    ensures whole { OnOk result (out.new.items ≡ out.old.items ++ line_of (map word_of words.now)) }
    ensures same { OnErr result (out.new.items ≡ out.old.items) }
{
    let len = out.len();
    if push_words(out, words).is_err() {
        out.truncate(len);
        return Err(NoMemory);
    }
    Ok(())
}

#[tactic(auto, unfolding(crate::specs::Lines::line_of))]
fn push_words(out: &mut Vec<u8>, words: &[Piece]) -> Result<(), AllocError>
    ensures whole { OnOk result (out.new.items ≡ out.old.items ++ line_of (map word_of words.now)) }
    ensures front { IsFront out.old.items out.new.items }
{
    push_joined(out, words)?;
    out.push(b'\n')?;
    Ok(())
}

/// Appends words with a space between two.
fn push_joined(out: &mut Vec<u8>, words: &[Piece]) -> Result<(), AllocError>
    ensures whole { OnOk result (out.new.items ≡ out.old.items ++ join_with_byte 32 (map text (map word_of words.now))) }
    ensures front { IsFront out.old.items out.new.items }
{
    match words {
        [] => Ok(()),
        [first, more @ ..] => {
            push_word(out, first)?;
            push_more(out, more)?;
            Ok(())
        }
    }
}

/// Appends each word after a space.
fn push_more(out: &mut Vec<u8>, words: &[Piece]) -> Result<(), AllocError>
    ensures whole { OnOk result (out.new.items ≡ out.old.items ++ flat_map (λ word. 32 ∷ text (word_of word)) words.now) }
    ensures front { IsFront out.old.items out.new.items }
{
    for word in words {
        out.push(b' ')?;
        push_word(out, word)?;
    }
    Ok(())
}

/// Appends the line of a form: its fixed words, and in the other places these values in their
/// order. Where memory is wanting, the text stays as it was.
pub fn push_form(out: &mut Vec<u8>, slots: &[Slot], values: &[Piece]) -> Result<(), NoMemory>
    ensures whole { OnOk result (out.new.items ≡ out.old.items ++ line_of (filled (map kind_in slots.now) (map word_of values.now))) }
    ensures same { OnErr result (out.new.items ≡ out.old.items) }
{
    let len = out.len();
    if push_places(out, slots, values).is_err() {
        out.truncate(len);
        return Err(NoMemory);
    }
    Ok(())
}

#[tactic(auto, unfolding(crate::specs::Lines::line_of))]
fn push_places(out: &mut Vec<u8>, slots: &[Slot], values: &[Piece]) -> Result<(), AllocError>
    ensures whole { OnOk result (out.new.items ≡ out.old.items ++ line_of (filled (map kind_in slots.now) (map word_of values.now))) }
    ensures front { IsFront out.old.items out.new.items }
{
    push_joined_places(out, slots, values)?;
    out.push(b'\n')?;
    Ok(())
}

/// Appends the words of places with a space between two.
fn push_joined_places(out: &mut Vec<u8>, slots: &[Slot], values: &[Piece]) -> Result<(), AllocError>
    ensures whole { OnOk result (out.new.items ≡ out.old.items ++ join_with_byte 32 (map text (filled (map kind_in slots.now) (map word_of values.now)))) }
    ensures front { IsFront out.old.items out.new.items }
{
    match slots {
        [] => Ok(()),
        [first, more @ ..] => {
            push_place(out, first, values)?;
            push_more_places(out, more, left_by(first, values))?;
            Ok(())
        }
    }
}

/// Appends the words of places, each after a space.
fn push_more_places(out: &mut Vec<u8>, slots: &[Slot], values: &[Piece]) -> Result<(), AllocError>
    ensures whole { OnOk result (out.new.items ≡ out.old.items ++ flat_map (λ word. 32 ∷ text word) (filled (map kind_in slots.now) (map word_of values.now))) }
    ensures front { IsFront out.old.items out.new.items }
{
    let mut rest = slots;
    let mut left = values;
    while let [slot, more @ ..] = rest {
        out.push(b' ')?;
        push_place(out, slot, left)?;
        left = left_by(slot, left);
        rest = more;
    }
    Ok(())
}

/// Appends the word of a place: a fixed one, or else the first of the values.
fn push_place(out: &mut Vec<u8>, slot: &Slot, values: &[Piece]) -> Result<(), AllocError>
    ensures whole { OnOk result (out.new.items ≡ out.old.items ++ text (word_for (kind_in slot.now) (map word_of values.now))) }
    ensures front { IsFront out.old.items out.new.items }
{
    match (slot, values) {
        (Slot::Text(text), _) => out.extend_from_slice(text.as_bytes()),
        (_, [value, ..]) => push_word(out, value),
        (_, []) => Ok(()),
    }
}

/// The values that are left behind a place: a fixed word takes none.
fn left_by<'v, 'a>(slot: &Slot, values: &'v [Piece<'a>]) -> &'v [Piece<'a>]
    ensures { map word_of result.now ≡ left_by (kind_in slot.now) (map word_of values.now) }
{
    match (slot, values) {
        (Slot::Text(_), _) | (_, []) => values,
        (_, [_, more @ ..]) => more,
    }
}

fn push_word(out: &mut Vec<u8>, word: &Piece) -> Result<(), AllocError>
    ensures whole { OnOk result (out.new.items ≡ out.old.items ++ text (word_of word.now)) }
    ensures front { IsFront out.old.items out.new.items }
{
    match word {
        Piece::Fixed(bytes) => out.extend_from_slice(bytes.as_bytes()),
        Piece::Name(name) => out.extend_from_slice(name.bytes()),
        Piece::Number(number) => push_number(out, **number),
        Piece::Short(number) => push_number(out, u64::from(**number)),
        Piece::Digits(number) => push_digits(out, **number),
        Piece::Offset(number) => push_offset(out, **number),
        Piece::Bytes(bytes) => push_hex(out, bytes.bytes()),
        Piece::Row(_, bytes) => push_hex(out, bytes.bytes()),
        Piece::Escaped(name) => push_escaped(out, name.bytes()),
        Piece::Trace(text) => push_escaped(out, text.bytes()),
        Piece::Lane(lane) => push_number(out, **lane),
        Piece::Bound(endpoint) => {
            push_dotted(out, u64::from(endpoint.address), endpoint.generation)
        }
        Piece::Dotted(first, second) => push_dotted(out, **first, **second),
        Piece::Side(end) => out.extend_from_slice(end_text(**end).as_bytes()),
        Piece::Open(is_live) => {
            let open = if **is_live { "open" } else { "closed" };
            out.extend_from_slice(open.as_bytes())
        }
        Piece::Service(what) => out.extend_from_slice(service_text(**what).as_bytes()),
        Piece::State(state) => out.extend_from_slice(state_text(**state).as_bytes()),
        Piece::Driver(kind) => out.extend_from_slice(driver_text(**kind).as_bytes()),
        Piece::Switch(switch) => out.extend_from_slice(switch_text(**switch).as_bytes()),
    }
}

fn end_text(end: End) -> &'static str
    ensures { result.now ≡ end_text end }
{
    match end {
        End::Host => "host",
        End::Remote => "remote",
    }
}

fn service_text(what: NsKind) -> &'static str
    ensures { result.now ≡ service_text what }
{
    match what {
        NsKind::Created => "created",
        NsKind::Duplicate => "duplicate",
        NsKind::Destroyed => "destroyed",
        NsKind::Unknown => "unknown",
        NsKind::ChannelsFull => "full",
    }
}

fn state_text(state: LifeState) -> &'static str
    ensures { result.now ≡ state_text state }
{
    match state {
        LifeState::Offline => "offline",
        LifeState::Running => "running",
        LifeState::Crashed => "crashed",
        LifeState::Attached => "attached",
        LifeState::Detached => "detached",
    }
}

fn driver_text(kind: DriverKind) -> &'static str
    ensures { result.now ≡ driver_text kind }
{
    match kind {
        DriverKind::Sink => "sink",
        DriverKind::Echo => "echo",
        DriverKind::Sample => "sample",
    }
}

fn switch_text(switch: Switch) -> &'static str
    ensures { result.now ≡ switch_text switch }
{
    match switch {
        Switch::On => "on",
        Switch::Off => "off",
    }
}

fn push_number(out: &mut Vec<u8>, number: u64) -> Result<(), AllocError>
    ensures whole { OnOk result (out.new.items ≡ out.old.items ++ decimal number) }
    ensures front { IsFront out.old.items out.new.items }
{
    let mut buffer = itoa::Buffer::new();
    out.extend_from_slice(buffer.format(number).as_bytes())
}

fn push_dotted(out: &mut Vec<u8>, first: u64, second: u64) -> Result<(), AllocError>
    ensures whole { OnOk result (out.new.items ≡ out.old.items ++ dotted_text first second) }
    ensures front { IsFront out.old.items out.new.items }
{
    push_number(out, first)?;
    out.push(b'.')?;
    push_number(out, second)
}

fn hex_digit(value: u8) -> u8
    requires { value < 16 }
    ensures { result ≡ hex_digit value }
{
    if value < 10 { value + b'0' } else { value + 87 }
}

/// Appends a byte as two hexadecimal digits.
fn push_byte(out: &mut Vec<u8>, byte: u8) -> Result<(), AllocError>
    ensures whole { OnOk result (out.new.items ≡ out.old.items ++ hex_byte byte) }
    ensures front { IsFront out.old.items out.new.items }
{
    out.extend_from_slice(&[hex_digit(byte / 16), hex_digit(byte % 16)])
}

fn push_digits(out: &mut Vec<u8>, number: u32) -> Result<(), AllocError>
    ensures whole { OnOk result (out.new.items ≡ out.old.items ++ eight_digits number) }
    ensures front { IsFront out.old.items out.new.items }
{
    push_byte(out, (number / 16_777_216) as u8)?;
    push_byte(out, (number / 65_536 % 256) as u8)?;
    push_byte(out, (number / 256 % 256) as u8)?;
    push_byte(out, (number % 256) as u8)
}

fn push_offset(out: &mut Vec<u8>, number: u64) -> Result<(), AllocError>
    ensures whole { OnOk result (out.new.items ≡ out.old.items ++ four_digits number) }
    ensures front { IsFront out.old.items out.new.items }
{
    if number >= 65_536 {
        return push_hexadecimal(out, number);
    }
    push_byte(out, (number / 256) as u8)?;
    push_byte(out, (number % 256) as u8)
}

/// Appends the hexadecimal digits of a number without leading zeros.
fn push_hexadecimal(out: &mut Vec<u8>, number: u64) -> Result<(), AllocError>
    ensures whole { OnOk result (out.new.items ≡ out.old.items ++ digits 16 false number) }
    ensures front { IsFront out.old.items out.new.items }
{
    if number >= 16 {
        push_hexadecimal(out, number / 16)?;
    }
    out.push(hex_digit((number % 16) as u8))?;
    Ok(())
}

fn push_hex(out: &mut Vec<u8>, bytes: &[u8]) -> Result<(), AllocError>
    ensures whole { OnOk result (out.new.items ≡ out.old.items ++ hex_bytes bytes.now) }
    ensures front { IsFront out.old.items out.new.items }
{
    if bytes.is_empty() {
        return out.extend_from_slice(b"-");
    }
    for byte in bytes {
        push_byte(out, *byte)?;
    }
    Ok(())
}

fn is_plain(byte: u8) -> bool
    ensures { result ≡ is_plain byte }
{
    matches!(byte, 33..=126) && byte != b'%'
}

fn push_escaped(out: &mut Vec<u8>, text: &[u8]) -> Result<(), AllocError>
    ensures whole { OnOk result (out.new.items ≡ out.old.items ++ with_escapes text.now) }
    ensures front { IsFront out.old.items out.new.items }
{
    if text.is_empty() {
        return out.extend_from_slice(b"%");
    }
    for byte in text {
        if is_plain(*byte) {
            out.push(*byte)?;
        } else {
            out.push(b'%')?;
            push_byte(out, *byte)?;
        }
    }
    Ok(())
}
