ghost use Rattle.std.specs.Prelude.{◌≡◌, false, length, map};
ghost use Rattle.word_kinds.specs.Rows.{kind_in, fits, fit};

use crate::digits::is_name;
use crate::readings::{channel, is_zeroless};

/// What is in a place of a form of transcript lines.
#[derive(Clone, Copy, Drop)]
pub enum Slot<'a> {
    /// A fixed word.
    Text(&'a str),
    /// A name as scripts have it.
    Name,
    /// A number in decimal.
    Number,
    /// A number as eight lower-case hexadecimal digits.
    Digits,
    /// A number as four lower-case hexadecimal digits, and more without a leading zero where it
    /// needs them.
    Offset,
    /// Bytes as pairs of lower-case hexadecimal digits, or `-` for none.
    Bytes,
    /// From one to so many bytes as pairs of lower-case hexadecimal digits.
    Row(usize),
    /// The name of a channel, with escapes.
    Escaped,
    /// A text of any length, with escapes.
    Trace,
    /// A lane: 0 or 1.
    Lane,
    /// An address and the number of its binding.
    Bound,
    /// Two numbers with a dot between them.
    Dotted,
    /// The end of a link.
    Side,
    /// Whether an incarnation is open.
    Open,
    /// What the name service made of a message.
    Service,
    /// The state of a core.
    State,
    /// What a driver does.
    Driver,
    /// Whether something is on.
    Switch,
}

/// Whether a word may be there.
fn fits(slot: &Slot, word: &[u8]) -> bool
    ensures { result ≡ fits (kind_in slot.now) word.now }
{
    match slot {
        Slot::Text(text) => word == text.as_bytes(),
        Slot::Name => is_name(word),
        Slot::Bytes => word.len() <= 1024,
        Slot::Row(most) => 2 <= word.len() && word.len() / 2 <= *most,
        Slot::Escaped => channel(word).is_some(),
        Slot::Trace => is_zeroless(word),
        Slot::Number | Slot::Digits | Slot::Offset | Slot::Lane | Slot::Bound | Slot::Dotted =>
            true,
        Slot::Side | Slot::Open | Slot::Service | Slot::State | Slot::Driver | Slot::Switch => true,
    }
}

/// Whether each word may be in its place, and there are as many.
#[tactic(auto, using(crate::proofs::Rows::fit_more))]
pub fn fit(slots: &[Slot], words: &[&[u8]]) -> bool
    ensures { result ≡ fit (map kind_in slots.now) (map (λ word. word.now) words.now) }
{
    if slots.len() != words.len() {
        return false;
    }
    if !has_texts(slots, words) {
        return false;
    }
    for (place, slot) in slots.iter().enumerate() {
        if !fits(slot, words[place]) {
            return false;
        }
    }
    true
}

/// Whether each fixed word is in its place, which is sooner told than what may be in the
/// others.
fn has_texts(slots: &[Slot], words: &[&[u8]]) -> bool
    requires { length slots.now ≡ length words.now }
    ensures { result ≡ false → fit (map kind_in slots.now) (map (λ word. word.now) words.now) ≡ false }
{
    for (place, slot) in slots.iter().enumerate() {
        if matches!(slot, Slot::Text(_)) && !fits(slot, words[place]) {
            return false;
        }
    }
    true
}
