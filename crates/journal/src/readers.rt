ghost use Rattle.std.specs.Prelude.{◌≡◌, ◌↔◌, IfOk, Err, IsTrue, take};
ghost use Rattle.word_kinds.specs.Spellings.{words_of};
ghost use Rattle.journal.specs.Lines.{line};
ghost use Rattle.journal.specs.Reading.{IsWritten, event_of};
ghost use Rattle.journal.specs.declared.events.Event.{Event};
ghost use Rattle.journal.specs.declared.readers.LineFault.TheVariants as fault;

use crate::events::Event;
use crate::lines::line;
use crate::table::{event_in, form_of};
use rp_base::NoMemory;
use std::alloc::{AllocError, Global};
use word_kinds::{WORDS_MOST, first_words};

/// Why bytes were not read as an event.
#[derive(Clone, Copy, Debug, PartialEq, Eq)]
pub enum LineFault {
    /// No event has this line.
    NotALine,
    /// Memory ran out.
    NoMemory,
}

impl From<AllocError> for LineFault {
    ghost from_gives = { λ _ e. e ≡ fault.NoMemory };

    fn from(_error: AllocError) -> LineFault {
        LineFault::NoMemory
    }
}

impl From<NoMemory> for LineFault {
    ghost from_gives = { λ _ e. e ≡ fault.NoMemory };

    fn from(_error: NoMemory) -> LineFault {
        LineFault::NoMemory
    }
}

/// The event whose line these bytes are, with its line feed. What [`line`] writes is read back as
/// that event. Bytes are refused as [`LineFault::NotALine`] exactly where no event has this line;
/// an event here has names as scripts spell them, numbers of 64 bits, at most 512 bytes of payload,
/// 1 to 16 bytes of a ring, 1 to 256 of memory, names of channels of at most 31 bytes, and no zero
/// in a name or a trace's text.
///
/// # Errors
///
/// [`LineFault::NotALine`], or [`LineFault::NoMemory`] where memory is wanting.
pub fn read_line(alloc: Global, bytes: &[u8]) -> Result<Event, LineFault>
    ensures is_line { IfOk result (λ event. line event ≡ bytes.now) }
    ensures written { IfOk result (λ event. IsWritten event) }
    ensures back { (event : Event) → IsWritten event → line event ≡ bytes.now → IfOk result (λ read. read ≡ event) }
    ensures none { result ≡ Err fault.NotALine → (event : Event) → IsWritten event → line event ≡ bytes.now → ⊥ }
{
    let [text @ .., _end] = bytes else {
        return Err(LineFault::NotALine);
    };
    let Some(event) = event_of(alloc, text)? else {
        return Err(LineFault::NotALine);
    };
    if is_line_of(alloc, &event, bytes)? {
        Ok(event)
    } else {
        Err(LineFault::NotALine)
    }
}

/// The event that the words of a text say, whose line may still be another.
fn event_of(alloc: Global, text: &[u8]) -> Result<Option<Event>, AllocError>
    ensures { IfOk result (λ found. found ≡ event_of (take 9 (words_of text.now))) }
{
    let mut words = [b"".as_slice(); WORDS_MOST];
    let count = first_words(text, &mut words);
    match form_of(&words[..count]) {
        Some(form) => Ok(Some(event_in(alloc, form, &words[..count])?)),
        None => Ok(None),
    }
}

/// Whether these bytes are the line of an event.
fn is_line_of(alloc: Global, event: &Event, bytes: &[u8]) -> Result<bool, NoMemory>
    ensures { IfOk result (λ same. IsTrue same ↔ line event.now ≡ bytes.now) }
{
    let mut written = Vec::with_capacity(alloc, bytes.len())?;
    line(alloc, event, &mut written)?;
    Ok(written.as_slice() == bytes)
}
