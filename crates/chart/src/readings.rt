ghost use Rattle.std.specs.Prelude.{◌≡◌, ◌==◌, ℕ, ◌<◌, ◌≤◌, ◌∷◌, length, position, Err, IfOk};
ghost use Rattle.journal_check.specs.Lines.{lines_of};
ghost use Rattle.chart.specs.Readings.{AreLines, IsFirstOther};
ghost use Rattle.chart.specs.declared.limits.TheConstants.{LINES_MOST};

use crate::limits::LINES_MOST;
use journal::{Event, LineFault, read_line};
use std::alloc::{AllocFailed, Global};

/// Why a text was not read as the transcript of a run.
#[derive(Clone, Copy, Debug, PartialEq, Eq)]
pub enum EventsFault {
    /// This line, from 1, is the first that is no event's.
    NotALine(u64),
    /// It has more than [`LINES_MOST`] lines, and the first so many are events'.
    TooLong,
    /// Memory ran out.
    NoMemory,
}

impl<T: Drop> From<AllocFailed<T>> for EventsFault {
    ghost use Rattle.chart.specs.declared.readings.EventsFault.TheVariants as fault;

    ghost from_gives = { λ _ e. e ≡ fault.NoMemory };

    fn from(_error: AllocFailed<T>) -> EventsFault {
        EventsFault::NoMemory
    }
}

/// The events whose lines a text is, in order.
///
/// # Errors
///
/// [`EventsFault::NotALine`] with the first line that is no event's, [`EventsFault::TooLong`] where
/// there are more than [`LINES_MOST`] lines, [`EventsFault::NoMemory`] where memory ran out.
pub fn read_events(alloc: Global, bytes: &[u8]) -> Result<Vec<Event>, EventsFault>
    ensures lines { IfOk result (λ events. AreLines (lines_of bytes.now) events.items) }
    ensures few { IfOk result (λ events. length events.items ≤ LINES_MOST) }
    ensures first { (number : ℕ) → result ≡ Err (EventsFault.NotALine number) → IsFirstOther (lines_of bytes.now) number }
    ensures long { result ≡ Err EventsFault.TooLong → LINES_MOST < length (lines_of bytes.now) }
{
    let mut events = Vec::new(alloc);
    let mut rest = bytes;
    while !rest.is_empty() {
        let (line, more) = cut_line(rest);
        if events.len() >= LINES_MOST {
            return Err(EventsFault::TooLong);
        }
        match read_line(alloc, line) {
            Ok(event) => events.push(event)?,
            Err(LineFault::NotALine) => {
                return Err(EventsFault::NotALine(events.len() as u64 + 1));
            }
            Err(LineFault::NoMemory) => return Err(EventsFault::NoMemory),
        }
        rest = more;
    }
    Ok(events)
}

/// The first line of a text that isn't empty, and what comes after it.
fn cut_line(text: &[u8]) -> (&[u8], &[u8])
    requires { 0 < length text.now }
    ensures lines { lines_of text.now ≡ result.0.now ∷ lines_of result.1.now }
    ensures shorter { length result.1.now < length text.now }
{
    match first_feed(text) {
        Some(place) => text.split_at(place + 1),
        None => (text, &[]),
    }
}

/// The place of the first line feed.
fn first_feed(text: &[u8]) -> Option<usize>
    ensures { result ≡ position (λ byte. byte == 10) text.now }
{
    text.iter().position(|byte| *byte == b'\n')
}
