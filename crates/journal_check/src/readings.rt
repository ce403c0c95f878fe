ghost use Rattle.std.specs.Prelude.{◌≡◌, IfOk};
ghost use Rattle.journal_check.specs.Readings.{IsReading};

use crate::endings::ending_of;
use journal::{Event, LineFault, Notice, read_line};
use rp_base::NoMemory;
use std::alloc::Global;

/// What a line of a transcript says.
#[derive(Drop)]
pub(crate) enum Reading {
    /// An event of a run.
    Event(Event),
    /// How a run ended that didn't come to the end of its script.
    Ending(Notice),
    /// It is no line of a transcript.
    Nothing,
}

/// What a line says.
pub(crate) fn reading_of(alloc: Global, line: &[u8]) -> Result<Reading, NoMemory>
    ensures { IfOk result (λ reading. IsReading line.now reading) }
{
    match read_line(alloc, line) {
        Ok(event) => Ok(Reading::Event(event)),
        Err(LineFault::NotALine) => match ending_of(alloc, line)? {
            Some(notice) => Ok(Reading::Ending(notice)),
            None => Ok(Reading::Nothing),
        },
        Err(LineFault::NoMemory) => Err(NoMemory),
    }
}
