//! What was sent on a lane, and what was handed over.
use crate::workers::{Entry, MESSAGES};
use std::alloc::{AllocError, Global};
use std::fmt::{self, Write};

/// A message that no number has.
const NONE: u64 = u64::MAX;

/// The book of a lane, by number, with what is wrong in it.
#[derive(Drop)]
pub struct Book {
    entries: Vec<u64>,
    sent: u64,
    taken: u64,
    wrong: u64,
}

impl Book {
    pub fn new(alloc: Global) -> Result<Book, AllocError> {
        Ok(Book {
            entries: vec![in alloc; NONE; 4 * MESSAGES as usize]?,
            sent: 0,
            taken: 0,
            wrong: 0,
        })
    }

    /// These were sent: each number once.
    pub fn add(&mut self, sent: &[Entry]) {
        for entry in sent {
            self.sent = self.sent.wrapping_add(1);
            match self.entries.get_mut(entry.number as usize) {
                Some(place) if *place == NONE => *place = entry.payload,
                _ => self.wrong = self.wrong.wrapping_add(1),
            }
        }
    }

    /// These were handed over: each the entry of its number, once.
    pub fn take(&mut self, taken: &[Entry]) {
        for entry in taken {
            self.taken = self.taken.wrapping_add(1);
            match self.entries.get_mut(entry.number as usize) {
                Some(place) if *place == entry.payload => *place = NONE,
                _ => self.wrong = self.wrong.wrapping_add(1),
            }
        }
    }
}

impl fmt::Display for Book {
    fn fmt<W: Write>(&self, f: &mut fmt::Formatter<W>) -> fmt::Result {
        write!(
            f,
            "{} sent, {} taken, {} wrong",
            self.sent, self.taken, self.wrong
        )
    }
}
