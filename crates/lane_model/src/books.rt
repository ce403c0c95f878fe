ghost use Rattle.std.specs.Prelude.{◌≡◌, ◌<◌, ◌≤◌, [], ◌∷◌, ◌++◌, length, slice_get, vec_capacity, vec_len, ◌+◌, All, IfOk, IfSome};
ghost use Rattle.lane_model.specs.Books.{IsMarkIn, entry_in};
ghost use Rattle.std.specs.Option.{option_map};
ghost use Rattle.rp_base.specs.declared.limits.TheConstants.{MESSAGE_MOST, BOOK_MOST};

use rp_base::{CallerNo, MESSAGE_MOST, NoMemory};
use std::alloc::Global;
use std::marker::Model;

/// The messages that a lane has accepted in this incarnation, in the order of their numbers: their
/// bytes one after the other, and for each who sent it and where it lies. All its room is taken when
/// it is made. Contracts see the list of its entries, and for how many it has room.
#[derive(Drop)]
pub struct Book {
    bytes: Vec<u8>,
    marks: Vec<Mark>,
    room: u32,
}

/// From how many bytes on a message of the same bytes as the one before lies where that lies. All shorter
/// ones of the largest book take 17 MB, and are not worth the look.
const REPEAT_LEAST: usize = 64;

/// Who sent a message, and where it lies among the bytes of all.
#[derive(Clone, Copy)]
pub(crate) struct Mark {
    pub caller: CallerNo,
    pub start: u32,
    pub end: u32,
}

impl Model for Book {
    ghost use Rattle.std.specs.Prelude.{map};
    ghost use Rattle.lane_model.specs.Books.{BookList, entry_in, IsBookInside};

    ghost Value = { BookList };

    ghost view = { λ b. record { entries = map (entry_in b.bytes.items) b.marks.items; room = b.room } };

    ghost invariant = { IsBookInside };
}

impl Book {
    /// An empty book with room for so many messages.
    pub fn with_room(alloc: Global, room: u32) -> Result<Book, NoMemory>
        requires { room ≤ BOOK_MOST }
        ensures { IfOk result (λ book. book ≡ record { entries = []; room = room }) }
    {
        let bytes = Vec::with_capacity(alloc, MESSAGE_MOST * room as usize)?;
        let marks = Vec::with_capacity(alloc, room as usize)?;
        Ok(Book { bytes, marks, room })
    }

    /// How many messages it has.
    pub fn len(&self) -> u64
        ensures len { result ≡ length self.now.entries }
        ensures within { length self.now.entries ≤ self.now.room }
        ensures few { length self.now.entries ≤ BOOK_MOST }
    {
        self.marks.len() as u64
    }

    /// For how many messages it has room.
    pub fn room(&self) -> u32
        ensures room { result ≡ self.now.room }
        ensures most { result ≤ BOOK_MOST }
    {
        self.room
    }

    /// Adds a message of this caller under the next number. A long one of the same bytes as the message before
    /// lies where that lies, so a sender that repeats itself fills no memory. Takes no memory.
    pub fn push(&mut self, caller: CallerNo, message: &[u8])
        requires room { length self.old.entries < self.old.room }
        requires fits { length message.now ≤ MESSAGE_MOST }
        ensures { self.new ≡ record self.old { entries = self.old.entries ++ record { caller = caller; message = message.now } ∷ [] } }
    {
        let book = &*self;
        if let Some(last) = repeated(&book.bytes, &book.marks, message) {
            self.marks.push_reserved(Mark {
                caller,
                start: last.start,
                end: last.end,
            });
            return;
        }
        let start = self.bytes.len() as u32;
        append(&mut self.bytes, message);
        self.marks.push_reserved(Mark {
            caller,
            start,
            end: self.bytes.len() as u32,
        });
    }

    /// The bytes of the message of a number. There is none exactly where the book is shorter.
    pub fn message(&self, number: u64) -> Option<&[u8]>
        ensures message { option_map (λ bytes. bytes.now) result ≡ option_map (λ entry. entry.message) (slice_get self.now.entries number) }
        ensures short { IfSome result (λ bytes. length bytes.now ≤ MESSAGE_MOST) }
    {
        let mark = self.marks.get(number as usize)?;
        Some(&self.bytes[mark.start as usize..mark.end as usize])
    }

    /// Who sent the message of a number. There is none exactly where the book is shorter.
    pub fn caller(&self, number: u64) -> Option<CallerNo>
        ensures { result ≡ option_map (λ entry. entry.caller) (slice_get self.now.entries number) }
    {
        let mark = self.marks.get(number as usize)?;
        Some(mark.caller)
    }
}

/// The mark of the last message, where that has these bytes and they are many.
fn repeated(bytes: &[u8], marks: &[Mark], message: &[u8]) -> Option<Mark>
    requires { All (IsMarkIn (length bytes.now)) marks.now }
    ensures { IfSome result (λ mark. IsMarkIn (length bytes.now) mark × ((entry_in bytes.now mark).message ≡ message.now)) }
{
    let last = *marks.last()?;
    if message.len() >= REPEAT_LEAST && &bytes[last.start as usize..last.end as usize] == message {
        Some(last)
    } else {
        None
    }
}

/// Appends bytes for which there is room.
fn append(bytes: &mut Vec<u8>, more: &[u8])
    requires { length bytes.old.items + length more.now ≤ vec_capacity bytes.old }
    ensures items { bytes.new.items ≡ bytes.old.items ++ more.now }
    ensures len { vec_len bytes.new ≡ vec_len bytes.old + length more.now }
    ensures capacity { vec_capacity bytes.old ≤ vec_capacity bytes.new }
{
    match bytes.extend_from_slice(more) {
        Ok(()) => {}
        Err(_) => unreachable!(),
    }
}
