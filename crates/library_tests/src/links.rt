ghost use Rattle.std.specs.Prelude.{◌≡◌, IfSome};
ghost use Rattle.lane_model.specs.Conditions.{IsConfig};

use crate::desks::TestDesk;
use crate::trait_calls::{give, may_step, take};
use lane_model::{
    Book, Books, CallEnd, Held, LaneForm, LaneLink, LinkConfig, ListLink, ReopenFault, Wish,
};
use ring_core::ring_link;
use rp_base::{Buffer, CallerNo, End, Message, is_ring_size};
use std::alloc::Global;
use std::test::Fail;

/// Whether a message is there with these bytes.
fn has_bytes(found: Option<&[u8]>, want: &[u8]) -> bool {
    match found {
        Some(bytes) => bytes == want,
        None => false,
    }
}

/// Rings of four entries each way and a book of six messages, live in the first incarnation.
fn config() -> Option<LinkConfig>
    ensures { IfSome result (λ config. IsConfig config) }
{
    if !is_ring_size(4) {
        return None;
    }
    Some(LinkConfig {
        num0: 4,
        num1: 4,
        book: 6,
        first: 1,
        base: 0,
    })
}

/// Caller 0 on the remote sends these bytes as a whole call, and gets this number.
fn sends<L: LaneForm>(link: &mut LaneLink<L>, caller: CallerNo, bytes: &[u8], number: u64) -> bool {
    let Some(message) = Message::of(bytes) else {
        return false;
    };
    let wished = Some(Wish::Send(message));
    if !may_step(link, caller, &wished) {
        return false;
    }
    let mut end = CallEnd::Gave(0);
    if let Some(wish) = &wished {
        link.call(caller, 1, wish, &mut end);
    }
    matches!(end, CallEnd::Sent(sent) if sent == number)
}

/// Whether caller 1 is handed these bytes through the trait of links, and gives the buffer back.
fn takes_and_gives<L: LaneForm>(link: &mut LaneLink<L>, bytes: &[u8]) -> bool {
    match take(link) {
        Some(held) => held.message().bytes() == bytes && give(link, held),
        None => false,
    }
}

/// Whether these are the books of an incarnation 1 in which caller 0 sent two messages and caller 1 was handed one.
fn has_both(books: &Books) -> bool {
    books.inc == 1
        && books.to_host.len() == 2
        && books.to_host.caller(1) == Some(0)
        && has_bytes(books.to_host.message(0), b"one")
        && books.to_host_handed == 1
        && books.to_host_takers.as_slice() == [1].as_slice()
        && books.to_remote.len() == 0
        && books.to_remote_handed == 0
        && books.to_remote_takers.is_empty()
}

/// Whether caller 0 sends on neither lane.
fn is_quiet<L: LaneForm>(link: &LaneLink<L>) -> bool {
    !link.to_host().is_sending(0) && !link.to_remote().is_sending(0)
}

/// Whether a message goes there and its buffer back, and the link is closed, reclaimed from and reopened with its books.
fn lives_twice<L: LaneForm>(link: &mut LaneLink<L>, alloc: Global) -> bool {
    let is_handed = link.caller(End::Remote) == Some(0)
        && link.caller(End::Host) == Some(1)
        && sends(link, 0, b"one", 0)
        && takes_and_gives(link, b"one")
        && sends(link, 0, b"two", 1);
    let is_closed = matches!(link.reopen(alloc), Err(ReopenFault::StillOpen(_)))
        && link.close(1).is_ok()
        && link.close(1).is_err()
        && link.reclaim(0, None, Vec::new(alloc)).is_ok()
        && link.end_of(0).is_none();
    match link.reopen(alloc) {
        Ok(books) => {
            is_handed && is_closed && has_both(&books) && link.era().inc == 2 && is_quiet(link)
        }
        Err(_) => false,
    }
}

#[test]
fn a_link_lives_twice_in_both_forms(rt: HostRuntime) -> Result<(), Fail> {
    let alloc = rt.alloc();
    let config = config().ok_or("sizes of rings")?;
    let mut link = ListLink::make(alloc, config, TestDesk, TestDesk)?;
    assert!(rt; lives_twice(&mut link, alloc));
    let mut link = ring_link(alloc, config, TestDesk, TestDesk)?;
    assert!(rt; lives_twice(&mut link, alloc));
    Ok(())
}

// A held buffer by its parts, and a book of two messages.
#[test]
fn held_buffers_and_books(rt: HostRuntime) -> Result<(), Fail> {
    let message = Message::of(b"held").ok_or("four bytes")?;
    let held = Held::of(1, 5, 9, Buffer { id: 3, message });
    let (lane, caller, number, buffer) = held.into_parts();
    assert_eq!(rt; (lane, caller, number, buffer.id), (1, 5, 9, 3));
    let mut book = Book::with_room(rt.alloc(), 2)?;
    if book.len() < u64::from(book.room()) {
        book.push(7, b"one");
    }
    assert!(rt; has_bytes(book.message(0), b"one") && book.message(1).is_none());
    Ok(())
}
