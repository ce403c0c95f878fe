//! Where the words of a link are in its table: the idle word, the era, the four turns and the four indexes 16 words apart, and
//! the entries after them 8 words apart, so that words which different ends write are on cache lines of their own.
ghost use Rattle.std.specs.Prelude.{◌≡◌, ◌≤◌, ◌+◌, ◌*◌};
ghost use Rattle.rp_base.specs.declared.limits.TheConstants.{RING_MOST};
ghost use Rattle.link_words.specs.Words.{other, sizes_at, entries_before, ring_before, entry_number, IsSized, sender_word, receiver_word, forward_word, return_word};
ghost use Rattle.link_words.specs.Layouts.{place_in};

use crate::rule::{LinkSizes, Ring};
use rp_base::End;

/// The word of the era.
pub const ERA_PLACE: usize = 16;

/// The other end.
#[inline(always)]
pub(crate) fn other(end: End) -> End
    ensures { result ≡ other end }
{
    match end {
        End::Host => End::Remote,
        End::Remote => End::Host,
    }
}

/// The word of the sender's turn of the lane to an end.
#[inline(always)]
pub(crate) fn sender_place(lane: End) -> usize
    ensures { result ≡ place_in (sender_word lane) }
{
    match lane {
        End::Host => 32,
        End::Remote => 64,
    }
}

/// The word of the receiver's turn.
#[inline(always)]
pub(crate) fn receiver_place(lane: End) -> usize
    ensures { result ≡ place_in (receiver_word lane) }
{
    match lane {
        End::Host => 48,
        End::Remote => 80,
    }
}

/// The word of the forward ring's index.
#[inline(always)]
pub fn forward_place(lane: End) -> usize
    ensures { result ≡ place_in (forward_word lane) }
{
    match lane {
        End::Host => 96,
        End::Remote => 128,
    }
}

/// The word of the return ring's index.
#[inline(always)]
pub fn return_place(lane: End) -> usize
    ensures { result ≡ place_in (return_word lane) }
{
    match lane {
        End::Host => 112,
        End::Remote => 144,
    }
}

/// How many entries each ring of a lane has.
#[inline(always)]
fn entries_in(sizes: &LinkSizes, lane: End) -> u64
    requires { IsSized sizes.now }
    ensures entries { result ≡ (sizes_at sizes.now lane).entries }
    ensures some { (1 ≤ result) × (result ≤ RING_MOST) }
{
    match lane {
        End::Host => u64::from(sizes.to_host.entries),
        End::Remote => u64::from(sizes.to_remote.entries),
    }
}

/// How many entries are before those of a ring.
#[inline(always)]
fn entries_before(sizes: &LinkSizes, lane: End, ring: Ring) -> u64
    requires { IsSized sizes.now }
    ensures before { result ≡ entries_before sizes.now lane + ring_before (sizes_at sizes.now lane) ring }
    ensures most { result ≤ 4 * RING_MOST }
{
    let to_host = u64::from(sizes.to_host.entries);
    let to_remote = u64::from(sizes.to_remote.entries);
    match (lane, ring) {
        (End::Host, Ring::Forward) => 0,
        (End::Host, Ring::Return) => to_host,
        (End::Remote, Ring::Forward) => to_host + to_host,
        (End::Remote, Ring::Return) => to_host + to_host + to_remote,
    }
}

/// The word of the entry of this count in a ring: counts go round the ring.
#[inline(always)]
pub fn entry_place(sizes: &LinkSizes, lane: End, ring: Ring, count: u64) -> usize
    requires { IsSized sizes.now }
    ensures { result ≡ place_in (entry_number sizes.now lane ring count) }
{
    let position = count % entries_in(sizes, lane);
    let before = entries_before(sizes, lane, ring);
    (160 + (before + position) * 8) as usize
}
