ghost use Rattle.std.specs.Prelude.{◌≡◌, ◌+◌, ◌*◌, ◌≤◌, ◌<◌, ◌^◌, All, map, length};
ghost use Rattle.std.specs.List.{range_with_len, list_any};
ghost use Rattle.resource_table.specs.Entries.{start_of, type_at};
ghost use Rattle.resource_table.specs.Tables.{spans_meet, device_size, entry_size, entry_span, fixed_size, earlier_spans};
ghost use Rattle.resource_table.specs.Walks.{HaveFixedParts};

use crate::entries::{VDEV_SIZE, VRING_SIZE, byte_at};
use crate::header::{entry_start, offsets_end};
use crate::kinds::ResourceType;
use rp_base::u32_at;

/// The bytes of a table from one place on, up to another.
#[derive(Clone, Copy)]
pub(crate) struct Span {
    pub(crate) from: usize,
    pub(crate) to: usize,
}

impl Span {
    /// Whether two spans that are not empty have a byte in common.
    fn meets(self, other: Span) -> bool
        ensures { result ≡ spans_meet self other }
    {
        self.from < other.to && other.from < self.to
    }
}

/// The bytes of the device that begins at a place, in all.
pub(crate) fn device_size(bytes: &[u8], start: usize) -> usize
    requires { start + 28 ≤ length bytes.now }
    ensures size { result ≡ device_size bytes.now start }
    ensures small { result < 2 ^ 33 }
{
    VDEV_SIZE
        + VRING_SIZE * usize::from(byte_at(bytes, start + 25))
        + u32_at(bytes, start + 20) as usize
}

/// The bytes of the entry that begins at a place, in all.
#[tactic(auto, using(crate::proofs::Parts::fixed_size_least))]
fn entry_size(bytes: &[u8], start: usize) -> usize
    requires { start + fixed_size (type_at bytes.now start) ≤ length bytes.now }
    ensures size { result ≡ entry_size bytes.now start }
    ensures small { result < 2 ^ 33 }
{
    let kind = ResourceType::at(bytes, start);
    match kind {
        ResourceType::Vdev => device_size(bytes, start),
        _ => kind.fixed_size(),
    }
}

/// The bytes of the entry of a number.
pub(crate) fn entry_span(bytes: &[u8], index: u16) -> Span
    requires offset { 16 + 4 * (index + 1) ≤ length bytes.now }
    requires fixed { start_of bytes.now index + fixed_size (type_at bytes.now (start_of bytes.now index)) ≤ length bytes.now }
    ensures { result ≡ entry_span bytes.now index }
{
    let from = entry_start(bytes, index);
    Span {
        from,
        to: from + entry_size(bytes, from),
    }
}

/// Whether a span meets the header, the offsets or one of the first entries, so many of them, which
/// all end at `end` or before. The earlier entries are looked at only where the span begins before
/// that, so a table whose entries are in the order of its offsets takes one comparison for each.
pub(crate) fn meets_earlier(bytes: &[u8], span: Span, index: u16, end: usize) -> bool
    requires size { 16 ≤ length bytes.now }
    requires among { 16 + 4 * index ≤ length bytes.now }
    requires fixed { HaveFixedParts bytes.now index }
    requires end { All (λ earlier. earlier.to ≤ end) (earlier_spans bytes.now index) }
    ensures { result ≡ list_any (spans_meet span) (earlier_spans bytes.now index) }
{
    if end <= span.from {
        return false;
    }
    let head = Span {
        from: 0,
        to: offsets_end(bytes),
    };
    span.meets(head) || meets_entry(bytes, span, index)
}

/// Whether a span meets one of the first entries, so many of them.
#[tactic(auto, using(crate::proofs::Meetings::meets_more))]
fn meets_entry(bytes: &[u8], span: Span, index: u16) -> bool
    requires among { 16 + 4 * index ≤ length bytes.now }
    requires fixed { HaveFixedParts bytes.now index }
    ensures { result ≡ list_any (spans_meet span) (map (entry_span bytes.now) (range_with_len 0 index)) }
{
    for earlier in 0..index {
        if span.meets(entry_span(bytes, earlier)) {
            return true;
        }
    }
    false
}
