ghost use Rattle.std.specs.Prelude.{◌≡◌, ◌+◌, ◌<◌, ◌^◌};
ghost use Rattle.memory_pool.specs.Ranges.{lies_within, ranges_meet};

/// Whether two ranges of addresses that are not empty have one in common. Each is given by its first
/// address and its length in bytes.
pub(crate) fn ranges_meet(start: u32, len: u32, other: u32, other_len: u32) -> bool
    ensures { result ≡ ranges_meet start len other other_len }
{
    u64::from(start) < range_end(other, other_len) && u64::from(other) < range_end(start, len)
}

/// Whether a range of addresses lies in another.
pub(crate) fn lies_within(start: u32, len: u32, other: u32, other_len: u32) -> bool
    ensures { result ≡ lies_within start len other other_len }
{
    other <= start && range_end(start, len) <= range_end(other, other_len)
}

/// The address after a range.
pub(crate) fn range_end(start: u32, len: u32) -> u64
    ensures end { result ≡ start + len }
    ensures most { result < 2 ^ 33 }
{
    u64::from(start) + u64::from(len)
}
