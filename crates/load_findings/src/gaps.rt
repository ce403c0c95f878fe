ghost use Rattle.std.specs.Prelude.{◌≡◌, ℕ, ◌+◌, ◌%◌, ◌^◌, ◌<◌, ◌≤◌, true, false, IfSome};
ghost use Rattle.std.specs.List.{list_any};
ghost use Rattle.memory_pool.specs.Ranges.{lies_in, meets_block, ranges_meet};
ghost use Rattle.memory_pool.specs.OrderedBlocks.{IsOrdered};
ghost use Rattle.memory_pool.specs.Places.{least_place};
ghost use Rattle.memory_pool.specs.Soundness.{IsRange};

use memory_pool::{Block, Region};
use rp_base::Da;

/// The address after a range.
pub(crate) fn range_end(start: u32, len: u32) -> u64
    ensures end { result ≡ start + len }
    ensures most { result < 2 ^ 33 }
{
    u64::from(start) + u64::from(len)
}

/// Whether two ranges that are not empty have an address in common.
pub(crate) fn ranges_meet(start: u32, len: u32, other: u32, other_len: u32) -> bool
    ensures { result ≡ ranges_meet start len other other_len }
{
    u64::from(start) < range_end(other, other_len) && u64::from(other) < range_end(start, len)
}

/// The least aligned device address of a pool at which `len` bytes meet none of some blocks, which
/// are in the order of their addresses and do not meet each other. It takes time by the number of
/// blocks in the pool.
pub(crate) fn least_place(pool: &Region, blocks: &[Block], len: u32, align: u32) -> Option<Da>
    requires range { IsRange pool.now.da pool.now.pa pool.now.len }
    requires ordered { IsOrdered blocks.now }
    requires some { 1 ≤ len }
    requires aligned { 1 ≤ align }
    ensures place { result ≡ least_place pool.now blocks.now len align }
    ensures inside { IfSome result (λ da. lies_in da len pool.now ≡ true) }
{
    let first = blocks.partition_point(|block| range_end(block.da, block.len)
        <= u64::from(pool.da));
    let end = range_end(pool.da, pool.len);
    let place = first_gap(
        &blocks[first..],
        pool.da,
        u64::from(len),
        u64::from(align),
        end,
    );
    if place + u64::from(len) <= end {
        Some(place as u32)
    } else {
        None
    }
}

/// The least aligned device address from `from` on at which `len` bytes meet none of some blocks,
/// which are in the order of their addresses; or an aligned one at which they pass `end`, and no
/// lesser one will do.
fn first_gap(blocks: &[Block], from: Da, len: u64, align: u64, end: u64) -> u64
    requires some { 1 ≤ len }
    requires len { len < 2 ^ 32 }
    requires aligned { 1 ≤ align }
    requires align { align < 2 ^ 32 }
    requires ordered { IsOrdered blocks.now }
    ensures from { from ≤ result }
    ensures bound { result < 2 ^ 34 }
    ensures aligned { result % align ≡ 0 }
    ensures clear { result + len ≤ end → list_any (meets_block result len) blocks.now ≡ false }
    ensures least { (lower : ℕ) → from ≤ lower → lower < result → lower % align ≡ 0 → list_any (meets_block lower len) blocks.now ≡ true }
{
    let mut free = u64::from(from);
    for block in blocks {
        if free + len > end {
            break;
        }
        if free + len <= u64::from(block.da) {
            let place = free.next_multiple_of(align);
            if place + len <= u64::from(block.da) {
                return place;
            }
        }
        free = free.max(range_end(block.da, block.len));
    }
    free.next_multiple_of(align)
}
