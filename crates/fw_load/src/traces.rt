ghost use Rattle.std.specs.Prelude.{◌≡◌, ◌==◌, ◌+◌, ◌≤◌, None, All, IfOk, IfSome, if◌then◌else◌};
ghost use Rattle.resource_table.specs.Entries.{entries_of};
ghost use Rattle.addr_translate.specs.Maps.{place_at};
ghost use Rattle.fw_load.specs.Rings.{IsTraceIn, trace_of, traces_of};

use addr_translate::Map;
use resource_table::{Entry, Table};
use rp_base::{Da, NoMemory};
use std::alloc::Global;

/// A trace of a firmware, a text that it writes.
#[derive(Clone, Copy)]
pub struct TraceAt {
    /// Where its bytes are in the core's memory: there is a place exactly where it has bytes, and
    /// one block of memory holds them all.
    pub at: Option<u32>,
    /// How many bytes it has.
    pub len: u32,
}

/// The traces of a table, in order.
pub(crate) fn traces_of(
    alloc: Global,
    table: &Table<'_>,
    map: &Map,
) -> Result<Vec<TraceAt>, NoMemory>
    ensures traces { IfOk result (λ traces. traces.items ≡ traces_of (place_at map.now) (entries_of table.now)) }
    ensures inside { IfOk result (λ traces. All (IsTraceIn map.now.memory_len) traces.items) }
{
    let mut traces = Vec::new(alloc);
    for index in 0..table.len() {
        if let Some(trace) = trace_of(map, &table.entry(index)) {
            traces.push(trace)?;
        }
    }
    Ok(traces)
}

/// The trace of an entry, where it is one.
fn trace_of(map: &Map, entry: &Entry) -> Option<TraceAt>
    ensures trace { result ≡ trace_of (place_at map.now) entry.now }
    ensures inside { IfSome result (IsTraceIn map.now.memory_len) }
{
    match entry {
        Entry::Trace(da, len, _) => Some(TraceAt {
            at: place_of(map, *da, *len),
            len: *len,
        }),
        _ => None,
    }
}

/// Where a range of device addresses is in the core's memory, if it is not empty and one block of
/// memory holds it whole.
fn place_of(map: &Map, da: Da, len: u32) -> Option<u32>
    ensures place { result ≡ (if len == 0 then None else place_at map.now da len) }
    ensures inside { IfSome result (λ at. at + len ≤ map.now.memory_len) }
{
    if len == 0 {
        return None;
    }
    map.memory_at(da, len)
}
