ghost use Rattle.std.specs.Prelude.{◌≡◌, ◌++◌, slice_get, IfOk, OnOk};
ghost use Rattle.image_report.specs.TableRows.{device_rows, entry_rows, is_available, ring_row, table_rows, trace_row, traces_behind};

use fw_load::{PatchedTable, TraceAt};
use journal::TableLine;
use resource_table::{Entry, Ring, Vdev};
use rp_base::{Da, Name, NoMemory};
use std::alloc::Global;

/// The lines about the entries of a patched resource table, whose traces are these in order.
///
/// Errors: only if memory runs out.
pub fn table_rows(
    alloc: Global,
    table: &PatchedTable,
    traces: &[TraceAt],
) -> Result<Vec<TableLine>, NoMemory>
    ensures { IfOk result (λ rows. rows.items ≡ table_rows table.now traces.now) }
{
    let mut rows = Vec::new(alloc);
    let Some(table) = table.table() else {
        return Ok(rows);
    };
    let mut left = traces;
    for index in 0..table.len() {
        let entry = table.entry(index);
        push_entry(&mut rows, index, &entry, is_available(left))?;
        left = traces_behind(&entry, left);
    }
    Ok(rows)
}

/// The traces after those of an entry.
fn traces_behind<'a>(entry: &Entry, traces: &'a [TraceAt]) -> &'a [TraceAt]
    ensures { result.now ≡ traces_behind entry.now traces.now }
{
    match entry {
        Entry::Trace(_, _, _) if !traces.is_empty() => &traces[1..],
        _ => traces,
    }
}

/// Whether some block of memory holds the first of these traces.
fn is_available(traces: &[TraceAt]) -> bool
    ensures { result ≡ is_available (slice_get traces.now 0) }
{
    match traces.first() {
        Some(trace) => trace.at.is_some(),
        None => false,
    }
}

/// The lines of an entry, whose trace, if it is one, is available or not.
fn push_entry(
    rows: &mut Vec<TableLine>,
    index: u16,
    entry: &Entry,
    available: bool,
) -> Result<(), NoMemory>
    ensures { OnOk result (rows.new.items ≡ rows.old.items ++ entry_rows index entry.now available) }
{
    let index = u64::from(index);
    match entry {
        Entry::Carveout(da, pa, len, name) => {
            rows.push(TableLine::Carveout(index, *da, *pa, *len, *name))?;
        }
        Entry::Devmem(da, pa, len, name) => {
            rows.push(TableLine::Devmem(index, *da, *pa, *len, *name))?;
        }
        Entry::Trace(da, len, name) => {
            rows.push(trace_row(index, *da, *len, *name, available))?;
        }
        Entry::Device(device) => push_device(rows, index, device)?,
        Entry::Skipped(kind) => rows.push(TableLine::Skipped(index, u64::from(*kind)))?,
    }
    Ok(())
}

/// The line of a trace.
fn trace_row(index: u64, da: Da, len: u32, name: Name, available: bool) -> TableLine
    ensures { result ≡ trace_row index da len name available }
{
    if available {
        TableLine::Trace(index, da, len, name)
    } else {
        TableLine::TraceUnavailable(index, da, len, name)
    }
}

/// The line of a device, and those of its rings.
fn push_device(rows: &mut Vec<TableLine>, index: u64, device: &Vdev) -> Result<(), NoMemory>
    ensures { OnOk result (rows.new.items ≡ rows.old.items ++ device_rows index device.now) }
{
    rows.push(TableLine::Vdev(
        index,
        u64::from(device.id),
        u64::from(device.guest),
        u64::from(device.status),
    ))?;
    if device.count > 0 {
        rows.push(ring_row(index, 0, &device.first))?;
    }
    if device.count > 1 {
        rows.push(ring_row(index, 1, &device.second))?;
    }
    Ok(())
}

/// The line of a ring.
fn ring_row(index: u64, number: u64, ring: &Ring) -> TableLine
    ensures { result ≡ ring_row index number ring.now }
{
    TableLine::Vring(
        index,
        number,
        ring.da,
        u64::from(ring.align),
        u64::from(ring.num),
        u64::from(ring.notify),
    )
}
