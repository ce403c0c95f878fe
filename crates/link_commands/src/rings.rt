ghost use Rattle.std.specs.Prelude.{◌≡◌, ◌++◌, ◌≤◌, ◌==◌, OnOk, length};
ghost use Rattle.std.specs.List.{list_all};
ghost use Rattle.journal.specs.Lines.{transcript};
ghost use Rattle.link_commands.specs.RingDumps.{bench_ring_events, dump_rows, ring_events, row_count, row_events};

use crate::event_fields::event;
use journal::Event;
use link_bench::Bench;
use rp_base::{Data, Name, NoMemory};
use run_log::RunLog;

/// The bytes of a line that shows a ring.
const ROW: usize = 16;

/// Writes the bytes of a lane's ring of a link, unless one of its turns is out.
#[tactic(auto, unfolding(crate::specs::RingDumps::bench_ring_events))]
pub(crate) fn tell_ring(
    name: Name,
    bench: &mut Bench,
    lane: u64,
    log: &mut RunLog,
) -> Result<(), NoMemory>
    requires { lane ≤ 1 }
    ensures same { bench.new ≡ bench.old }
    ensures told { OnOk result (log.new ≡ record log.old { lines = log.old.lines ++ transcript (bench_ring_events name bench.old lane) }) }
{
    if let Some(caller) = bench.turn_holder() {
        return log.tell(&event!(StillTurn, name, [caller]));
    }
    let bytes = bench.ring_bytes(log.alloc(), lane)?;
    tell_bytes(name, lane, &bytes, log)
}

/// Writes how many bytes the ring of a lane has, 0 that to the host or 1, and the bytes: sixteen a line, but
/// no line of zeros.
///
/// Errors: only if memory runs out.
pub fn tell_bytes(name: Name, lane: u64, bytes: &[u8], log: &mut RunLog) -> Result<(), NoMemory>
    requires { lane ≤ 1 }
    ensures { OnOk result (log.new ≡ record log.old { lines = log.old.lines ++ transcript (ring_events name lane bytes.now) }) }
{
    let len = bytes.len() as u64;
    log.tell(&Event::Ring { name, lane, len })?;
    tell_rows(name, bytes, log)
}

/// Writes bytes, sixteen a line, but no line of zeros.
fn tell_rows(name: Name, bytes: &[u8], log: &mut RunLog) -> Result<(), NoMemory>
    ensures { OnOk result (log.new ≡ record log.old { lines = log.old.lines ++ transcript (dump_rows (row_count bytes.now) name 0 bytes.now) }) }
{
    for row in 0..(bytes.len() + 15) / ROW {
        let first = ROW * row;
        let past = bytes.len().min(first + ROW);
        tell_row(name, first as u64, &bytes[first..past], log)?;
    }
    Ok(())
}

/// Writes up to sixteen bytes at an offset, unless all are zero.
fn tell_row(name: Name, offset: u64, row: &[u8], log: &mut RunLog) -> Result<(), NoMemory>
    requires { length row.now ≤ 16 }
    ensures { OnOk result (log.new ≡ record log.old { lines = log.old.lines ++ transcript (row_events name offset row.now) }) }
{
    if is_zeros(row) {
        return Ok(());
    }
    log.tell(&Event::Dump {
        name,
        offset,
        bytes: Data::copy_of(log.alloc(), row)?,
    })
}

fn is_zeros(bytes: &[u8]) -> bool
    ensures { result ≡ list_all (λ byte. byte == 0) bytes.now }
{
    bytes.iter().all(|byte| *byte == 0)
}
