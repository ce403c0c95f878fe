ghost use Rattle.std.specs.Prelude.{◌≡◌, ◌^◌, ◌<◌, length, IfOk};
ghost use Rattle.remote_core.specs.Records.{record_at, admitted, needs_link, has_large_operand};

use addr_translate::{CoreMemory, Map};
use remote_code::{Record, WorkerFault};
use rp_base::{Da, MESSAGE_MOST, PAYLOAD_MOST};

/// The record of this number, from 0 at the entry. Its 16 bytes have to lie in one block of memory.
pub(crate) fn record_at(
    memory: &CoreMemory,
    map: &Map,
    entry: Da,
    place: u32,
) -> Result<Record, WorkerFault>
    requires { length memory.now ≡ map.now.memory_len }
    ensures record { result ≡ record_at memory.now map.now entry place }
    ensures near { IfOk result (λ _. place < 2 ^ 28) }
{
    let address = u64::from(entry) + 16 * u64::from(place);
    let at = match Da::try_from(address) {
        Ok(address) => map.memory_at(address, 16),
        Err(_) => None,
    };
    match at {
        Some(at) => {
            let mut bytes = [0; 16];
            bytes.copy_from_slice(memory.bytes(at, 16));
            Record::read(&bytes)
        }
        None => Err(WorkerFault::CodeUnmapped),
    }
}

/// The record, if the link and its operands let it run.
pub(crate) fn admitted(op: Record, linked: bool) -> Result<Record, WorkerFault>
    ensures { result ≡ admitted linked op }
{
    if needs_link(op) && !linked {
        Err(WorkerFault::NoLink)
    } else if has_large_operand(op) {
        Err(WorkerFault::BadOperand)
    } else {
        Ok(op)
    }
}

/// Whether the record works on the link.
fn needs_link(op: Record) -> bool
    ensures { result ≡ needs_link op }
{
    match op {
        Record::Announce(..)
        | Record::Bind(_)
        | Record::Send(..)
        | Record::Raw(..)
        | Record::Take => true,
        Record::Halt | Record::Trace(..) | Record::Crash(_) | Record::Loop(..) => false,
    }
}

/// Whether an operand is larger than the operation takes.
fn has_large_operand(op: Record) -> bool
    ensures { result ≡ has_large_operand op }
{
    match op {
        Record::Send(n, ..) => usize::from(n) > PAYLOAD_MOST,
        Record::Raw(n, _) => usize::from(n) > MESSAGE_MOST,
        Record::Crash(a) => a > 2,
        _ => false,
    }
}
