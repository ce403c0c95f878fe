ghost use Rattle.std.specs.Prelude.{◌≡◌, ℕ, ◌<◌, ◌≤◌, List, IsOk, length};
ghost use Rattle.remote_code.specs.declared.records.Record.{Record};
ghost use Rattle.remote_code.specs.Records.{record_of, record_bytes, op_of, IsInRange};

use crate::faults::WorkerFault;

/// Laws of records: each has 16 bytes, from which it is read again, where its operands fit their
/// fields. Reading is refused only for an operation that no record has.
pub fn records_read_back()
    ensures bytes { (r : Record) → length (record_bytes r) ≡ 16 }
    ensures read { (r : Record) → IsInRange r → record_of (record_bytes r) ≡ Ok r }
    ensures known { (bytes : List ℕ) → op_of bytes ≤ 8 → IsOk (record_of bytes) }
    ensures unknown { (bytes : List ℕ)
        → 8 < op_of bytes → record_of bytes ≡ Err WorkerFault.UnknownOp }
{}
