ghost use Rattle.std.specs.Prelude.{◌≡◌};
ghost use Rattle.remote_code.specs.Records.{record_of, record_bytes, bytes_of_fields};

use crate::faults::WorkerFault;
use rp_base::{put_u16, put_u32, u16_at, u32_at};

/// One record of a worker's code.
///
/// A record has 16 bytes, and its fields are little-endian: the operation `op` in 2 bytes from 0,
/// `n` in 2 bytes from 2, and `a`, `b` and `c` in 4 bytes each from 4, 8 and 12. Each variant has
/// the operands that its operation names, in the order n, a, b, c.
#[derive(Clone, Copy, Debug, PartialEq, Eq)]
pub enum Record {
    /// 0: the worker ends.
    Halt,
    /// 1: announces the address `a` with the flags `b`, under the 32 name bytes at `c`.
    Announce(u32, u32, u32),
    /// 2: binds the address `a`.
    Bind(u32),
    /// 3: sends `n` bytes at `c` from the address `a` to the address `b`.
    Send(u16, u32, u32, u32),
    /// 4: sends `n` bytes at `c` as a whole message.
    Raw(u16, u32),
    /// 5: takes a message and gives its buffer back.
    Take,
    /// 6: copies `n` bytes from `c` to `a`.
    Trace(u16, u32, u32),
    /// 7: reports a crash of kind `a`.
    Crash(u32),
    /// 8: goes to record `b`, and at every `a`th turn on to the next record instead. With `a` 0 it
    /// always goes to `b`.
    Loop(u32, u32),
}

impl Record {
    /// The record in these bytes, with its operands as they are. Bytes of fields that the
    /// operation doesn't name are passed over.
    ///
    /// Errors: `UnknownOp` exactly where the operation is above 8.
    pub fn read(bytes: &[u8; 16]) -> Result<Record, WorkerFault>
        ensures { result ≡ record_of bytes.now }
    {
        let n = u16_at(bytes, 2);
        let a = u32_at(bytes, 4);
        let b = u32_at(bytes, 8);
        let c = u32_at(bytes, 12);
        match u16_at(bytes, 0) {
            0 => Ok(Record::Halt),
            1 => Ok(Record::Announce(a, b, c)),
            2 => Ok(Record::Bind(a)),
            3 => Ok(Record::Send(n, a, b, c)),
            4 => Ok(Record::Raw(n, c)),
            5 => Ok(Record::Take),
            6 => Ok(Record::Trace(n, a, c)),
            7 => Ok(Record::Crash(a)),
            8 => Ok(Record::Loop(a, b)),
            _ => Err(WorkerFault::UnknownOp),
        }
    }

    /// The bytes of the record. Fields that its operation doesn't name are 0.
    pub fn bytes(self) -> [u8; 16]
        ensures { result ≡ record_bytes self }
    {
        match self {
            Record::Halt => record_fields(0, 0, 0, 0, 0),
            Record::Announce(a, b, c) => record_fields(1, 0, a, b, c),
            Record::Bind(a) => record_fields(2, 0, a, 0, 0),
            Record::Send(n, a, b, c) => record_fields(3, n, a, b, c),
            Record::Raw(n, c) => record_fields(4, n, 0, 0, c),
            Record::Take => record_fields(5, 0, 0, 0, 0),
            Record::Trace(n, a, c) => record_fields(6, n, a, 0, c),
            Record::Crash(a) => record_fields(7, 0, a, 0, 0),
            Record::Loop(a, b) => record_fields(8, 0, a, b, 0),
        }
    }
}

/// The bytes of a record with these fields.
fn record_fields(op: u16, n: u16, a: u32, b: u32, c: u32) -> [u8; 16]
    ensures { result ≡ bytes_of_fields op n a b c }
{
    let mut bytes = [0; 16];
    put_u16(&mut bytes, 0, op);
    put_u16(&mut bytes, 2, n);
    put_u32(&mut bytes, 4, a);
    put_u32(&mut bytes, 8, b);
    put_u32(&mut bytes, 12, c);
    bytes
}
