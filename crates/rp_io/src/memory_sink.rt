ghost use Rattle.std.specs.Prelude.{◌≡◌, ◌<◌, [], length, Ok, Err, IfOk, IsTrue, if◌then◌else◌};
ghost use Rattle.std.specs.Io.{WritesAtMost};
ghost use Rattle.std.specs.Io.KnownBytes.{WriteAppends};
ghost use Rattle.rp_io.specs.Calls.{ascends, no_calls};
ghost use Rattle.rp_io.specs.Causes.{HasCause};
ghost use Rattle.rp_io.specs.InMemory.{after_write, write_count, write_fails};

use crate::calls::CallPlan;
use crate::faults::Failed;
use crate::sinks::Sink;
use rp_base::NoMemory;
use std::alloc::Global;
use std::marker::Model;

/// A sink that keeps what is written, has room for so many bytes, and of which chosen writes fail.
#[derive(Drop)]
pub struct MemorySink {
    bytes: Vec<u8>,
    room: usize,
    most: usize,
    calls: CallPlan,
}

impl Model for MemorySink {
    ghost use Rattle.std.specs.Prelude.{◌<◌, ◌≤◌, length, vec_capacity};
    ghost use Rattle.rp_io.specs.InMemory.{SinkInMemory};

    ghost Value = { SinkInMemory };

    ghost view = { λ sink. record { written = sink.bytes.items; room = sink.room; most = sink.most; calls = sink.calls } };

    ghost invariant = { λ sink. (0 < sink.most) × (length sink.bytes.items ≤ sink.room) × (sink.room ≤ vec_capacity sink.bytes) };
}

impl MemorySink {
    /// A sink with room for `room` bytes in all, which it takes at once, and which takes at most
    /// `most` bytes a write. The writes whose numbers are in `fails`, counted from 0, are
    /// faults, and so is a write that finds the room used up.
    ///
    /// # Errors
    ///
    /// [`NoMemory`] where memory for the room ran out.
    pub fn new(
        alloc: Global,
        room: usize,
        most: usize,
        fails: Vec<u64>,
    ) -> Result<MemorySink, NoMemory>
        requires some { 0 < most }
        requires ascending { IsTrue (ascends fails.items) }
        ensures { IfOk result (λ sink. sink ≡ record { written = []; room = room; most = most; calls = no_calls fails.items }) }
    {
        Ok(MemorySink {
            bytes: Vec::with_capacity(alloc, room)?,
            room,
            most,
            calls: CallPlan::new(fails),
        })
    }

    /// All that was written.
    pub fn bytes(&self) -> &[u8]
        ensures { result.now ≡ self.now.written }
    {
        &self.bytes
    }

    /// How many writes failed.
    pub fn faults(&self) -> u64
        ensures { result ≡ self.now.calls.faults }
    {
        self.calls.faults()
    }
}

impl Sink for MemorySink {
    ghost use Rattle.std.specs.Prelude.{Some};

    ghost written = { λ sink. Some sink.written };

    ghost faults = { λ sink. sink.calls.faults };

    fn write(&mut self, bytes: &[u8]) -> Result<usize, Failed>
        requires { 0 < length bytes.now }
        ensures answer { result ≡ (if write_fails self.old then Err (record {}) else Ok (write_count self.old (length bytes.now))) }
        ensures after { self.new ≡ after_write self.old bytes.now }

        ensures bound { WritesAtMost result bytes.now }
        ensures some { IfOk result (λ count. 0 < count) }
        ensures bytes { WriteAppends (Some self.old.written) (Some self.new.written) result bytes.now }
        ensures cause { HasCause self.old.calls.faults self.new.calls.faults result }
    {
        let free = self.room - self.bytes.len();
        let fails = self.calls.fails_next() || free == 0;
        self.calls.count(fails);
        if fails {
            return Err(Failed);
        }
        let count = self.most.min(bytes.len()).min(free);
        match self.bytes.extend_from_slice(&bytes[..count]) {
            Ok(()) => Ok(count),
            Err(_) => unreachable!(),
        }
    }
}
