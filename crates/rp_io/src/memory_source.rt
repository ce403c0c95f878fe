ghost use Rattle.std.specs.Prelude.{◌≡◌, ◌<◌, ◌++◌, length, take, drop, Ok, Err, IfOk, IsTrue, if◌then◌else◌};
ghost use Rattle.std.specs.Io.{ReadsAtMost};
ghost use Rattle.std.specs.Io.KnownBytes.{ReadConsumes};
ghost use Rattle.rp_io.specs.Calls.{ascends, fails_next, no_calls};
ghost use Rattle.rp_io.specs.Causes.{HasCause};
ghost use Rattle.rp_io.specs.Contents.{EndsWhereEmpty};
ghost use Rattle.rp_io.specs.InMemory.{after_read, read_count};

use crate::calls::CallPlan;
use crate::faults::Failed;
use crate::plain::PlainSource;
use crate::sources::Source;
use std::marker::Model;

/// A source of the bytes of a list, of which chosen reads fail.
#[derive(Drop)]
pub struct MemorySource {
    bytes: PlainSource,
    most: usize,
    calls: CallPlan,
}

impl Model for MemorySource {
    ghost use Rattle.std.specs.Prelude.{◌<◌};
    ghost use Rattle.rp_io.specs.InMemory.{SourceInMemory};

    ghost Value = { SourceInMemory };

    ghost view = { λ source. record { left = source.bytes; most = source.most; calls = source.calls } };

    ghost invariant = { λ source. 0 < source.most };
}

impl MemorySource {
    /// A source of these bytes that gives at most `most` of them a read. The reads whose numbers
    /// are in `fails`, counted from 0, are faults.
    pub fn new(bytes: Vec<u8>, most: usize, fails: Vec<u64>) -> MemorySource
        requires some { 0 < most }
        requires ascending { IsTrue (ascends fails.items) }
        ensures { result ≡ record { left = bytes.items; most = most; calls = no_calls fails.items } }
    {
        MemorySource {
            bytes: PlainSource::new(bytes),
            most,
            calls: CallPlan::new(fails),
        }
    }

    /// How many reads failed.
    pub fn faults(&self) -> u64
        ensures { result ≡ self.now.calls.faults }
    {
        self.calls.faults()
    }
}

impl Source for MemorySource {
    ghost use Rattle.std.specs.Prelude.{Some};

    ghost left = { λ source. Some source.left };

    ghost faults = { λ source. source.calls.faults };

    fn read(&mut self, into: &mut [u8]) -> Result<usize, Failed>
        requires { 0 < length into.old }
        ensures answer { result ≡ (if fails_next self.old.calls then Err (record {}) else Ok (read_count self.old (length into.old))) }
        ensures moved { into.new ≡ take (read_count self.old (length into.old)) self.old.left ++ drop (read_count self.old (length into.old)) into.old }
        ensures after { self.new ≡ after_read self.old (length into.old) }

        ensures bound { ReadsAtMost result into.new }
        ensures bytes { ReadConsumes (Some self.old.left) (Some self.new.left) result into.new }
        ensures end { IfOk result (EndsWhereEmpty (Some self.old.left)) }
        ensures cause { HasCause self.old.calls.faults self.new.calls.faults result }
    {
        let fails = self.calls.fails_next();
        self.calls.count(fails);
        if fails {
            return Err(Failed);
        }
        Ok(self.bytes.move_front(into, self.most))
    }
}
