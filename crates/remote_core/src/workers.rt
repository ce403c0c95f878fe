ghost use Rattle.std.specs.Prelude.{◌≡◌, ◌^◌, ◌<◌, length, IfOk};

use crate::records::{admitted, record_at};
use crate::works::perform;
use addr_translate::{CoreMemory, Map};
use lane_model::Wish;
use remote_code::{Record, WorkerFault};
use rp_base::{CrashKind, Da, Message};
use std::marker::Model;

/// What a worker did.
#[derive(Drop)]
pub enum Work {
    /// It ran a record that asks for nothing.
    Nothing,
    /// It ran a record that asks for a call of its link.
    Ask(Wish),
    /// It has ended.
    Halted,
    /// It ran a record that reports a crash.
    Crash(CrashKind),
    /// It can't run its record.
    Fault(WorkerFault),
}

/// What a worker did, which writes the call that it asks for beside it.
pub enum Task {
    /// It ran a record that asks for nothing.
    Nothing,
    /// It ran a record that asks for a call of its link.
    Asked,
    /// It has ended.
    Halted,
    /// It ran a record that reports a crash.
    Crash(CrashKind),
    /// It can't run its record.
    Fault(WorkerFault),
}

/// The worker of a remote core. It runs the records that are at the entry of its image, of 16 bytes
/// each. Contracts see the device address of record 0, the number of the record that it runs next, the
/// turns of its loops, the source of the last whole message that it took, and whether it has ended.
#[derive(Drop)]
pub struct Worker {
    entry: Da,
    place: u32,
    turns: u32,
    source: u32,
    is_halted: bool,
}

impl Model for Worker {
    ghost use Rattle.remote_core.specs.Workers.{WorkerState};

    ghost Value = { WorkerState };

    ghost view = { λ worker. record {
      entry = worker.entry;
      place = worker.place;
      turns = worker.turns;
      source = worker.source;
      is_halted = worker.is_halted;
    } };
}

impl Worker {
    ghost use Rattle.remote_core.specs.Workers.{new_worker, after_take};
    ghost use Rattle.remote_core.specs.Records.{next_record};
    ghost use Rattle.remote_core.specs.Works.{work_of, work_with, done_with, after_work, memory_after, work_of_next, after_record, after_next, memory_after_next, IsFitWork};

    /// A worker that is at its first record, and took no message yet.
    pub fn new(entry: Da) -> Worker
        ensures { result ≡ new_worker entry }
    {
        Worker {
            entry,
            place: 0,
            turns: 0,
            source: 0,
            is_halted: false,
        }
    }

    /// Runs one record. A worker that has ended does nothing more. The memory and the map are of the
    /// same regions; `linked` says whether the core has a link.
    ///
    /// Faults come in this order: `CodeUnmapped` where no block of memory holds the whole record,
    /// `UnknownOp` where its operation is above 8, `NoLink` where it works on a link and there is none,
    /// `BadOperand` where a send has more than 496 bytes, a raw one more than 512 or a crash another
    /// kind than 0 to 2, and `CodeUnmapped` where no block of memory holds all bytes that it names. A
    /// fault leaves the worker and the memory as they were.
    pub fn next(&mut self, memory: &mut CoreMemory, map: &Map, linked: bool) -> Work
        requires { length memory.old ≡ map.now.memory_len }
        ensures work { result ≡ work_of memory.old map.now linked self.old }
        ensures worker { self.new ≡ after_work memory.old map.now linked self.old }
        ensures memory { memory.new ≡ memory_after memory.old map.now linked self.old }
        ensures length { length memory.new ≡ length memory.old }
        ensures fit { IsFitWork result }
    {
        let mut wish = Wish::Take;
        match self.work(memory, map, linked, &mut wish) {
            Task::Nothing => Work::Nothing,
            Task::Asked => Work::Ask(wish),
            Task::Halted => Work::Halted,
            Task::Crash(kind) => Work::Crash(kind),
            Task::Fault(fault) => Work::Fault(fault),
        }
    }

    /// Runs one record as [`Worker::next`] does. The call that it asks for becomes the wish; what is
    /// there after another record counts for nothing.
    pub fn work(
        &mut self,
        memory: &mut CoreMemory,
        map: &Map,
        linked: bool,
        wish: &mut Wish,
    ) -> Task
        requires { length memory.old ≡ map.now.memory_len }
        ensures work { work_with result wish.new ≡ work_of memory.old map.now linked self.old }
        ensures worker { self.new ≡ after_work memory.old map.now linked self.old }
        ensures memory { memory.new ≡ memory_after memory.old map.now linked self.old }
        ensures length { length memory.new ≡ length memory.old }
        ensures fit { IsFitWork (work_with result wish.new) }
    {
        if self.is_halted {
            return Task::Halted;
        }
        match self.run(memory, map, linked, wish) {
            Ok(task) => task,
            Err(fault) => Task::Fault(fault),
        }
    }

    /// Keeps the source of a message that the worker took, where its header is whole.
    pub fn took(&mut self, message: &Message)
        ensures { self.new ≡ after_take message.now self.old }
    {
        if let Ok(header) = rpmsg_header::read(message) {
            self.source = header.src;
        }
    }

    /// Whether the worker has ended.
    pub fn is_halted(&self) -> bool
        ensures { result ≡ self.now.is_halted }
    {
        self.is_halted
    }

    /// Runs one record of a worker that hasn't ended, or says why it can't run.
    fn run(
        &mut self,
        memory: &mut CoreMemory,
        map: &Map,
        linked: bool,
        wish: &mut Wish,
    ) -> Result<Task, WorkerFault>
        requires { length memory.old ≡ map.now.memory_len }
        ensures work { done_with result wish.new ≡ work_of_next memory.old map.now self.old.source (next_record memory.old map.now linked self.old) }
        ensures worker { self.new ≡ after_next (next_record memory.old map.now linked self.old) self.old }
        ensures memory { memory.new ≡ memory_after_next memory.old map.now (next_record memory.old map.now linked self.old) }
        ensures length { length memory.new ≡ length memory.old }
        ensures fit { IfOk result (λ task. IsFitWork (work_with task wish.new)) }
    {
        let op = record_at(memory, map, self.entry, self.place)?;
        let op = admitted(op, linked)?;
        let task = perform(op, memory, map, self.source, wish)?;
        self.advance(op);
        Ok(task)
    }

    /// Goes on after a record that was run.
    fn advance(&mut self, op: Record)
        requires { self.old.place < 2 ^ 28 }
        ensures { self.new ≡ after_record op self.old }
    {
        match op {
            Record::Halt => self.is_halted = true,
            Record::Loop(a, b) => self.turn(a, b),
            _ => self.place += 1,
        }
    }

    /// Goes back to record `b`, but at every `a`th turn on to the next, and with `a` 0 always back.
    fn turn(&mut self, a: u32, b: u32)
        requires { self.old.place < 2 ^ 28 }
        ensures { self.new ≡ after_record (Record.Loop a b) self.old }
    {
        if a == 0 {
            self.place = b;
        } else if self.turns < a - 1 {
            self.place = b;
            self.turns += 1;
        } else {
            self.place += 1;
            self.turns = 0;
        }
    }
}
