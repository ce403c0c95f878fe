ghost use Rattle.std.specs.Prelude.{◌≡◌, ◌+◌, ◌==◌, ◌++◌, ◌≤◌, [], not, if◌then◌else◌, OnOk, OnErr};
ghost use Rattle.rp_base.specs.declared.limits.TheConstants.{STEPS_MOST};
ghost use Rattle.std.specs.Io.KnownBytes.{Appends};
ghost use Rattle.rp_io.specs.Causes.{Rose};
ghost use Rattle.rp_io.specs.Contents.{AppendsFront};
ghost use Rattle.journal.specs.Lines.{line};
ghost use Rattle.run_log.specs.Logs.{Hands, KeepsLess};
ghost use Rattle.journal.specs.Notices.{notice_line};

use journal::{Event, Notice, push_notice};
use link_bench::StepCount;
use rp_base::NoMemory;
use rp_io::{Failed, Sink, write_whole};
use std::alloc::Global;
use std::marker::Model;

/// How many bytes are kept at least before they are handed on: a piece.
pub const PIECE: usize = 16_384;

/// What a run keeps beside its links: the lines that wait to be handed to the sink, and the count of
/// the steps that were done.
#[derive(Drop)]
pub struct RunLog {
    alloc: Global,
    kept: Vec<u8>,
    /// The count of the steps that were done, of which acts of callers take theirs.
    pub steps: StepCount,
}

impl Model for RunLog {
    ghost use Rattle.run_log.specs.Logs.{LogState};

    ghost Value = { LogState };

    ghost view = { λ l. record { lines = l.kept.items; steps = l.steps } };
}

impl RunLog {
    /// No line, and no step.
    pub fn new(alloc: Global) -> RunLog
        ensures { result ≡ record { lines = []; steps = 0 } }
    {
        RunLog {
            alloc,
            kept: Vec::new(alloc),
            steps: StepCount::new(),
        }
    }

    /// The allocator that the lines take their memory from.
    pub fn alloc(&self) -> Global {
        self.alloc
    }

    /// How many steps were done, at most 4,000,000.
    pub fn steps(&self) -> u64
        ensures steps { result ≡ self.now.steps }
        ensures within { result ≤ STEPS_MOST }
    {
        self.steps.steps()
    }

    /// Counts one step more, where the run has one left, and answers whether it has.
    pub fn count(&mut self) -> bool
        ensures spent { (self.old.steps == STEPS_MOST) ≡ not result }
        ensures counted { self.new ≡ record self.old { steps = if result then self.old.steps + 1 else self.old.steps } }
    {
        self.steps.count()
    }

    /// Keeps the line of an event. Where memory ran out, what is kept is as it was.
    pub fn tell(&mut self, event: &Event) -> Result<(), NoMemory>
        ensures told { OnOk result (self.new ≡ record self.old { lines = self.old.lines ++ line event.now }) }
        ensures same { OnErr result (self.new ≡ self.old) }
    {
        journal::line(self.alloc, event, &mut self.kept)
    }

    /// Keeps the line of a notice. Where memory ran out, what is kept is as it was.
    pub fn note(&mut self, notice: &Notice) -> Result<(), NoMemory>
        ensures told { OnOk result (self.new ≡ record self.old { lines = self.old.lines ++ notice_line notice.now }) }
        ensures same { OnErr result (self.new ≡ self.old) }
    {
        push_notice(self.alloc, notice, &mut self.kept)
    }

    /// Forgets the lines that are kept.
    pub fn clear(&mut self)
        ensures { self.new ≡ record self.old { lines = [] } }
    {
        self.kept.clear();
    }

    /// Hands on what is kept, once it is a whole piece, so that less than a piece is kept.
    ///
    /// Errors: [`Failed`] where the sink failed. A prefix of what was kept is written then.
    pub fn hand_on<K: Sink>(&mut self, out: &mut K) -> Result<(), Failed>
        ensures handed { OnOk result (Hands (K.written out.old) self.old.lines (K.written out.new) self.new.lines []) }
        ensures less { OnOk result (KeepsLess self.new) }
        ensures steps { OnOk result (self.new.steps ≡ self.old.steps) }
        ensures front { OnErr result (AppendsFront (K.written out.old) (K.written out.new) self.old.lines) }
        ensures failed { OnErr result (Rose (K.faults out.old) (K.faults out.new)) }
        ensures same { OnOk result (K.faults out.new ≡ K.faults out.old) }
    {
        if self.kept.len() < PIECE {
            return Ok(());
        }
        self.flush(out)
    }

    /// Hands on what is kept.
    ///
    /// Errors: [`Failed`] where the sink failed. A prefix of what was kept is written then.
    pub fn flush<K: Sink>(&mut self, out: &mut K) -> Result<(), Failed>
        ensures whole { OnOk result (Appends (K.written out.old) (K.written out.new) self.old.lines) }
        ensures empty { OnOk result (self.new ≡ record self.old { lines = [] }) }
        ensures front { OnErr result (AppendsFront (K.written out.old) (K.written out.new) self.old.lines) }
        ensures failed { OnErr result (Rose (K.faults out.old) (K.faults out.new)) }
        ensures same { OnOk result (K.faults out.new ≡ K.faults out.old) }
    {
        write_whole(out, self.kept.as_slice())?;
        self.kept.clear();
        Ok(())
    }
}
