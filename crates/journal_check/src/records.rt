ghost use Rattle.std.specs.Prelude.{◌≡◌, ℕ, List, [], ◌∷◌, IfOk};
ghost use Rattle.std.specs.Option.{option_map};
ghost use Rattle.journal_check.specs.declared.marks.What.{What};
ghost use Rattle.journal_check.specs.Entries.{end_of, caller_of, place_of, place_from, incarnation};
ghost use Rattle.journal_check.specs.Tables.{IsRecord, least_of};

use crate::marks::What;
use crate::sides::Side;
use indexmap::IndexMap;
use rp_base::{End, NoMemory};
use std::alloc::Global;

/// What the lines of a link or a core say.
#[derive(Drop)]
pub(crate) struct Record {
    /// Whether it is a core.
    is_core: bool,
    /// The incarnation.
    incarnation: Option<u64>,
    /// Whether the incarnation was closed.
    is_closed: bool,
    /// The end of each caller that was made.
    callers: IndexMap<u64, End>,
    /// What was on the host end in this incarnation.
    host: Side,
    /// What was on the remote end in this incarnation.
    remote: Side,
}

impl Record {
    /// No line.
    pub(crate) fn new(alloc: Global) -> Record
        ensures { IsRecord [] result }
    {
        Record {
            is_core: false,
            incarnation: None,
            is_closed: false,
            callers: IndexMap::new(alloc),
            host: Side::new(alloc),
            remote: Side::new(alloc),
        }
    }

    /// The least rule that a line breaks; where it breaks none, it is kept.
    pub(crate) fn take(&mut self, alloc: Global, line: &What) -> Result<Option<u8>, NoMemory>
        ensures rule { (past : List What) → IsRecord past self.old → IfOk result (λ rule. rule ≡ least_of line.now past) }
        ensures kept { (past : List What) → IsRecord past self.old → IfOk result (λ rule. rule ≡ None → IsRecord (line.now ∷ past) self.new) }
    {
        match line {
            What::Core => {
                self.is_core = true;
                Ok(None)
            }
            What::Opens(inc) => Ok(self.open(alloc, *inc)),
            What::Closes(inc) => Ok(self.close(*inc)),
            What::Caller(caller, end) => {
                self.callers.insert(*caller, *end)?;
                Ok(None)
            }
            What::Sent(caller, _)
            | What::Took(caller, _, _)
            | What::Bound(caller, _)
            | What::Unbound(caller, _) => self.take_here(*caller, line),
        }
    }

    /// An incarnation begins.
    fn open(&mut self, alloc: Global, inc: u64) -> Option<u8>
        ensures rule { (past : List What) → IsRecord past self.old → result ≡ least_of (What.Opens inc) past }
        ensures kept { (past : List What) → IsRecord past self.old → result ≡ None → IsRecord (What.Opens inc ∷ past) self.new }
    {
        if inc == 0 || inc - 1 != self.incarnation.unwrap_or(0) {
            return Some(7);
        }
        self.incarnation = Some(inc);
        self.is_closed = false;
        self.host = Side::new(alloc);
        self.remote = Side::new(alloc);
        None
    }

    /// An incarnation ends.
    fn close(&mut self, inc: u64) -> Option<u8>
        ensures rule { (past : List What) → IsRecord past self.old → result ≡ least_of (What.Closes inc) past }
        ensures kept { (past : List What) → IsRecord past self.old → result ≡ None → IsRecord (What.Closes inc ∷ past) self.new }
    {
        if self.incarnation != Some(inc) || self.is_closed {
            return Some(8);
        }
        self.is_closed = true;
        None
    }

    /// The line of a call of this caller.
    fn take_here(&mut self, caller: u64, line: &What) -> Result<Option<u8>, NoMemory>
        requires { caller_of line.now ≡ Some caller }
        ensures rule { (past : List What) → IsRecord past self.old → IfOk result (λ rule. rule ≡ least_of line.now past) }
        ensures kept { (past : List What) → IsRecord past self.old → IfOk result (λ rule. rule ≡ None → IsRecord (line.now ∷ past) self.new) }
    {
        if self.incarnation.is_none() {
            return Ok(Some(9));
        }
        match self.end_of(caller) {
            None => Ok(Some(9)),
            Some(End::Host) => self.host.take(self.is_closed, line),
            Some(End::Remote) => self.remote.take(self.is_closed, line),
        }
    }

    /// The end of a caller.
    fn end_of(&self, caller: u64) -> Option<End>
        ensures { (past : List What) → IsRecord past self.now → result ≡ end_of caller past }
    {
        if self.is_core && caller == 0 {
            return Some(End::Host);
        }
        if self.is_core && caller == 1 {
            return Some(End::Remote);
        }
        self.callers.get(&caller).copied()
    }
}
