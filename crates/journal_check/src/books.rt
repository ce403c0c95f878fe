ghost use Rattle.std.specs.Prelude.{◌≡◌, List, [], ◌∷◌, IfOk, OnOk, Some, None, true, is_some};
ghost use Rattle.std.specs.Map.{lookup};
ghost use Rattle.rp_base.specs.Texts.{text_before_zero};
ghost use Rattle.journal_check.specs.declared.readings.Reading.{Reading};
ghost use Rattle.journal_check.specs.Marks.{mark_in, past_of};
ghost use Rattle.journal_check.specs.Tables.{IsBook, is_same_name, least_of, Judges};

use crate::marks::{Mark, mark_of};
use crate::readings::{Reading, reading_of};
use crate::records::Record;
use indexmap::IndexMap;
use rp_base::{Name, NoMemory};
use std::alloc::Global;

/// What the lines of a transcript say of each link and core.
#[derive(Drop)]
pub(crate) struct Book {
    records: IndexMap<Name, Record>,
}

impl Book {
    /// No line.
    pub(crate) fn new(alloc: Global) -> Book
        ensures { IsBook [] result }
    {
        Book {
            records: IndexMap::new(alloc),
        }
    }

    /// The least rule that a line breaks; where it breaks none, it is kept.
    pub(crate) fn take(
        &mut self,
        alloc: Global,
        line: &[u8],
        is_last: bool,
    ) -> Result<Option<u8>, NoMemory>
        ensures { (before : List Reading) → IsBook before self.old
            → IfOk result (λ rule. Judges is_last line.now before rule self.new) }
    {
        match reading_of(alloc, line)? {
            Reading::Event(event) => match mark_of(&event) {
                Some(mark) => self.take_mark(alloc, &mark),
                None => Ok(None),
            },
            Reading::Ending(_) if is_last => Ok(None),
            Reading::Ending(_) | Reading::Nothing => Ok(Some(1)),
        }
    }

    /// The least rule that a mark breaks; where it breaks none, it is kept.
    fn take_mark(&mut self, alloc: Global, mark: &Mark) -> Result<Option<u8>, NoMemory>
        requires { text_before_zero mark.now.name ≡ mark.now.name }
        ensures rule { (before : List Reading) → IsBook before self.old
            → IfOk result (λ rule. rule ≡ least_of mark.now.what (past_of mark.now.name before)) }
        ensures kept { (before : List Reading) (now : Reading) → IsBook before self.old → mark_in now ≡ Some mark.now
            → IfOk result (λ rule. rule ≡ None → IsBook (now ∷ before) self.new) }
    {
        self.make_record(alloc, mark.name)?;
        match self.records.get_mut(&mark.name) {
            Some(record) => record.take(alloc, &mark.what),
            None => unreachable!(),
        }
    }

    /// Makes the record of a name that has none.
    fn make_record(&mut self, alloc: Global, name: Name) -> Result<(), NoMemory>
        requires { text_before_zero name ≡ name }
        ensures there { OnOk result (is_some (lookup (is_same_name name) self.new.records.entries) ≡ true) }
        ensures kept { (before : List Reading) → IsBook before self.old → OnOk result (IsBook before self.new) }
    {
        if !self.records.contains_key(&name) {
            self.records.insert(name, Record::new(alloc))?;
        }
        Ok(())
    }
}
