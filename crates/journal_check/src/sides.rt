ghost use Rattle.std.specs.Prelude.{◌≡◌, ℕ, ◌||◌, List, [], ◌∷◌, nat_le, find, OnOk, IfOk, Option, Bool, true, false, None};
ghost use Rattle.std.specs.List.{range_with_len};
ghost use Rattle.journal_check.specs.Entries.{Entry, Place};
ghost use Rattle.journal_check.specs.Rules.{breaks_here, is_out_of_date, is_bound, is_named_from, last_binding};
ghost use Rattle.journal_check.specs.Tables.{IsSide, is_reached, binding_line};

use crate::marks::{Fate, What};
use indexmap::IndexMap;
use rp_base::{Endpoint, NoMemory};
use std::alloc::Global;

/// The last line by which an address was bound or unbound.
#[derive(Clone, Copy, Drop)]
pub(crate) struct Binding {
    pub(crate) is_bound: bool,
    pub(crate) generation: u64,
}

/// What was on an end of a link in an incarnation.
#[derive(Drop)]
pub(crate) struct Side {
    /// The greatest number of a message that was sent.
    sent: Option<u64>,
    /// The greatest number of a message that was taken.
    took: Option<u64>,
    /// Whether a sent line was after the close.
    has_late_sent: bool,
    /// Whether a took line was after the close.
    has_late_took: bool,
    /// The greatest generation that a line named.
    generation: Option<u64>,
    /// The last binding of each address.
    bindings: IndexMap<u64, Binding>,
}

impl Side {
    /// No line.
    pub(crate) fn new(alloc: Global) -> Side
        ensures { IsSide [] result }
    {
        Side {
            sent: None,
            took: None,
            has_late_sent: false,
            has_late_took: false,
            generation: None,
            bindings: IndexMap::new(alloc),
        }
    }

    /// The least rule that a line here breaks; where it breaks none, it is kept.
    pub(crate) fn take(&mut self, is_closed: bool, line: &What) -> Result<Option<u8>, NoMemory>
        ensures rule { (here : List Entry) → IsSide here self.old
            → IfOk result (λ rule. rule ≡ find (λ r. breaks_here r is_closed line.now here) (range_with_len 2 9)) }
        ensures kept { (here : List Entry) (place : Option Place) → IsSide here self.old
            → IfOk result (λ rule. rule ≡ None → IsSide (record { line = line.now; place = place; is_closed = is_closed } ∷ here) self.new) }
    {
        let rule = self.broken_rule(is_closed, line);
        if rule.is_none() {
            self.note(is_closed, line)?;
        }
        Ok(rule)
    }

    /// The least rule that a line here breaks.
    fn broken_rule(&self, is_closed: bool, line: &What) -> Option<u8>
        ensures { (here : List Entry) → IsSide here self.now
            → result ≡ find (λ rule. breaks_here rule is_closed line.now here) (range_with_len 2 9) }
    {
        match line {
            What::Sent(_, number) => self.rule_of_sent(is_closed, *number),
            What::Took(_, number, fate) => self.rule_of_took(is_closed, *number, *fate),
            What::Bound(_, endpoint) if reaches(self.generation, endpoint.generation) => Some(10),
            What::Unbound(_, endpoint) if self.is_out_of_date(*endpoint) => Some(5),
            _ => None,
        }
    }

    /// The least rule that a sent line breaks.
    fn rule_of_sent(&self, is_closed: bool, number: u64) -> Option<u8>
        ensures { (caller : ℕ) (here : List Entry) → IsSide here self.now
            → result ≡ find (λ rule. breaks_here rule is_closed (What.Sent caller number) here) (range_with_len 2 9) }
    {
        if reaches(self.sent, number) {
            Some(2)
        } else if is_closed && self.has_late_sent {
            Some(4)
        } else {
            None
        }
    }

    /// The least rule that a took line breaks.
    fn rule_of_took(&self, is_closed: bool, number: u64, fate: Fate) -> Option<u8>
        ensures { (caller : ℕ) (here : List Entry) → IsSide here self.now
            → result ≡ find (λ rule. breaks_here rule is_closed (What.Took caller number fate) here) (range_with_len 2 9) }
    {
        if reaches(self.took, number) {
            return Some(3);
        }
        if is_closed && self.has_late_took {
            return Some(4);
        }
        match fate {
            Fate::To(endpoint) if self.is_out_of_date(endpoint) => Some(5),
            Fate::Dropped(address) if self.is_bound(address) => Some(6),
            _ => None,
        }
    }

    /// Whether the last binding of an endpoint's address is another, or an earlier one that is gone.
    fn is_out_of_date(&self, endpoint: Endpoint) -> bool
        ensures { (here : List Entry) → IsSide here self.now
            → result ≡ is_out_of_date endpoint.generation (last_binding endpoint.address here) }
    {
        match self.bindings.get(&u64::from(endpoint.address)) {
            Some(last) if last.is_bound => last.generation != endpoint.generation,
            Some(last) => endpoint.generation <= last.generation,
            None => false,
        }
    }

    /// Whether an address is bound.
    fn is_bound(&self, address: u64) -> bool
        ensures { (here : List Entry) → IsSide here self.now → result ≡ is_bound (last_binding address here) }
    {
        match self.bindings.get(&address) {
            Some(last) => last.is_bound,
            None => false,
        }
    }

    /// Keeps a line.
    fn note(&mut self, is_closed: bool, line: &What) -> Result<(), NoMemory>
        ensures { (here : List Entry) (place : Option Place) → IsSide here self.old
            → OnOk result (IsSide (record { line = line.now; place = place; is_closed = is_closed } ∷ here) self.new) }
    {
        match line {
            What::Sent(_, number) => {
                self.note_sent(is_closed, *number);
                Ok(())
            }
            What::Took(_, number, fate) => {
                self.note_took(is_closed, *number, *fate);
                Ok(())
            }
            What::Bound(_, endpoint) => self.note_binding(true, *endpoint),
            What::Unbound(_, endpoint) => self.note_binding(false, *endpoint),
            _ => Ok(()),
        }
    }

    /// Keeps a sent line.
    fn note_sent(&mut self, is_closed: bool, number: u64)
        ensures { (caller : ℕ) (here : List Entry) (place : Option Place) → IsSide here self.old
            → IsSide (record { line = What.Sent caller number; place = place; is_closed = is_closed } ∷ here) self.new }
    {
        self.sent = greatest(self.sent, number);
        self.has_late_sent = is_closed || self.has_late_sent;
    }

    /// Keeps a took line.
    fn note_took(&mut self, is_closed: bool, number: u64, fate: Fate)
        ensures { (caller : ℕ) (here : List Entry) (place : Option Place) → IsSide here self.old
            → IsSide (record { line = What.Took caller number fate; place = place; is_closed = is_closed } ∷ here) self.new }
    {
        self.took = greatest(self.took, number);
        self.has_late_took = is_closed || self.has_late_took;
        self.generation = generation_with(self.generation, fate);
    }

    /// Keeps a bound or an unbound line.
    fn note_binding(&mut self, is_bound: bool, endpoint: Endpoint) -> Result<(), NoMemory>
        ensures { (caller : ℕ) (here : List Entry) (place : Option Place) (is_closed : Bool) → IsSide here self.old
            → OnOk result (IsSide (record { line = binding_line is_bound caller endpoint; place = place; is_closed = is_closed } ∷ here) self.new) }
    {
        let generation = endpoint.generation;
        let binding = Binding {
            is_bound,
            generation,
        };
        self.bindings.insert(u64::from(endpoint.address), binding)?;
        self.generation = greatest(self.generation, generation);
        Ok(())
    }
}

/// Whether the greatest of some numbers is this or more.
fn reaches(most: Option<u64>, number: u64) -> bool
    ensures { result ≡ is_reached number most }
{
    match most {
        Some(most) => number <= most,
        None => false,
    }
}

/// The greatest of some numbers and one more.
fn greatest(most: Option<u64>, number: u64) -> Option<u64>
    ensures { (k : ℕ) → is_reached k result ≡ (nat_le k number || is_reached k most) }
{
    match most {
        Some(most) => Some(most.max(number)),
        None => Some(number),
    }
}

/// The greatest of some generations, and of the one that a took line names by its message's fate.
fn generation_with(most: Option<u64>, fate: Fate) -> Option<u64>
    ensures { (caller number k : ℕ) → is_reached k result ≡ (is_named_from k (What.Took caller number fate) || is_reached k most) }
{
    match fate {
        Fate::To(endpoint) => greatest(most, endpoint.generation),
        Fate::Dropped(_) | Fate::Other => most,
    }
}
