ghost use Rattle.std.specs.Prelude.{◌≡◌};
ghost use Rattle.journal.specs.declared.events.Event.{Event};
ghost use Rattle.journal.specs.Lines.{line};
ghost use Rattle.journal.specs.Reading.{IsWritten};

/// No two events share a line.
pub fn one_event()
    ensures { (a b : Event) → IsWritten a → IsWritten b → line a ≡ line b → a ≡ b }
{}
