//! Laws of audits. Each is the contract of an empty function, and speaks of definitions alone.

ghost use Rattle.std.specs.Prelude.{◌≡◌, ℕ, List};
ghost use Rattle.journal_check.specs.declared.answers.Audit.{Audit};
ghost use Rattle.journal_check.specs.declared.readings.Reading.{Reading};
ghost use Rattle.journal_check.specs.Audits.{IsAudit};
ghost use Rattle.journal_check.specs.Deliveries.{HandsInOrder};
ghost use Rattle.journal_check.specs.Readings.{IsReading};

/// A line says one thing, and a text has one audit.
pub fn one_audit()
    ensures reading { (line : List ℕ) (a b : Reading) → IsReading line a → IsReading line b → a ≡ b }
    ensures audit { (lines : List (List ℕ)) (a b : Audit) → IsAudit lines a → IsAudit lines b → a ≡ b }
{}

/// What a sound transcript says of the messages that an endpoint was handed.
pub fn audit_prefix()
    ensures { HandsInOrder }
{}
