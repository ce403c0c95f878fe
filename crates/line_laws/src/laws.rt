//! Laws of the lines that a run tells, and of those of a sound text. Each is the contract of an empty function, and speaks of definitions alone.

ghost use Rattle.std.specs.Prelude.{◌≡◌, ℕ, List, All, map};
ghost use Rattle.script_lang.specs.declared.commands.Command.{Command};
ghost use Rattle.script_lang.specs.Grammar.{IsScript};
ghost use Rattle.journal.specs.declared.events.Event.{Event};
ghost use Rattle.journal.specs.Lines.{line, transcript};
ghost use Rattle.journal.specs.Reading.{IsWritten};
ghost use Rattle.journal_check.specs.declared.answers.Audit.TheVariants.{Sound};
ghost use Rattle.journal_check.specs.Audits.{IsAudit};
ghost use Rattle.journal_check.specs.Lines.{lines_of};
ghost use Rattle.journal_check.specs.Readings.{AreReadings};
ghost use Rattle.command_run.specs.Stores.{StoreAnswers};
ghost use Rattle.command_run.specs.Runs.{run_of};
ghost use Rattle.line_laws.specs.ByteStores.{TellsBytes};
ghost use Rattle.line_laws.specs.SoundTexts.{SoundHandsInOrder};

/// Each event of the run of a script, over a store whose images are bytes, is one that `read_line` reads back from its line,
/// and no other such event has that line. The lines of the run's transcript are those of its events, in order.
pub fn lines_read_back()
    ensures written { (told : StoreAnswers) (commands : List Command) → TellsBytes told → IsScript commands
        → All IsWritten (run_of told commands).events }
    ensures alone { (told : StoreAnswers) (commands : List Command) → TellsBytes told → IsScript commands
        → All (λ event. (other : Event) → IsWritten other → line other ≡ line event → other ≡ event) (run_of told commands).events }
    ensures lines { (told : StoreAnswers) (commands : List Command) → TellsBytes told → IsScript commands
        → lines_of (transcript (run_of told commands).events) ≡ map line (run_of told commands).events }
{}

/// What a text shows of which `audit` answers `Sound`. At each place an endpoint is handed, of the messages that a caller has sent lines for,
/// the first that are taken for its address, in order and each once. By `read` and the law `one_audit` the readings are those of the text.
pub fn sound_audit()
    ensures read { (text : List ℕ) (count : ℕ) (found : IsAudit (lines_of text) (Sound count)) → AreReadings (lines_of text) found.readings }
    ensures sound { SoundHandsInOrder }
{}
