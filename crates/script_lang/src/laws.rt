ghost use Rattle.std.specs.Prelude.{List};
ghost use Rattle.script_lang.specs.declared.commands.Command.{Command};
ghost use Rattle.script_lang.specs.Grammar.{IsScript};
ghost use Rattle.script_lang.specs.Runnable.{AreRunnable};

/// What a script says can be run: its rings are powers of two up to 32,768, its books have 1 to
/// 262,144 messages, its lanes are 0 and 1, its callers are below 64, its addresses and other
/// numbers below 2^32, its payloads have at most 512 bytes, its counts are from 1 to 4,000,000, and
/// the lengths of memory that it shows are from 1 to 256.
pub fn runnable()
    ensures { (commands : List Command) → IsScript commands → AreRunnable commands }
{}
