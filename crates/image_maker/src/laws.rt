ghost use Rattle.std.specs.Prelude.{◌≡◌, ℕ, ◌+◌, ◌≤◌, ◌<◌, ◌^◌, List, length, Some, Ok};
ghost use Rattle.rp_base.specs.declared.limits.TheConstants.{SCRIPT_LINES_MOST};
ghost use Rattle.script_lang.specs.declared.recipes.RecipeLine.{RecipeLine};
ghost use Rattle.script_lang.specs.Grammar.{script_of};
ghost use Rattle.script_lang.specs.Runnable.{IsLine, IsRecipe, AreRunnable};
ghost use Rattle.remote_code.specs.declared.records.Record.{Record};
ghost use Rattle.remote_code.specs.Records.{record_of};
ghost use Rattle.image_maker.specs.Demo.{demo_commands, demo_text};
ghost use Rattle.image_maker.specs.Segments.{data_of};
ghost use Rattle.image_maker.specs.Images.{data_end, image_of};
ghost use Rattle.image_maker.specs.Tables.{table_len};
ghost use Rattle.image_maker.specs.ReadBack.{IsLoadable, IsReadBack, record_of_line};

/// A built image is read back as its recipe: it is a good image with the recipe's entry, segments
/// and resource table.
pub fn read_back()
    ensures { (lines : List RecipeLine) → IsLoadable lines → IsReadBack lines (image_of lines) }
{}

/// The lengths of an image stay below 2^32 where its recipe is one of a script, which has no more
/// lines than the script: no sum that [`build`] makes passes 64 bits, so it is memory alone that it
/// may want.
///
/// [`build`]: crate::build
pub fn lengths_fit()
    ensures { (lines : List RecipeLine) → IsRecipe lines → length lines ≤ SCRIPT_LINES_MOST → data_end lines + table_len lines + 27 < 2 ^ 32 }
{}

/// The record that a line of a recipe says is read back from the 16 bytes of the line.
pub fn records_read_back()
    ensures { (line : RecipeLine) (worker_record : Record)
        → IsLine line → record_of_line line ≡ Some worker_record → record_of (data_of line) ≡ Ok worker_record }
{}

/// The text of a demo is a script, and says what a demo commands.
pub fn demo_says()
    ensures { (sessions : ℕ) → sessions ≤ 500 → script_of (demo_text sessions) ≡ Ok (demo_commands sessions) }
{}

/// What a demo commands can be run, whatever the number of its sessions.
pub fn demo_runnable()
    ensures { (sessions : ℕ) → AreRunnable (demo_commands sessions) }
{}
