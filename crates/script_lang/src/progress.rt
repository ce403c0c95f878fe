ghost use Rattle.std.specs.Prelude.{◌≡◌, None, Some, map, take};
ghost use Rattle.word_kinds.specs.Spellings.{words_of};
ghost use Rattle.script_lang.specs.Steps.{image_kinds, end_kinds, outside_step, inside_step, line_step, image_of, IsStepped};

use crate::commands::Command;
use crate::forms::command_of;
use crate::lines::{form_of_line, is_printable, is_skipped, misfit, recipe_form_of_line};
use crate::recipe_forms::{Behind, Context, context_after, recipe_line};
use crate::recipes::{Recipe, RecipeLine};
use rp_base::Name;
use std::alloc::{AllocError, AllocFailed, Global};
use std::mem;
use word_kinds::{Cause, Kind, name_at, word_at};

/// Why a line is not taken.
#[derive(Drop)]
pub(crate) enum LineFault {
    /// It is bad.
    Bad(Cause),
    /// Memory ran out.
    NoMemory,
}

impl From<AllocError> for LineFault {
    ghost use Rattle.script_lang.specs.declared.progress.LineFault.TheVariants as fault;

    ghost from_gives = { λ _ e. e ≡ fault.NoMemory };

    fn from(_error: AllocError) -> LineFault {
        LineFault::NoMemory
    }
}

impl<T: Drop> From<AllocFailed<T>> for LineFault {
    ghost use Rattle.script_lang.specs.declared.progress.LineFault.TheVariants as fault;

    ghost from_gives = { λ _ e. e ≡ fault.NoMemory };

    fn from(_error: AllocFailed<T>) -> LineFault {
        LineFault::NoMemory
    }
}

/// What was read of a script: its commands, and the name, the lines and the context of the image
/// that is open.
#[derive(Drop)]
pub(crate) struct Progress {
    pub(crate) commands: Vec<Command>,
    pub(crate) image: Option<Name>,
    pub(crate) lines: Vec<RecipeLine>,
    pub(crate) context: Context,
}

/// The kinds of the words of `image NAME`.
const IMAGE_KINDS: [Kind; 2] = [Kind::Keyword, Kind::Name];

/// The kinds of the words of `end`.
const END_KINDS: [Kind; 1] = [Kind::Keyword];

/// Takes a line, of which the first nine words are given.
pub(crate) fn take_line(
    alloc: Global,
    progress: &mut Progress,
    line: &[u8],
    words: &[&[u8]],
) -> Result<(), LineFault>
    requires { map (λ word. word.now) words.now ≡ take 9 (words_of line.now) }
    ensures { IsStepped (line_step (image_of progress.old) line.now) progress.old progress.new result }
{
    if is_skipped(words) {
        return Ok(());
    }
    if !is_printable(line) {
        return Err(LineFault::Bad(Cause::Byte));
    }
    match progress.image {
        None => take_outside(alloc, progress, words),
        Some(name) => take_inside(alloc, progress, name, words),
    }
}

/// Takes the words of a line outside of an image.
fn take_outside(alloc: Global, progress: &mut Progress, words: &[&[u8]]) -> Result<(), LineFault>
    requires { progress.old.image ≡ None }
    ensures { IsStepped (outside_step (map (λ word. word.now) words.now)) progress.old progress.new result }
{
    if word_at(words, 0) == b"image".as_slice() {
        if let Some(why) = misfit(&IMAGE_KINDS, words) {
            return Err(LineFault::Bad(why));
        }
        progress.image = Some(name_at(words, 1));
        progress.lines = Vec::new(alloc);
        progress.context = Context {
            has_table: false,
            behind: Behind::Other,
        };
        return Ok(());
    }
    match form_of_line(words) {
        Ok(form) => {
            let command = command_of(alloc, form, words)?;
            progress.commands.push(command)?;
            Ok(())
        }
        Err(why) => Err(LineFault::Bad(why)),
    }
}

/// Takes the words of a line within the image of this name.
fn take_inside(
    alloc: Global,
    progress: &mut Progress,
    name: Name,
    words: &[&[u8]],
) -> Result<(), LineFault>
    requires { progress.old.image ≡ Some name }
    ensures { IsStepped (inside_step (record { name = name; lines = progress.old.lines.items; context = progress.old.context }) (map (λ word. word.now) words.now)) progress.old progress.new result }
{
    if word_at(words, 0) == b"end".as_slice() {
        if let Some(why) = misfit(&END_KINDS, words) {
            return Err(LineFault::Bad(why));
        }
        let lines = mem::replace(&mut progress.lines, Vec::new(alloc));
        progress.commands.push(Command::Image {
            name,
            recipe: Recipe { lines },
        })?;
        progress.image = None;
        return Ok(());
    }
    match recipe_form_of_line(progress.context, words) {
        Ok(form) => {
            let line = recipe_line(alloc, form, words)?;
            progress.lines.push(line)?;
            progress.context = context_after(progress.context, form);
            Ok(())
        }
        Err(why) => Err(LineFault::Bad(why)),
    }
}
