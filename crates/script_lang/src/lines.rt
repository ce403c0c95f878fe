ghost use Rattle.std.specs.Prelude.{◌≡◌, true, IfOk, map};
ghost use Rattle.std.specs.List.{list_all};
ghost use Rattle.script_lang.specs.Lines.{is_skipped, is_printable, begin_form, outside_cause, form_of, misfit, form_of_line, inside_cause, recipe_form_of_line};
ghost use Rattle.script_lang.specs.Recipes.{recipe_form_named, is_allowed};

use crate::call_forms::call_form_named;
use crate::forms::{Form, form_named, kinds};
use crate::recipe_forms::{Context, RecipeForm, is_allowed, recipe_form_named, recipe_kinds};
use word_kinds::{Cause, Kind, are_of, word_at};

/// Whether a line of these words says nothing: it has none, or the first begins with `#`.
pub(crate) fn is_skipped(words: &[&[u8]]) -> bool
    ensures { result ≡ is_skipped (map (λ word. word.now) words.now) }
{
    match words {
        [] => true,
        [word, ..] => word.first() == Some(&b'#'),
    }
}

/// Whether a line has spaces and visible characters of ASCII alone.
pub(crate) fn is_printable(line: &[u8]) -> bool
    ensures { result ≡ list_all is_printable line.now }
{
    line.iter().all(|byte| matches!(*byte, b' '..=b'~'))
}

/// The form of a call that is begun, by the fourth word.
fn begin_form(words: &[&[u8]]) -> Result<Form, Cause>
    ensures { result ≡ begin_form (map (λ word. word.now) words.now) }
{
    if words.len() < 4 {
        return Err(Cause::Words);
    }
    match call_form_named(word_at(words, 3)) {
        Some(call) => Ok(Form::Begin(call)),
        None => Err(Cause::Value),
    }
}

/// Why a word begins no command outside of an image.
fn outside_cause(word: &[u8]) -> Cause
    ensures { result ≡ outside_cause word.now }
{
    if recipe_form_named(word).is_some() || word == b"end".as_slice() {
        Cause::Block
    } else {
        Cause::Command
    }
}

/// The form by the keywords.
fn form_of(words: &[&[u8]]) -> Result<Form, Cause>
    ensures { result ≡ form_of (map (λ word. word.now) words.now) }
{
    let word = word_at(words, 0);
    if word == b"begin".as_slice() {
        return begin_form(words);
    }
    match form_named(word) {
        Some(form) => Ok(form),
        None => Err(outside_cause(word)),
    }
}

/// Why words don't fit these kinds: their number before their kinds.
pub(crate) fn misfit(kinds: &[Kind], words: &[&[u8]]) -> Option<Cause>
    ensures { result ≡ misfit kinds.now (map (λ word. word.now) words.now) }
{
    if words.len() != kinds.len() {
        return Some(Cause::Words);
    }
    if are_of(kinds, words) {
        None
    } else {
        Some(Cause::Value)
    }
}

/// The form of these words outside of an image, or why they have none.
pub(crate) fn form_of_line(words: &[&[u8]]) -> Result<Form, Cause>
    ensures { result ≡ form_of_line (map (λ word. word.now) words.now) }
{
    let form = form_of(words)?;
    match misfit(kinds(form), words) {
        None => Ok(form),
        Some(why) => Err(why),
    }
}

/// Why a word begins no line within an image.
fn inside_cause(word: &[u8]) -> Cause
    ensures { result ≡ inside_cause word.now }
{
    if form_named(word).is_some() || word == b"begin".as_slice() || word == b"image".as_slice() {
        Cause::Block
    } else {
        Cause::Command
    }
}

/// The form of these words within an image, or why they have none.
pub(crate) fn recipe_form_of_line(context: Context, words: &[&[u8]]) -> Result<RecipeForm, Cause>
    ensures form { result ≡ recipe_form_of_line context (map (λ word. word.now) words.now) }
    ensures allowed { IfOk result (λ form. is_allowed context form ≡ true) }
{
    let word = word_at(words, 0);
    let Some(form) = recipe_form_named(word) else {
        return Err(inside_cause(word));
    };
    if !is_allowed(context, form) {
        return Err(Cause::Block);
    }
    match misfit(recipe_kinds(form), words) {
        None => Ok(form),
        Some(why) => Err(why),
    }
}
