ghost use Rattle.std.specs.Prelude.{◌≡◌, ◌∷◌, ◌≤◌, ◌<◌, None, length};
ghost use Rattle.script_lang.specs.Grammar.{IsParsed, script_of, lines_of, commands_from};

use crate::commands::{ParseFault, Script};
use crate::progress::{LineFault, Progress, take_line};
use crate::recipe_forms::{Behind, Context};
use rp_base::{SCRIPT_LINES_MOST, SCRIPT_MOST};
use std::alloc::Global;
use word_kinds::{Cause, WORDS_MOST, cut_at, first_words};

/// The script that a text is. A text of more than 1,048,576 bytes is refused at line 0, one of more
/// than 10,000 lines at line 10,001, and any other at its first bad line.
#[tactic(auto, unfolding(crate::specs::Grammar::script_of))]
pub fn parse(alloc: Global, bytes: &[u8]) -> Result<Script, ParseFault>
    ensures { IsParsed (script_of bytes.now) result }
{
    if bytes.len() > SCRIPT_MOST {
        return Err(ParseFault::Refused(0, Cause::Size));
    }
    if count_lines(bytes) > SCRIPT_LINES_MOST {
        return Err(ParseFault::Refused(10_001, Cause::Lines));
    }
    commands_of(alloc, bytes)
}

/// How many lines a text has.
fn count_lines(text: &[u8]) -> usize
    ensures { result ≡ length (lines_of text.now) }
{
    let mut count = 0;
    let mut rest = text;
    while !rest.is_empty() {
        let (_line, more) = cut_line(rest);
        count += 1;
        rest = more;
    }
    count
}

/// The script of a text, refused at its first bad line.
fn commands_of(alloc: Global, text: &[u8]) -> Result<Script, ParseFault>
    requires { length (lines_of text.now) ≤ 10000 }
    ensures { IsParsed (commands_from 1 None (lines_of text.now)) result }
{
    let mut progress = Progress {
        commands: Vec::new(alloc),
        image: None,
        lines: Vec::new(alloc),
        context: Context {
            has_table: false,
            behind: Behind::Other,
        },
    };
    let mut words = [b"".as_slice(); WORDS_MOST];
    let mut rest = text;
    let mut number = 1u32;
    while !rest.is_empty() {
        let (line, more) = cut_line(rest);
        let count = first_words(line, &mut words);
        match take_line(alloc, &mut progress, line, &words[..count]) {
            Ok(()) => {}
            Err(LineFault::Bad(why)) => return Err(ParseFault::Refused(number, why)),
            Err(LineFault::NoMemory) => return Err(ParseFault::NoMemory),
        }
        number += 1;
        rest = more;
    }
    if progress.image.is_some() {
        return Err(ParseFault::Refused(number, Cause::Block));
    }
    Ok(Script {
        commands: progress.commands,
    })
}

/// The first line of a text that isn't empty, and what comes after its line feed.
fn cut_line(text: &[u8]) -> (&[u8], &[u8])
    requires { 0 < length text.now }
    ensures lines { lines_of text.now ≡ result.0.now ∷ lines_of result.1.now }
    ensures shorter { length result.1.now < length text.now }
{
    match cut_at(text, b'\n') {
        Some(parts) => parts,
        None => (text, &[]),
    }
}
